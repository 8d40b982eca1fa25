//! Reads the value of one operand.

ghost use Rattle.std.specs.Prelude.{◌≡◌, IfOk};
ghost use Rattle.qscript_text.specs.Reading.Forms.{operand_of};
ghost use Rattle.qscript_text.specs.Reading.Steps.{Gives};

use crate::fault::ParseError;
use crate::reading::bytes::bytes_said;
use crate::reading::number::{byte, narrow, number, priority, small, wide};
use qbase::bytes::Bytes;
use qbase::ids::{ProcessNo, ThreadNo};
use qbase::priority::Priority;
use qmodel::operands::OperandKind;
use std::alloc::{AllocError, Global};

/// The value of an operand.
#[derive(Debug, Drop)]
pub enum OperandValue {
    Thread(ThreadNo),
    Process(ProcessNo),
    Priority(Priority),
    Flags(u8),
    /// A channel, a connection or a receive id.
    Id(u64),
    Offset(usize),
    Status(i64),
    ErrorCode(i32),
    PulseCode(i8),
    Value(i32),
    /// A message, or data.
    Bytes(Bytes),
    /// A buffer, or a reply buffer.
    Buffer(Bytes),
}

impl OperandValue {
    /// Reads a word as an operand of this sort.
    pub fn read(alloc: Global, sort: OperandKind, word: &[u8]) -> Result<OperandValue, ParseError>
        ensures { Gives result (operand_of sort word.now) }
    {
        Ok(match sort {
            OperandKind::Thread => OperandValue::Thread(ThreadNo(small(word)?)),
            OperandKind::Process => OperandValue::Process(ProcessNo(small(word)?)),
            OperandKind::Priority => OperandValue::Priority(priority(word)?),
            OperandKind::Flags => OperandValue::Flags(small(word)?),
            OperandKind::Channel | OperandKind::Connection | OperandKind::ReceiveId => {
                OperandValue::Id(number(word)?)
            }
            OperandKind::Offset => OperandValue::Offset(number(word)? as usize),
            OperandKind::Status => OperandValue::Status(wide(word)?),
            OperandKind::ErrorCode => OperandValue::ErrorCode(narrow(word)?),
            OperandKind::PulseCode => OperandValue::PulseCode(byte(word)?),
            OperandKind::Value => OperandValue::Value(narrow(word)?),
            OperandKind::Message | OperandKind::Data => {
                OperandValue::Bytes(bytes_said(alloc, word)?)
            }
            OperandKind::ReplyBuffer | OperandKind::Buffer => {
                OperandValue::Buffer(bytes_said(alloc, word)?)
            }
        })
    }

    /// Returns a copy.
    pub fn copied(&self, alloc: Global) -> Result<OperandValue, AllocError>
        ensures { IfOk result (λ copy. copy ≡ self.now) }
    {
        Ok(match self {
            OperandValue::Thread(thread) => OperandValue::Thread(*thread),
            OperandValue::Process(process) => OperandValue::Process(*process),
            OperandValue::Priority(priority) => OperandValue::Priority(*priority),
            OperandValue::Flags(flags) => OperandValue::Flags(*flags),
            OperandValue::Id(id) => OperandValue::Id(*id),
            OperandValue::Offset(offset) => OperandValue::Offset(*offset),
            OperandValue::Status(status) => OperandValue::Status(*status),
            OperandValue::ErrorCode(code) => OperandValue::ErrorCode(*code),
            OperandValue::PulseCode(code) => OperandValue::PulseCode(*code),
            OperandValue::Value(value) => OperandValue::Value(*value),
            OperandValue::Bytes(bytes) => {
                OperandValue::Bytes(Bytes::copied(alloc, bytes.as_slice())?)
            }
            OperandValue::Buffer(bytes) => {
                OperandValue::Buffer(Bytes::copied(alloc, bytes.as_slice())?)
            }
        })
    }
}
