//! Unproved: words and layout. The operands of calls as JSON.

use crate::json::names::RunNames;
use crate::json::{Added, Record};
use qmodel::call::Call;
use qmodel::operands::OperandKind;
use serde_json::Value;
use std::alloc::{AllocError, Global};

/// Returns the operands of a call.
pub fn operands_of<N: RunNames>(
    alloc: Global,
    call: &Call,
    names: &N,
) -> Result<Value, AllocError> {
    let mut record = Record::new(alloc);
    for sort in call.kind().form().operands {
        add_operand(&mut record, call, *sort, names)?;
    }
    Ok(record.into_value())
}

/// Adds the operand of this kind.
fn add_operand<N: RunNames>(
    record: &mut Record,
    call: &Call,
    sort: OperandKind,
    names: &N,
) -> Added {
    let operands = call.operands();
    match sort {
        OperandKind::Thread => record.set_thread("thread", operands.thread, names),
        OperandKind::Process => record.set_process("process", operands.process, names),
        OperandKind::Priority => record.set("priority", operands.priority.get()),
        OperandKind::Flags => record.set("flags", operands.flags),
        OperandKind::Channel => record.set_made("channel", operands.id, names),
        OperandKind::Connection => record.set_made("connection", operands.id, names),
        OperandKind::ReceiveId => record.set_made("rcvid", operands.id, names),
        OperandKind::Offset => record.set("offset", operands.offset),
        OperandKind::Status => record.set("status", operands.status),
        OperandKind::ErrorCode => record.set("code", operands.code),
        OperandKind::PulseCode => record.set("code", operands.pulse_code),
        OperandKind::Value => record.set("value", operands.value),
        OperandKind::Message => record.set_bytes("message", call.bytes()),
        OperandKind::Data => record.set_bytes("data", call.bytes()),
        OperandKind::ReplyBuffer => record.set_bytes("reply_buffer", call.buffer()),
        OperandKind::Buffer => record.set_bytes("buffer", call.buffer()),
    }
}
