//! Reads the operands of a line, by their sorts.

ghost use Rattle.std.specs.Prelude.{◌≡◌, [], ◌∷◌, IfOk, Ok};
ghost use Rattle.qscript_text.specs.Reading.Forms.{bytes_at, member_of, no_values, number_at, values_of};
ghost use Rattle.qscript_text.specs.Reading.Forms.{with_value};
ghost use Rattle.qscript_text.specs.Reading.Steps.{Gives};
ghost use Rattle.qscript_text.specs.Reading.Words.{words_of};

use crate::fault::{LineFault, ParseError};
use crate::reading::number::{priority, small, small_number};
use crate::reading::operand_value::OperandValue;
use crate::reading::words::next_word;
use qbase::bytes::Bytes;
use qbase::ids::{ProcessNo, ThreadNo};
use qmodel::operands::{OperandKind, Operands};
use qtables::member::Member;
use std::alloc::{AllocError, Global};

/// The values of the operands of a line.
#[derive(Debug, Drop)]
pub struct Values {
    pub numbers: Operands,
    /// A message, or data.
    pub bytes: Bytes,
    /// A buffer, or a reply buffer.
    pub buffer: Bytes,
}

impl Values {
    /// Returns the values of a line without operands.
    pub fn none(alloc: Global) -> Values
        ensures { result ≡ no_values }
    {
        Values {
            numbers: Operands::none(),
            bytes: Bytes::new(alloc),
            buffer: Bytes::new(alloc),
        }
    }

    /// Returns the values with this operand.
    pub fn with(self, value: OperandValue) -> Values
        ensures { result ≡ with_value value self }
    {
        let mut values = self;
        match value {
            OperandValue::Thread(thread) => values.numbers.thread = thread,
            OperandValue::Process(process) => values.numbers.process = process,
            OperandValue::Priority(priority) => values.numbers.priority = priority,
            OperandValue::Flags(flags) => values.numbers.flags = flags,
            OperandValue::Id(id) => values.numbers.id = id,
            OperandValue::Offset(offset) => values.numbers.offset = offset,
            OperandValue::Status(status) => values.numbers.status = status,
            OperandValue::ErrorCode(code) => values.numbers.code = code,
            OperandValue::PulseCode(code) => values.numbers.pulse_code = code,
            OperandValue::Value(value) => values.numbers.value = value,
            OperandValue::Bytes(bytes) => values.bytes = bytes,
            OperandValue::Buffer(buffer) => values.buffer = buffer,
        }
        values
    }

    /// Returns the values with a number as the operand of this sort: a thread, flags, or an id for any other
    /// sort. A thread and flags are numbers below 256.
    pub fn with_number(self, sort: OperandKind, number: u64) -> Result<Values, LineFault>
        ensures { result ≡ number_at sort number self }
    {
        let mut values = self;
        match sort {
            OperandKind::Thread => values.numbers.thread = ThreadNo(small_number(number)?),
            OperandKind::Flags => values.numbers.flags = small_number(number)?,
            _ => values.numbers.id = number,
        }
        Ok(values)
    }

    /// Returns the values with bytes as the operand of this sort: a buffer, or else a message or data.
    pub fn with_bytes(self, sort: OperandKind, bytes: Bytes) -> Values
        ensures { result ≡ bytes_at sort bytes self }
    {
        let mut values = self;
        match sort {
            OperandKind::ReplyBuffer | OperandKind::Buffer => values.buffer = bytes,
            _ => values.bytes = bytes,
        }
        values
    }

    /// Reads words as operands of these sorts. If the number of words is wrong, the fault is `WordCount`.
    /// Otherwise it is the fault of the first faulty word.
    pub fn read(alloc: Global, sorts: &[OperandKind], words: &[u8]) -> Result<Values, ParseError>
        ensures { Gives result (values_of sorts.now (words_of words.now) (Ok no_values)) }
    {
        let mut read = Ok(Values::none(alloc));
        let mut rest = words;
        for sort in sorts {
            let Some((word, behind)) = next_word(rest) else {
                return Err(ParseError::Fault(LineFault::WordCount));
            };
            read = with_next(alloc, read, *sort, word)?;
            rest = behind;
        }
        if next_word(rest).is_some() {
            return Err(ParseError::Fault(LineFault::WordCount));
        }
        Ok(read?)
    }
}

/// Reads one more word, unless an earlier word was faulty. Then the earlier fault is kept.
fn with_next(
    alloc: Global,
    read: Result<Values, LineFault>,
    sort: OperandKind,
    word: &[u8],
) -> Result<Result<Values, LineFault>, AllocError>
    ensures { IfOk result (λ next. next ≡ values_of (sort ∷ []) (word.now ∷ []) read) }
{
    let values = match read {
        Ok(values) => values,
        Err(fault) => return Ok(Err(fault)),
    };
    match OperandValue::read(alloc, sort, word) {
        Ok(value) => Ok(Ok(values.with(value))),
        Err(ParseError::Fault(fault)) => Ok(Err(fault)),
        Err(ParseError::Memory) => Err(AllocError),
    }
}

/// Reads the operands of a roster line: a thread, its process and its base priority. If the number of words
/// is wrong, the fault is `WordCount`. Otherwise it is the fault of the first faulty word.
#[tactic(auto, unfolding(crate::specs::Reading::Forms::member_of))]
pub fn member(operands: &[u8]) -> Result<Member, LineFault>
    ensures { result ≡ member_of (words_of operands.now) }
{
    let Some((thread, rest)) = next_word(operands) else {
        return Err(LineFault::WordCount);
    };
    let Some((process, rest)) = next_word(rest) else {
        return Err(LineFault::WordCount);
    };
    let Some((level, rest)) = next_word(rest) else {
        return Err(LineFault::WordCount);
    };
    let None = next_word(rest) else {
        return Err(LineFault::WordCount);
    };
    Ok(Member {
        thread: ThreadNo(small(thread)?),
        process: ProcessNo(small(process)?),
        priority: priority(level)?,
    })
}
