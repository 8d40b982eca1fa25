//! Reads the operands of a call.

ghost use Rattle.std.specs.Prelude.{IfOk, IfSome};
ghost use Rattle.qscript_names.specs.ReadBack.{IsWritten};

use crate::hints::words::ExpectedOperand;
use crate::hints::{bytes_hint, flags_meant, operand_hint};
use crate::line::{LineKind, NameMention, Operand, Written};
use crate::names_fault::{NamesExpected, NamesFault, NamesRead, expected, of_text};
use qscript_text::fault::ParseError;
use qscript_text::grammar::{FLAGS, OperandKind as Slot};
use qscript_text::lexing::name::is_name;
use qscript_text::lexing::token::{Token, TokenKind};
use qscript_text::lexing::values::{size_of, text_bytes, word_of};
use qscript_text::place::{ReadError, fault_at};
use qscript_text::reading::operand_value::OperandValue;
use qscript_text::text_fault::UnknownWord;
use qscript_text::word::Word;
use std::alloc::{AllocError, Global};
use std::str;

/// Reads a word in the notation of plain scripts. Returns `None` if it isn't an operand of this sort.
fn written(
    alloc: Global,
    slot: Slot,
    token: &Token<'_>,
) -> Result<Option<Written<OperandValue>>, AllocError>
    ensures { IfOk result (λ read. IfSome read (IsWritten slot)) }
{
    let (TokenKind::Word, Ok(text)) = (token.sort, str::from_utf8(token.bytes)) else {
        return Ok(None);
    };
    match OperandValue::read(alloc, slot, text.as_bytes()) {
        Ok(value) => Ok(Some(Written {
            word: Word::of(alloc, text)?,
            value,
        })),
        Err(ParseError::Fault(_)) => Ok(None),
        Err(ParseError::Memory) => Err(AllocError),
    }
}

/// Returns the fault of a part of a line that isn't an operand of this sort.
pub fn no_operand(alloc: Global, slot: Slot, token: &Token<'_>) -> ReadError<NamesFault> {
    match operand_hint(alloc, slot, token.bytes) {
        Ok(hint) => {
            let operand = ExpectedOperand { sort: slot, hint };
            expected(alloc, token, NamesExpected::Operand(operand))
        }
        Err(_) => ReadError::Memory,
    }
}

/// Reads an operand in the notation of plain scripts.
fn plain(alloc: Global, slot: Slot, token: &Token<'_>) -> NamesRead<Operand> {
    match written(alloc, slot, token)? {
        Some(written) => Ok(Operand::Plain(written)),
        None => Err(no_operand(alloc, slot, token)),
    }
}

/// Reads bytes: a text, a number of zeros, or a word in the notation of plain scripts.
fn bytes(alloc: Global, slot: Slot, token: &Token<'_>) -> NamesRead<Operand> {
    match token.sort {
        TokenKind::Text => Ok(Operand::Text(text_bytes(alloc, token).map_err(of_text)?)),
        TokenKind::Size => Ok(Operand::Zeros(size_of(alloc, token).map_err(of_text)?)),
        _ => match written(alloc, slot, token)? {
            Some(written) => Ok(Operand::Plain(written)),
            None => {
                let hint = bytes_hint(token.bytes);
                Err(expected(alloc, token, NamesExpected::Bytes(hint)))
            }
        },
    }
}

/// Returns the bit of the flag with this name.
fn flag(alloc: Global, token: &Token<'_>, name: &[u8]) -> NamesRead<u8> {
    if let Some((_, bit)) = FLAGS.iter().find(|(flag, _)| name == flag.as_bytes()) {
        return Ok(*bit);
    }
    let names: Vec<&'static str> = FLAGS.iter().map(|(flag, _)| *flag).collect(alloc)?;
    let unknown = UnknownWord::of(alloc, name, names.as_slice())?;
    Err(fault_at(
        token.place,
        NamesFault::Flag(unknown, flags_meant(token.bytes)),
    ))
}

/// Reads flags: their names with `|` between, or a number.
fn flags(alloc: Global, token: &Token<'_>) -> NamesRead<Operand> {
    if token.sort != TokenKind::Word || is_numeric(token) {
        return plain(alloc, Slot::Flags, token);
    }
    let mut bits = 0u8;
    for name in token.bytes.split(|b| *b == b'|') {
        bits |= flag(alloc, token, name)?;
    }
    Ok(Operand::Number(u64::from(bits)))
}

/// Returns whether a part of a line begins with a digit.
pub fn is_numeric(token: &Token<'_>) -> bool {
    token.sort == TokenKind::Word && token.bytes.first().is_some_and(|b| b.is_ascii_digit())
}

/// Reads a name, or a number in the notation of plain scripts.
pub fn id(alloc: Global, kind: LineKind, slot: Slot, token: &Token<'_>) -> NamesRead<Operand> {
    if is_numeric(token) {
        return plain(alloc, slot, token);
    }
    if token.sort != TokenKind::Word || !is_name(token.bytes) {
        return Err(expected(alloc, token, NamesExpected::Id(kind)));
    }
    Ok(Operand::Name(NameMention {
        name: word_of(alloc, token.bytes)?,
        expected: kind,
        place: token.place,
    }))
}

/// Reads a part of a line as an operand of this sort.
pub fn operand(alloc: Global, slot: Slot, token: &Token<'_>) -> NamesRead<Operand> {
    match slot {
        Slot::Thread => id(alloc, LineKind::Thread, slot, token),
        Slot::Channel => id(alloc, LineKind::Channel, slot, token),
        Slot::Connection => id(alloc, LineKind::Connection, slot, token),
        Slot::ReceiveId => id(alloc, LineKind::Message, slot, token),
        Slot::Flags => flags(alloc, token),
        Slot::Message | Slot::ReplyBuffer | Slot::Buffer | Slot::Data => bytes(alloc, slot, token),
        _ => plain(alloc, slot, token),
    }
}
