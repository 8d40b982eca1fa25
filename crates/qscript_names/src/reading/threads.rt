//! Reads the line of a thread, and a line with the state of a thread.

use crate::expectation::StateCheck;
use crate::line::{LineKind, NewName, Operand, Process, ThreadLine, Written};
use crate::names_fault::{MissingPart, NamesExpected, NamesFault, NamesRead, expected, missing};
use crate::reading::operands::{no_operand, operand};
use qbase::priority::Priority;
use qscript_text::grammar::OperandKind as Slot;
use qscript_text::lexing::name::is_name;
use qscript_text::lexing::token::{Token, TokenKind};
use qscript_text::lexing::values::word_of;
use qscript_text::near::{nearest, quotation};
use qscript_text::place::{Place, fault_at};
use qscript_text::reading::number;
use qscript_text::reading::number::small;
use qscript_text::word::Word;
use std::alloc::{AllocError, Global};

/// Reads the number of a thread, if its line gives one.
fn thread_number(alloc: Global, token: &Token<'_>) -> NamesRead<u64> {
    match small(token.bytes) {
        Ok(number) if token.sort == TokenKind::Word => Ok(u64::from(number)),
        _ => Err(no_operand(alloc, Slot::Thread, token)),
    }
}

/// Reads the process of a thread: a name or a number.
fn process(alloc: Global, token: &Token<'_>) -> NamesRead<Process> {
    if token.sort == TokenKind::Word {
        if let Ok(number) = small(token.bytes) {
            return Ok(Process::Number(u64::from(number)));
        }
        if is_name(token.bytes) {
            return Ok(Process::Name(word_of(alloc, token.bytes)?));
        }
    }
    Err(expected(alloc, token, NamesExpected::Process))
}

/// Reads the base priority of a thread.
fn priority(alloc: Global, level: &Token<'_>) -> NamesRead<Written<Priority>> {
    match number::priority(level.bytes) {
        Ok(value) if level.sort == TokenKind::Word => Ok(Written {
            word: word_of(alloc, level.bytes)?,
            value,
        }),
        _ => Err(no_operand(alloc, Slot::Priority, level)),
    }
}

/// Reads the line of a thread. `name` is the name before `=`. The tokens come after the word `thread`, and
/// `place` is the place at which the first of them would begin.
pub fn thread_line(
    alloc: Global,
    name: Option<NewName>,
    place: Place,
    tokens: &[Token<'_>],
) -> NamesRead<ThreadLine> {
    let (thread, of, level) = match tokens {
        [of, level] => (None, of, level),
        [number, of, level] => (Some(thread_number(alloc, number)?), of, level),
        [_, _, _, extra, ..] => {
            return Err(fault_at(extra.place, NamesFault::ThreadWords(tokens.len())));
        }
        _ => return Err(fault_at(place, NamesFault::ThreadWords(tokens.len()))),
    };
    if thread.is_none() && name.is_none() {
        return Err(fault_at(place, NamesFault::NamelessThread));
    }
    Ok(ThreadLine {
        definition: name.map(|name| name.defined_as(LineKind::Thread)),
        thread,
        process: process(alloc, of)?,
        place: of.place,
        priority: priority(alloc, level)?,
    })
}

/// The names of the states of a thread. `blocked` matches each state but the first.
static STATES: [&str; 5] = [
    "ready",
    "SEND-blocked",
    "RECEIVE-blocked",
    "REPLY-blocked",
    "blocked",
];

/// Returns the state that a word means: the state with its letters, where case doesn't matter, or the nearest
/// one.
fn state_meant(alloc: Global, word: &[u8]) -> Result<Option<&'static str>, AllocError> {
    let mut letters = Vec::new(alloc);
    for byte in word {
        if byte.is_ascii_alphabetic() {
            letters.push(byte.to_ascii_lowercase())?;
        }
    }
    match letters.as_slice() {
        b"ready" => Ok(Some("ready")),
        b"sendblocked" => Ok(Some("SEND-blocked")),
        b"receiveblocked" => Ok(Some("RECEIVE-blocked")),
        b"replyblocked" => Ok(Some("REPLY-blocked")),
        b"blocked" => Ok(Some("blocked")),
        _ => nearest(alloc, quotation(word), &STATES),
    }
}

/// Reads the name of a state.
fn state(alloc: Global, token: &Token<'_>) -> NamesRead<&'static str> {
    let mut states = STATES.iter().copied();
    let said = states.find(|state| token.is_word(state));
    match said {
        Some(state) => Ok(state),
        None => {
            let near = state_meant(alloc, token.bytes)?;
            Err(expected(alloc, token, NamesExpected::State(near)))
        }
    }
}

/// Reads the channel after `on`, if there is one.
fn channel(alloc: Global, tokens: &[Token<'_>]) -> NamesRead<Option<Operand>> {
    match tokens {
        [] => Ok(None),
        [on, channel] if on.is_word("on") => Ok(Some(operand(alloc, Slot::Channel, channel)?)),
        [first, ..] => Err(expected(alloc, first, NamesExpected::OnChannel)),
    }
}

/// Reads the state of a thread: the thread, the word `is` and the words after it. `calls` is the number of
/// calls above, and `text` is the text of the line after `is`.
pub fn state_line(
    alloc: Global,
    calls: u64,
    thread: &Token<'_>,
    is: &Token<'_>,
    rest: &[Token<'_>],
    text: Word,
) -> NamesRead<StateCheck> {
    let [name, rest @ ..] = rest else {
        return Err(missing(is.behind(), MissingPart::State));
    };
    let state = state(alloc, name)?;
    if let ("ready", [first, ..]) = (state, rest) {
        return Err(expected(alloc, first, NamesExpected::NoChannel));
    }
    Ok(StateCheck {
        calls,
        thread: operand(alloc, Slot::Thread, thread)?,
        state,
        channel: channel(alloc, rest)?,
        text,
        place: is.place,
    })
}
