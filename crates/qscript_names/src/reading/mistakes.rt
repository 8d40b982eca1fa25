//! Unproved: words and layout. Recognizes lines that are written as in other languages, and returns their
//! faults.

use crate::hints::form_meant;
use crate::hints::words::ForeignWord;
use crate::names_fault::{MissingPart, NamesExpected, NamesFault, NamesRead, expected, missing};
use crate::reading::completions::text_of;
use qscript_text::grammar::Form;
use qscript_text::lexing::name::is_name;
use qscript_text::lexing::token::{Token, TokenKind};
use qscript_text::lexing::values::word_of;
use qscript_text::near::quotation;
use qscript_text::place::{ReadError, fault_at};
use qscript_text::word::Word;
use std::alloc::{AllocError, Global};

fn is_equals(token: &Token<'_>) -> bool {
    token.sort == TokenKind::Equals
}

/// Returns an error if a line has no name before `=`, or another sign in its place.
pub fn refuse_signs(alloc: Global, parts: &[Token<'_>]) -> NamesRead<()> {
    match parts {
        [equals, ..] if is_equals(equals) => Err(missing(equals.place, MissingPart::Name)),
        [_, equals, second, ..] if is_equals(equals) && is_equals(second) => {
            Err(expected(alloc, second, NamesExpected::OneEquals))
        }
        [_, colon, equals, ..] if colon.is_word(":") && is_equals(equals) => {
            Err(expected(alloc, colon, NamesExpected::Equals))
        }
        _ => Ok(()),
    }
}

/// The states of a thread, in two spellings.
static STATE_WORDS: [&str; 8] = [
    "ready",
    "blocked",
    "SEND-blocked",
    "RECEIVE-blocked",
    "REPLY-blocked",
    "send-blocked",
    "receive-blocked",
    "reply-blocked",
];

/// Returns whether a part of a line is the state of a thread.
fn is_state(token: &Token<'_>) -> bool {
    for state in &STATE_WORDS {
        if token.is_word(state) {
            return true;
        }
    }
    false
}

/// Returns the line with the state of a thread that has this text.
pub fn state_text(alloc: Global, thread: &Token<'_>, state: &Word) -> Result<Word, AllocError> {
    let name = word_of(alloc, thread.bytes)?;
    let text = format!(in alloc; "{name} is {state}")?;
    Word::of(alloc, text.as_str())
}

/// Returns an error if the second word of a line is a state: `is` is missing before it.
pub fn refuse_state(alloc: Global, parts: &[Token<'_>], line: &[u8]) -> NamesRead<()> {
    let [thread, rest @ ..] = parts else {
        return Ok(());
    };
    match rest {
        [state, ..] if is_state(state) && !thread.is_word("thread") => {
            let text = text_of(alloc, line, rest)?;
            let right = state_text(alloc, thread, &text)?;
            Err(fault_at(state.place, NamesFault::NoIs(right)))
        }
        _ => Ok(()),
    }
}

/// Words of other languages, and what a script has in the place of each.
static FOREIGN: [(&str, ForeignWord); 17] = [
    ("expect", ForeignWord::Result),
    ("assert", ForeignWord::Result),
    ("if", ForeignWord::Control),
    ("else", ForeignWord::Control),
    ("end", ForeignWord::Control),
    ("while", ForeignWord::Control),
    ("for", ForeignWord::Control),
    ("loop", ForeignWord::Control),
    ("repeat", ForeignWord::Control),
    ("wait", ForeignWord::Clock),
    ("sleep", ForeignWord::Clock),
    ("delay", ForeignWord::Clock),
    ("timeout", ForeignWord::Clock),
    ("within", ForeignWord::Clock),
    ("after", ForeignWord::Clock),
    ("are", ForeignWord::Is),
    ("was", ForeignWord::Is),
];

/// Returns what a script has in the place of a word of other languages, if this is one.
pub fn foreign_word(token: &Token<'_>) -> Option<ForeignWord> {
    for (word, foreign) in &FOREIGN {
        if token.is_word(word) {
            return Some(*foreign);
        }
    }
    None
}

/// Returns the thread and the form of a call like `server.receive(ch`.
fn dotted(alloc: Global, word: &[u8]) -> Result<Option<(Word, Form)>, AllocError> {
    let mut parts = word.split(|byte| *byte == b'.');
    let (Some(thread), Some(call)) = (parts.next(), parts.next()) else {
        return Ok(None);
    };
    match form_meant(alloc, call)? {
        Some(form) if is_name(thread) && word.contains(&b'(') => {
            Ok(Some((Word::of(alloc, quotation(thread))?, form)))
        }
        _ => Ok(None),
    }
}

/// Returns the fault of the first word of a line that has no call after it, if the word itself is wrong.
pub fn first_fault(
    alloc: Global,
    first: &Token<'_>,
) -> Result<Option<ReadError<NamesFault>>, AllocError> {
    if let Some(form) = form_meant(alloc, first.bytes)? {
        return Ok(Some(fault_at(first.place, NamesFault::NoCaller(form))));
    }
    if let Some((thread, form)) = dotted(alloc, first.bytes)? {
        return Ok(Some(fault_at(first.place, NamesFault::Dotted(thread, form))));
    }
    match foreign_word(first) {
        Some(word) => Ok(Some(expected(alloc, first, NamesExpected::Foreign(word)))),
        None => Ok(None),
    }
}
