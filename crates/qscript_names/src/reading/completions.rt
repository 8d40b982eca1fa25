//! Reads the expectations of a line: the result of its own call, and the results of other calls that it
//! completes.

ghost use Rattle.std.specs.Prelude.{◌≤◌, length};

use crate::expectation::{CallCheck, Expectation, Follower};
use crate::names_fault::{MissingPart, NamesExpected, NamesRead, expected, missing};
use crate::reading::results::completion;
use qmodel::kind::CallKind;
use qscript_text::lexing::name::is_name;
use qscript_text::lexing::token::{Token, TokenKind};
use qscript_text::lexing::values::word_of;
use qscript_text::place::Place;
use qscript_text::word::Word;
use std::alloc::{AllocError, Global};

/// Returns the text of a line from the first of these tokens to the last.
pub fn text_of(alloc: Global, line: &[u8], tokens: &[Token<'_>]) -> Result<Word, AllocError> {
    let (Some(from), Some(to)) = (tokens.first(), tokens.last()) else {
        return Word::of(alloc, "");
    };
    let start = from.place.column.saturating_sub(1) as usize;
    let end = to.place.column.saturating_sub(1).saturating_add(to.len) as usize;
    let text = line.get(..end).unwrap_or(line).get(start..);
    word_of(alloc, text.unwrap_or(&[]))
}

/// Reads an expected result: the words after an arrow.
fn expectation(
    alloc: Global,
    arrow: &Token<'_>,
    tokens: &[Token<'_>],
    line: &[u8],
) -> NamesRead<Expectation> {
    let [word, rest @ ..] = tokens else {
        return Err(missing(arrow.behind(), MissingPart::Completion));
    };
    Ok(Expectation {
        completion: completion(alloc, word, rest)?,
        text: text_of(alloc, line, tokens)?,
        place: word.place,
    })
}

/// Reads the expected result of another call, which the call of this line completes: `NAME -> RESULT`.
fn follower(
    alloc: Global,
    semicolon: &Token<'_>,
    tokens: &[Token<'_>],
    line: &[u8],
) -> NamesRead<Follower> {
    let [name, arrow, rest @ ..] = tokens else {
        return Err(missing(semicolon.behind(), MissingPart::Follower));
    };
    if name.sort != TokenKind::Word || !is_name(name.bytes) {
        return Err(expected(alloc, name, NamesExpected::CallName));
    }
    if arrow.sort != TokenKind::Arrow {
        return Err(missing(name.place, MissingPart::Follower));
    }
    Ok(Follower {
        name: word_of(alloc, name.bytes)?,
        place: name.place,
        expectation: expectation(alloc, arrow, rest, line)?,
    })
}

/// Returns the index of the next semicolon, or the number of tokens if there is none.
fn semicolon_at(tokens: &[Token<'_>]) -> usize
    ensures { result ≤ length tokens.now }
{
    match tokens.iter().position(|t| t.sort == TokenKind::Semicolon) {
        Some(at) => at,
        None => tokens.len(),
    }
}

/// Reads the expectations after a call: `-> RESULT`, which may be left out, and any number of
/// `; NAME -> RESULT`.
pub fn completions_in(
    alloc: Global,
    kind: CallKind,
    place: Place,
    tokens: &[Token<'_>],
    line: &[u8],
) -> NamesRead<CallCheck> {
    let (first, mut rest) = tokens.split_at(semicolon_at(tokens));
    let own = match first {
        [arrow, words @ ..] => Some(expectation(alloc, arrow, words, line)?),
        [] => None,
    };
    let mut followers = Vec::new(alloc);
    for _ in 0..tokens.len() {
        let [semicolon, behind @ ..] = rest else {
            break;
        };
        let (part, next) = behind.split_at(semicolon_at(behind));
        followers.push(follower(alloc, semicolon, part, line)?)?;
        rest = next;
    }
    Ok(CallCheck {
        kind,
        place,
        own,
        followers,
    })
}
