//! Reads the expected result of a call: its words, and the parts that may follow them.

ghost use Rattle.std.specs.Prelude.{◌≤◌, length};

use crate::expectation::{BufferPattern, ExpectedCompletion, NumberPattern, ResultPattern};
use crate::hints::words::{ExpectedError, ExpectedNumber, MeantCompletion, UnknownCompletion};
use crate::hints::{bytes_hint, code_meant, error_meant};
use crate::line::{LineKind, Operand};
use crate::names_fault::{NamesExpected, NamesFault, NamesRead, expected, of_text};
use crate::reading::forms::{
    FORMS, FormTable, MESSAGE_HEAD, PULSE_HEAD, PULSES, Part, STATES, form_of,
};
use crate::reading::operands::id;
use qbase::bytes::Bytes;
use qbase::errno;
use qbase::errno::{ERRNOS, Errno};
use qexplore_programs::pattern::ResultKind;
use qscript_text::fault::ParseError;
use qscript_text::grammar::{CALL_ERRORS, OperandKind as Slot, errno_of};
use qscript_text::lexing::name::is_name;
use qscript_text::lexing::token::{Token, TokenKind};
use qscript_text::lexing::values::{size_of, text_bytes, word_of};
use qscript_text::near::{nearest, quotation};
use qscript_text::place::fault_at;
use qscript_text::reading::bytes::bytes_said;
use qscript_text::reading::call::is;
use qscript_text::reading::number::signed_number;
use qscript_text::text_fault::UnknownWord;
use qscript_text::word::Word;
use std::alloc::{AllocError, Global};

fn number(alloc: Global, token: &Token<'_>) -> NamesRead<NumberPattern> {
    match signed_number(token.bytes) {
        Some(value) if token.sort == TokenKind::Word => Ok(NumberPattern::Number(value)),
        _ => {
            let number = ExpectedNumber(code_meant(token.bytes));
            Err(expected(alloc, token, NamesExpected::Number(number)))
        }
    }
}

/// Reads a name, which matches its number, or reads a number.
fn named(alloc: Global, kind: LineKind, token: &Token<'_>) -> NamesRead<NumberPattern> {
    if token.bytes.first().is_some_and(|b| b.is_ascii_digit()) {
        return number(alloc, token);
    }
    let operand = id(alloc, kind, Slot::Offset, token)?;
    Ok(
        operand
            .into_name()
            .map_or(NumberPattern::Any, NumberPattern::Named),
    )
}

/// Reads the name or the number of a process.
fn process(alloc: Global, token: &Token<'_>) -> NamesRead<NumberPattern> {
    if token.sort == TokenKind::Word && is_name(token.bytes) {
        return Ok(NumberPattern::Process(word_of(alloc, token.bytes)?));
    }
    number(alloc, token)
}

/// Reads the pattern of a part that is a number.
fn number_pattern(alloc: Global, part: Part, token: &Token<'_>) -> NamesRead<NumberPattern> {
    match part {
        _ if token.is_word("*") => Ok(NumberPattern::Any),
        Part::Id(kind) => named(alloc, kind, token),
        Part::Process => process(alloc, token),
        _ => number(alloc, token),
    }
}

fn bytes(alloc: Global, token: &Token<'_>) -> NamesRead<Bytes> {
    let said = match token.sort {
        TokenKind::Text => return text_bytes(alloc, token).map_err(of_text),
        TokenKind::Size => {
            let count = size_of(alloc, token).map_err(of_text)?;
            return Ok(Bytes::filled(alloc, 0, count as usize)?);
        }
        TokenKind::Word => bytes_said(alloc, token.bytes),
        _ => Err(ParseError::Memory),
    };
    let hint = bytes_hint(token.bytes);
    match said {
        Ok(bytes) => Ok(bytes),
        Err(_) => Err(expected(alloc, token, NamesExpected::CompletionBytes(hint))),
    }
}

impl ResultPattern {
    /// Adds the pattern of a part. The copied bytes have two patterns: of their number, and of the buffer.
    fn add(&mut self, alloc: Global, part: Part, token: &Token<'_>) -> NamesRead<()> {
        match part {
            Part::Content if !token.is_word("*") => {
                let content = bytes(alloc, token)?;
                let count = NumberPattern::Number(content.len() as i128);
                self.numbers.push(count)?;
                self.buffer = Some(BufferPattern::Begins(content));
            }
            Part::Buffer if token.is_word("*") => self.buffer = Some(BufferPattern::Any),
            Part::Buffer => self.buffer = Some(BufferPattern::Begins(bytes(alloc, token)?)),
            _ => self.numbers.push(number_pattern(alloc, part, token)?)?,
        }
        Ok(())
    }
}

/// Reads the patterns of numbers. The last ones may be left out.
fn number_patterns(
    alloc: Global,
    parts: &[Part],
    tokens: &[Token<'_>],
) -> NamesRead<Vec<NumberPattern>> {
    let mut numbers = Vec::new(alloc);
    for (part, token) in parts.iter().zip(tokens) {
        numbers.push(number_pattern(alloc, *part, token)?)?;
    }
    Ok(numbers)
}

/// Checks that there are at most this many tokens.
fn at_most(alloc: Global, count: usize, tokens: &[Token<'_>]) -> NamesRead<()> {
    match tokens.get(count) {
        Some(extra) => Err(expected(alloc, extra, NamesExpected::CompletionEnd)),
        None => Ok(()),
    }
}

/// Reads the pattern of a result of this kind, from the tokens after its words: first the parts of the head.
fn result(
    alloc: Global,
    kind: ResultKind,
    head: &[Part],
    parts: &[Part],
    tokens: &[Token<'_>],
) -> NamesRead<ResultPattern> {
    at_most(alloc, head.len().saturating_add(parts.len()), tokens)?;
    let mut pattern = ResultPattern::of(alloc, kind);
    pattern.head = number_patterns(alloc, head, tokens)?;
    let rest = tokens.get(head.len()..).unwrap_or(&[]);
    for (part, token) in parts.iter().zip(rest) {
        pattern.add(alloc, *part, token)?;
    }
    Ok(pattern)
}

/// Reads the name of an error.
fn errno(alloc: Global, token: &Token<'_>) -> NamesRead<Errno> {
    if token.sort == TokenKind::Word
        && let Some(errno) = errno_of(token.bytes)
    {
        return Ok(errno);
    }
    let errors = ERRNOS.iter().take(CALL_ERRORS);
    let words: Vec<&'static str> = errors.map(|errno| errno::word(*errno)).collect(alloc)?;
    let unknown = UnknownWord::of(alloc, token.bytes, words.as_slice())?;
    let meant = ExpectedError(error_meant(alloc, token.bytes)?);
    Err(fault_at(token.place, NamesFault::Error(unknown, meant)))
}

/// Reads the pattern of a failure: of this error, or of any.
fn failure(alloc: Global, tokens: &[Token<'_>]) -> NamesRead<ResultPattern> {
    at_most(alloc, 1, tokens)?;
    let error = match tokens {
        [one, ..] if !one.is_word("*") => Some(errno(alloc, one)?),
        _ => None,
    };
    Ok(ResultPattern::of(alloc, ResultKind::Failed(error)))
}

/// Reads the pattern of a result with a second word. Without it each result of this kind matches. If the
/// table doesn't have the second word, `content` is expected.
fn nested(
    alloc: Global,
    kind: ResultKind,
    table: FormTable,
    tokens: &[Token<'_>],
    content: NamesExpected,
) -> NamesRead<ResultPattern> {
    let [word, rest @ ..] = tokens else {
        return Ok(ResultPattern::of(alloc, kind));
    };
    match form_of(table, word) {
        Some(form) => result(alloc, form.kind.unwrap_or(kind), &[], form.parts, rest),
        None => Err(expected(alloc, word, content)),
    }
}

/// Returns the number of parts before the content of a pulse, at most two.
fn pulse_len(tokens: &[Token<'_>]) -> usize
    ensures { result ≤ length tokens.now }
{
    match tokens {
        [] => 0,
        [first, ..] if form_of(&PULSES, first).is_some() => 0,
        [_] => 1,
        [_, second, ..] if form_of(&PULSES, second).is_some() => 1,
        _ => 2,
    }
}

/// Reads the pattern of a pulse: its call and its priority, which may be left out, and its content.
fn pulse(alloc: Global, kind: ResultKind, tokens: &[Token<'_>]) -> NamesRead<ResultPattern> {
    let (front, content) = tokens.split_at(pulse_len(tokens));
    let head = number_patterns(alloc, &PULSE_HEAD, front)?;
    let mut pattern = nested(alloc, kind, &PULSES, content, NamesExpected::PulseContent)?;
    pattern.head = head;
    Ok(pattern)
}

/// Returns the completion that a word is meant to begin. Case doesn't matter, and the word may have a comma
/// at its end.
fn near_completion(alloc: Global, word: &[u8]) -> Result<MeantCompletion, AllocError> {
    let (word, same) = match word {
        [front @ .., b','] => (front, Some(MeantCompletion::Comma)),
        word => (word, None),
    };
    let small = quotation(word).to_ascii_lowercase(alloc)?;
    let mut words = Vec::new(alloc);
    for (first, _, _) in &FORMS {
        if is(small.as_str().as_bytes(), first) {
            return Ok(same.unwrap_or(MeantCompletion::Near(first)));
        }
        words.push(*first)?;
    }
    match nearest(alloc, small.as_str(), words.as_slice())? {
        Some(near) => Ok(MeantCompletion::Near(near)),
        None => Ok(MeantCompletion::Unknown),
    }
}

/// Returns what a first word that no result has is meant to be.
fn completion_meant(alloc: Global, token: &Token<'_>) -> Result<MeantCompletion, AllocError> {
    if token.sort == TokenKind::Text {
        return Ok(MeantCompletion::Message);
    }
    if form_of(&STATES, token).is_some() {
        return Ok(MeantCompletion::State);
    }
    match error_meant(alloc, token.bytes)? {
        Some(error) => Ok(MeantCompletion::Fail(error)),
        None => near_completion(alloc, token.bytes),
    }
}

/// Returns the fault of a first word that no result has.
fn unknown_completion(alloc: Global, token: &Token<'_>) -> Result<NamesFault, AllocError> {
    Ok(NamesFault::Completion(UnknownCompletion {
        word: Word::of(alloc, quotation(token.bytes))?,
        meant: completion_meant(alloc, token)?,
    }))
}

/// Reads the expected result of a call.
pub fn completion(
    alloc: Global,
    first: &Token<'_>,
    rest: &[Token<'_>],
) -> NamesRead<ExpectedCompletion> {
    let Some(form) = form_of(&FORMS, first) else {
        return Err(fault_at(first.place, unknown_completion(alloc, first)?));
    };
    let Some(kind) = form.kind else {
        at_most(alloc, 0, rest)?;
        return Ok(ExpectedCompletion::Blocked);
    };
    let pattern = match kind {
        ResultKind::Failed(_) => failure(alloc, rest),
        ResultKind::Message => result(alloc, kind, &MESSAGE_HEAD, form.parts, rest),
        ResultKind::Pulse => pulse(alloc, kind, rest),
        ResultKind::State => nested(alloc, kind, &STATES, rest, NamesExpected::CompletionState),
        _ => result(alloc, kind, &[], form.parts, rest),
    };
    Ok(ExpectedCompletion::Completed(pattern?))
}
