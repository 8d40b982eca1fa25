//! Splits a text into lines, and a line into words with their places.

ghost use Rattle.std.specs.Prelude.{length};
ghost use Rattle.std.specs.Iterator.{at_most};

use crate::grammar::ROSTER;
use crate::reading::call::is;
use crate::reading::lines::next_line;
use crate::reading::number::small;
use crate::reading::words::next_word;
use std::alloc::{AllocError, Global};

/// An iterator over the lines of the rest of a text, without their line ends.
#[derive(Drop)]
pub struct Lines<'a>(pub &'a [u8]);

impl<'a> Iterator for Lines<'a> {
    type Item = &'a [u8];

    ghost remaining = { λ s. at_most (length s.0.now) };

    fn next(&mut self) -> Option<&'a [u8]> {
        let (line, rest) = next_line(self.0)?;
        self.0 = rest;
        Some(line)
    }
}

/// A part of a line: its first byte, counted from 0, and its length in bytes.
#[derive(Clone, Copy, PartialEq, Eq)]
pub struct Span {
    pub at: usize,
    pub len: usize,
}

/// A word of a line.
#[derive(Clone, Copy)]
pub struct LineWord<'a> {
    /// Its bytes.
    pub bytes: &'a [u8],
    /// Its place in the line.
    pub place: Span,
}

impl LineWord<'_> {
    /// Returns the place at which a missing next word would begin: one byte, after one blank.
    pub fn behind(&self) -> Span {
        let end = self.place.at.saturating_add(self.place.len);
        Span {
            at: end.saturating_add(1),
            len: 1,
        }
    }
}

/// Returns the words of a line, in order.
pub fn words<'a>(alloc: Global, line: &'a [u8]) -> Result<Vec<LineWord<'a>>, AllocError> {
    let mut words = Vec::new(alloc);
    let mut rest = line;
    for _ in 0..line.len() {
        let Some((bytes, after)) = next_word(rest) else {
            break;
        };
        let end = line.len().saturating_sub(after.len());
        let place = Span {
            at: end.saturating_sub(bytes.len()),
            len: bytes.len(),
        };
        words.push(LineWord { bytes, place })?;
        rest = after;
    }
    Ok(words)
}

/// Returns the number, counted from 1, of the line at an index, or 0 for no index.
fn number_of(line: Option<usize>) -> usize {
    line.map_or(0, |at| at.saturating_add(1))
}

/// Returns whether a line begins with the number of a thread.
fn begins_with_thread(line: &[u8]) -> bool {
    next_word(line).is_some_and(|(word, _)| small(word).is_ok())
}

/// Returns the number, counted from 1, of the first line that is a call, or 0 if there is none.
pub fn first_call(text: &[u8]) -> usize {
    number_of(Lines(text).position(|line| begins_with_thread(line)))
}

/// Returns whether this is a roster line of this thread.
fn enrolls(line: &[u8], thread: u8) -> bool {
    let Some((first, rest)) = next_word(line) else {
        return false;
    };
    match next_word(rest) {
        Some((number, _)) => is(first, ROSTER.word) && small(number) == Ok(thread),
        None => false,
    }
}

/// Returns the number, counted from 1, of the first roster line of this thread, or 0 if there is none.
pub fn first_enrolled(text: &[u8], thread: u8) -> usize {
    number_of(Lines(text).position(|line| enrolls(line, thread)))
}

/// Returns whether a line of a script is a call, that is, not blank, not a comment and not a roster line.
fn is_call(line: &[u8]) -> bool {
    match next_word(line) {
        Some((word, _)) => word.first() != Some(&b'#') && !is(word, ROSTER.word),
        None => false,
    }
}

/// Returns the numbers, counted from 1, of the lines of a script that are calls, in order.
pub fn call_lines(alloc: Global, text: &[u8]) -> Result<Vec<usize>, AllocError> {
    let mut lines = Vec::new(alloc);
    for (at, line) in Lines(text).enumerate() {
        if is_call(line) {
            lines.push(at.saturating_add(1))?;
        }
    }
    Ok(lines)
}

/// Returns the last line of a text that is neither empty nor a comment, and the index at which it begins.
pub fn last_line(text: &[u8]) -> Option<(usize, &[u8])> {
    let mut last = None;
    let mut rest = Lines(text);
    for _ in 0..text.len() {
        let start = text.len().saturating_sub(rest.0.len());
        let Some(line) = rest.next() else {
            break;
        };
        if let Some((word, _)) = next_word(line)
            && !word.starts_with(b"#")
        {
            last = Some((start, line));
        }
    }
    last
}
