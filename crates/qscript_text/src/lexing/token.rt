//! Splits a line into its parts.

use crate::lexing::quoted::quoted_len;
use crate::place::{Place, ReadError, fault_at};
use crate::text_fault::TextFault;
use std::alloc::Global;

/// The sort of a part of a line.
#[derive(Clone, Copy, PartialEq, Eq)]
pub enum TokenKind {
    /// A name, a number, hexadecimal bytes, flags: anything without quotes and brackets.
    Word,
    /// A text in quotes, without the quotes. Its escapes are unchanged.
    Text,
    /// A size in brackets, without the brackets.
    Size,
    /// `=`
    Equals,
    /// `->`
    Arrow,
    /// `;`
    Semicolon,
}

/// A part of a line.
#[derive(Clone, Copy)]
pub struct Token<'a> {
    pub sort: TokenKind,
    pub bytes: &'a [u8],
    /// The place of its first byte.
    pub place: Place,
    /// The number of bytes that it takes in the line, with its quotes or brackets.
    pub len: u64,
}

impl Token<'_> {
    /// Returns the place at which a missing next part would begin, after one blank.
    pub fn behind(&self) -> Place {
        Place {
            line: self.place.line,
            column: self.place.column.saturating_add(self.len).saturating_add(1),
        }
    }

    /// Returns whether it is this word.
    pub fn is_word(&self, word: &str) -> bool {
        self.sort == TokenKind::Word && self.bytes == word.as_bytes()
    }
}

/// Returns whether a word ends before this byte.
fn ends_word(byte: u8) -> bool {
    matches!(byte, b'#' | b';' | b'=' | b'"' | b'[') || !is_printing(byte)
}

/// Returns whether a byte is printable; a space isn't.
fn is_printing(byte: u8) -> bool {
    byte > 0x20 && byte <= 0x7e
}

/// Returns the length of the word that begins here, or 0 if none does. A word also ends before `->`.
fn word_len(rest: &[u8]) -> usize {
    let mut len = 0usize;
    let mut before = b' ';
    for byte in rest {
        if before == b'-' && *byte == b'>' {
            return len.saturating_sub(1);
        }
        if ends_word(*byte) {
            return len;
        }
        before = *byte;
        len = len.saturating_add(1);
    }
    len
}

/// A part without its place: its sort, its bytes, and the number of bytes that it takes in the line.
#[derive(Clone, Copy)]
struct Part<'a> {
    sort: TokenKind,
    bytes: &'a [u8],
    len: usize,
}

/// Returns a part of the first `len` bytes.
fn sign<'a>(sort: TokenKind, rest: &'a [u8], len: usize) -> Part<'a> {
    Part {
        sort,
        bytes: rest.get(..len).unwrap_or(&[]),
        len,
    }
}

/// Returns a part in quotes or brackets. `rest` begins after the opening sign, and `len` is the number of
/// bytes before the closing sign.
fn enclosed<'a>(sort: TokenKind, rest: &'a [u8], len: usize) -> Part<'a> {
    Part {
        len: len.saturating_add(2),
        ..sign(sort, rest, len)
    }
}

/// Returns the word that begins here. A byte with which no word can begin is a fault.
fn word_part(rest: &[u8], place: Place) -> Result<Part<'_>, ReadError<TextFault>> {
    let len = word_len(rest);
    if len == 0 {
        let byte = rest.first().copied().unwrap_or(0);
        return Err(fault_at(place, TextFault::Byte(byte)));
    }
    Ok(sign(TokenKind::Word, rest, len))
}

/// Returns the part of a line that begins here, at a byte that isn't a blank.
fn next_part(rest: &[u8], place: Place) -> Result<Part<'_>, ReadError<TextFault>> {
    match rest {
        [b'=', ..] => Ok(sign(TokenKind::Equals, rest, 1)),
        [b';', ..] => Ok(sign(TokenKind::Semicolon, rest, 1)),
        [b'-', b'>', ..] => Ok(sign(TokenKind::Arrow, rest, 2)),
        [b'"', text @ ..] => match quoted_len(text) {
            Some(len) => Ok(enclosed(TokenKind::Text, text, len)),
            None => Err(fault_at(place, TextFault::OpenText)),
        },
        [b'[', size @ ..] => match size.iter().position(|b| *b == b']') {
            Some(len) => Ok(enclosed(TokenKind::Size, size, len)),
            None => Err(fault_at(place, TextFault::OpenSize)),
        },
        _ => word_part(rest, place),
    }
}

/// Returns the rest of a line after the blanks at its front.
fn skip_blanks(rest: &[u8]) -> &[u8] {
    match rest.iter().position(|b| *b != b' ' && *b != b'\t') {
        Some(at) => rest.get(at..).unwrap_or(&[]),
        None => &[],
    }
}

/// Returns the parts of the line with this number, up to a comment.
pub fn tokens(
    alloc: Global,
    line: &[u8],
    number: u64,
) -> Result<Vec<Token<'_>>, ReadError<TextFault>> {
    let mut tokens = Vec::new(alloc);
    let mut rest = line;
    for _ in 0..line.len() {
        rest = skip_blanks(rest);
        if matches!(rest, [] | [b'#', ..]) {
            break;
        }
        let place = Place {
            line: number,
            column: (line.len().saturating_sub(rest.len()) as u64).saturating_add(1),
        };
        let part = next_part(rest, place)?;
        tokens.push(Token {
            sort: part.sort,
            bytes: part.bytes,
            place,
            len: part.len as u64,
        })?;
        rest = rest.get(part.len..).unwrap_or(&[]);
    }
    Ok(tokens)
}
