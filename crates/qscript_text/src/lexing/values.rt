//! Reads the value of a part of a line.

use crate::lexing::quoted::quoted_bytes;
use crate::lexing::token::Token;
use crate::place::{Place, ReadError, fault_at, fault_made};
use crate::reading::bytes::MOST_REPEATS;
use crate::reading::number::digits;
use crate::text_fault::{FoundToken, TextFault};
use crate::word::Word;
use qbase::bytes::Bytes;
use std::alloc::{AllocError, Global};

/// Returns bytes of a script as a word. Bytes that aren't text become `?`, which is refused when the word is
/// read.
pub fn word_of(alloc: Global, bytes: &[u8]) -> Result<Word, AllocError> {
    Word::of(alloc, std::str::from_utf8(bytes).unwrap_or("?"))
}

/// Returns the bytes that a text in quotes means. A backslash that begins no escape is a fault.
pub fn text_bytes(alloc: Global, token: &Token<'_>) -> Result<Bytes, ReadError<TextFault>> {
    match quoted_bytes(alloc, token.bytes)? {
        Ok(bytes) => Ok(bytes),
        Err(at) => {
            let place = Place {
                line: token.place.line,
                column: token
                    .place
                    .column
                    .saturating_add(at as u64)
                    .saturating_add(1),
            };
            Err(fault_at(place, TextFault::Escape))
        }
    }
}

/// Returns the number of zeros that a size in brackets means, 0 to 4,096.
pub fn size_of(alloc: Global, token: &Token<'_>) -> Result<u64, ReadError<TextFault>> {
    match digits(token.bytes) {
        Some(count) if count <= MOST_REPEATS => Ok(count as u64),
        _ => {
            let found = FoundToken::of(alloc, token);
            Err(fault_made(token.place, found.map(TextFault::Size)))
        }
    }
}
