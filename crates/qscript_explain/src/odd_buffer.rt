//! Unproved: words and layout. Recognizes a buffer that may be meant as a length, as in `receive ch 16`.

use crate::explanation::Explanation;
use crate::plain_fault::PlainFault;
use qscript_text::lexing::token::{Token, TokenKind, tokens};
use qscript_text::parts::Span;
use qscript_text::reading::number::number;
use std::alloc::{AllocError, Global};
use std::fmt;

/// A buffer of one or two bytes whose hexadecimal digits are all decimal, as the number that may be meant as
/// its length. It is at least 10.
#[derive(Clone, Copy)]
pub struct OddBuffer(u64);

/// Returns the two digits of a byte as a decimal number, or `None` if one of them is a letter.
fn decimal(byte: u8) -> Option<u64> {
    let (tens, ones) = (u64::from(byte >> 4), u64::from(byte & 0x0f));
    if tens > 9 || ones > 9 {
        return None;
    }
    Some(tens.saturating_mul(10).saturating_add(ones))
}

impl OddBuffer {
    /// Returns the number of a call's buffer, or `None` if the buffer can't be meant as a length.
    pub fn of(buffer: &[u8]) -> Option<OddBuffer> {
        let number = match buffer {
            [low] => decimal(*low)?,
            [high, low] => decimal(*high)?
                .saturating_mul(100)
                .saturating_add(decimal(*low)?),
            _ => return None,
        };
        let begins_with_zero = buffer.first().is_some_and(|first| *first < 0x10);
        (!begins_with_zero).then_some(OddBuffer(number))
    }

    /// Explains the buffer in the line of its call. Returns `None` if the line has the bytes in another form.
    pub fn explained<'a>(
        self,
        alloc: Global,
        line: &'a [u8],
    ) -> Result<Option<Explanation<'a>>, AllocError> {
        let tokens = match tokens(alloc, line, 1) {
            Ok(tokens) => tokens,
            Err(error) => {
                let _fault = error.fault()?;
                return Ok(None);
            }
        };
        let mut place = None;
        for token in &tokens {
            match token.sort {
                TokenKind::Arrow => break,
                TokenKind::Word if number(token.bytes) == Ok(self.0) => place = Some(span_of(
                    token,
                )),
                _ => {}
            }
        }
        Ok(place.map(|place| Explanation {
            line,
            place,
            kind: PlainFault::Buffer(self),
        }))
    }
}

/// Returns the place of a word in its line.
fn span_of(word: &Token<'_>) -> Span {
    Span {
        at: word.place.column.saturating_sub(1) as usize,
        len: word.bytes.len(),
    }
}

impl fmt::Display for OddBuffer {
    fn fmt<W: fmt::Write>(&self, f: &mut fmt::Formatter<W>) -> fmt::Result {
        let number = self.0;
        let bytes = if number < 100 { "1 byte" } else { "2 bytes" };
        write!(
            f,
            "{number} is {bytes}; for {number} bytes of zero write {number}x00"
        )
    }
}
