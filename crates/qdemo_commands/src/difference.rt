//! Unproved: words and layout. Finds the first difference between two texts, whatever their line ends.

use std::alloc::{AllocError, Global};
use std::fmt;

/// The first line in which two texts differ, as both texts have it.
#[derive(Drop)]
pub struct Difference {
    /// Its number, counted from 1.
    pub line: usize,
    found: String,
    expected: String,
}

impl Difference {
    /// Returns the line as it was found.
    pub fn found(&self) -> &str {
        self.found.as_str()
    }

    /// Returns the line as it was expected.
    pub fn expected(&self) -> &str {
        self.expected.as_str()
    }

    /// Returns the number of the call that the found line is about. If that line has no number, returns the
    /// number in the expected line.
    pub fn call(&self) -> Option<u64> {
        call_of(self.found.as_str()).or(call_of(self.expected.as_str()))
    }
}

/// Returns the number at the front of a line of a trace, or after `open`.
fn call_of(line: &str) -> Option<u64> {
    let rest = line.strip_prefix("open ").unwrap_or(line);
    rest.split(' ').next()?.parse::<u64>().ok()
}

/// The two lines.
impl fmt::Display for Difference {
    fn fmt<W: fmt::Write>(&self, f: &mut fmt::Formatter<W>) -> fmt::Result {
        let Difference {
            found,
            expected,
            ..
        } = self;
        write!(f, "  found:    {found}\n  expected: {expected}")
    }
}

/// Returns the first line in which two texts differ.
pub fn difference_of(
    alloc: Global,
    found: &[u8],
    expected: &[u8],
) -> Result<Difference, AllocError> {
    let same = found.iter().zip(expected).take_while(|(a, b)| a == b);
    let ends = same.filter(|(a, _)| **a == b'\n').count();
    let line = ends.saturating_add(1);
    Ok(Difference {
        line,
        found: shown_line(alloc, found, line)?,
        expected: shown_line(alloc, expected, line)?,
    })
}

/// Returns the line with this number for display. A byte that isn't printable is `?`. If the text ends in or
/// before this line, `(end of text)` is at the end.
fn shown_line(alloc: Global, text: &[u8], number: usize) -> Result<String, AllocError> {
    let mut shown = String::new(alloc);
    let mut line = 1usize;
    for byte in text {
        match *byte {
            b'\n' if line == number => return Ok(shown),
            b'\n' => line = line.saturating_add(1),
            0x20..=0x7e if line == number => shown.push(*byte as char)?,
            _ if line == number => shown.push('?')?,
            _ => {}
        }
    }
    shown.push_str("(end of text)")?;
    Ok(shown)
}

/// Returns a text without the carriage return before each line feed. A script is read in the same way.
pub fn without_returns(alloc: Global, text: &[u8]) -> Result<Vec<u8>, AllocError> {
    let mut plain = Vec::with_capacity(alloc, text.len())?;
    for (at, byte) in text.iter().enumerate() {
        if *byte != b'\r' || text.get(at.saturating_add(1)) != Some(&b'\n') {
            plain.push(*byte)?;
        }
    }
    Ok(plain)
}
