//! Unproved: words and layout. Shows a line with marks below the part that an explanation is about.

use qscript_text::parts::Span;
use std::alloc::{AllocError, Global};

/// The greatest number of bytes of a line that are shown.
const MOST_SHOWN: usize = 72;

/// The number of bytes that are shown before a part that is far from the start of the line.
const SHOWN_BEFORE: usize = 32;

/// Returns the character that shows a byte of a line.
fn shown_byte(byte: u8) -> char {
    match byte {
        b'\t' => ' ',
        0x20..=0x7e => byte as char,
        _ => '?',
    }
}

/// Returns a line, and below it marks under this place. Of a long line only the bytes around the place are
/// shown, with two dots where bytes are left out. A tab is shown as a space, and a byte that isn't printable
/// ASCII as `?`.
pub fn excerpt_of(alloc: Global, line: &[u8], place: Span) -> Result<String, AllocError> {
    let mut text = String::new(alloc);
    push_excerpt(&mut text, line, place)?;
    Ok(text)
}

/// Adds a line and the marks below it.
fn push_excerpt(text: &mut String, line: &[u8], place: Span) -> Result<(), AllocError> {
    let is_near = place.at < MOST_SHOWN / 2 || line.len() <= MOST_SHOWN;
    let skipped = place.at.saturating_sub(SHOWN_BEFORE);
    let from = if is_near { 0 } else { skipped };
    let front = if from > 0 { "  .." } else { "  " };
    text.push_str(front)?;
    for byte in line.iter().skip(from).take(MOST_SHOWN) {
        text.push(shown_byte(*byte))?;
    }
    let is_cut = line.len().saturating_sub(from) > MOST_SHOWN;
    text.push_str(if is_cut { "..\n" } else { "\n" })?;
    let before = place.at.saturating_sub(from);
    let blanks = before.saturating_add(front.len());
    let marks = place.len.min(MOST_SHOWN.saturating_sub(before).max(1));
    for at in 0..blanks.saturating_add(marks) {
        text.push(if at < blanks { ' ' } else { '^' })?;
    }
    Ok(())
}
