//! Reads and writes texts in quotes.

use qbase::bytes::Bytes;
use std::alloc::{AllocError, Global};

/// Returns the number of bytes before the closing quote, or `None` if there is no closing quote. `rest`
/// begins after the opening quote.
pub fn quoted_len(rest: &[u8]) -> Option<usize> {
    let mut escaped = false;
    for (at, byte) in rest.iter().enumerate() {
        if escaped {
            escaped = false;
        } else if *byte == b'"' {
            return Some(at);
        } else {
            escaped = *byte == b'\\';
        }
    }
    None
}

/// Returns the byte that an escape means, given the byte after the backslash. `\x` isn't among these escapes.
fn escaped_byte(sign: u8) -> Option<u8> {
    match sign {
        b'n' => Some(b'\n'),
        b't' => Some(b'\t'),
        b'r' => Some(b'\r'),
        b'0' => Some(0),
        b'"' | b'\\' => Some(sign),
        _ => None,
    }
}

/// Returns the byte that two hexadecimal digits mean.
fn byte_of(digits: &[u8]) -> Option<u8> {
    let mut byte = [0u8; 1];
    match hex::decode_to_slice(digits, &mut byte) {
        Ok(()) => Some(byte[0]),
        Err(_) => None,
    }
}

/// Returns the first byte that a quoted text means, and the number of bytes of the text that write it. `None`
/// if the text is empty, or if it begins with a backslash that begins no escape.
fn first_byte(text: &[u8]) -> Option<(u8, usize)> {
    match text {
        [b'\\', b'x', rest @ ..] => byte_of(rest.get(..2)?).map(|byte| (byte, 4)),
        [b'\\', sign, ..] => escaped_byte(*sign).map(|byte| (byte, 2)),
        [b'\\'] | [] => None,
        [byte, ..] => Some((*byte, 1)),
    }
}

/// Returns the bytes that a quoted text means. The escapes `\n`, `\t`, `\r`, `\0`, `\"`, `\\` and `\x` with
/// two hexadecimal digits mean one byte each. The inner `Err` is the index of a backslash that begins no
/// escape.
pub fn quoted_bytes(alloc: Global, text: &[u8]) -> Result<Result<Bytes, usize>, AllocError> {
    let mut bytes = Vec::new(alloc);
    let mut rest = text;
    for _ in 0..text.len() {
        if rest.is_empty() {
            break;
        }
        let Some((byte, len)) = first_byte(rest) else {
            return Ok(Err(text.len().saturating_sub(rest.len())));
        };
        bytes.push(byte)?;
        rest = rest.get(len..).unwrap_or(&[]);
    }
    Ok(Ok(Bytes::from(bytes)))
}

/// Returns bytes in the notation of a script with names: `-` for no bytes, a text in quotes if each byte is
/// printable, and hexadecimal digits otherwise.
pub fn shown_bytes(alloc: Global, bytes: &[u8]) -> Result<String, AllocError> {
    if bytes.is_empty() {
        return String::from_str(alloc, "-");
    }
    if !bytes.iter().all(|b| matches!(*b, 0x20..=0x7e)) {
        return hex::encode(alloc, bytes);
    }
    let mut text = String::from_str(alloc, "\"")?;
    for byte in bytes {
        if *byte == b'"' || *byte == b'\\' {
            text.push('\\')?;
        }
        text.push(char::from(*byte))?;
    }
    text.push('"')?;
    Ok(text)
}
