//! Prints a buffer in hexadecimal digits.

ghost use Rattle.std.specs.Prelude.{◌≡◌, ◌++◌, ◌∷◌, [], ◌<◌, OnOk, slice_index, string_bytes};
ghost use Rattle.std.specs.Char.{encode_utf8};
ghost use Rattle.hex.specs.Hex.{lower_digits, encode_lower};
ghost use Rattle.qscript.specs.Printing.Words.{words_with_spaces};
ghost use Rattle.qscript.specs.Printing.Buffer.{buffer_word};

use std::alloc::AllocError;

const DIGITS: &[u8; 16] = b"0123456789abcdef";

/// Returns the lowercase hexadecimal digit of a value.
fn digit(value: u8) -> char
    requires { value < 16 }
    ensures { encode_utf8 result ≡ slice_index lower_digits value ∷ [] }
{
    char::from(DIGITS[value as usize])
}

/// Adds two lowercase hexadecimal digits for each byte.
fn push_digits(out: &mut String, bytes: &[u8]) -> Result<(), AllocError>
    ensures { OnOk result (string_bytes out.new ≡ string_bytes out.old ++ encode_lower bytes.now) }
{
    'bytes: for byte in bytes {
        out.push(digit(*byte / 16))?;
        out.push(digit(*byte % 16))?;
    }
    Ok(())
}

/// Adds a space and the bytes in lowercase hexadecimal digits, or `-` if there are none.
pub fn push_buffer(out: &mut String, bytes: &[u8]) -> Result<(), AllocError>
    ensures { OnOk result (string_bytes out.new ≡ string_bytes out.old ++ words_with_spaces
        (buffer_word bytes.now ∷ [])) }
{
    if bytes.is_empty() {
        return write!(out, " -");
    }
    write!(out, " ")?;
    push_digits(out, bytes)
}
