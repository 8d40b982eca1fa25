//! Reads words of a script as bytes.

ghost use Rattle.std.specs.Prelude.{◌≡◌, ◌<◌, ◌==◌, length, position, IfSome};
ghost use Rattle.qscript_text.specs.Reading.Operand.{plain_of, repeated_of, bytes_of};
ghost use Rattle.qscript_text.specs.Reading.Steps.{Gives};

use crate::fault::{LineFault, ParseError};
use crate::reading::number::digits;
use hex::FromHexError;
use qbase::bytes::Bytes;
use std::alloc::Global;

/// The most equal bytes that one word writes: the limit of N in `NxHH`, and of a size in brackets.
pub const MOST_REPEATS: u128 = 4096;

/// Returns no bytes for `-`. Any other word is hexadecimal digits, two for each byte.
#[tactic(auto, unfolding(crate::specs::Reading::Operand::plain_of))]
fn plain(alloc: Global, word: &[u8]) -> Result<Bytes, ParseError>
    ensures { Gives result (plain_of word.now) }
{
    if let [b'-'] = word {
        return Ok(Bytes::new(alloc));
    }
    match hex::decode(alloc, word) {
        Ok(items) => Ok(Bytes::from(items)),
        Err(FromHexError::OutOfMemory) => Err(ParseError::Memory),
        Err(_) => Err(ParseError::Fault(LineFault::BadBytes)),
    }
}

/// Returns the byte of two hexadecimal digits, repeated `count` times, 1 to 4,096.
#[tactic(auto, unfolding(crate::specs::Reading::Operand::repeated_of))]
fn repeated_bytes(alloc: Global, count: &[u8], pair: &[u8]) -> Result<Bytes, ParseError>
    ensures { Gives result (repeated_of count.now pair.now) }
{
    let fault = Err(ParseError::Fault(LineFault::BadBytes));
    let count = match digits(count) {
        Some(count) if count >= 1 && count <= MOST_REPEATS => count as usize,
        _ => return fault,
    };
    let mut byte = [0u8; 1];
    if hex::decode_to_slice(pair, &mut byte).is_err() {
        return fault;
    }
    Ok(Bytes::filled(alloc, byte[0], count)?)
}

/// Returns the index of the first `x`.
fn cross(word: &[u8]) -> Option<usize>
    ensures place { result ≡ position (λ b. b == 120) word.now }
    ensures within { IfSome result (λ at. at < length word.now) }
{
    word.iter().position(|b| *b == b'x')
}

/// Returns the bytes of a word: none for `-`, a byte for each two hexadecimal digits, or N bytes HH for
/// `NxHH`.
#[tactic(auto, unfolding(crate::specs::Reading::Operand::bytes_of))]
pub fn bytes_said(alloc: Global, word: &[u8]) -> Result<Bytes, ParseError>
    ensures { Gives result (bytes_of word.now) }
{
    match cross(word) {
        Some(at) => repeated_bytes(alloc, &word[..at], &word[at + 1..]),
        None => plain(alloc, word),
    }
}
