//! Reads the numbers of a script.

ghost use Rattle.std.specs.Prelude.{◌≡◌, ◌<◌, ◌^◌, ℤ, pos, negsuc, IfSome};
ghost use Rattle.qscript_text.specs.Reading.Number.{digits_of, number_of, priority_of, signed_of, integer_of};
ghost use Rattle.qscript_text.specs.Reading.Number.{below};

use crate::fault::LineFault;
use qbase::priority::Priority;

const MOST_DIGITS: usize = 20;

/// Returns the value of one to twenty digits.
#[tactic(auto, unfolding(crate::specs::Reading::Number::digits_of))]
pub fn digits(word: &[u8]) -> Option<u128>
    ensures value { result ≡ digits_of word.now }
    ensures small { IfSome result (λ n. n < 10 ^ 20) }
{
    if word.is_empty() || word.len() > MOST_DIGITS {
        return None;
    }
    let mut value = 0u128;
    for digit in word {
        if !digit.is_ascii_digit() {
            return None;
        }
        value = value * 10 + u128::from(*digit - b'0');
    }
    Some(value)
}

/// Reads a number below 256.
#[tactic(auto, unfolding(crate::specs::Reading::Number::number_of))]
pub fn small(word: &[u8]) -> Result<u8, LineFault>
    ensures { result ≡ number_of 256 word.now }
{
    match digits(word) {
        Some(value) if value < 256 => Ok(value as u8),
        _ => Err(LineFault::BadNumber),
    }
}

/// Returns a number below 256 as a byte. Any other number is `BadNumber`.
pub fn small_number(number: u64) -> Result<u8, LineFault>
    ensures { result ≡ below 256 number }
{
    if number < 256 {
        Ok(number as u8)
    } else {
        Err(LineFault::BadNumber)
    }
}

/// Reads a number of 64 bits.
#[tactic(auto, unfolding(crate::specs::Reading::Number::number_of))]
pub fn number(word: &[u8]) -> Result<u64, LineFault>
    ensures { result ≡ number_of (2 ^ 64) word.now }
{
    match digits(word) {
        Some(value) if value <= u64::MAX as u128 => Ok(value as u64),
        _ => Err(LineFault::BadNumber),
    }
}

/// Reads a priority, 1 to 255. A word that isn't a number below 256 is `BadNumber`, and 0 is `BadPriority`.
#[tactic(auto, unfolding(crate::specs::Reading::Number::priority_of))]
pub fn priority(word: &[u8]) -> Result<Priority, LineFault>
    ensures { result ≡ priority_of word.now }
{
    let level = small(word)?;
    match Priority::new(level) {
        Some(priority) => Ok(priority),
        None => Err(LineFault::BadPriority),
    }
}

/// Returns the value of one to twenty digits, with or without a minus sign in front.
#[tactic(auto, unfolding(crate::specs::Reading::Number::signed_of))]
pub fn signed_number(word: &[u8]) -> Option<i128>
    ensures { result ≡ signed_of word.now }
{
    match word {
        [b'-', rest @ ..] => match digits(rest) {
            Some(value) => Some(-(value as i128)),
            None => None,
        },
        _ => match digits(word) {
            Some(value) => Some(value as i128),
            None => None,
        },
    }
}

/// Reads a signed number of 64 bits.
#[tactic(auto, unfolding(crate::specs::Reading::Number::integer_of))]
pub fn wide(word: &[u8]) -> Result<i64, LineFault>
    ensures { result ≡ integer_of (2 ^ 63) word.now }
{
    match signed_number(word) {
        Some(value) if value >= i64::MIN as i128 && value <= i64::MAX as i128 => Ok(value as i64),
        _ => Err(LineFault::BadNumber),
    }
}

/// Reads a signed number of 32 bits.
#[tactic(auto, unfolding(crate::specs::Reading::Number::integer_of))]
pub fn narrow(word: &[u8]) -> Result<i32, LineFault>
    ensures { result ≡ integer_of (2 ^ 31) word.now }
{
    match signed_number(word) {
        Some(value) if value >= i32::MIN as i128 && value <= i32::MAX as i128 => Ok(value as i32),
        _ => Err(LineFault::BadNumber),
    }
}

/// Reads a signed number of 8 bits.
#[tactic(auto, unfolding(crate::specs::Reading::Number::integer_of))]
pub fn byte(word: &[u8]) -> Result<i8, LineFault>
    ensures { result ≡ integer_of (2 ^ 7) word.now }
{
    match signed_number(word) {
        Some(value) if value >= i8::MIN as i128 && value <= i8::MAX as i128 => Ok(value as i8),
        _ => Err(LineFault::BadNumber),
    }
}
