//! Reads a call from its word and its operands.

ghost use Rattle.std.specs.Prelude.{◌≡◌};
ghost use Rattle.std.specs.Str.{bytes_eq};
ghost use Rattle.qscript_text.specs.Reading.Call.{call_of};
ghost use Rattle.qscript_text.specs.Reading.Steps.{Gives};
ghost use Rattle.qscript_text.specs.Reading.Words.{words_of};

use crate::fault::{LineFault, ParseError};
use crate::reading::forms::Values;
use qmodel::call::Call;
use qmodel::kind::CallKind;
use std::alloc::Global;

/// Returns whether the word is `name`.
pub fn is(word: &[u8], name: &str) -> bool
    ensures { result ≡ bytes_eq word.now name.now }
{
    word == name.as_bytes()
}

/// Returns the call of a word and its operands.
#[tactic(auto, unfolding(crate::specs::Reading::Call::call_of))]
pub fn call_named(alloc: Global, word: &[u8], operands: &[u8]) -> Result<Call, ParseError>
    ensures { Gives result (call_of word.now (words_of operands.now)) }
{
    let Some(kind) = CallKind::of_word(word) else {
        return Err(ParseError::Fault(LineFault::UnknownWord));
    };
    let values = Values::read(alloc, kind.form().operands, operands)?;
    Ok(Call::of(kind, values.numbers, values.bytes, values.buffer))
}
