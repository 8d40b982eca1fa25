//! Prints the result of a call.

ghost use Rattle.std.specs.Prelude.{◌≡◌, ◌++◌, ◌∷◌, [], IfOk, IsFalse, IsTrue, List, None, OnOk, Some};
ghost use Rattle.std.specs.Prelude.{slice_get, string_bytes, ℕ};
ghost use Rattle.qscript.specs.Printing.Words.{words_with_spaces};
ghost use Rattle.qscript_text.specs.ResultParts.{mark_words, part_word};

use qkernel::call::Mark;
use qscript_text::result_parts::{MOST_PARTS, ResultPart, part_at};
use std::alloc::AllocError;

/// Adds a space and the word of a part.
fn push_part(out: &mut String, part: ResultPart<'_>) -> Result<(), AllocError>
    ensures { OnOk result (string_bytes out.new ≡ string_bytes out.old ++ words_with_spaces
        (part_word part.entry ∷ [])) }
{
    match part {
        ResultPart::Word(word) => write!(out, " {word}"),
        ResultPart::Signed(number) => write!(out, " {number}"),
        ResultPart::Number(number) | ResultPart::Id(number) => write!(out, " {number}"),
        ResultPart::Thread(number) | ResultPart::Process(number) => write!(out, " {number}"),
        ResultPart::Copied(count) | ResultPart::Counted(count) => write!(out, " {count}"),
    }
}

/// Adds a space and the word of the part at an index. Returns whether the result has this part.
fn push_part_at(out: &mut String, mark: &Mark, at: usize) -> Result<bool, AllocError>
    ensures some { IfOk result (λ has. IsTrue has → (word : List ℕ)
        × (slice_get (mark_words mark.now) at ≡ Some word)
        × (string_bytes out.new ≡ string_bytes out.old ++ words_with_spaces (word ∷ []))) }
    ensures none { IfOk result (λ has. IsFalse has → (slice_get (mark_words mark.now) at ≡ None)
        × (out.new ≡ out.old)) }
{
    match part_at(*mark, at) {
        Some(part) => {
            push_part(out, part)?;
            Ok(true)
        }
        None => Ok(false),
    }
}

/// Adds the words of a result, each after a space.
pub fn push_mark(out: &mut String, mark: Mark) -> Result<(), AllocError>
    ensures { OnOk result (string_bytes out.new ≡ string_bytes out.old ++ words_with_spaces
        (mark_words mark)) }
{
    for at in 0..MOST_PARTS {
        if !push_part_at(out, &mark, at)? {
            return Ok(());
        }
    }
    Ok(())
}
