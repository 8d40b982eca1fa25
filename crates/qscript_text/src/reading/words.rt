//! Takes one word after another from the front of a line.

ghost use Rattle.std.specs.Prelude.{◌≡◌, ◌<◌, ◌≤◌, [], ◌∷◌, drop, length, not, position, IfSome, MatchOption};
ghost use Rattle.std.specs.Prelude.{MatchResult};
ghost use Rattle.std.specs.List.{position_or_len};
ghost use Rattle.qscript_text.specs.Reading.Counts.{first_of};
ghost use Rattle.qscript_text.specs.Reading.Words.{words_of, is_blank};

use crate::fault::LineFault;

/// Returns whether a byte is a blank: a space or a tab.
fn is_blank_byte(byte: u8) -> bool
    ensures { result ≡ is_blank byte }
{
    byte == b' ' || byte == b'\t'
}

/// Returns the index of the first byte that isn't a blank.
fn word_start(text: &[u8]) -> Option<usize>
    ensures place { result ≡ position (λ b. not (is_blank b)) text.now }
    ensures within { IfSome result (λ at. at < length text.now) }
{
    text.iter().position(|b| !is_blank_byte(*b))
}

/// Returns the index of the first blank.
fn blank_start(text: &[u8]) -> Option<usize>
    ensures place { result ≡ position is_blank text.now }
    ensures within { IfSome result (λ at. at < length text.now) }
{
    text.iter().position(|b| is_blank_byte(*b))
}

/// Returns the text without the blanks at its front.
#[tactic(auto, using(crate::proofs::Texts::Words::place_some, crate::proofs::Texts::Words::place_none))]
fn skip_blanks(text: &[u8]) -> &[u8]
    ensures { result.now ≡ drop (position_or_len (λ b. not (is_blank b)) text.now) text.now }
{
    match word_start(text) {
        Some(at) => text.split_at(at).1,
        None => &[],
    }
}

/// Returns the number of bytes before the first blank, or of all bytes if there is none.
#[tactic(auto, using(crate::proofs::Texts::Words::place_some, crate::proofs::Texts::Words::place_none))]
fn word_len(text: &[u8]) -> usize
    ensures place { result ≡ position_or_len is_blank text.now }
    ensures within { result ≤ length text.now }
{
    match blank_start(text) {
        Some(at) => at,
        None => text.len(),
    }
}

/// Returns the first word of a text and the text after it, or `None` if there is no word.
pub fn next_word(text: &[u8]) -> Option<(&[u8], &[u8])>
    ensures { MatchOption result (words_of text.now ≡ [])
        (λ next. words_of text.now ≡ next.0.now ∷ words_of next.1.now) }
{
    let from_word = skip_blanks(text);
    if from_word.is_empty() {
        return None;
    }
    Some(from_word.split_at(word_len(from_word)))
}

/// Returns the first word and the text after it. Without a word the fault is `WordCount`.
pub fn first(text: &[u8]) -> Result<(&[u8], &[u8]), LineFault>
    ensures { MatchResult result (λ w. first_of (words_of text.now) ≡ Ok (w.0.now, words_of w.1.now))
        (λ e. first_of (words_of text.now) ≡ Err e) }
{
    match next_word(text) {
        Some(next) => Ok(next),
        None => Err(LineFault::WordCount),
    }
}
