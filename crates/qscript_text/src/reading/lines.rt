//! Takes one line after another from the front of a text.

ghost use Rattle.std.specs.Prelude.{◌≡◌, ◌+◌, ◌<◌, ◌≤◌, [], ◌∷◌, drop, length, position, MatchOption, IfSome};
ghost use Rattle.std.specs.List.{position_or_len};
ghost use Rattle.qscript_text.specs.Reading.Lines.{lines_of, is_newline, without_last};

/// Returns a line without the carriage return at its end. Only one carriage return is removed.
fn trim_return(line: &[u8]) -> &[u8]
    ensures { result.now ≡ without_last 13 line.now }
{
    match line {
        [front @ .., b'\r'] => front,
        _ => line,
    }
}

/// Returns the index of the first line end.
fn newline(text: &[u8]) -> Option<usize>
    ensures place { result ≡ position is_newline text.now }
    ensures within { IfSome result (λ at. at < length text.now) }
{
    text.iter().position(|b| *b == b'\n')
}

/// Returns the number of bytes before the first line end, or of all bytes if there is none.
#[tactic(auto, using(crate::proofs::Texts::Words::place_some, crate::proofs::Texts::Words::place_none))]
fn line_len(text: &[u8]) -> usize
    ensures place { result ≡ position_or_len is_newline text.now }
    ensures within { result ≤ length text.now }
{
    match newline(text) {
        Some(at) => at,
        None => text.len(),
    }
}

/// Returns the text after the byte at this index, or nothing if the text is shorter.
fn after(text: &[u8], at: usize) -> &[u8]
    ensures value { result.now ≡ drop (at + 1) text.now }
    ensures shorter { 0 < length text.now → length result.now < length text.now }
{
    if at < text.len() {
        text.split_at(at + 1).1
    } else {
        &[]
    }
}

/// Returns the first line of a text, without its line end, and the text after it. `None` if the text is
/// empty.
pub fn next_line(text: &[u8]) -> Option<(&[u8], &[u8])>
    ensures lines { MatchOption result (lines_of text.now ≡ [])
        (λ next. lines_of text.now ≡ next.0.now ∷ lines_of next.1.now) }
    ensures shorter { IfSome result (λ next. length next.1.now < length text.now) }
{
    if text.is_empty() {
        return None;
    }
    let end = line_len(text);
    let line = trim_return(text.split_at(end).0);
    Some((line, after(text, end)))
}
