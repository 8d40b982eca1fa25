//! Recognizes names.

/// Returns whether a byte may occur in a name after its first byte.
fn goes_on(byte: u8) -> bool {
    byte.is_ascii_alphanumeric() || matches!(byte, b'_' | b'-' | b'.')
}

/// Returns whether a word is a name: a letter or `_`, followed by letters, digits, `_`, `-` and `.`.
pub fn is_name(word: &[u8]) -> bool {
    match word {
        [first, rest @ ..] => {
            (first.is_ascii_alphabetic() || *first == b'_') && rest.iter().all(|b| goes_on(*b))
        }
        [] => false,
    }
}
