//! Finds the name that a misspelt word was probably meant to be.

use crate::grammar::ROSTER;
use qmodel::kind::LISTED;
use std::alloc::{AllocError, Global};
use std::str;
use strsim::osa_distance;

/// The most edits by which a word may differ from a name and still count as near. An edit replaces, inserts
/// or removes a letter, or swaps two neighbours.
const MOST_EDITS: usize = 2;

/// The most bytes of a word that are quoted.
const MOST_QUOTED: usize = 24;

/// Returns the name that is nearest to a word, or `None` if none is near. Among equally near names the first
/// is taken. A near word differs by at most two edits, and by at most half of the name's bytes, rounded down,
/// less `slack`. With a `slack` of 0, a name isn't near to itself.
fn nearest_within<'a>(
    alloc: Global,
    word: &str,
    names: &[&'a str],
    slack: usize,
) -> Result<Option<&'a str>, AllocError> {
    let mut fewest = usize::MAX;
    let mut found = None;
    for name in names {
        let most = MOST_EDITS.min((name.len() / 2).saturating_sub(slack));
        if word.len() > name.len().saturating_add(most) {
            continue;
        }
        let edits = osa_distance(alloc, word, name)?;
        let is_same = edits == 0 && slack == 0;
        if edits <= most && edits < fewest && !is_same {
            fewest = edits;
            found = Some(*name);
        }
    }
    Ok(found)
}

/// Returns the name that is nearest to a word, or `None` if none is near. Among equally near names the first
/// is taken.
pub fn nearest<'a>(
    alloc: Global,
    word: &str,
    names: &[&'a str],
) -> Result<Option<&'a str>, AllocError> {
    nearest_within(alloc, word, names, 0)
}

/// Returns the keyword that is nearest to a word, or `None` if none is near. The word may have capital
/// letters. Keywords are short, so they are compared with a slack of 1.
fn nearest_keyword(
    alloc: Global,
    word: &[u8],
    keywords: &[&'static str],
) -> Result<Option<&'static str>, AllocError> {
    let Ok(word) = str::from_utf8(word) else {
        return Ok(None);
    };
    let word = word.to_ascii_lowercase(alloc)?;
    nearest_within(alloc, word.as_str(), keywords, 1)
}

/// Returns the name of the call that is nearest to a word. Among equally near names the first of the table is
/// taken.
pub fn near_call(alloc: Global, word: &[u8]) -> Result<Option<&'static str>, AllocError> {
    let mut words = Vec::new(alloc);
    for kind in &LISTED {
        words.push(kind.word())?;
    }
    nearest_keyword(alloc, word, words.as_slice())
}

/// Returns the first 24 bytes of a word as text, or `?` if they aren't text.
pub fn quotation(bytes: &[u8]) -> &str {
    let front = bytes.get(..MOST_QUOTED).unwrap_or(bytes);
    str::from_utf8(front).unwrap_or("?")
}

/// Returns whether a word is near to `thread`, the first word of a roster line.
pub fn is_near_roster(alloc: Global, word: &[u8]) -> Result<bool, AllocError> {
    Ok(nearest_keyword(alloc, word, &[ROSTER.word])?.is_some())
}
