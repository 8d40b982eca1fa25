//! A line of text, whose characters are written in any order.

use std::alloc::{AllocError, Global};

/// The characters of a line so far, all ASCII.
#[derive(Drop)]
pub struct TextLine {
    places: Vec<u8>,
}

impl TextLine {
    /// Returns an empty line.
    pub fn new(alloc: Global) -> TextLine {
        let places = Vec::new(alloc);
        TextLine { places }
    }

    /// Writes words at a place, counted from 0. Spaces fill the line up to the place.
    pub fn put(&mut self, place: usize, words: &str) -> Result<(), AllocError> {
        for (at, byte) in words.bytes().enumerate() {
            let at = place.saturating_add(at);
            for _ in self.places.len()..at.saturating_add(1) {
                self.places.push(b' ')?;
            }
            if let Some(there) = self.places.get_mut(at) {
                *there = byte;
            }
        }
        Ok(())
    }

    /// Like `put`, for a string that is used only here.
    pub fn put_made(&mut self, place: usize, words: String) -> Result<(), AllocError> {
        self.put(place, words.as_str())
    }

    /// Writes words with a space on each side. The words begin at the place.
    pub fn put_spaced(&mut self, place: usize, words: &str) -> Result<(), AllocError> {
        self.put(place.saturating_sub(1), " ")?;
        self.put(place, words)?;
        self.put(place.saturating_add(words.len()), " ")
    }

    /// Writes a sign at each place of a range.
    pub fn fill(&mut self, start: usize, end: usize, sign: &str) -> Result<(), AllocError> {
        for place in start..end {
            self.put(place, sign)?;
        }
        Ok(())
    }

    /// Adds the line to a text, without trailing spaces and with a newline.
    pub fn end(&self, out: &mut String) -> Result<(), AllocError> {
        let last = self.places.iter().rposition(|byte| *byte != b' ');
        let len = last.map_or(0, |last| last.saturating_add(1));
        for byte in self.places.iter().take(len) {
            out.push(char::from(*byte))?;
        }
        out.push('\n')
    }
}
