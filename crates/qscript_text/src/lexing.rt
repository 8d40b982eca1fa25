//! Splits a line into words, texts in quotes, sizes in brackets and signs, up to a comment.

pub mod name;
pub mod quoted;
pub mod token;
pub mod values;
