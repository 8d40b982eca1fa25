//! Reads the text of a script: its lines, their words, the roster and the calls.
#![tactic(auto)]

pub mod fault;
pub mod grammar;
pub mod lexing;
pub mod near;
pub mod parts;
pub mod place;
pub mod reading;
pub mod result_parts;
pub mod states;
pub mod text_fault;
pub mod word;

pub use reading::script::{MOST_TEXT, Script, parse};
