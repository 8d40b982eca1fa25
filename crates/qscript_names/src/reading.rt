//! Reads the text of a script with names.

pub mod calls;
pub mod completions;
pub mod forms;
pub mod mistakes;
pub mod operands;
pub mod results;
pub mod script;
pub mod threads;
