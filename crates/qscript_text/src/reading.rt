//! Reads the bytes of a plain script: its lines, their words, the roster and the calls.

pub mod bytes;
pub mod call;
pub mod forms;
pub mod line;
pub mod lines;
pub mod number;
pub mod operand_value;
pub mod script;
pub mod text_laws;
pub mod words;
