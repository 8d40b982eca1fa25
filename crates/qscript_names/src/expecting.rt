//! Compares a run with the expectations of its script.

pub mod check;
pub mod completion_parts;
pub mod names;
