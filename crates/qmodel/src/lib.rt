//! The calls of the kernel, their results, and the open calls in which threads are blocked.
#![tactic(auto)]

pub mod call;
pub mod kind;
pub mod open_call;
pub mod operands;
