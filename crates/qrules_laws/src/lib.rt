//! Laws of every valid history, which follow from the rules of the kernel's calls. The functions do nothing:
//! the contract of each is a law. No code of a kernel uses them; they show a reader that the definitions have
//! the intended meaning.
#![tactic(auto)]

pub mod completions;
pub mod ids;
pub mod open_calls;
pub mod pending;
pub mod properties;
