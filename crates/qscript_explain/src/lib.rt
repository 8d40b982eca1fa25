//! Unproved: words and layout. Explains the faults of scripts, why calls fail, and which threads wait for
//! which.
#![tactic(auto)]

pub mod excerpt;
pub mod explained_run;
pub mod explanation;
pub mod faults;
pub mod history;
pub mod odd_buffer;
pub mod plain_fault;
pub mod report;
pub mod session;
pub mod states;
pub mod waiting;
pub mod why;

pub use explanation::{Explanation, explain};
