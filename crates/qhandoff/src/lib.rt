//! Hands completions from the kernel to threads without a lock. Each thread has a cell, which the kernel's
//! token fills and the thread's own token empties.
#![tactic(auto)]

mod calls;
pub mod cells;
mod closing;
pub mod delivered;
pub mod handoff_laws;
mod making;
pub mod seats;
mod steps;
pub mod view;
