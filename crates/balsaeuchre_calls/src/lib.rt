//! The kernel's calls under QNX Neutrino's names. Each waits for its completion and returns the call's
//! result.
#![tactic(auto)]

pub mod alarms;
pub mod caller;
pub mod calls;
pub mod completed;
pub mod endpoint;
pub mod error;
mod messages;
pub mod opening;
mod reply_memory;
pub mod results;
pub mod simulator;
mod timekeeper;
mod timeouts;
mod with_bytes;

/// The result of a call, or its error.
pub type Result<T> = std::result::Result<T, error::CallError>;
