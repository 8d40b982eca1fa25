//! The types that all crates of the kernel share: ids, errors, thread states, channel flags, priorities and
//! bytes.
#![tactic(auto)]

pub mod byte_set;
pub mod bytes;
pub mod copying;
pub mod errno;
pub mod flags;
pub mod ids;
pub mod priority;
pub mod state;
