//! The records of a kernel: its threads, channels and held messages, and the completions of one event.
#![tactic(auto)]

pub mod cancelling;
pub mod channel;
pub mod completions;
pub mod copies;
pub mod held;
pub mod index;
pub mod objects;
pub mod pulses;
pub mod receiver;
pub mod sender;
pub mod thread;
pub mod thread_ref;
pub mod thread_state;
pub mod threads;
pub mod unread;
