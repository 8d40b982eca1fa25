//! The queue of one channel: the messages and pulses that were sent to it and not yet received.
#![tactic(auto)]

pub mod item;
mod level_heads;
mod level_rings;
mod links;
mod node;
mod order;
pub mod queue;
pub mod queue_laws;
