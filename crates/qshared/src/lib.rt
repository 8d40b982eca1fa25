//! The locked kernel for real threads: one lock around a kernel and its history, a port for each thread, and
//! cells. Threads take completions out of the cells without the lock.
#![tactic(auto)]

mod admitting;
pub mod asking;
pub mod called;
mod cell_steps;
mod close_buffers;
pub mod delivery;
pub mod desk;
pub mod desk_port;
pub mod ghost_history;
pub mod ghost_trace;
mod handing;
pub mod history;
pub mod history_laws;
mod lock_state;
pub mod log;
mod logged_copy;
pub mod observed_prefix;
pub mod opened_desk;
pub mod opener;
pub mod parts;
pub mod port;
mod preallocated;
pub mod recorded_history;
pub mod report;
pub mod shared;
mod spin_policy;
mod spinning;
pub mod tie;
pub mod traced;
pub mod turn;
mod waker;
