//! The kernel of synchronous messages. It makes calls one at a time, and `run` makes a list of calls. The
//! contracts describe the completions of each call by the history of events.
#![tactic(auto)]

pub mod event_log;
pub mod kernel;
pub mod lent_call;
pub mod run;
pub mod trace;

pub use qkernel_state::{completions, thread_ref};
pub use qmodel::{call, open_call};
