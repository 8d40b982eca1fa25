//! The kernel for threads that run in parallel: one lock around a kernel, and a port for each thread.
//!
//! `Parts` are made from a roster. A function over `K: Tie` opens a `Shared` kernel from them, and gets a
//! `Port` for each thread; it is called with `std::marker::Brand`. Once all ports are returned, `finish`
//! returns a report: the history, if the kernel keeps it, the number of calls, and the completions that
//! weren't collected.

pub use qshared::called::{Called, CalledPair};
pub use qshared::ghost_history::GhostHistory;
pub use qshared::log::Log;
pub use qshared::observed_prefix::ObservedPrefix;
pub use qshared::parts::Parts;
pub use qshared::port::Port;
pub use qshared::recorded_history::RecordedHistory;
pub use qshared::report::{EventCounts, Report};
pub use qshared::shared::Shared;
pub use qshared::tie::Tie;
