//! The reports of a shared kernel when it is closed.

use qkernel::trace::Trace;
use qmodel::call::Completion;

/// The report of a shared kernel that keeps its history, when it is closed.
#[derive(Debug, Drop)]
pub struct Report {
    /// All events. The first has the number 1.
    pub trace: Trace,
    /// The number of each thread's calls that are events, in ascending order of thread number.
    pub calls: Vec<u64>,
    /// The completions that weren't collected, in ascending order of thread number. Each thread has at most
    /// one.
    pub left: Vec<Completion>,
}

/// The report of a shared kernel that keeps no history, when it is closed.
#[derive(Debug, Drop)]
pub struct EventCounts {
    /// The number of each thread's calls that are events, in ascending order of thread number.
    pub calls: Vec<u64>,
    /// The completions that weren't collected, in ascending order of thread number. Each thread has at most
    /// one.
    pub left: Vec<Completion>,
}
