//! A row of a chart: one call and its effects.

use crate::arrow::Arrow;
use crate::changes::Level;
use qbase::errno::Errno;
use qbase::ids::ThreadNo;
use qkernel::open_call::Blocked;

/// A cancelled call of another thread.
#[derive(Clone, Copy, PartialEq, Eq)]
pub struct CancelledCall {
    /// The number of the cancelled call.
    pub number: u64,
    pub thread: ThreadNo,
    pub errno: Errno,
}

/// How a call is drawn.
#[derive(Clone, Copy, PartialEq, Eq)]
pub enum Tone {
    Usual,
    /// In red: a fault shows in it.
    Faulty,
    /// In grey: it doesn't matter to the fault.
    Harmless,
}

/// A call and its effects.
pub struct ChartRow {
    /// The number of the call.
    pub number: u64,
    /// The thread that made the call.
    pub thread: ThreadNo,
    /// The call in a few words, and its result if it completed in its own event.
    pub words: String,
    /// The arrows of the messages, pulses and replies that arrived, in the order of the completions.
    pub arrows: Vec<Arrow>,
    /// The words of each of these arrows.
    pub labels: Vec<String>,
    /// The cancelled calls of other threads, by rising thread number.
    pub cuts: Vec<CancelledCall>,
    /// The threads whose priority changed, by rising number, with the new priority.
    pub changes: Vec<Level>,
    /// The threads that are blocked after the call, by rising number.
    pub blocked: Vec<Blocked>,
}

// Each place that drops one calls this. A derived drop would be repeated, and proved, at each of them.
impl Drop for ChartRow {
    fn drop(self) {
        let ChartRow {
            number: _,
            thread: _,
            words: _,
            arrows: _,
            labels: _,
            cuts: _,
            changes: _,
            blocked: _,
        } = self;
    }
}
