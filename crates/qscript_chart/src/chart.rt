//! The chart of a run.

use crate::row::{ChartRow, Tone};
use qbase::ids::ThreadNo;
use qkernel::open_call::Blocked;
use qscript_explain::waiting::{Deadlock, Wait};
use qscript_names::context::Context;
use qtables::member::Member;
use std::alloc::AllocError;

/// The result of adding words or lines to a drawing.
pub type Drawn = Result<(), AllocError>;

/// The chart of a run: a lifeline for each thread, and a row for each call.
#[derive(Drop)]
pub struct Chart {
    /// The threads from left to right. The threads of a process are neighbours.
    pub lifelines: Vec<Member>,
    /// The rows of the calls in order.
    pub rows: Vec<ChartRow>,
    /// The number of the call before the first row.
    pub before: u64,
    /// The threads that are blocked before the first row.
    pub blocked: Vec<Blocked>,
    /// The threads whose messages have no reply at the end of the run.
    pub waits: Vec<Wait>,
    /// The deadlocks among these threads.
    pub deadlocks: Vec<Deadlock>,
    /// How the calls are drawn, from call 1 on. It is empty if all are drawn as usual.
    pub tones: Vec<Tone>,
}

impl Chart {
    /// Returns the column of a thread, from 0 at the left, or 0 if it has none.
    pub fn column(&self, thread: ThreadNo) -> usize {
        let mut lifelines = self.lifelines.iter();
        let place = lifelines.position(|member| member.thread == thread);
        place.unwrap_or(0)
    }

    /// Returns how the call with this number is drawn.
    pub fn tone(&self, number: u64) -> Tone {
        let tone = self.tones.get(number.saturating_sub(1) as usize);
        tone.copied().unwrap_or(Tone::Usual)
    }

    /// Returns the length in bytes of the longest words beside a lifeline.
    pub fn longest_words(&self) -> usize {
        let mut most = 0usize;
        for row in &self.rows {
            most = most.max(row.words.len());
            for label in &row.labels {
                most = most.max(label.len());
            }
        }
        most
    }

    /// Returns the length in bytes of the longest head of a thread.
    pub fn longest_head(&self, names: Context<'_>) -> Result<usize, AllocError> {
        let mut most = 0usize;
        for member in &self.lifelines {
            most = most.max(head(names, member)?.len());
        }
        Ok(most)
    }
}

/// Returns the head of a thread, `thread THREAD (process PROCESS)`.
pub fn head(names: Context<'_>, member: &Member) -> Result<String, AllocError> {
    let thread = names.thread(member.thread);
    let process = names.process(member.process);
    format!(in names.alloc; "thread {thread} (process {process})")
}
