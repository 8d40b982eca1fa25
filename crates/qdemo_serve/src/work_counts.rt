//! Counts the work of workers.

use crate::fault::WorkerFault;
use balsaeuchre_calls::error::CallError;

/// The work of one worker, or of several workers together.
#[derive(Clone, Copy, Default, PartialEq, Eq)]
pub struct WorkCounts {
    /// Messages that a client sent and got a reply for.
    pub sent: u64,
    /// Messages that a server replied to.
    pub answered: u64,
    /// Pulses that a server counted.
    pub pulses: u64,
    /// The sum of all replies of the sum service, as the clients added them up.
    pub sum: u64,
}

impl WorkCounts {
    /// Returns the work of two workers together. A number that would exceed 2^64 - 1 is 2^64 - 1.
    pub fn plus(self, other: WorkCounts) -> WorkCounts {
        WorkCounts {
            sent: self.sent.saturating_add(other.sent),
            answered: self.answered.saturating_add(other.answered),
            pulses: self.pulses.saturating_add(other.pulses),
            sum: self.sum.saturating_add(other.sum),
        }
    }

    /// Counts one message that was sent and got a reply, and adds this number to the sum of the replies.
    pub fn count_sent(&mut self, sum: u64) {
        self.sent = self.sent.saturating_add(1);
        self.sum = self.sum.saturating_add(sum);
    }

    /// Counts one message that was replied to.
    pub fn count_answered(&mut self) {
        self.answered = self.answered.saturating_add(1);
    }

    /// Counts one pulse.
    pub fn count_pulse(&mut self) {
        self.pulses = self.pulses.saturating_add(1);
    }
}

/// Returns the results of two workers together, or an error: `NoMemory` if either has it, otherwise the first
/// one's error if it has one.
pub fn both(
    first: Result<WorkCounts, WorkerFault>,
    second: Result<WorkCounts, WorkerFault>,
) -> Result<WorkCounts, WorkerFault> {
    match (first, second) {
        (Ok(first), Ok(second)) => Ok(first.plus(second)),
        (Err(WorkerFault::Call(CallError::NoMemory)), _)
        | (_, Err(WorkerFault::Call(CallError::NoMemory))) => {
            Err(WorkerFault::Call(CallError::NoMemory))
        }
        (Err(fault), _) | (_, Err(fault)) => Err(fault),
    }
}
