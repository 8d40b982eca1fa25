//! Unproved: words and layout. Keeps the outcome of each call of a run.

use qbase::ids::ThreadNo;
use qkernel::trace::Trace;
use qmodel::call::{Call, Completion, Mark};
use qmodel::kind::CallKind;
use std::alloc::{AllocError, Global};

/// The outcome of a call.
#[derive(Clone, Copy, PartialEq, Eq)]
pub enum CallEnd {
    /// It hasn't completed: its thread is blocked in it.
    Open,
    /// It succeeded, with the result `Ok`.
    Accepted,
    /// It was refused: it failed in its own event.
    Refused,
    /// It was cancelled: it failed in the event of another call.
    Cut,
    /// It created a channel.
    Channel,
    /// It attached a connection.
    Connection,
    /// It received the message with this number.
    Message(u64),
    /// It received the pulse with this number.
    Pulse(u64),
    /// Its message got a reply, or it returned a count, data or a state.
    Other,
}

impl CallEnd {
    /// Returns the outcome that a result shows. `is_own` says whether the call completed in its own event.
    fn of(mark: Mark, is_own: bool) -> CallEnd {
        match mark {
            Mark::Ok => CallEnd::Accepted,
            Mark::Failed(_) if is_own => CallEnd::Refused,
            Mark::Failed(_) => CallEnd::Cut,
            Mark::Channel(_) => CallEnd::Channel,
            Mark::Connection(_) => CallEnd::Connection,
            Mark::Message { rcvid, .. } => CallEnd::Message(rcvid.0),
            Mark::Pulse { item, .. } => CallEnd::Pulse(item),
            _ => CallEnd::Other,
        }
    }
}

/// A call that was made: its thread, its kind, its first operand, and its outcome.
#[derive(Clone, Copy)]
pub struct PastCall {
    pub thread: ThreadNo,
    pub kind: CallKind,
    /// Its first operand: an id, a thread or flags; 0 for a Shutdown.
    pub operand: u64,
    /// Its outcome, or `Open` if it hasn't completed.
    pub end: CallEnd,
    /// The number of the call in whose event it completed, or 0 if it hasn't completed.
    pub ended_by: u64,
}

impl PastCall {
    /// Returns a call that was just made and hasn't completed.
    pub fn of(thread: ThreadNo, call: &Call) -> PastCall {
        PastCall {
            thread,
            kind: call.kind(),
            operand: call.operand().unwrap_or(0),
            end: CallEnd::Open,
            ended_by: 0,
        }
    }
}

/// The calls of a run so far, in order. Calls are numbered from 1.
#[derive(Drop)]
pub struct CallHistory {
    calls: Vec<PastCall>,
}

impl CallHistory {
    /// Returns a history without calls.
    pub fn new(alloc: Global) -> CallHistory {
        let calls = Vec::new(alloc);
        CallHistory { calls }
    }

    /// Returns the history of the calls of a run.
    pub fn of(alloc: Global, run: &Trace) -> Result<CallHistory, AllocError> {
        let mut history = CallHistory::new(alloc);
        for k in 0..run.len() {
            history.add(PastCall::of(run.thread(k), run.call(k)), run.completions(k))?;
        }
        Ok(history)
    }

    /// Adds the next call and the completions of its event.
    pub fn add(&mut self, past: PastCall, completions: &[Completion]) -> Result<(), AllocError> {
        self.calls.push(past)?;
        let number = self.made();
        for completion in completions {
            if let Some(past) = self
                .calls
                .get_mut(completion.call.saturating_sub(1) as usize)
            {
                past.end = CallEnd::of(completion.mark, completion.call == number);
                past.ended_by = number;
            }
        }
        Ok(())
    }

    /// Returns the number of calls, which is also the number of the last call.
    pub fn made(&self) -> u64 {
        self.calls.len() as u64
    }

    /// Returns the calls in order.
    pub fn calls(&self) -> &[PastCall] {
        self.calls.as_slice()
    }

    /// Returns the call with this number, or `None` if it isn't made yet.
    pub fn call(&self, number: u64) -> Option<PastCall> {
        self.calls.get(number.checked_sub(1)? as usize).copied()
    }

    /// Returns the number of the first call of this kind with this first operand whose outcome is `Accepted`.
    pub fn accepted(&self, kind: CallKind, operand: u64) -> Option<u64> {
        let is_it = |past: &PastCall| past.kind == kind
            && past.operand == operand
            && past.end == CallEnd::Accepted;
        let place = self.calls.iter().position(is_it)?;
        Some((place as u64).saturating_add(1))
    }

    /// Returns the thread that received a message.
    pub fn receiver_of(&self, message: u64) -> Option<ThreadNo> {
        let mut calls = self.calls.iter();
        Some(
            calls
                .find(|past| past.end == CallEnd::Message(message))?
                .thread,
        )
    }
}
