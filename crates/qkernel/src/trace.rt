//! The events of a run of calls.

ghost use Rattle.std.specs.Prelude.{◌≡◌, ◌<◌, length, slice_get, Some};
ghost use Rattle.std.specs.Option.{option_map};
ghost use Rattle.qkernel.specs.LoggedEvents.{events_of, AllWithin};

use qbase::ids::ThreadNo;
use qmodel::call::{Call, Completion};
use std::marker::Model;

/// A call, and the range of its completions in the list of all completions.
#[derive(Debug, Drop)]
pub(crate) struct Entry {
    pub(crate) thread: ThreadNo,
    pub(crate) call: Call,
    pub(crate) start: usize,
    pub(crate) end: usize,
}

/// The events of a run, in order: each call with the completions of its event. Contracts see the number of
/// the first event and the list of the events.
/// `main.rt` of `crates/balsaeuchre_examples` prints a trace.
#[derive(Debug, Drop)]
pub struct Trace {
    first: u64,
    entries: Vec<Entry>,
    completions: Vec<Completion>,
}

impl Model for Trace {
    ghost use Rattle.qmodel.specs.Trace.{Run};

    ghost Value = { Run };

    ghost use Rattle.qkernel.specs.LoggedEvents.{events_of, AllWithin};

    ghost view = { λ t. record { first = t.first; events = events_of t.completions.items t.entries.items } };

    ghost invariant = { λ t. AllWithin t.completions.items t.entries.items };
}

impl Trace {
    /// Makes the trace of these entries and completions, whose first event has the number `first`.
    pub(crate) fn of(first: u64, entries: Vec<Entry>, completions: Vec<Completion>) -> Trace
        requires { AllWithin completions.items entries.items }
        ensures { result ≡ record { first = first; events = events_of completions.items entries.items } }
    {
        Trace {
            first,
            entries,
            completions,
        }
    }

    /// Returns the number of the first event. It is one more than the number of calls that the kernel had
    /// made before the run.
    pub fn first(&self) -> u64
        ensures { result ≡ self.now.first }
    {
        self.first
    }

    /// Returns the number of events.
    pub fn len(&self) -> usize
        ensures { result ≡ length self.now.events }
    {
        self.entries.len()
    }

    /// Returns the thread that made the call at index `k`, from 0.
    pub fn thread(&self, k: usize) -> ThreadNo
        requires { k < length self.now.events }
        ensures { option_map (λ e. e.thread) (slice_get self.now.events k) ≡ Some result }
    {
        let entry = &self.entries[k];
        entry.thread
    }

    /// Returns the call at index `k`, from 0.
    pub fn call(&self, k: usize) -> &Call
        requires { k < length self.now.events }
        ensures { option_map (λ e. e.call) (slice_get self.now.events k) ≡ Some result.now }
    {
        let entry = &self.entries[k];
        &entry.call
    }

    /// Returns the completions of the event at index `k`, from 0, in ascending order of thread number.
    pub fn completions(&self, k: usize) -> &[Completion]
        requires { k < length self.now.events }
        ensures { option_map (λ e. e.completions) (slice_get self.now.events k) ≡ Some result.now }
    {
        let entry = &self.entries[k];
        &self.completions[entry.start..entry.end]
    }
}
