//! A log of events.

ghost use Rattle.std.specs.Prelude.{◌≡◌, ◌+◌, ◌-◌, ◌<◌, ◌≤◌, ◌++◌, [], ◌∷◌, length, IfOk, IsOk, OnOk};
ghost use Rattle.std.specs.Prelude.{vec_len, vec_capacity};
ghost use Rattle.arrayvec.specs.ArrayVec.{array_vec_len};
ghost use Rattle.qkernel.specs.EventLog.{with_next};

use crate::trace::{Entry, Trace};
use qbase::ids::ThreadNo;
use qkernel_state::completions::Completions;
use qmodel::call::{Call, Completion};
use std::alloc::{AllocError, Global};
use std::marker::Model;

/// The events of a kernel, in order. A call is noted before it is made, and its completions are added after
/// it was made. Then `event` turns the call and its completions into an event. Only `with_room` and `reserve`
/// take memory.
///
/// Contracts see the events, the noted calls, the completions of the next call, and the numbers of further
/// calls and completions for which there is room.
#[derive(Debug, Drop)]
pub struct EventLog {
    // The entries of the events, followed by the entries of the noted calls.
    entries: Vec<Entry>,
    completions: Vec<Completion>,
    // The number of entries that are events.
    made: usize,
    // The index at which the completions of the next call begin.
    start: usize,
}

impl Model for EventLog {
    ghost use Rattle.std.specs.Prelude.{◌-◌};
    ghost use Rattle.std.specs.Vec.{vec_len, vec_capacity};
    ghost use Rattle.qkernel.specs.EventLog.{Logged};

    ghost Value = { Logged };

    ghost use Rattle.qkernel.specs.LoggedEvents.{logged_by, IsKept};

    ghost view = { λ l. (
        logged_by l.entries.items l.completions.items l.made l.start
        (vec_capacity l.entries - vec_len l.entries) (vec_capacity l.completions - vec_len l.completions)) };

    ghost invariant = { λ l. IsKept l.entries.items l.completions.items l.made l.start };
}

/// Moves the completions of one event to the end of the list, which must have room for them.
fn append(all: &mut Vec<Completion>, completions: &mut Completions)
    requires { vec_len all.old + array_vec_len completions.old ≤ vec_capacity all.old }
    ensures items { all.new.items ≡ all.old.items ++ completions.old.items }
    ensures capacity { vec_capacity all.new ≡ vec_capacity all.old }
    ensures emptied { completions.new.items ≡ [] }
{
    completions.as_mut_slice().reverse();
    while let Some(completion) = completions.pop() {
        all.push_reserved(completion);
    }
}

/// Records the range of an entry's completions: from `start` up to, but not including, `end`.
fn place(entry: &mut Entry, start: usize, end: usize)
    ensures { entry.new ≡ record entry.old { start = start; end = end } }
{
    entry.start = start;
    entry.end = end;
}

impl EventLog {
    /// Makes an empty log with room for these numbers of calls and completions.
    pub fn with_room(
        alloc: Global,
        calls: usize,
        completions: usize,
    ) -> Result<EventLog, AllocError>
        ensures empty { IfOk result (λ log. (log.events ≡ []) × (log.noted ≡ []) × (log.completions ≡ [])) }
        ensures room { IfOk result (λ log. (log.call_room ≡ calls) × (log.completion_room ≡ completions)) }
    {
        let entries = Vec::with_capacity(alloc, calls)?;
        let completions = Vec::with_capacity(alloc, completions)?;
        Ok(EventLog {
            entries,
            completions,
            made: 0,
            start: 0,
        })
    }

    /// Makes room for these numbers of further calls and completions.
    pub fn reserve(&mut self, calls: usize, completions: usize) -> Result<(), AllocError>
        ensures same { self.new ≡ record self.old {
          call_room = self.new.call_room;
          completion_room = self.new.completion_room;
        } }
        ensures kept { (self.old.call_room ≤ self.new.call_room)
            × (self.old.completion_room ≤ self.new.completion_room) }
        ensures room { OnOk result ((calls ≤ self.new.call_room) × (completions ≤ self.new.completion_room)) }
        ensures succeeds { (calls ≤ self.old.call_room) × (completions ≤ self.old.completion_room)
            → IsOk result }
    {
        self.entries.reserve(calls)?;
        self.completions.reserve(completions)
    }

    /// Notes a call, which is made after all calls that were noted before. There must be room for it.
    pub fn note(&mut self, thread: ThreadNo, call: Call)
        requires { 0 < self.old.call_room }
        ensures { self.new ≡ record self.old {
          noted = self.old.noted ++ (thread, call) ∷ [];
          call_room = self.old.call_room - 1;
        } }
    {
        self.entries.push_reserved(Entry {
            thread,
            call,
            start: 0,
            end: 0,
        });
    }

    /// Adds a completion to the next call. There must be room for it.
    pub fn push_completion(&mut self, completion: Completion)
        requires { 0 < self.old.completion_room }
        ensures { self.new ≡ record self.old {
          completions = self.old.completions ++ completion ∷ [];
          completion_room = self.old.completion_room - 1;
        } }
    {
        self.completions.push_reserved(completion);
    }

    /// Adds completions to the next call, and empties the list that they come from. There must be room for
    /// them.
    pub fn append(&mut self, completions: &mut Completions)
        requires { length completions.old.items ≤ self.old.completion_room }
        ensures logged { self.new ≡ record self.old {
          completions = self.old.completions ++ completions.old.items;
          completion_room = self.old.completion_room - length completions.old.items;
        } }
        ensures emptied { completions.new.items ≡ [] }
    {
        append(&mut self.completions, completions);
    }

    /// Turns the next call and the completions that were added into an event. The call must have been made.
    pub fn event(&mut self)
        requires { 0 < length self.old.noted }
        ensures { self.new ≡ with_next self.old }
    {
        let end = self.completions.len();
        place(&mut self.entries[self.made], self.start, end);
        self.made += 1;
        self.start = end;
    }

    /// Returns the number of events.
    pub fn len(&self) -> usize
        ensures { result ≡ length self.now.events }
    {
        self.made
    }

    /// Returns the events as the trace of a run, in which the first event has the number `first`. No noted
    /// call may be left.
    pub fn into_trace(self, first: u64) -> Trace
        requires { self.noted ≡ [] }
        ensures { result ≡ record { first = first; events = self.events } }
    {
        let EventLog {
            entries,
            completions,
            ..
        } = self;
        Trace::of(first, entries, completions)
    }
}
