//! A history that is kept in memory.

ghost use Rattle.std.specs.Prelude.{◌≡◌, ◌<◌, ◌≤◌, ◌-◌, ◌^◌, ◌++◌, [], ◌∷◌, length, IfOk};
ghost use Rattle.std.specs.List.{AllByRecursion};
ghost use Rattle.qtables.specs.Members.{IsRoster};
ghost use Rattle.qrules.specs.Trace.{AreApart};
ghost use Rattle.qrules.specs.Facts.{threads_of};
ghost use Rattle.qkernel_state.specs.Contents.{members_of};
ghost use Rattle.qrules.specs.Trace.{followed_by};
ghost use Rattle.qshared.specs.Private.Recorded.{MayCopy, Copied};

use crate::admitting::admit;
use crate::handing::place_of;
use crate::log::Log;
use crate::logged_copy::LoggedCopy;
use crate::preallocated::Preallocated;
use crate::tie::Tie;
use qbase::errno::Errno;
use qkernel::completions::Completions;
use qkernel::event_log::EventLog;
use qkernel::kernel::Kernel;
use qkernel::thread_ref::ThreadRef;
use qkernel::trace::Trace;
use qmodel::call::{Call, Completion};
use std::alloc::{AllocError, Global};
use std::marker::{Model, PhantomData};
use std::mem;

/// A history in memory, with a copy of each call and of each completion. It has at most `limit` events.
#[derive(Drop)]
pub struct RecordedHistory<K: Tie> {
    alloc: Global,
    // For each thread, in ascending order of thread number, room for a copy of its open call's buffer.
    rooms: Vec<Preallocated>,
    log: EventLog,
    limit: usize,
    // The call that was noted last, room for a copy of its buffer, and whether the call isn't an event yet.
    noted: Call,
    room: Preallocated,
    ready: bool,
    of: PhantomData<K>,
}

impl<K: Tie> Model for RecordedHistory<K> {
    ghost use Rattle.std.specs.Prelude.{◌≡◌, []};
    ghost use Rattle.qrules.specs.Facts.{threads_of};
    ghost use Rattle.qrules.specs.Trace.{followed_by};
    ghost use Rattle.qshared.specs.Recorded.{KeptPast};
    ghost use Rattle.qshared.specs.Private.Recorded.{IsKept};

    ghost Value = { KeptPast };

    ghost view = { λ k. record { past = followed_by [] k.log.events; noted = k.noted; ready = k.ready } };

    ghost invariant = { λ k. (
        (k.limit ≡ K.names.limit)
        × IsKept K.names.roster k.limit (threads_of K.names.roster) k.rooms.items k.log k.noted k.room
        k.ready) };
}

/// Returns `many` rooms, each for 0 bytes.
fn no_rooms(alloc: Global, many: usize) -> Result<Vec<Preallocated>, AllocError>
    ensures { IfOk result (λ rooms. length rooms.items ≡ many) }
{
    let mut rooms = Vec::with_capacity(alloc, many)?;
    for _ in 0..many {
        rooms.push_reserved(Preallocated::none(alloc));
    }
    Ok(rooms)
}

/// Copies a completion into its thread's room, and adds it to the completions of its event.
fn copy_one(
    alloc: Global,
    kernel: &Kernel,
    rooms: &mut Vec<Preallocated>,
    log: &mut EventLog,
    completion: &Completion,
)
    requires sized { length rooms.old.items ≡ length (threads_of (members_of kernel.now.threads)) }
    requires may { MayCopy (threads_of (members_of kernel.now.threads)) rooms.old.items completion.now }
    requires room { 0 < log.old.completion_room }
    ensures copied { Copied (threads_of (members_of kernel.now.threads))
        (completion.now ∷ []) rooms.old.items rooms.new.items }
    ensures logged { log.new ≡ record log.old {
      completions = log.old.completions ++ completion.now ∷ [];
      completion_room = log.old.completion_room - 1;
    } }
{
    let Some(place) = place_of(kernel, completion.thread) else {
        unreachable!()
    };
    let room = mem::replace(&mut rooms[place], Preallocated::none(alloc));
    log.push_completion(Completion {
        call: completion.call,
        thread: completion.thread,
        mark: completion.mark,
        buffer: room.fill(completion.buffer.as_slice()),
    });
}

/// Copies the completions of an event, each into its thread's room.
fn copy_all(
    alloc: Global,
    kernel: &Kernel,
    rooms: &mut Vec<Preallocated>,
    log: &mut EventLog,
    completions: &[Completion],
)
    requires sized { length rooms.old.items ≡ length (threads_of (members_of kernel.now.threads)) }
    requires apart { AreApart completions.now }
    requires may { AllByRecursion (MayCopy (threads_of (members_of kernel.now.threads)) rooms.old.items)
        completions.now }
    requires room { length completions.now ≤ log.old.completion_room }
    ensures copied { Copied (threads_of (members_of kernel.now.threads)) completions.now rooms.old.items
        rooms.new.items }
    ensures logged { log.new ≡ record log.old {
      completions = log.old.completions ++ completions.now;
      completion_room = log.old.completion_room - length completions.now;
    } }
{
    let mut i = 0;
    while i < completions.len() {
        copy_one(alloc, kernel, rooms, log, &completions[i]);
        i += 1;
    }
}

impl<K: Tie> RecordedHistory<K> {
    /// Makes an empty history for a kernel with `many` threads, of at most `limit` events.
    pub(crate) fn new(
        alloc: Global,
        many: usize,
        limit: usize,
    ) -> Result<RecordedHistory<K>, AllocError>
        requires roster { IsRoster K.names.roster × (many ≡ length (threads_of K.names.roster)) }
        requires limit { (2 ≤ limit) × (limit ≤ 2 ^ 20) × (limit ≡ K.names.limit) }
        ensures empty { IfOk result (λ kept. kept.past ≡ []) }
    {
        let rooms = no_rooms(alloc, many)?;
        let log = EventLog::with_room(alloc, 1, 64)?;
        Ok(RecordedHistory {
            alloc,
            rooms,
            log,
            limit,
            noted: Call::Shutdown,
            room: Preallocated::none(alloc),
            ready: false,
            of: PhantomData,
        })
    }

    /// Returns the history as a trace, in which the first event has the number 1.
    pub(crate) fn into_trace(self) -> Trace
        ensures first { result.first ≡ 1 }
        ensures events { followed_by [] result.events ≡ self.past }
        ensures within { length result.events ≤ K.names.limit }
    {
        let RecordedHistory { log, .. } = self;
        log.into_trace(1)
    }
}

impl<K: Tie> Log for RecordedHistory<K> {
    ghost use Rattle.qshared.specs.Recorded.{admits_recorded, refuses_recorded};

    ghost roster = { λ _. K.names.roster };

    ghost past = { λ k. k.past };

    ghost ready = { λ k. k.ready };

    ghost noted = { λ k. k.noted };

    ghost refuses = { refuses_recorded K.names.limit };

    ghost admits = { admits_recorded K.names.limit };

    fn copies(alloc: Global, call: &Call) -> Option<LoggedCopy> {
        LoggedCopy::of(alloc, call)
    }

    fn note(
        &mut self,
        _made: u64,
        call: &Call,
        copies: &mut Option<LoggedCopy>,
    ) -> Result<(), Errno> {
        match admit(self.alloc, &mut self.log, self.limit, call, copies.take()) {
            Err(errno) => Err(errno),
            Ok(copies) => {
                let (noted, room) = copies;
                self.noted = noted;
                self.room = room;
                self.ready = true;
                Ok(())
            }
        }
    }

    fn event(&mut self, kernel: &Kernel, seat: &ThreadRef, completions: &Completions) {
        let place = seat.index();
        self.ready = false;
        self.rooms[place] = mem::replace(&mut self.room, Preallocated::none(self.alloc));
        let call = mem::replace(&mut self.noted, Call::Shutdown);
        copy_all(
            self.alloc,
            kernel,
            &mut self.rooms,
            &mut self.log,
            completions.as_slice(),
        );
        self.log.note(seat.thread(), call);
        self.log.event();
    }
}
