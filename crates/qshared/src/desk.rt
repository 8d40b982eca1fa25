//! The value that the calls of all ports change, one call at a time.

ghost use Rattle.std.specs.Prelude.{◌≡◌, ◌++◌, ◌<◌, ◌⊎◌, ℕ, [], ◌∷◌, length, map, slice_index_or, is_ok};
ghost use Rattle.std.specs.Prelude.{IfErr, IfSome, if◌then◌else◌, None, Some, true, false};
ghost use lib.ListN.{get_elem?};
ghost use Rattle.qrules.specs.Facts.{threads_of};
ghost use Rattle.qshared.specs.Asking.{AreCallsOf, WaitedBefore, heard_in};
ghost use Rattle.qshared.specs.Answered.{Answered, IsMet};
ghost use Rattle.qshared.specs.Counting.{is_call, OnBusy};
ghost use Rattle.qshared.specs.Desks.{AreCellsOf, calls_in, names_in};
ghost use Rattle.qshared.specs.Due.{place};
ghost use Rattle.qshared.specs.Performing.{called_by};
ghost use Rattle.qshared.specs.UnderLock.{IsSameKernel, roster_of};

use crate::asking::{KernelCalls, PortCalls};
use crate::delivery::{Delivery, Origin};
use crate::history::Prefix;
use crate::log::Log;
use crate::opener::Opener;
use crate::traced::Traced;
use crate::turn::Turn;
use qbase::errno::Errno;
use qhandoff::cells::Cells;
use qkernel::kernel::Kernel;
use qmodel::call::Call;
use std::snapshot::Snapshot;

/// A kernel with its history and the token of its cells, and for each thread the list of its calls. `Shared`
/// has it under its lock, and the library for C under the lock of its caller.
#[derive(Drop)]
pub struct Desk<L: Log> {
    pub(crate) traced: Traced<L>,
    // For each thread, by the index of its cell, the list of its calls that are events.
    pub(crate) heard: Vec<KernelCalls>,
    ghost sized: { length heard.items ≡ traced.cells.slots },
    ghost heard_all: { AreCallsOf (roster_of traced) (calls_in heard.items) traced.past },
}

/// Guarantees that the calls that a thread asked for are the calls that are kept with the history. Changes
/// nothing.
fn agree(asked: &mut PortCalls, heard: &mut Vec<KernelCalls>, cell: usize)
    requires cell { cell < length heard.old.items }
    requires name { slice_index_or (names_in heard.old.items) cell 0 ≡ asked.old.name }
    ensures asked { asked.new ≡ asked.old }
    ensures heard { heard.new.items ≡ heard.old.items }
    ensures agreed { asked.old.calls ≡ slice_index_or (calls_in heard.old.items) cell [] }
{
    asked.agree(&mut heard[cell]);
}

impl<L: Log> Desk<L> {
    /// Makes the desk of a kernel that has made no call.
    pub(crate) fn new(traced: Traced<L>, heard: Vec<KernelCalls>) -> Desk<L>
        requires unused { traced.past ≡ [] }
        requires sized { length heard.items ≡ traced.cells.slots }
        requires empty { (k : ℕ) → heard_in (get_elem? heard.items k) ≡ [] }
        ensures { (result.traced ≡ traced) × (result.heard ≡ heard) }
    {
        Desk { traced, heard }
    }

    /// Returns the kernel as the calls that were made left it, for looks that change nothing.
    pub fn kernel(&self) -> &Kernel
        ensures { result.now ≡ self.now.traced.kernel }
    {
        self.traced.kernel()
    }

    /// Makes a call of the thread that `turn` belongs to. If the call is an event, adds it to the thread's
    /// list. Afterwards `seen` is the whole history. The call is refused as by `Traced::perform`.
    #[inline(always)]
    pub(crate) fn make<O: Opener>(
        &mut self,
        cells: &Cells<Delivery, Origin>,
        opener: &O,
        turn: &mut Turn,
        asked: &mut PortCalls,
        seen: &mut Prefix,
        call: &mut Call,
    ) -> Result<(), Errno>
        requires cells { AreCellsOf self.old.traced cells.now }
        requires seat { (place (threads_of (roster_of self.old.traced)) turn.old.seat.thread
            ≡ Some turn.old.seat.index) × (turn.old.seat.index < self.old.traced.cells.slots) }
        requires none { turn.old.completions.value.items ≡ [] }
        requires pending { turn.old.pending ≡ true
            → WaitedBefore seen.old.trace asked.old.calls turn.old.seat.thread }
        requires asked { slice_index_or (names_in self.old.heard.items) turn.old.seat.index 0
            ≡ asked.old.name }
        requires seen { seen.old.name ≡ self.old.traced.history }
        requires copies { IfSome turn.old.copies (λ c. c ≡ call.old) }
        requires own { turn.old.own ≡ None }
        ensures met { IsMet (roster_of self.old.traced) turn.old.seat.thread asked.old.calls seen.old.trace
            self.old.traced.past }
        ensures idle { is_call (called_by result turn.new.own call.old) ≡ true
            → turn.old.pending ≡ false }
        ensures busy { OnBusy (called_by result turn.new.own call.old)
            ((turn.old.pending ≡ true) ⊎ O.gives_up) }
        ensures came { Answered (roster_of self.old.traced) L.refuses L.admits turn.old.seat.thread call.old
            (called_by result turn.new.own call.old) self.old.traced.past seen.new.trace }
        ensures refused { IfErr result (λ e. call.new ≡ call.old) }
        ensures past { self.new.traced.past ≡ seen.new.trace }
        ensures same { IsSameKernel self.new.traced self.old.traced
            × (names_in self.new.heard.items ≡ names_in self.old.heard.items) }
        ensures seen { seen.new.name ≡ seen.old.name }
        ensures name { asked.new.name ≡ asked.old.name }
        ensures asked { asked.new.calls
            ≡ asked.old.calls ++ (if is_ok result then call.old ∷ [] else []) }
        ensures seat { (turn.new.seat ≡ turn.old.seat) × (turn.new.pending ≡ turn.old.pending) }
        ensures none { turn.new.completions.value.items ≡ [] }
    {
        let cell = turn.seat.index();
        let _events = self.traced.len();
        agree(asked, &mut self.heard, cell);
        let asking = Snapshot::of(&*call);
        let made = self.traced.perform(cells, opener, turn, seen, call);
        if made.is_ok() {
            asked.ask(&mut self.heard[cell], &asking);
        }
        made
    }
}
