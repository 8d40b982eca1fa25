//! A call of a port's thread.

ghost use Rattle.std.specs.Prelude.{◌≡◌, ◌++◌, ◌⊎◌, [], ◌∷◌, true, if◌then◌else◌, is_ok, IfErr, IfSome};
ghost use Rattle.qshared.specs.Answered.{Answered, IsMet};
ghost use Rattle.qshared.specs.Collected.{collected_at};
ghost use Rattle.qshared.specs.Counting.{gives, pends, OnBusy};
ghost use Rattle.qshared.specs.Desks.{AreCellsOf, IsPortOf, IsSamePort, names_in};
ghost use Rattle.qshared.specs.Performing.{called_by};
ghost use Rattle.qshared.specs.UnderLock.{IsSameKernel, roster_of};

use crate::called::{Called, called_by as take_outcome, pends};
use crate::delivery::{Delivery, Origin};
use crate::desk::Desk;
use crate::desk_port::DeskPort;
use crate::log::Log;
use crate::opener::Opener;
use crate::turn::{clear, copy_into, free_lent, keep_lent};
use qbase::errno::Errno;
use qhandoff::cells::Cells;
use qmodel::call::Call;

impl DeskPort {
    /// Prepares the next call, without the lock: frees the last call, and copies this one for the log `L`, if
    /// the log keeps copies.
    #[inline(always)]
    pub fn prepare<L: Log>(&mut self, call: &Call)
        ensures copies { IfSome self.new.turn.copies (λ c. c ≡ call.now) }
        ensures taken { collected_at self.new ≡ collected_at self.old }
        ensures same { IsSamePort self.new self.old × (self.new.seat ≡ self.old.seat)
            × (self.new.turn.pending ≡ self.old.turn.pending) × (self.new.turn.own ≡ self.old.turn.own)
            × (self.new.asked ≡ self.old.asked) × (self.new.seen ≡ self.old.seen)
            × (self.new.last ≡ self.old.last) }
    {
        self.turn.woken = 0;
        free_lent(&mut self.turn.lent);
        copy_into::<L>(self.turn.alloc, call, &mut self.turn.copies);
    }

    /// Makes a call of the thread at a desk. The call is refused with `Down` after a Shutdown. Otherwise it
    /// is refused with `Busy` if the completion of a blocked call isn't collected yet, or if the opener gives
    /// up. Otherwise the log may refuse it. A refused call stays in its place. If the call completes in its
    /// own event, its completion is in its place in `turn` afterwards.
    #[inline(always)]
    pub fn call<L: Log, O: Opener>(
        &mut self,
        desk: &mut Desk<L>,
        cells: &Cells<Delivery, Origin>,
        opener: &O,
        call: &mut Call,
    ) -> Result<(), Errno>
        requires cells { AreCellsOf desk.old.traced cells.now }
        requires port { IsPortOf desk.old.traced desk.old.heard.items self.old }
        requires copies { IfSome self.old.turn.copies (λ c. c ≡ call.old) }
        ensures met { IsMet (roster_of desk.old.traced) self.old.thread self.old.asked.calls
            self.old.seen.trace desk.old.traced.past }
        ensures came { Answered (roster_of desk.old.traced) L.refuses L.admits self.old.thread
            call.old (called_by result self.new.turn.own call.old) desk.old.traced.past self.new.seen.trace }
        ensures busy { OnBusy (called_by result self.new.turn.own call.old)
            ((self.old.turn.pending ≡ true) ⊎ O.gives_up) }
        ensures refused { IfErr result (λ e. call.new ≡ call.old) }
        ensures past { desk.new.traced.past ≡ self.new.seen.trace }
        ensures same { IsSameKernel desk.new.traced desk.old.traced
            × (names_in desk.new.heard.items ≡ names_in desk.old.heard.items) }
        ensures asked { self.new.asked.calls
            ≡ self.old.asked.calls ++ (if is_ok result then call.old ∷ [] else []) }
        ensures pending { self.new.turn.pending
            ≡ pends (called_by result self.new.turn.own call.old) self.old.turn.pending }
        ensures taken { collected_at self.new
            ≡ collected_at self.old ++ gives (called_by result self.new.turn.own call.old) }
        ensures last { self.new.last.trace ≡ self.new.seen.trace }
        ensures port { IsSamePort self.new self.old }
    {
        clear(&mut self.turn.own);
        let made = desk.make(
            cells,
            opener,
            &mut self.turn,
            &mut self.asked,
            &mut self.seen,
            call,
        );
        self.last = self.seen.again();
        self.turn.pending = pends(&made, &self.turn.own, self.turn.pending);
        made
    }
    /// Returns the outcome of the call that was made last. Takes its completion, if it came in the call's own
    /// event, and otherwise the refused call out of its place. Keeps the call of an event, if its bytes were
    /// only lent to the kernel.
    #[inline(always)]
    pub fn finish_call(&mut self, made: Result<(), Errno>, call: Call) -> Called
        ensures outcome { result ≡ called_by made self.old.turn.own call }
        ensures taken { collected_at self.new ≡ collected_at self.old }
        ensures same { IsSamePort self.new self.old × (self.new.seat ≡ self.old.seat)
            × (self.new.turn.pending ≡ self.old.turn.pending) × (self.new.asked ≡ self.old.asked)
            × (self.new.seen ≡ self.old.seen) × (self.new.last ≡ self.old.last) }
    {
        let mut call = call;
        let called = take_outcome(made, &mut self.turn.own, &mut call);
        keep_lent(&mut self.turn.lent, call);
        called
    }

    /// Returns the bit of each other thread whose cell was filled by the calls since `prepare`. The bit of a
    /// cell is its index.
    pub fn woken(&self) -> u64
        ensures { result ≡ self.now.turn.woken }
    {
        self.turn.woken
    }
}
