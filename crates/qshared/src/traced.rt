//! A kernel with its history, and the kernel's token of the cells.

ghost use Rattle.std.specs.Prelude.{◌≡◌, ◌<◌, ◌≤◌, ◌^◌, ◌⊎◌, [], length, IfErr, IfSome, None, Some, true};
ghost use Rattle.std.specs.Prelude.{false};
ghost use Rattle.qrules.specs.Facts.{threads_of};
ghost use Rattle.qrules.specs.Lawful.{IsLawful};
ghost use Rattle.qrules.specs.Properties.{HasProperties};
ghost use Rattle.qkernel_state.specs.Contents.{members_of};
ghost use Rattle.qkernel_state.specs.Threads.{IsSeatIn};
ghost use Rattle.qkernel.specs.Matching.{AnswersAtTraces, MatchesAt};
ghost use Rattle.qhandoff.specs.Steps.{seated_kernel_view};
ghost use Rattle.qshared.specs.History.{Extends};
ghost use Rattle.qhandoff.specs.Words.{kernel_id};
ghost use Rattle.qshared.specs.Asking.{WaitedBefore, calls_of};
ghost use Rattle.qshared.specs.Counting.{is_call, OnBusy};
ghost use Rattle.qshared.specs.Delivered.{kernel_view};
ghost use Rattle.qshared.specs.Due.{place};
ghost use Rattle.qshared.specs.Performing.{Performs, called_by};
ghost use Rattle.qshared.specs.Desks.{AreCellsOf};
ghost use Rattle.qshared.specs.UnderLock.{IsSameKernel, roster_of};

use crate::cell_steps::cancel;
use crate::delivery::{Delivery, Origin};
use crate::handing::hand_out;
use crate::history::{History, Prefix};
use crate::log::Log;
use crate::opener::Opener;
use crate::turn::Turn;
use qbase::errno::Errno;
use qhandoff::cells::Cells;
use qhandoff::seats::KernelSeat;
use qkernel::completions::Completions;
use qkernel::kernel::Kernel;
use qkernel::lent_call::LentCall;
use qkernel::thread_ref::ThreadRef;
use qmodel::call::Call;
use std::marker::Model;
use std::mem;
use std::snapshot::Snapshot;

/// A kernel with its history, and the kernel's token of the cells. This is the value under the lock, without
/// the lists and the count of the ports' calls.
#[derive(Drop)]
pub struct Traced<L: Log> {
    pub(crate) kernel: Kernel,
    pub(crate) seat: KernelSeat<Delivery>,
    pub(crate) log: L,
    pub(crate) history: History,
}

impl<L: Log> Model for Traced<L> {
    ghost use Rattle.std.specs.Prelude.{◌≡◌};
    ghost use Rattle.qrules.specs.Facts.{threads_of};
    ghost use Rattle.qkernel_state.specs.Contents.{members_of};
    ghost use Rattle.qhandoff.specs.Words.{kernel_id};
    ghost use Rattle.qshared.specs.Delivered.{kernel_view};
    ghost use Rattle.qshared.specs.UnderLock.{UnderLock, IsUnderLock};

    ghost Value = { UnderLock };

    ghost view = { λ t. record {
      kernel = t.kernel;
      kernel_view = kernel_view t.seat;
      past = L.past t.log;
      cells = kernel_id t.seat;
      history = t.history.name;
    } };

    ghost invariant = { λ t. (
        (L.roster t.log ≡ members_of t.kernel.threads)
        × IsUnderLock (members_of t.kernel.threads) (kernel_id t.seat).slots t.kernel (kernel_view t.seat)
        (threads_of (members_of t.kernel.threads)) (L.past t.log)
        × (t.history.trace ≡ L.past t.log)) };
}

/// Makes a call of the thread at this index. The bytes of a Reply or a Write are only lent to the kernel, and
/// the call stays in its place, so that they aren't freed under the lock. Any other call is taken out of it.
fn make_at(kernel: &mut Kernel, seat: &ThreadRef, call: &mut Call, completions: &mut Completions)
    requires few { kernel.old.made < 2 ^ 40 }
    requires seat { IsSeatIn kernel.old.threads seat.now }
    requires none { completions.old.items ≡ [] }
    ensures event { AnswersAtTraces kernel.old seat.now.thread call.old completions.new.items kernel.new }
    ensures roster { members_of kernel.new.threads ≡ members_of kernel.old.threads }
{
    if let Some(lending) = LentCall::of(&*call) {
        let Ok(()) = kernel.call_lent_at(seat, &lending, completions) else {
            unreachable!();
        };
        return;
    }
    let taken = mem::replace(call, Call::Shutdown);
    let Ok(()) = kernel.call_at(seat, taken, completions) else {
        unreachable!();
    };
}

impl<L: Log> Traced<L> {
    /// Makes the value for a kernel that has made no call, with an empty history.
    pub(crate) fn new(
        kernel: Kernel,
        seat: KernelSeat<Delivery>,
        log: L,
        history: History,
    ) -> Traced<L>
        requires history { history.trace ≡ [] }
        requires log { (L.roster log ≡ members_of kernel.threads) × (L.past log ≡ []) }
        requires seat { kernel_view seat ≡ seated_kernel_view (kernel_id seat).slots (kernel_id seat).slots }
        requires matches { MatchesAt (members_of kernel.threads) kernel [] }
        requires sized { length (threads_of (members_of kernel.threads)) ≡ (kernel_id seat).slots }
        ensures past { result.past ≡ [] }
        ensures names { (roster_of result ≡ members_of kernel.threads) × (result.cells ≡ kernel_id seat)
            × (result.history ≡ history.name) }
    {
        let _made = kernel.made();
        Traced {
            kernel,
            seat,
            log,
            history,
        }
    }

    /// Returns the number of events of the history, which is valid.
    pub fn len(&self) -> u64
        ensures value { result ≡ length self.now.past }
        ensures lawful { IsLawful (roster_of self.now) self.now.past
            × HasProperties (roster_of self.now) self.now.past }
        ensures few { result ≤ 2 ^ 40 }
    {
        self.kernel.made()
    }

    /// Returns the kernel, for looks that change nothing.
    pub fn kernel(&self) -> &Kernel
        ensures { result.now ≡ self.now.kernel }
    {
        &self.kernel
    }

    /// Makes a call of the thread that `turn` belongs to, for `Desk::call`. Opens the thread's cell, makes
    /// the call, and puts every other thread's completion into its cell. If the call completed, closes the
    /// thread's cell and leaves the completion in its place in `turn`. Afterwards `seen` is the whole
    /// history.
    ///
    /// The call is refused with `Down` after a Shutdown. Otherwise it is refused with `Busy` if the
    /// completion of a blocked call isn't collected yet, or if the opener gives up. Otherwise the log may
    /// refuse it. A refused call stays in its place.
    #[inline(always)]
    pub fn perform<O: Opener>(
        &mut self,
        cells: &Cells<Delivery, Origin>,
        opener: &O,
        turn: &mut Turn,
        seen: &mut Prefix,
        call: &mut Call,
    ) -> Result<(), Errno>
        requires cells { AreCellsOf self.old cells.now }
        requires seat { place (threads_of (roster_of self.old)) turn.old.seat.thread
            ≡ Some turn.old.seat.index }
        requires none { turn.old.completions.value.items ≡ [] }
        requires pending { turn.old.pending ≡ true
            → WaitedBefore seen.old.trace (calls_of self.old.past turn.old.seat.thread)
            turn.old.seat.thread }
        requires seen { seen.old.name ≡ self.old.history }
        requires copies { IfSome turn.old.copies (λ c. c ≡ call.old) }
        requires own { turn.old.own ≡ None }
        ensures idle { is_call (called_by result turn.new.own call.old) ≡ true
            → turn.old.pending ≡ false }
        ensures busy { OnBusy (called_by result turn.new.own call.old)
            ((turn.old.pending ≡ true) ⊎ O.gives_up) }
        ensures performs { Performs (roster_of self.old) L.refuses L.admits self.old turn.old.seat.thread
            call.old (called_by result turn.new.own call.old) self.new }
        ensures same { IsSameKernel self.new self.old }
        ensures refused { IfErr result (λ e. call.new ≡ call.old) }
        ensures seat { (turn.new.seat ≡ turn.old.seat) × (turn.new.pending ≡ turn.old.pending) }
        ensures none { turn.new.completions.value.items ≡ [] }
        ensures name { seen.new.name ≡ seen.old.name }
        ensures extends { Extends self.old.past seen.old.trace }
        ensures seen { seen.new.trace ≡ self.new.past }
    {
        self.history.look(seen);
        if self.kernel.is_down() {
            return Err(Errno::Down);
        }
        let seat = turn.seat;
        let place = seat.index();
        if turn.pending {
            return Err(Errno::Busy);
        }
        if !opener.open(&mut self.seat, cells, place) {
            return Err(Errno::Busy);
        }
        let asking = Snapshot::of(&*call);
        let made = self.kernel.made();
        if let Err(errno) = self.log.note(made, &*call, &mut turn.copies) {
            cancel(&mut self.seat, cells, place);
            return Err(errno);
        }
        make_at(&mut self.kernel, &seat, call, &mut *turn.completions);
        self.log.event(&self.kernel, &seat, &*turn.completions);
        let thread = seat.thread();
        let history = &mut self.history;
        history.add(&thread, &asking, &*turn.completions);
        history.look(seen);
        hand_out(&mut self.seat, cells, &self.kernel, turn, seen);
        Ok(())
    }
}
