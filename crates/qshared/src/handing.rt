//! Puts the completions of an event into the cells.

ghost use Rattle.std.specs.Prelude.{◌≡◌, ◌<◌, ◌≤◌, ◌++◌, ℕ, [], ◌∷◌, length, None, Some};
ghost use Rattle.std.specs.List.{AllByRecursion};
ghost use Rattle.qhandoff.specs.Rule.{line};
ghost use Rattle.qhandoff.specs.Steps.{put_kernel_view};
ghost use Rattle.qhandoff.specs.Words.{cells_id, kernel_id, one};
ghost use Rattle.qrules.specs.Trace.{AreApart};
ghost use Rattle.qrules.specs.Facts.{threads_of};
ghost use Rattle.qkernel_state.specs.Contents.{members_of};
ghost use Rattle.qshared.specs.Delivered.{kernel_view, origin_of, IsDelivered};
ghost use Rattle.qshared.specs.Due.{of_thread, place};
ghost use Rattle.qshared.specs.Private.Putting.{MayArrive, MayPut, Handed};

use crate::cell_steps::{cancel, put};
use crate::delivery::{Delivery, Origin};
use crate::history::Prefix;
use crate::turn::Turn;
use qbase::ids::ThreadNo;
use qhandoff::cells::Cells;
use qhandoff::seats::KernelSeat;
use qkernel::kernel::Kernel;
use qmodel::call::Completion;

/// Returns the index of a thread's cell, or `None` if the thread isn't in the roster.
pub(crate) fn place_of(kernel: &Kernel, thread: ThreadNo) -> Option<usize>
    ensures { result ≡ place (threads_of (members_of kernel.now.threads)) thread }
{
    let seat = kernel.seat(thread)?;
    Some(seat.index())
}

/// Puts one completion into its thread's cell, and returns the cell's index.
#[inline(always)]
fn hand_one(
    seat: &mut KernelSeat<Delivery>,
    cells: &Cells<Delivery, Origin>,
    kernel: &Kernel,
    completion: Completion,
    seen: &Prefix,
) -> usize
    requires cells { kernel_id seat.old ≡ cells_id cells.now }
    requires sized { length (threads_of (members_of kernel.now.threads)) ≡ (cells_id cells.now).slots }
    requires may { MayPut (threads_of (members_of kernel.now.threads)) (kernel_view seat.old) completion }
    requires seen { seen.now.name ≡ (origin_of cells.now).seen.name }
    requires delivered { (i : ℕ)
        → place (threads_of (members_of kernel.now.threads)) completion.thread ≡ Some i
        → IsDelivered (origin_of cells.now).roster.value i
        ((line (kernel_view seat.old) i).put ++ completion ∷ []) completion seen.now.trace }
    ensures cells { kernel_id seat.new ≡ kernel_id seat.old }
    ensures place { result < (cells_id cells.entry.now).slots }
    ensures put { (place (threads_of (members_of kernel.now.threads)) completion.thread ≡ Some result)
        × (kernel_view seat.new ≡ put_kernel_view (kernel_view seat.old) result completion) }
{
    let Some(place) = place_of(kernel, completion.thread) else {
        unreachable!()
    };
    put(seat, cells, place, completion, seen);
    place
}

/// Returns the bit of a cell whose thread has to be woken.
fn bit_of(place: usize) -> u64
    requires { place < 64 }
{
    1u64 << place
}

/// Puts the completions of an event into their threads' cells, and sets the bit of every cell that is filled.
/// `seen` is the history up to this event. If one of them is for the turn's own thread, it isn't put but
/// kept in its place in `turn`, and the thread's cell is closed.
/// No two completions are for the same thread, so their order doesn't matter: the last is put first.
#[inline(always)]
pub(crate) fn hand_out(
    seat: &mut KernelSeat<Delivery>,
    cells: &Cells<Delivery, Origin>,
    kernel: &Kernel,
    turn: &mut Turn,
    seen: &Prefix,
)
    requires few { (cells_id cells.now).slots ≤ 64 }
    requires cells { kernel_id seat.old ≡ cells_id cells.now }
    requires sized { length (threads_of (members_of kernel.now.threads)) ≡ (cells_id cells.now).slots }
    requires place { place (threads_of (members_of kernel.now.threads)) turn.old.seat.thread
        ≡ Some turn.old.seat.index }
    requires own { turn.old.own ≡ None }
    requires apart { AreApart turn.old.completions.value.items }
    requires may { AllByRecursion
        (MayPut (threads_of (members_of kernel.now.threads)) (kernel_view seat.old))
        turn.old.completions.value.items }
    requires seen { seen.now.name ≡ (origin_of cells.now).seen.name }
    requires arrive { AllByRecursion (MayArrive (origin_of cells.now).roster.value
        (threads_of (members_of kernel.now.threads)) turn.old.seat.thread seen.now.trace
        (kernel_view seat.old)) turn.old.completions.value.items }
    ensures cells { kernel_id seat.new ≡ kernel_id seat.old }
    ensures own { of_thread turn.old.seat.thread turn.old.completions.value.items
        ≡ one turn.new.own }
    ensures handed { Handed (threads_of (members_of kernel.now.threads)) turn.old.seat.thread
        turn.old.completions.value.items (kernel_view seat.old) (kernel_view seat.new) }
    ensures seat { (turn.new.seat ≡ turn.old.seat) × (turn.new.pending ≡ turn.old.pending) }
    ensures emptied { turn.new.completions.value.items ≡ [] }
{
    let own_place = turn.seat.index();
    let thread = turn.seat.thread();
    let completions = &mut *turn.completions;
    let own = &mut turn.own;
    while let Some(completion) = completions.pop() {
        if completion.thread == thread {
            cancel(seat, cells, own_place);
            *own = Some(completion);
        } else {
            let place = hand_one(seat, cells, kernel, completion, seen);
            turn.woken |= bit_of(place);
        }
    }
}
