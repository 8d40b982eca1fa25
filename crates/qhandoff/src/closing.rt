//! Closes the cells: joins the tokens, and takes out the completions that are left.

ghost use Rattle.std.specs.Prelude.{◌≡◌, ◌<◌, ◌≤◌, ◌*◌, ◌++◌, ℕ, [], Some, length, vec_capacity};
ghost use Rattle.std.specs.Mem.Slots.{slots_items, slots_len, IsFull};
ghost use mathlib.Core.Option.{some};
ghost use lib.ListN.{get_elem?};
ghost use Rattle.qhandoff.specs.declared.view.View.TheVariants.{Kernel};
ghost use Rattle.qhandoff.specs.Rule.{line};
ghost use Rattle.qhandoff.specs.Steps.{kernel_view_in, joined_at};
ghost use Rattle.qhandoff.specs.Words.{cells_id, count, kernel_view, taken, took, one, tagged, left_for};
ghost use Rattle.qhandoff.specs.Words.{thread_id, thread_of, Rises, AreBelow, IsKernelOf, IsRow};

use crate::cells::{Cells, CellsKey};
use crate::delivered::Delivered;
use crate::seats::{KernelSeat, ThreadSeat};
use crate::steps::{HandOff, JoinOne};
use crate::view::View;
use atomic_table::{Closed, Seat, Shared};
use std::alloc::Global;

/// Joins one thread's token, so that the kernel's token knows the completions that this thread took.
fn join_one<T: Delivered<O>, O>(
    shared: &Shared<Option<T>, View<T>, CellsKey<O>, HandOff>,
    seat: &mut Seat<Option<T>, View<T>>,
    other: ThreadSeat<T>,
)
    requires sized { (shared.now.key.threads ≡ shared.now.table_id.slots)
        × (shared.now.table_id.words ≡ shared.now.table_id.slots * 8) }
    requires seat { (seat.old.table_id ≡ shared.now.table_id)
        × (seat.old.me ≡ (Kernel (kernel_view_in seat.old.me.0), [])) }
    requires other { thread_id other ≡ shared.now.table_id }
    ensures { (seat.new.table_id ≡ seat.old.table_id)
        × (seat.new.me
        ≡ (Kernel (joined_at (kernel_view_in seat.old.me.0) (thread_of other) (taken other)), [])) }
{
    let ThreadSeat {
        thread: _,
        seat: other,
    } = other;
    // This is a SeqCst load. Relaxed is enough: both tokens are in this thread, so the hand-over of the other
    // token came before.
    shared.join_seat::<JoinOne>(seat, other);
}

/// Joins the tokens of all threads, beginning with the last.
fn join_all<T: Delivered<O>, O>(
    shared: &Shared<Option<T>, View<T>, CellsKey<O>, HandOff>,
    seat: &mut Seat<Option<T>, View<T>>,
    mut threads: Vec<ThreadSeat<T>>,
)
    requires sized { (shared.now.key.threads ≡ shared.now.table_id.slots)
        × (shared.now.table_id.words ≡ shared.now.table_id.slots * 8) }
    requires seat { (seat.old.table_id ≡ shared.now.table_id)
        × (seat.old.me ≡ (Kernel (kernel_view_in seat.old.me.0), []))
        × (length (kernel_view_in seat.old.me.0).lines ≡ shared.now.table_id.slots) }
    requires threads { (length threads.items ≡ shared.now.table_id.slots)
        × IsRow shared.now.table_id threads.items }
    ensures seat { (seat.new.table_id ≡ seat.old.table_id)
        × (seat.new.me ≡ (Kernel (kernel_view_in seat.new.me.0), [])) }
    ensures lines { (t : ℕ) → t < shared.entry.now.table_id.slots
        → line (kernel_view_in seat.new.me.0) t
        ≡ record (line (kernel_view_in seat.old.me.0) t) { taken = Some (took (get_elem? threads.items t)) } }
{
    while let Some(other) = threads.pop() {
        join_one(shared, seat, other);
    }
}

/// Appends the value of one slot with its thread, if the slot has a value.
fn keep<T: Drop>(room: &mut Vec<(usize, T)>, thread: usize, value: Option<T>)
    requires { length room.old.items < vec_capacity room.old }
    ensures { (room.new.items ≡ room.old.items ++ tagged thread value)
        × (vec_capacity room.new ≡ vec_capacity room.old) }
{
    if let Some(value) = value {
        room.push_reserved((thread, value));
    }
}

/// Returns the completions in the slots, each with its thread, in ascending order of thread index.
fn collect<T: Drop>(
    mut closed: Closed<Option<T>, Global>,
    mut room: Vec<(usize, T)>,
) -> Vec<(usize, T)>
    requires full { IsFull closed.slots }
    requires room { (room.items ≡ []) × (slots_len closed.slots ≤ vec_capacity room) }
    ensures rises { Rises result.items }
    ensures within { AreBelow (slots_len closed.slots) result.items }
    ensures all { (t : ℕ) (o : _) → get_elem? (slots_items closed.slots) t ≡ some o
        → left_for t result.items ≡ one o }
{
    let mut i = 0;
    while i < closed.slot_count() {
        keep(&mut room, i, closed.take(i));
        i += 1;
    }
    closed.free();
    room
}

impl<T: Delivered<O>, O> Cells<T, O> {
    /// Returns the number of cells, one for each thread.
    pub fn threads(&self) -> usize
        ensures { result ≡ count self.now }
    {
        self.table.slot_count()
    }

    /// Takes all tokens back and returns the completions that are still in the cells, each with its thread,
    /// in ascending order of thread index. Takes no memory.
    ///
    /// For each thread, the completions that it took and the completion that is left for it, if any, are the
    /// completions that were put for it, in the same order.
    pub fn close(self, kernel: KernelSeat<T>, threads: Vec<ThreadSeat<T>>) -> Vec<(usize, T)>
        requires kernel { IsKernelOf self kernel }
        requires threads { (length threads.items ≡ count self) × IsRow (cells_id self) threads.items }
        ensures rises { Rises result.items }
        ensures within { AreBelow (count self) result.items }
        ensures told { (t : ℕ) → t < count self
            → took (get_elem? threads.items t) ++ left_for t result.items
            ≡ (line (kernel_view kernel) t).put }
    {
        let Cells { table, room } = self;
        let KernelSeat { mut seat } = kernel;
        join_all(&table.shared, &mut seat, threads);
        collect(table.close_with(seat), room)
    }
}
