//! Makes the cells and their tokens.

ghost use Rattle.std.specs.Prelude.{◌≡◌, ◌<◌, ◌≤◌, ◌+◌, ℕ, ◌*◌, [], IfOk, IfErr, length};
ghost use lib.ListN.{get_elem?};
ghost use Rattle.qbase.specs.declared.errno.Errno.TheVariants.{Inval, NoMemory};
ghost use Rattle.qhandoff.specs.declared.view.View.TheVariants.{Kernel};
ghost use Rattle.qhandoff.specs.Steps.{seated_kernel_view};
ghost use Rattle.qhandoff.specs.Words.{cells_id, count, kernel_view, origin_of, taken, took, thread_id};
ghost use Rattle.qhandoff.specs.Words.{thread_of};
ghost use Rattle.qhandoff.specs.Words.{IsKernelOf, IsRow};

use crate::cells::{Cells, CellsKey, STRIDE};
use crate::delivered::Delivered;
use crate::seats::{KernelSeat, ThreadSeat};
use crate::steps::{HandOff, SeatOne};
use crate::view::View;
use atomic_table::{Seat, Shared, Table};
use qbase::errno::Errno;
use std::alloc::{AllocError, Global};
use std::snapshot::Snapshot;

/// The greatest number of cells.
const LIMIT: usize = 64;

/// The cells, the token that fills them, and for each cell the token that empties it.
type Made<T, O> = (Cells<T, O>, KernelSeat<T>, Vec<ThreadSeat<T>>);

/// Splits off the token of the next thread.
fn next_seat<T: Delivered<O>, O>(
    shared: &Shared<Option<T>, View<T>, CellsKey<O>, HandOff>,
    seat: &mut Seat<Option<T>, View<T>>,
    thread: usize,
) -> ThreadSeat<T>
    requires sized { (shared.now.key.threads ≡ shared.now.table_id.slots)
        × (shared.now.table_id.words ≡ shared.now.table_id.slots * 8) × (thread < shared.now.table_id.slots) }
    requires seat { (seat.old.table_id ≡ shared.now.table_id)
        × (seat.old.me ≡ (Kernel (seated_kernel_view thread shared.now.table_id.slots), [])) }
    ensures seat { (seat.new.table_id ≡ seat.old.table_id)
        × (seat.new.me ≡ (Kernel (seated_kernel_view (thread + 1) shared.now.table_id.slots), [])) }
    ensures next { (thread_id result ≡ seat.old.table_id) × (thread_of result ≡ thread)
        × (taken result ≡ []) }
{
    // This is a SeqCst load. Relaxed is enough: no other thread has a token yet.
    let seat = shared.split_seat::<SeatOne>(seat);
    ThreadSeat { thread, seat }
}

/// Makes `threads` idle cells and their tokens, with the memory that `close` needs.
fn make_cells<T: Delivered<O>, O>(
    alloc: Global,
    threads: usize,
    origin: &O,
) -> Result<Made<T, O>, AllocError>
    requires { threads ≤ 64 }
    ensures cells { IfOk result
        (λ r. (count r.0 ≡ threads) × (origin_of r.0 ≡ origin.now) × IsKernelOf r.0 r.1
        × (kernel_view r.1 ≡ seated_kernel_view threads threads)) }
    ensures seats { IfOk result (λ r. (length r.2.items ≡ threads) × IsRow (cells_id r.0) r.2.items
        × ((k : ℕ) → took (get_elem? r.2.items k) ≡ [])) }
{
    let words = Vec::from_elem(alloc, 0u64, threads * STRIDE)?;
    let room = Vec::with_capacity(alloc, threads)?;
    let mut seats = Vec::with_capacity(alloc, threads)?;
    let key = CellsKey {
        threads,
        origin: Snapshot::of(origin),
    };
    let (table, mut seat) = Table::vacant(alloc, words.as_slice(), threads, &key)?;
    for thread in 0..threads {
        seats.push_reserved(next_seat(&table.shared, &mut seat, thread));
    }
    Ok((Cells { table, room }, KernelSeat { seat }, seats))
}

impl<T: Delivered<O>, O> Cells<T, O> {
    /// Makes idle cells for `threads` threads, at most 64. Returns them with the token that fills them and,
    /// for each thread, the token that empties its cell. Takes the memory that `close` needs, too. Only
    /// contracts read `origin`.
    ///
    /// Fails with `Inval` if `threads` is more than 64, and with `NoMemory` if the allocator refuses.
    pub fn new(
        alloc: Global,
        threads: usize,
        origin: &O,
    ) -> Result<(Cells<T, O>, KernelSeat<T>, Vec<ThreadSeat<T>>), Errno>
        ensures cells { IfOk result
            (λ r. (count r.0 ≡ threads) × (origin_of r.0 ≡ origin.now) × IsKernelOf r.0 r.1
            × (kernel_view r.1 ≡ seated_kernel_view threads threads)) }
        ensures seats { IfOk result (λ r. (length r.2.items ≡ threads) × IsRow (cells_id r.0) r.2.items
            × ((k : ℕ) → took (get_elem? r.2.items k) ≡ [])) }
        ensures within { IfOk result (λ r. threads ≤ 64) }
        ensures inval { 64 < threads → IfErr result (λ e. e ≡ Inval) }
        ensures memory { threads ≤ 64 → IfErr result (λ e. e ≡ NoMemory) }
    {
        if threads > LIMIT {
            return Err(Errno::Inval);
        }
        let Ok(made) = make_cells(alloc, threads, origin) else {
            return Err(Errno::NoMemory);
        };
        Ok(made)
    }
}
