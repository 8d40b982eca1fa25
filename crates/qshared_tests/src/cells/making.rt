//! Cells with their tokens, and completions.

ghost use Rattle.std.specs.Prelude.{◌≡◌, ◌<◌, ◌+◌, length};
ghost use Rattle.qhandoff.specs.Words.{cells_id, count, thread_of, IsKernelOf, IsThreadOf, IsRow};

use qbase::bytes::Bytes;
use qbase::ids::ThreadNo;
use qhandoff::cells::Cells;
use qhandoff::delivered::Delivered;
use qhandoff::seats::{KernelSeat, ThreadSeat};
use qmodel::call::{Completion, Mark};
use std::alloc::Global;
use std::process::Abort;

/// A completion that may always be put into a cell.
#[derive(Drop)]
pub struct Plain {
    pub completion: Completion,
}

impl Delivered<()> for Plain {
    ghost may_be_put = { λ _ _ _. Unit {0} };
}

/// Returns cells for this many threads, with their tokens.
pub fn cells(
    rt: &impl Abort,
    alloc: Global,
    threads: usize,
) -> (Cells<Plain, ()>, KernelSeat<Plain>, Vec<ThreadSeat<Plain>>)
    ensures count { count result.0 ≡ threads }
    ensures kernel { IsKernelOf result.0 result.1 }
    ensures seats { (length result.2.items ≡ threads) × IsRow (cells_id result.0) result.2.items }
{
    let Ok(made) = Cells::new(alloc, threads, &()) else {
        panic!(rt; "no cells")
    };
    made
}

/// Removes and returns the token of the last thread.
pub fn last_seat(cells: &Cells<Plain, ()>, seats: &mut Vec<ThreadSeat<Plain>>) -> ThreadSeat<Plain>
    requires some { 0 < length seats.old.items }
    requires row { IsRow (cells_id cells.now) seats.old.items }
    ensures seat { IsThreadOf cells.now result }
    ensures thread { thread_of result ≡ length seats.new.items }
    ensures length { length seats.new.items + 1 ≡ length seats.old.items }
    ensures row { IsRow (cells_id cells.now) seats.new.items }
{
    let Some(seat) = seats.pop() else {
        unreachable!()
    };
    seat
}

/// Adds the token of the next thread at the end.
pub fn seat_back(
    rt: &impl Abort,
    cells: &Cells<Plain, ()>,
    seats: &mut Vec<ThreadSeat<Plain>>,
    seat: ThreadSeat<Plain>,
)
    requires seat { IsThreadOf cells.now seat }
    requires thread { thread_of seat ≡ length seats.old.items }
    requires row { IsRow (cells_id cells.now) seats.old.items }
    ensures length { length seats.new.items ≡ length seats.old.items + 1 }
    ensures row { IsRow (cells_id cells.now) seats.new.items }
{
    if seats.push(seat).is_err() {
        panic!(rt; "no memory")
    }
}

/// Returns the buffer of this call's completion.
fn buffer_of(call: u64) -> [u8; 8] {
    call.to_be_bytes()
}

/// Returns a completion of this call, with a buffer that has the call's number.
pub fn completion(rt: &impl Abort, alloc: Global, call: u64) -> Completion {
    Completion {
        call,
        thread: ThreadNo(1),
        mark: Mark::Ok,
        buffer: Bytes::copied(alloc, &buffer_of(call)).expect(rt, "memory"),
    }
}

/// Returns whether this is the completion that `completion` makes for the call.
pub fn is_of(completion: &Completion, call: u64) -> bool {
    completion.call == call
        && completion.thread == ThreadNo(1)
        && completion.mark == Mark::Ok
        && completion.buffer.as_slice() == buffer_of(call).as_slice()
}
