//! Completions that cross from one thread to another.

ghost use Rattle.std.specs.Prelude.{◌≡◌, ◌<◌, true};
ghost use Rattle.qhandoff.specs.Rule.{line};
ghost use Rattle.qhandoff.specs.Words.{cells_id, count, kernel_view, kernel_id, thread_id, thread_of};
ghost use Rattle.qhandoff.specs.Words.{IsKernelOf, IsThreadOf, IsRow};

use crate::cells::making::{Plain, cells, completion, is_of, last_seat, seat_back};
use qhandoff::cells::Cells;
use qhandoff::seats::{KernelSeat, ThreadSeat};
use qmodel::call::Completion;
use std::alloc::Global;
use std::process::Abort;
use std::sync::Wait;
use std::thread;
use std::thread::{Threads, join};

/// Opens the cell as soon as it is idle.
fn open_when_idle(
    rt: &impl Wait,
    cells: &Cells<Plain, ()>,
    kernel: &mut KernelSeat<Plain>,
    thread: usize,
)
    requires kernel { IsKernelOf cells.now kernel.old }
    requires thread { thread < count cells.now }
    ensures kernel { kernel_id kernel.new ≡ kernel_id kernel.old }
    ensures opened { (line (kernel_view kernel.new) thread).opened ≡ true }
{
    for _ in rt.forever() {
        if kernel.open(cells, thread) {
            return;
        }
        thread::yield_now();
    }
    unreachable!()
}

/// Polls until a completion comes.
fn poll_until(rt: &impl Wait, cells: &Cells<Plain, ()>, seat: &mut ThreadSeat<Plain>) -> Completion
    requires seat { IsThreadOf cells.now seat.old }
    ensures seat { thread_id seat.new ≡ thread_id seat.old }
    ensures thread { thread_of seat.new ≡ thread_of seat.old }
{
    for _ in rt.forever() {
        if let Some(plain) = seat.poll(cells) {
            let Plain { completion } = plain;
            return completion;
        }
        thread::yield_now();
    }
    unreachable!()
}

/// Puts the completion of a call into each cell.
fn put_round(
    rt: &(impl Wait + Abort),
    alloc: Global,
    cells: &Cells<Plain, ()>,
    kernel: &mut KernelSeat<Plain>,
    call: u64,
)
    requires kernel { IsKernelOf cells.now kernel.old }
    ensures kernel { kernel_id kernel.new ≡ kernel_id kernel.old }
{
    for thread in 0..cells.threads() {
        open_when_idle(rt, cells, kernel, thread);
        let completion = completion(rt, alloc, call);
        kernel.put(cells, thread, Plain { completion });
    }
}

/// Puts the completions of this many calls, numbered from 0, into each cell.
fn put_all(
    rt: &(impl Wait + Abort),
    alloc: Global,
    cells: &Cells<Plain, ()>,
    mut kernel: KernelSeat<Plain>,
    calls: u64,
) -> KernelSeat<Plain>
    requires kernel { IsKernelOf cells.now kernel }
    ensures kernel { kernel_id result ≡ kernel_id kernel }
{
    for call in 0..calls {
        put_round(rt, alloc, cells, &mut kernel, call);
    }
    kernel
}

/// Takes the completions of this many calls, numbered from 0, in order.
fn take_all(
    rt: &(impl Wait + Abort),
    cells: &Cells<Plain, ()>,
    mut seat: ThreadSeat<Plain>,
    calls: u64,
) -> ThreadSeat<Plain>
    requires seat { IsThreadOf cells.now seat }
    ensures seat { thread_id result ≡ thread_id seat }
    ensures thread { thread_of result ≡ thread_of seat }
{
    for call in 0..calls {
        let completion = poll_until(rt, cells, &mut seat);
        assert!(rt; is_of(&completion, call), "call {call}");
    }
    seat
}

/// One thread puts 100,000 completions and another takes them, in order and with their bytes; none is left.
#[test]
fn one_puts_and_one_takes(rt: HostRuntime) {
    let alloc = rt.alloc();
    let (cells, kernel, mut seats) = cells(&rt, alloc, 1);
    let seat = last_seat(&cells, &mut seats);
    let (kernel, seat) = join(
        &rt,
        || put_all(&rt, alloc, &cells, kernel, 100_000),
        || take_all(&rt, &cells, seat, 100_000),
    );
    seat_back(&rt, &cells, &mut seats, seat);
    assert_eq!(rt; cells.close(kernel, seats).len(), 0);
}

/// Each thread takes the completions of this many calls. Returns the number of threads.
fn take_each<R: Threads + Wait + Abort + Sync>(
    rt: &R,
    cells: &Cells<Plain, ()>,
    seats: Vec<ThreadSeat<Plain>>,
    calls: u64,
) -> usize
    requires row { IsRow (cells_id cells.now) seats.items }
{
    let taken = thread::map_vec(
        rt,
        seats,
        &|seat: ThreadSeat<Plain>| -> usize
            requires { IsThreadOf cells.now seat }
        { take_all(rt, cells, seat, calls).thread() },
    );
    taken.expect(rt, "memory").len()
}

/// One thread puts completions for 64 threads in turn, which take them at the same time.
#[test]
fn one_puts_and_sixty_four_take(rt: HostRuntime) {
    let alloc = rt.alloc();
    let (cells, kernel, seats) = cells(&rt, alloc, 64);
    let (_kernel, takers) = join(
        &rt,
        || put_all(&rt, alloc, &cells, kernel, 500),
        || take_each(&rt, &cells, seats, 500),
    );
    assert_eq!(rt; takers, 64);
}
