//! How a call opens its thread's cell.

ghost use Rattle.std.specs.Prelude.{◌≡◌, ◌<◌, true, false, MatchBool};
ghost use Rattle.qhandoff.specs.Rule.{line};
ghost use Rattle.qhandoff.specs.Steps.{opened_kernel_view, IsBusy};
ghost use Rattle.qhandoff.specs.Words.{cells_id, count, kernel_id};
ghost use Rattle.qshared.specs.Delivered.{kernel_view};

use crate::delivery::{Delivery, Origin};
use qhandoff::cells::Cells;
use qhandoff::seats::KernelSeat;
use std::sync::Wait;

/// How a call opens its thread's cell. A thread without a pending call took all its completions, so its cell
/// is idle at once. But no step of the cells shows this to the kernel's token.
pub trait Opener {
    /// The condition under which it gives up.
    ghost gives_up: { Type 0 };

    /// Opens a cell and returns `true`, or returns `false` if the cell isn't idle and the opener gives up.
    fn open(
        &self,
        seat: &mut KernelSeat<Delivery>,
        cells: &Cells<Delivery, Origin>,
        cell: usize,
    ) -> bool
        requires cells { kernel_id seat.old ≡ cells_id cells.now }
        requires cell { cell < count cells.now }
        ensures cells { kernel_id seat.new ≡ kernel_id seat.old }
        ensures opened { MatchBool result
            ((kernel_view seat.new ≡ opened_kernel_view (kernel_view seat.old) cell)
            × ((line (kernel_view seat.old) cell).opened ≡ false))
            ((kernel_view seat.new ≡ kernel_view seat.old) × IsBusy (line (kernel_view seat.old) cell)
            × gives_up) };
}

/// Opens a cell and returns `true`, or returns `false` if the cell isn't idle.
fn try_open(seat: &mut KernelSeat<Delivery>, cells: &Cells<Delivery, Origin>, cell: usize) -> bool
    requires cells { kernel_id seat.old ≡ cells_id cells.now }
    requires cell { cell < count cells.now }
    ensures cells { kernel_id seat.new ≡ kernel_id seat.old }
    ensures kernel_view { MatchBool result
        ((kernel_view seat.new ≡ opened_kernel_view (kernel_view seat.old) cell)
        × ((line (kernel_view seat.old) cell).opened ≡ false))
        ((kernel_view seat.new ≡ kernel_view seat.old) × IsBusy (line (kernel_view seat.old) cell)) }
{
    seat.open(cells, cell)
}

/// Looks once, and gives up if the cell isn't idle.
pub struct Once;

impl Opener for Once {
    ghost use Rattle.std.specs.Prelude.{⊤};

    ghost gives_up = { ⊤ };

    #[inline(always)]
    fn open(
        &self,
        seat: &mut KernelSeat<Delivery>,
        cells: &Cells<Delivery, Origin>,
        cell: usize,
    ) -> bool {
        try_open(seat, cells, cell)
    }
}

/// Waits until the cell is idle, and never gives up.
#[derive(Clone, Copy)]
pub struct Patient<'a, R> {
    pub rt: &'a R,
}

impl<'a, R: Wait> Opener for Patient<'a, R> {
    ghost gives_up = { ⊥ };

    #[inline(always)]
    fn open(
        &self,
        seat: &mut KernelSeat<Delivery>,
        cells: &Cells<Delivery, Origin>,
        cell: usize,
    ) -> bool {
        if !try_open(seat, cells, cell) {
            open_later(seat, cells, cell, self.rt);
        }
        true
    }
}

/// Opens a cell that wasn't idle, as soon as it is idle.
#[cold]
#[inline(never)]
fn open_later<R: Wait>(
    seat: &mut KernelSeat<Delivery>,
    cells: &Cells<Delivery, Origin>,
    cell: usize,
    rt: &R,
)
    requires cells { kernel_id seat.old ≡ cells_id cells.now }
    requires cell { cell < count cells.now }
    ensures cells { kernel_id seat.new ≡ kernel_id seat.old }
    ensures kernel_view { kernel_view seat.new ≡ opened_kernel_view (kernel_view seat.old) cell }
    ensures closed { (line (kernel_view seat.old) cell).opened ≡ false }
{
    for _ in rt.forever() {
        if try_open(seat, cells, cell) {
            return;
        }
    }
    unreachable!()
}
