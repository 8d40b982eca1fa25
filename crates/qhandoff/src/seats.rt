//! The tokens: the right to fill all cells, and the right to empty one cell. A token can't be copied.

ghost use Rattle.std.specs.Prelude.{◌≡◌, ◌<◌};
ghost use Rattle.qhandoff.specs.Seated.{IsKernel, IsThread};

use crate::view::View;
use atomic_table::Seat;

/// The token that fills the cells.
#[derive(Drop)]
pub struct KernelSeat<T> {
    pub(crate) seat: Seat<Option<T>, View<T>>,
    ghost knows: { IsKernel seat },
}

/// The token that empties the cell of one thread.
#[derive(Drop)]
pub struct ThreadSeat<T> {
    pub(crate) thread: usize,
    pub(crate) seat: Seat<Option<T>, View<T>>,
    ghost knows: { IsThread seat thread },
}
