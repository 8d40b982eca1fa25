//! The port of one thread of a program.

ghost use Rattle.balsaeuchre_c.specs.PortCells.{IsPortOfCells};

use crate::spares::Spares;
use qhandoff::cells::Cells;
use qshared::delivery::{Delivery, Origin};
use qshared::desk_port::DeskPort;
use std::alloc::Global;
use std::sync::Arc;

/// The port of one thread. Only this thread uses it, and it polls without the lock.
#[derive(Drop)]
pub struct LibraryPort {
    pub core: DeskPort,
    pub cells: Arc<Cells<Delivery, Origin>, Global>,
    /// Memory for the bytes of the port's next calls.
    pub spares: Spares,
    ghost belongs: { IsPortOfCells cells.value core },
}
