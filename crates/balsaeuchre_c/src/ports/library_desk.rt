//! The desk of a program: its kernel, and the cells that the kernel fills.

ghost use Rattle.qshared.specs.Desks.{AreCellsOf};

use qhandoff::cells::Cells;
use qshared::delivery::{Delivery, Origin};
use qshared::desk::Desk;
use qshared::ghost_history::GhostHistory;
use std::alloc::Global;
use std::sync::Arc;

/// A desk that keeps no history. The program uses it under a lock of its own.
#[derive(Drop)]
pub struct LibraryDesk {
    pub desk: Desk<GhostHistory>,
    pub cells: Arc<Cells<Delivery, Origin>, Global>,
    ghost cells_are: { AreCellsOf desk.traced cells.value },
}
