//! The cells, and their layout in a table of words.

ghost use Rattle.std.specs.Prelude.{◌≡◌, ◌*◌, ◌<◌, ◌≤◌, [], vec_capacity};
ghost use Rattle.qhandoff.specs.Rule.{cell_of};

use crate::delivered::Delivered;
use crate::steps::HandOff;
use crate::view::View;
use atomic_table::Table;
use std::alloc::Global;
use std::snapshot::Snapshot;

/// The distance between the words of two cells, in words of 8 bytes. Each cell's word has a cache line of its
/// own, so a thread that polls its word isn't slowed down by writes to the neighbouring words. The words
/// between aren't used.
pub(crate) const STRIDE: usize = 8;

/// Returns the index of the word of a thread's cell. Any other layout without shared words would be as safe,
/// and at worst slower.
pub(crate) fn word_of(thread: usize) -> usize
    requires { thread < 64 }
    ensures word { result ≡ thread * 8 }
    ensures cell { cell_of result ≡ thread }
{
    thread * STRIDE
}

/// What the table of cells is told once: the number of cells, and their origin.
#[derive(Drop)]
pub struct CellsKey<O> {
    pub(crate) threads: usize,
    // Only contracts read it.
    pub(crate) origin: Snapshot<O>,
}

/// One cell for each thread, and the memory that `close` needs.
#[derive(Drop)]
pub struct Cells<T: Delivered<O>, O> {
    pub(crate) table: Table<Option<T>, View<T>, CellsKey<O>, HandOff, Global>,
    pub(crate) room: Vec<(usize, T)>,
    ghost keyed: { table.shared.key.threads ≡ table.shared.table_id.slots },
    ghost roomy: { (room.items ≡ []) × (table.shared.table_id.slots ≤ vec_capacity room) },
    ghost sized: { table.shared.table_id.words ≡ table.shared.table_id.slots * 8 },
    ghost few: { table.shared.table_id.slots ≤ 64 },
}
