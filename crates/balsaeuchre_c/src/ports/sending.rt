//! Shows by the toolchain's `Send` that a port may move to another thread than its desk. It also shows this
//! of each field of a desk. For a whole desk the proof search reaches its limit.

use crate::ports::library_port::LibraryPort;
use qhandoff::cells::Cells;
use qhandoff::seats::KernelSeat;
use qkernel::kernel::Kernel;
use qshared::asking::KernelCalls;
use qshared::delivery::{Delivery, Origin};
use qshared::ghost_history::GhostHistory;
use qshared::history::History;
use std::alloc::Global;
use std::sync::Arc;

/// Accepts only a value that may move to another thread.
fn may_go<T: Send>(_value: &T) {}

/// A port may move to another thread.
pub fn port_may_go(port: &LibraryPort) {
    may_go(port);
}

/// The cells may be shared by threads: each has them by an `Arc` of its own.
pub fn cells_may_go(cells: &Arc<Cells<Delivery, Origin>, Global>) {
    may_go(cells);
}

/// The kernel's token may move to another thread.
pub fn seat_may_go(seat: &KernelSeat<Delivery>) {
    may_go(seat);
}

/// A kernel may move to another thread.
pub fn kernel_may_go(kernel: &Kernel) {
    may_go(kernel);
}

/// A history that isn't kept may move to another thread.
pub fn log_may_go(log: &GhostHistory) {
    may_go(log);
}

/// The history, which exists only in proofs, may move to another thread.
pub fn history_may_go(history: &History) {
    may_go(history);
}

/// The lists of the threads' calls may move to another thread.
pub fn heard_may_go(heard: &Vec<KernelCalls>) {
    may_go(heard);
}
