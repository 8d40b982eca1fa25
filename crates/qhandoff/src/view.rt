//! The knowledge of a token. Only contracts and the rule use these types: the code makes no value of them.

use std::collections::LinkedList;

/// The knowledge of the kernel's token about one thread.
pub struct CellView<T> {
    /// The thread's cell was opened, and nothing is put into it yet.
    pub opened: bool,
    /// A completion is being put for the thread.
    pub putting: bool,
    /// All completions that were put for the thread, the oldest first.
    pub put: LinkedList<T>,
    /// All completions that the thread's token took, the oldest first. It is `None` until the token is
    /// joined.
    pub taken: Option<LinkedList<T>>,
}

/// The knowledge of the kernel's token: the number of thread tokens that were made, and a line for each
/// thread.
pub struct KernelView<T> {
    pub seats: u64,
    pub lines: LinkedList<CellView<T>>,
}

/// The knowledge of a thread's token.
pub struct ThreadView<T> {
    /// The index of the thread's cell.
    pub thread: u64,
    /// All completions that the thread took, the oldest first.
    pub taken: LinkedList<T>,
    /// The completion that the thread is taking out of its slot.
    pub taking: Option<T>,
}

/// The knowledge of any token of the table.
pub enum View<T> {
    /// The kernel's token.
    Kernel(KernelView<T>),
    /// The token of a thread.
    Thread(ThreadView<T>),
    /// A thread's token that was joined: the kernel's token has its knowledge.
    Joined,
}
