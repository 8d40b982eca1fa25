//! The index of a thread in the roster.

ghost use Rattle.std.specs.Prelude.{◌≡◌};

use qbase::ids::ThreadNo;

/// The number of a thread and its index in the roster. `Threads::seat` looks it up once, and later calls need
/// no search.
#[derive(Clone, Copy, Debug)]
pub struct ThreadRef {
    pub(crate) thread: ThreadNo,
    pub(crate) index: usize,
}

impl ThreadRef {
    /// Returns the thread's number.
    pub fn thread(&self) -> ThreadNo
        ensures { result ≡ self.now.thread }
    {
        self.thread
    }

    /// Returns the thread's index in the roster, from 0, in ascending order of thread number. The thread's
    /// cell has the same index.
    pub fn index(&self) -> usize
        ensures { result ≡ self.now.index }
    {
        self.index
    }
}
