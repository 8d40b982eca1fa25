//! The errors of calls that fail, are cancelled or are refused.

ghost use Rattle.std.specs.Prelude.{◌≡◌};
ghost use Rattle.qbase.specs.Errno.{word_of};

use std::alloc::{AllocError, AllocFailed};

/// An error of a call. The first six have the names of POSIX errors without the `E`. Which error a call fails
/// with is this kernel's own choice; `docs/MODEL.md` lists the cases.
#[derive(Clone, Copy, Debug, PartialEq, Eq)]
pub enum Errno {
    /// There is no such thread, channel or held message. Or the call was cancelled: its channel was
    /// destroyed, or the kernel was shut down.
    Srch,
    /// There is no such connection, or its channel was destroyed. Or the Send was cancelled: its connection
    /// was detached.
    Badf,
    /// An argument is out of range, or the caller's process has no such channel to destroy, or no such
    /// connection to detach.
    Inval,
    /// A limit is reached.
    Again,
    /// The thread was unblocked.
    Intr,
    /// The thread is blocked, so it can't make a call.
    Busy,
    /// The allocator refused.
    NoMemory,
    /// The kernel is shut down.
    Down,
    /// The kernel has made all the calls that it can number, 2^40.
    Exhausted,
    /// The history that the kernel keeps is full.
    TraceFull,
    /// The thread isn't in the roster.
    NoThread,
}

/// All errors, in the order in which the library for C numbers them from 1 on. Completions have only the
/// first eight.
pub const ERRNOS: [Errno; 11] = [
    Errno::Srch,
    Errno::Badf,
    Errno::Inval,
    Errno::Again,
    Errno::Intr,
    Errno::Busy,
    Errno::NoMemory,
    Errno::Down,
    Errno::Exhausted,
    Errno::TraceFull,
    Errno::NoThread,
];

impl From<AllocError> for Errno {
    ghost use Rattle.qbase.specs.declared.errno.Errno.TheVariants.{NoMemory};

    ghost from_gives = { λ _ errno. errno ≡ NoMemory };

    fn from(_refused: AllocError) -> Errno {
        Errno::NoMemory
    }
}

impl<T: Drop> From<AllocFailed<T>> for Errno {
    ghost use Rattle.qbase.specs.declared.errno.Errno.TheVariants.{NoMemory};

    ghost from_gives = { λ _ errno. errno ≡ NoMemory };

    fn from(_refused: AllocFailed<T>) -> Errno {
        Errno::NoMemory
    }
}

/// Returns the name of the error in lower case, as a trace prints it.
pub fn word(errno: Errno) -> &'static str
    ensures { result.now ≡ word_of errno }
{
    match errno {
        Errno::Srch => "srch",
        Errno::Badf => "badf",
        Errno::Inval => "inval",
        Errno::Again => "again",
        Errno::Intr => "intr",
        Errno::Busy => "busy",
        Errno::NoMemory => "nomemory",
        Errno::Down => "down",
        Errno::Exhausted => "exhausted",
        Errno::TraceFull => "tracefull",
        Errno::NoThread => "nothread",
    }
}
