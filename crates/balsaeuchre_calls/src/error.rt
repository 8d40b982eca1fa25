//! The errors of calls.

ghost use Rattle.std.specs.Prelude.{◌≡◌};
ghost use Rattle.balsaeuchre_calls.specs.Errors.{refusal, error_in};
ghost use Rattle.balsaeuchre_calls.specs.declared.error.CallError.TheVariants as error;

use qbase::errno::Errno;
use qmodel::call::Mark;
use std::alloc::{AllocError, AllocFailed};
use thiserror::Error;

/// The error that a call returns in place of its result.
#[derive(Clone, Copy, Debug, PartialEq, Eq, Error)]
pub enum CallError {
    /// The call was refused, and changed nothing.
    #[error("call refused: {0:?}")]
    Refused(Errno),
    /// The call was blocked, and was cancelled: with `Srch` by `channel_destroy` or `shutdown`, with `Badf`
    /// by `connect_detach`, with `Intr` by `unblock`.
    #[error("call cancelled: {0:?}")]
    Cancelled(Errno),
    /// The server replied to the message with this code, by `msg_error`. It isn't 0.
    #[error("server replied with the error code {0}")]
    Code(i32),
    /// The timekeeper cancelled the call because its time was over.
    #[error("call timed out")]
    TimedOut,
    /// The clock could not be read, or the time limit is later than the clock can count.
    #[error("clock not read")]
    NoClock,
    /// The allocator refused memory to the caller or to the kernel.
    #[error("out of memory")]
    NoMemory,
    /// The call completed with the result of another kind of call. In a valid history no call does this.
    #[error("call completed with the result of another kind of call")]
    Unexpected,
}

impl From<AllocError> for CallError {
    ghost from_gives = { λ _ e. e ≡ error.NoMemory };

    fn from(_e: AllocError) -> CallError {
        CallError::NoMemory
    }
}

impl<T: Drop> From<AllocFailed<T>> for CallError {
    ghost from_gives = { λ _ e. e ≡ error.NoMemory };

    fn from(_e: AllocFailed<T>) -> CallError {
        CallError::NoMemory
    }
}

impl From<Errno> for CallError {
    ghost from_gives = { λ errno e. e ≡ refusal errno };

    fn from(errno: Errno) -> CallError {
        refusal(errno)
    }
}

/// Returns the error of a call that was refused.
pub(crate) fn refusal(errno: Errno) -> CallError
    ensures { result ≡ refusal errno }
{
    match errno {
        Errno::NoMemory => CallError::NoMemory,
        _ => CallError::Refused(errno),
    }
}

/// Returns the error of a call whose result isn't a success of its kind of call. A call that failed after a
/// wait was cancelled. A call that failed in its own event was refused.
pub(crate) fn error_in(waited: bool, mark: Mark) -> CallError
    ensures { result ≡ error_in waited mark }
{
    match mark {
        Mark::Failed(errno) if waited && errno != Errno::NoMemory => CallError::Cancelled(errno),
        Mark::Failed(errno) => refusal(errno),
        Mark::Errored(code) => CallError::Code(code),
        _ => CallError::Unexpected,
    }
}
