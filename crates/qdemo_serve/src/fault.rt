//! The errors of a demonstration.

ghost use Rattle.std.specs.Prelude.{◌≡◌};
ghost use Rattle.qdemo_serve.specs.Status.{status_of};
ghost use Rattle.qdemo_serve.specs.declared.fault.ServeFault.TheVariants.{NoMemory};

use balsaeuchre_calls::error::CallError;
use std::alloc::{AllocError, AllocFailed};
use thiserror::Error;

/// The reason why a worker ended before its work was done.
#[derive(Clone, Copy, PartialEq, Eq)]
pub enum WorkerFault {
    /// One of its calls failed, or there was no memory for its own data.
    Call(CallError),
    /// It got a reply or a pulse that its work doesn't expect. Or its thread couldn't be started, or the
    /// clock couldn't be read.
    Unexpected,
}

impl From<CallError> for WorkerFault {
    fn from(error: CallError) -> WorkerFault {
        WorkerFault::Call(error)
    }
}

impl From<AllocError> for WorkerFault {
    fn from(error: AllocError) -> WorkerFault {
        WorkerFault::Call(CallError::from(error))
    }
}

impl<T: Drop> From<AllocFailed<T>> for WorkerFault {
    fn from(error: AllocFailed<T>) -> WorkerFault {
        WorkerFault::Call(CallError::from(error))
    }
}

/// The reason why a demonstration failed. If several apply, it is the first in this order.
#[derive(Clone, Copy, Debug, PartialEq, Eq, Error)]
pub enum ServeFault {
    /// It was to hold a message, with fewer than two clients or more than one server.
    #[error("hold needs two clients and one server")]
    Hold,
    /// There was no memory for the kernel or for a worker.
    #[error("out of memory")]
    NoMemory,
    /// A worker couldn't be started, or its work failed.
    #[error("worker failed")]
    Worker,
    /// The script of the kernel's calls would have over 4,194,304 bytes.
    #[error("record too long")]
    LongRecord,
    /// Storing the recording failed.
    #[error("record failed")]
    Record,
    /// Writing the text failed.
    #[error("write failed")]
    Write,
}

impl From<AllocError> for ServeFault {
    ghost from_gives = { λ _ e. e ≡ NoMemory };

    fn from(_e: AllocError) -> ServeFault {
        ServeFault::NoMemory
    }
}

impl From<WorkerFault> for ServeFault {
    fn from(fault: WorkerFault) -> ServeFault {
        match fault {
            WorkerFault::Call(CallError::NoMemory) => ServeFault::NoMemory,
            WorkerFault::Call(_) | WorkerFault::Unexpected => ServeFault::Worker,
        }
    }
}

impl ServeFault {
    /// Returns the exit status of the program: 2 if the settings are wrong, 4 if a worker failed, and 3 if
    /// memory, storing or writing failed.
    pub fn status(&self) -> u8
        ensures { result ≡ status_of self.now }
    {
        match self {
            ServeFault::Hold | ServeFault::LongRecord => 2,
            ServeFault::NoMemory | ServeFault::Record | ServeFault::Write => 3,
            ServeFault::Worker => 4,
        }
    }
}
