//! The faults of a script.

ghost use Rattle.std.specs.Prelude.{◌≡◌};
ghost use Rattle.qscript_text.specs.declared.fault.ParseError.TheVariants.{Memory, Fault};
ghost use Rattle.qscript_text.specs.declared.fault.ScriptFault.TheVariants.{NoMemory};
ghost use Rattle.qscript_text.specs.Status.{status_of};

use std::alloc::{AllocError, AllocFailed};
use thiserror::Error;

/// The fault of a line.
#[derive(Clone, Copy, Debug, PartialEq, Eq, Error)]
pub enum LineFault {
    /// It has over 4,096 bytes, not counting its line end.
    #[error("long line")]
    LongLine,
    /// It has a byte that is neither a tab nor printable ASCII (32 to 126).
    #[error("bad byte")]
    BadByte,
    /// It is a roster line after a call line.
    #[error("late thread")]
    LateThread,
    /// A word isn't a number in the range of its operand.
    #[error("bad number")]
    BadNumber,
    /// It has too few or too many words.
    #[error("word count")]
    WordCount,
    /// Its second word isn't the name of a call.
    #[error("unknown word")]
    UnknownWord,
    /// A number below 256 isn't a priority.
    #[error("bad priority")]
    BadPriority,
    /// A word isn't bytes in one of the three forms: `-`, hexadecimal digits, or `NxHH`.
    #[error("bad bytes")]
    BadBytes,
    /// A roster line repeats a thread.
    #[error("double thread")]
    DoubleThread,
    /// It is the 65th roster line.
    #[error("too many threads")]
    TooManyThreads,
    /// The caller isn't in the roster.
    #[error("unknown thread")]
    UnknownThread,
}

/// The reason why a line can't be read.
#[derive(Debug, Drop)]
pub enum ParseError {
    /// There is no memory for the content of the line.
    Memory,
    /// The line has this fault.
    Fault(LineFault),
}

impl From<AllocError> for ParseError {
    ghost from_gives = { λ _ e. e ≡ Memory };

    fn from(_e: AllocError) -> ParseError {
        ParseError::Memory
    }
}

impl From<LineFault> for ParseError {
    ghost from_gives = { λ f e. e ≡ Fault f };

    fn from(fault: LineFault) -> ParseError {
        ParseError::Fault(fault)
    }
}

/// The error that ends the reading, running or printing of a script.
#[derive(Debug, Drop, Error)]
pub enum ScriptFault {
    /// Reading its text failed.
    #[error("read failed")]
    Read,
    /// Its text has over 4,194,304 bytes.
    #[error("script too long")]
    TooLong,
    /// The first faulty line, counted from 1, and its fault.
    #[error("line {number}: {fault}")]
    Line { number: u64, fault: LineFault },
    /// There is no memory for the script or for its run.
    #[error("out of memory")]
    NoMemory,
    /// Writing the text of its run failed.
    #[error("write failed")]
    Write,
}

impl From<AllocError> for ScriptFault {
    ghost from_gives = { λ _ e. e ≡ NoMemory };

    fn from(_e: AllocError) -> ScriptFault {
        ScriptFault::NoMemory
    }
}

impl<T: Drop> From<AllocFailed<T>> for ScriptFault {
    ghost from_gives = { λ _ e. e ≡ NoMemory };

    fn from(_e: AllocFailed<T>) -> ScriptFault {
        ScriptFault::NoMemory
    }
}

impl ScriptFault {
    /// Returns the exit status of the program: 1 if the script is at fault, 3 if something else failed.
    pub fn status(&self) -> u8
        ensures { result ≡ status_of self.now }
    {
        match self {
            ScriptFault::TooLong | ScriptFault::Line { .. } => 1,
            ScriptFault::Read | ScriptFault::NoMemory | ScriptFault::Write => 3,
        }
    }
}
