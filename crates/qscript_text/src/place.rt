//! Places in a text, and faults at them.

ghost use Rattle.std.specs.Prelude.{◌≡◌};
ghost use Rattle.qscript_text.specs.declared.place.ReadError.TheVariants.{Memory};

use crate::text_fault::ByteHint;
use std::alloc::{AllocError, AllocFailed};
use std::fmt;

/// A place in a text.
#[derive(Clone, Copy, Debug, PartialEq, Eq)]
pub struct Place {
    /// The line, counted from 1.
    pub line: u64,
    /// The first byte, counted from 1 within its line.
    pub column: u64,
}

impl fmt::Display for Place {
    fn fmt<W: fmt::Write>(&self, f: &mut fmt::Formatter<W>) -> fmt::Result {
        let line = self.line;
        let column = self.column;
        write!(f, "{line}:{column}")
    }
}

/// A fault with its place. Each language has its own kinds of faults.
pub struct Fault<K> {
    pub place: Place,
    pub kind: K,
    /// The hint about the byte at the place, if no line may contain this byte.
    pub byte: Option<ByteHint>,
}

// Each place that drops one calls this. A derived drop would be repeated, and proved, at each of them.
impl<K: Drop> Drop for Fault<K> {
    fn drop(self) {
        let Fault {
            place: _,
            kind: _,
            byte: _,
        } = self;
    }
}

impl<K> Fault<K> {
    /// Returns a fault without a hint about its byte.
    pub fn new(place: Place, kind: K) -> Fault<K> {
        Fault {
            place,
            kind,
            byte: None,
        }
    }

    /// Returns the fault with the hint about the byte at its place in this line, if no line may contain the
    /// byte.
    pub fn with_byte_hint(mut self, line: &[u8]) -> Fault<K> {
        let at = self.place.column.saturating_sub(1) as usize;
        let byte = line.get(at).copied().unwrap_or(b' ');
        if byte != b'\t' && (byte < 0x20 || byte > 0x7e) {
            self.byte = ByteHint::of(line, at);
        }
        self
    }

    /// Returns the fault with the kind that `of` makes of its kind.
    pub fn map<J, F: FnOnce(K) -> J>(self, of: F) -> Fault<J>
        requires { F.IsAlwaysCallable of }
    {
        let Fault { place, kind, byte } = self;
        Fault {
            place,
            kind: of(kind),
            byte,
        }
    }

    /// Returns the words of the hint about the byte at the place. They come after the words of the kind, and
    /// are empty if there is no hint.
    pub fn hint(&self) -> &'static str {
        self.byte.map_or("", |byte| byte.words())
    }
}

impl<K: fmt::Display> fmt::Display for Fault<K> {
    fn fmt<W: fmt::Write>(&self, f: &mut fmt::Formatter<W>) -> fmt::Result {
        let Fault { place, kind, .. } = self;
        let hint = self.hint();
        write!(f, "{place}: {kind}{hint}")
    }
}

/// The reason why a line can't be read.
pub enum ReadError<K> {
    /// There is no memory for the content of the line.
    Memory,
    /// The line has this fault.
    Fault(Fault<K>),
}

// Each place that drops one calls this. A derived drop would be repeated, and proved, at each of them.
impl<K: Drop> Drop for ReadError<K> {
    fn drop(self) {
        match self {
            ReadError::Memory | ReadError::Fault(_) => {}
        }
    }
}

impl<K> From<AllocError> for ReadError<K> {
    ghost from_gives = { λ _ e. e ≡ Memory };

    fn from(_e: AllocError) -> ReadError<K> {
        ReadError::Memory
    }
}

impl<K, T: Drop> From<AllocFailed<T>> for ReadError<K> {
    ghost from_gives = { λ _ e. e ≡ Memory };

    fn from(_e: AllocFailed<T>) -> ReadError<K> {
        ReadError::Memory
    }
}

impl<K> ReadError<K> {
    /// Returns the fault, or an error if there was no memory.
    pub fn fault(self) -> Result<Fault<K>, AllocError> {
        match self {
            ReadError::Memory => Err(AllocError),
            ReadError::Fault(fault) => Ok(fault),
        }
    }

    /// Returns the error with the kind of fault that `of` makes of its kind.
    pub fn map<J, F: FnOnce(K) -> J>(self, of: F) -> ReadError<J>
        requires { F.IsAlwaysCallable of }
    {
        match self {
            ReadError::Memory => ReadError::Memory,
            ReadError::Fault(fault) => ReadError::Fault(fault.map(of)),
        }
    }

    /// Returns the error with the hint about the byte at its place in this line, if no line may contain the
    /// byte.
    pub fn with_byte_hint(self, line: &[u8]) -> ReadError<K> {
        match self {
            ReadError::Memory => ReadError::Memory,
            ReadError::Fault(fault) => ReadError::Fault(fault.with_byte_hint(line)),
        }
    }
}

/// Returns the fault of this kind at a place.
pub fn fault_at<K>(place: Place, kind: K) -> ReadError<K> {
    ReadError::Fault(Fault::new(place, kind))
}

/// Returns the fault of this kind at a place, or `Memory` if the kind couldn't be allocated.
pub fn fault_made<K>(place: Place, kind: Result<K, AllocError>) -> ReadError<K> {
    match kind {
        Ok(kind) => fault_at(place, kind),
        Err(_) => ReadError::Memory,
    }
}
