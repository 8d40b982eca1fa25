//! Preallocated for a copy of a buffer.

ghost use Rattle.std.specs.Prelude.{◌≡◌, ◌≤◌, ℕ, [], length, vec_capacity, IfOk};

use qbase::bytes::Bytes;
use std::alloc::{AllocError, Global};
use std::marker::Model;

/// Preallocated for a number of bytes, which are copied into it later. Contracts see the number.
#[derive(Drop)]
pub struct Preallocated {
    bytes: Vec<u8>,
}

impl Model for Preallocated {
    ghost Value = { ℕ };

    ghost view = { λ r. vec_capacity r.bytes };

    ghost invariant = { λ r. r.bytes.items ≡ [] };
}

impl Preallocated {
    /// Returns room for 0 bytes. Takes no memory.
    pub fn none(alloc: Global) -> Preallocated {
        Preallocated {
            bytes: Vec::new(alloc),
        }
    }

    /// Makes room for `bytes` bytes.
    pub fn of(alloc: Global, bytes: usize) -> Result<Preallocated, AllocError>
        ensures { IfOk result (λ r. bytes ≤ r) }
    {
        Ok(Preallocated {
            bytes: Vec::with_capacity(alloc, bytes)?,
        })
    }

    /// Returns a copy of these bytes in the room, which must be large enough. Takes no memory.
    pub fn fill(self, bytes: &[u8]) -> Bytes
        requires { length bytes.now ≤ self }
        ensures { result ≡ bytes.now }
    {
        let Preallocated { bytes: mut copy } = self;
        let _ = copy.extend_from_slice(bytes);
        Bytes::from(copy)
    }
}
