//! Memory that the bytes of later calls reuse.

ghost use Rattle.std.specs.Prelude.{◌≡◌, [], IfOk};

use qbase::bytes::Bytes;
use qkernel::completions::Completions;
use std::alloc::{AllocError, Global};
use std::marker::Model;
use std::mem;

/// The number of buffers that are kept.
const LIMIT: usize = 8;
/// The greatest number of bytes that a kept buffer has room for.
const MOST: usize = 4096;

/// Buffers of completions that were written, kept only for their memory. The bytes of later calls are copied
/// into it. Contracts don't see them.
#[derive(Drop)]
pub struct Spares {
    buffers: Vec<Vec<u8>>,
}

impl Model for Spares {
    ghost Value = { Unit {0} };

    ghost view = { λ _. tt };
}

impl Spares {
    /// Keeps no buffer, and has room for `LIMIT`.
    pub fn new(alloc: Global) -> Result<Spares, AllocError> {
        let buffers = Vec::with_capacity(alloc, LIMIT)?;
        Ok(Spares { buffers })
    }

    /// Keeps a buffer, if there is room for it, and otherwise frees it.
    #[inline(always)]
    pub fn keep(&mut self, buffer: Bytes) {
        let items = buffer.into_vec();
        let has_room = self.buffers.len() < self.buffers.capacity();
        if has_room && items.capacity() > 0 && items.capacity() <= MOST {
            self.buffers.push_reserved(items);
        }
    }

    /// Empties the list, and keeps the buffers of its completions.
    pub fn keep_all(&mut self, alloc: Global, completions: &mut Completions)
        ensures { completions.new.items ≡ [] }
    {
        for completion in completions.as_mut_slice() {
            self.keep(mem::replace(&mut completion.buffer, Bytes::new(alloc)));
        }
        completions.clear();
    }

    /// Returns a copy of bytes, in the memory of a kept buffer if there is one; error if the allocator
    /// refuses.
    pub fn copied(&mut self, alloc: Global, bytes: &[u8]) -> Result<Bytes, AllocError>
        ensures { IfOk result (λ copy. copy ≡ bytes.now) }
    {
        if bytes.is_empty() {
            return Ok(Bytes::new(alloc));
        }
        let Some(mut items) = self.buffers.pop() else {
            return Bytes::copied(alloc, bytes);
        };
        items.clear();
        items.extend_from_slice(bytes)?;
        Ok(Bytes::from(items))
    }
}
