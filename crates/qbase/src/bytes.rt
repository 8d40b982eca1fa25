//! Bytes on the heap.

ghost use Rattle.std.specs.Prelude.{◌≡◌, ℕ, List, [], IfOk, length, drop, replicate, ◌==◌};
ghost use Rattle.qbase.specs.Copying.{lay_over, laid_count};

use crate::copying::{lay, take};
use std::alloc::{AllocError, Global};
use std::marker::Model;

/// A message, a buffer or the data of a reply. Contracts see the list of the bytes, but neither their address
/// nor the capacity.
#[derive(Debug, Drop)]
pub struct Bytes {
    items: Vec<u8>,
}

impl Model for Bytes {
    ghost Value = { List ℕ };

    ghost view = { λ a. a.items.items };
}

impl From<Vec<u8>> for Bytes {
    ghost from_gives = { λ items bytes. bytes ≡ items.items };

    fn from(items: Vec<u8>) -> Bytes {
        Bytes { items }
    }
}

impl Bytes {
    /// Makes an empty `Bytes`; takes no memory.
    pub fn new(alloc: Global) -> Bytes
        ensures { result ≡ [] }
    {
        Bytes {
            items: Vec::new(alloc),
        }
    }

    /// Makes a `Bytes` with a copy of `bytes`; error if the allocator refuses.
    /// `first_message.rt` of `crates/balsaeuchre_examples` makes its messages and buffers with it.
    pub fn copied(alloc: Global, bytes: &[u8]) -> Result<Bytes, AllocError>
        ensures { IfOk result (λ copy. copy ≡ bytes.now) }
    {
        Ok(Bytes {
            items: Vec::from_slice(alloc, bytes)?,
        })
    }

    /// Makes a `Bytes` with `len` copies of one byte, such as a buffer of zeros; error if the allocator
    /// refuses.
    pub fn filled(alloc: Global, byte: u8, len: usize) -> Result<Bytes, AllocError>
        ensures { IfOk result (λ bytes. bytes ≡ replicate len byte) }
    {
        Ok(Bytes {
            items: vec![in alloc; byte; len]?,
        })
    }

    /// Returns the bytes as a `Vec`; takes no memory.
    pub fn into_vec(self) -> Vec<u8>
        ensures { result.items ≡ self }
    {
        let Bytes { items } = self;
        items
    }

    /// Returns the bytes.
    pub fn as_slice(&self) -> &[u8]
        ensures { result.now ≡ self.now }
    {
        self.items.as_slice()
    }

    /// Returns the number of bytes.
    pub fn len(&self) -> usize
        ensures { result ≡ length self.now }
    {
        self.items.len()
    }

    /// Returns whether there are no bytes.
    pub fn is_empty(&self) -> bool
        ensures { result ≡ (length self.now == 0) }
    {
        self.items.is_empty()
    }

    /// Copies `bytes` over these bytes from index `at` on, until either ends. Returns how many bytes it
    /// copied; that is 0 if `at` is at or past the end. The length doesn't change.
    pub fn lay(&mut self, at: usize, bytes: &[u8]) -> usize
        ensures after { self.new ≡ lay_over self.old at bytes.now }
        ensures count { result ≡ laid_count self.old at bytes.now }
    {
        lay(&mut self.items, at, bytes)
    }

    /// Copies `source`, from index `at` on, over the front of these bytes, until either ends. Returns how
    /// many bytes it copied; that is 0 if `at` is at or past the end of `source`. The length doesn't change.
    pub fn take(&mut self, source: &[u8], at: usize) -> usize
        ensures after { self.new ≡ lay_over self.old 0 (drop at source.now) }
        ensures count { result ≡ laid_count self.old 0 (drop at source.now) }
    {
        take(source, at, &mut self.items)
    }
}
