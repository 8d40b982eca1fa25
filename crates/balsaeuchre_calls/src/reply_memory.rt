//! Memory that the next reply or write reuses.

use qbase::bytes::Bytes;
use std::marker::Model;

/// The greatest number of bytes that is kept.
const MOST: usize = 4096;

/// The bytes of a reply or write that was made, kept only for their memory. Contracts don't see them.
#[derive(Drop)]
pub(crate) struct ReplyMemory {
    bytes: Option<Bytes>,
}

impl Model for ReplyMemory {
    ghost Value = { Unit {0} };

    ghost view = { λ _. tt };
}

impl ReplyMemory {
    pub(crate) fn none() -> ReplyMemory {
        ReplyMemory { bytes: None }
    }

    /// Keeps these bytes in place of the kept ones, unless they are more than `MOST`.
    pub(crate) fn keep(&mut self, bytes: Option<Bytes>) {
        if let Some(bytes) = bytes {
            if bytes.len() <= MOST {
                self.bytes = Some(bytes);
            }
        }
    }

    /// Returns the kept bytes, and keeps none.
    pub(crate) fn take(&mut self) -> Option<Bytes> {
        self.bytes.take()
    }
}
