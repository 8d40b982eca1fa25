//! The room that `finish` needs, so that it takes no memory.

ghost use Rattle.std.specs.Prelude.{◌≡◌, ◌≤◌, [], vec_capacity};

use crate::asking::PortCalls;
use crate::delivery::Delivery;
use crate::tie::Tie;
use qhandoff::seats::ThreadSeat;
use qmodel::call::Completion;
use std::alloc::{AllocError, Global};
use std::marker::PhantomData;

/// Room for the lists that `finish` fills from the ports and the cells. It is made when the kernel is opened,
/// and stays empty until `finish`.
#[derive(Drop)]
pub(crate) struct CloseBuffers<K: Tie> {
    pub(crate) seats: Vec<ThreadSeat<Delivery>>,
    pub(crate) calls: Vec<u64>,
    pub(crate) left: Vec<Completion>,
    pub(crate) asked: Vec<PortCalls>,
    of: PhantomData<K>,
    ghost roomy: { (seats.items ≡ []) × (K.names.cells.slots ≤ vec_capacity seats) × (calls.items ≡ [])
        × (K.names.cells.slots ≤ vec_capacity calls) × (left.items ≡ [])
        × (K.names.cells.slots ≤ vec_capacity left) × (asked.items ≡ [])
        × (K.names.cells.slots ≤ vec_capacity asked) },
}

impl<K: Tie> CloseBuffers<K> {
    /// Makes the room for `ports` ports. Fails if the allocator refuses.
    pub(crate) fn new(alloc: Global, ports: usize) -> Result<CloseBuffers<K>, AllocError>
        requires { K.names.cells.slots ≤ ports }
    {
        Ok(CloseBuffers {
            seats: Vec::with_capacity(alloc, ports)?,
            calls: Vec::with_capacity(alloc, ports)?,
            left: Vec::with_capacity(alloc, ports)?,
            asked: Vec::with_capacity(alloc, ports)?,
            of: PhantomData,
        })
    }
}
