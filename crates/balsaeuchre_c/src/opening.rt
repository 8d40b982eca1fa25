//! Makes a kernel from the threads that C passes.

ghost use Rattle.std.specs.Prelude.{MatchResult};
ghost use Rattle.balsaeuchre_c.specs.Opening.{IsNewOf, NewError};

use crate::roster::{RosterThread, roster_of};
use crate::session::Session;
use crate::spares::Spares;
use arrayvec::ArrayVec;
use qbase::errno::Errno;
use qkernel::kernel::Kernel;
use std::alloc::Global;

/// Returns a kernel of these threads, on the heap. Fails like `roster_of`, or with `NoMemory`.
pub fn new_session(alloc: Global, threads: &[RosterThread]) -> Result<Box<Session, Global>, Errno>
    ensures { MatchResult result (λ session. IsNewOf threads.now session.value) (NewError threads.now) }
{
    let roster = roster_of(alloc, threads)?;
    let kernel = Kernel::new(alloc, &roster)?;
    let session = Session {
        kernel,
        completions: ArrayVec::new_in(alloc),
        spares: Spares::new(alloc)?,
    };
    Box::new(alloc, session).map_err(|_| Errno::NoMemory)
}
