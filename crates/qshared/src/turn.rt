//! The data that a port brings to a desk.

ghost use Rattle.std.specs.Prelude.{◌≡◌, [], false, IfOk, IfSome, None};

use crate::log::Log;
use crate::logged_copy::LoggedCopy;
use arrayvec::ArrayVec;
use qkernel::completions::Completions;
use qkernel::thread_ref::ThreadRef;
use qmodel::call::{Call, Completion};
use std::alloc::{AllocError, Global};

/// The index of a port's thread, room for the completions of one call, and other data for its calls. They are
/// kept in the port and not under the lock, so that their cache lines stay with the port's thread.
#[derive(Drop)]
pub struct Turn {
    pub(crate) alloc: Global,
    pub(crate) seat: ThreadRef,
    // The completions of one call. The list is empty between two calls.
    pub(crate) completions: Box<Completions>,
    // The bit of each other thread whose cell was filled in this turn.
    pub(crate) woken: u64,
    // Whether the completion of a blocked call isn't collected yet.
    pub(crate) pending: bool,
    // The last call, if its bytes were lent to the kernel, and otherwise a Shutdown, which has no bytes. It
    // is freed outside the lock.
    pub(crate) lent: Call,
    // The place of the call's completion, if it comes in the call's own event.
    pub(crate) own: Option<Completion>,
    // Copies of the call that is made next, for the log. They are made before the lock is taken.
    pub(crate) copies: Option<LoggedCopy>,
}

/// Empties a place, and writes nothing if it is empty.
#[inline(always)]
pub(crate) fn clear<T: Drop>(place: &mut Option<T>)
    ensures { place.new ≡ None }
{
    if let Some(_) = place {
        free(place);
    }
}

/// Empties a place that isn't empty, which is rare.
#[cold]
#[inline(never)]
fn free<T: Drop>(place: &mut Option<T>)
    ensures { place.new ≡ None }
{
    *place = None;
}

/// Copies a call for the log `L`, if the log keeps copies. It is called before the lock is taken.
#[inline(always)]
pub(crate) fn copy_into<L: Log>(alloc: Global, call: &Call, copies: &mut Option<LoggedCopy>)
    ensures { IfSome copies.new (λ c. c ≡ call.now) }
{
    clear(copies);
    if let Some(made) = L::copies(alloc, call) {
        *copies = Some(made);
    }
}

/// Frees the last call, if its bytes were lent to the kernel. It writes nothing if they weren't.
#[inline(always)]
pub(crate) fn free_lent(lent: &mut Call) {
    match lent {
        Call::Shutdown => {}
        _ => free_call(lent),
    }
}

/// Frees a call that has bytes.
#[inline(never)]
fn free_call(lent: &mut Call) {
    *lent = Call::Shutdown;
}

/// Keeps a call that was made, if its bytes were only lent to the kernel. Of any other call only a Shutdown
/// is left in its place.
#[inline(always)]
pub(crate) fn keep_lent(lent: &mut Call, call: Call) {
    match call {
        Call::Shutdown => {}
        call => *lent = call,
    }
}

impl Turn {
    /// Makes the room, 7 KB, for the thread at this index.
    pub fn new(alloc: Global, seat: ThreadRef) -> Result<Turn, AllocError>
        ensures seat { IfOk result (λ turn. turn.seat ≡ seat) }
        ensures none { IfOk result
            (λ turn. (turn.completions.value.items ≡ []) × (turn.pending ≡ false)) }
    {
        Ok(Turn {
            alloc,
            seat,
            completions: Box::new(alloc, ArrayVec::new_in(alloc))?,
            woken: 0,
            pending: false,
            lent: Call::Shutdown,
            own: None,
            copies: None,
        })
    }
}
