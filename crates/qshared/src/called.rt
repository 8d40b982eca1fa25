//! The outcomes of calls that ports make.

ghost use Rattle.std.specs.Prelude.{◌≡◌, ◌≤◌, if◌then◌else◌, is_ok as is_made};
ghost use Rattle.qshared.specs.TwoCalls.{is_ok};
ghost use Rattle.qshared.specs.Performing.{called_by, pends_with};
ghost use Rattle.qshared.specs.declared.called.Called.TheVariants.{Refused};

use qbase::errno::Errno;
use qmodel::call::{Call, Completion, Mark};
use std::mem;

/// The outcome of a call that a port was asked to make. The calls of `crates/balsaeuchre_calls` read their
/// results from it.
#[derive(Debug, Drop)]
pub enum Called {
    /// The call is an event and completed in it. The port took this completion.
    Done(Completion),
    /// The call is an event, and its thread is blocked until its completion arrives.
    Blocked,
    /// The call was refused: it isn't an event, and is returned whole.
    Refused(Errno, Call),
}

/// The outcome of two calls that are made without freeing the lock between them.
#[derive(Debug, Drop)]
pub enum CalledPair {
    /// The first call completed in its own event, with the result `Ok`, and this is its completion. The
    /// second call had this outcome.
    Both(Completion, Called),
    /// The first call had this outcome: it completed with another result than `Ok`, is blocked, or was
    /// refused. The second call isn't made, and is returned.
    First(Called, Call),
}

/// Returns the outcome of a call that was refused with an error, or is an event. Takes the call's own
/// completion out of its place, if it came in the event, and the refused call out of its place.
#[inline(always)]
pub(crate) fn called_by(
    made: Result<(), Errno>,
    own: &mut Option<Completion>,
    call: &mut Call,
) -> Called
    ensures { result ≡ called_by made own.old call.old }
{
    if let Err(errno) = made {
        return refused(errno, call);
    }
    if own.is_none() {
        return Called::Blocked;
    }
    let Some(completion) = own.take() else {
        unreachable!()
    };
    Called::Done(completion)
}

/// Returns the outcome of a refused call, which it takes out of its place.
#[cold]
#[inline(never)]
fn refused(errno: Errno, call: &mut Call) -> Called
    ensures { result ≡ Refused errno call.old }
{
    Called::Refused(errno, mem::replace(call, Call::Shutdown))
}

/// Returns 1 for a call that is an event, and 0 for a refused call.
pub(crate) fn events(made: &Result<(), Errno>) -> u64
    ensures number { result ≡ (if is_made made.now then 1 else 0) }
    ensures few { result ≤ 1 }
{
    match made {
        Ok(_) => 1,
        Err(_) => 0,
    }
}

/// Returns whether, after a call with this result, the completion of a blocked call isn't collected yet.
/// `own` is the call's own completion, if it came in the call's event. `before` says whether this was true
/// before the call.
pub(crate) fn pends(made: &Result<(), Errno>, own: &Option<Completion>, before: bool) -> bool
    ensures { result ≡ pends_with made.now own.now before }
{
    match made {
        Ok(_) => match own {
            None => true,
            Some(_) => before,
        },
        Err(_) => before,
    }
}

/// Returns whether a call succeeded: whether its result is `Ok`.
pub(crate) fn is_ok(mark: Mark) -> bool
    ensures { result ≡ is_ok mark }
{
    matches!(mark, Mark::Ok)
}
