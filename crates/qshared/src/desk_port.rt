//! One thread's side of a desk.

ghost use Rattle.std.specs.Prelude.{◌≡◌, [], false};
ghost use Rattle.qhandoff.specs.Words.{thread_of};
ghost use Rattle.qshared.specs.Asking.{IsSince, calls_of};
ghost use Rattle.qshared.specs.Delivered.{taken};
ghost use Rattle.qshared.specs.Due.{AreLater, at_once};

mod calling;
mod collecting;

use crate::asking::PortCalls;
use crate::delivery::Delivery;
use crate::history::Prefix;
use crate::turn::Turn;
use qbase::ids::ThreadNo;
use qhandoff::seats::ThreadSeat;

/// One thread's side of a desk: the token that empties its cell, and the data for its calls. It knows what
/// its calls and its completions were.
#[derive(Drop)]
pub struct DeskPort {
    pub(crate) thread: ThreadNo,
    pub(crate) seat: ThreadSeat<Delivery>,
    pub(crate) turn: Turn,
    // The list of its calls that are events. Only contracts read it.
    pub(crate) asked: PortCalls,
    // The prefix of the history that it has seen. Only contracts read it.
    pub(crate) seen: Prefix,
    // The prefix of the history that it saw at its last call. Only contracts read it.
    pub(crate) last: Prefix,
    ghost turn_is: { (turn.seat.thread ≡ thread) × (turn.seat.index ≡ thread_of seat) },
    ghost idle: { turn.completions.value.items ≡ [] },
    ghost since: { IsSince seen.trace last.trace },
    ghost calls_are: { calls_of last.trace thread ≡ asked.calls },
    ghost later: { AreLater turn.pending (at_once last.trace thread) (taken seat) },
}

impl DeskPort {
    /// Makes the port of a thread that has made no call.
    pub fn new(seat: ThreadSeat<Delivery>, turn: Turn, asked: PortCalls, seen: Prefix) -> DeskPort
        requires turn { (turn.seat.index ≡ thread_of seat) × (turn.completions.value.items ≡ [])
            × (turn.pending ≡ false) }
        requires taken { taken seat ≡ [] }
        requires unused { (seen.trace ≡ []) × (asked.calls ≡ []) }
        ensures thread { result.thread ≡ turn.seat.thread }
        ensures parts { (result.seat ≡ seat) × (result.turn ≡ turn) × (result.asked ≡ asked)
            × (result.seen ≡ seen) × (result.last.trace ≡ []) }
    {
        let last = seen.again();
        DeskPort {
            thread: turn.seat.thread(),
            seat,
            turn,
            asked,
            seen,
            last,
        }
    }
}
