//! The arrows of a chart, from thread to thread: messages and pulses that are received, and replies.

ghost use Rattle.std.specs.Prelude.{◌≡◌, IfOk};
ghost use Rattle.std.specs.List.{filter_map};
ghost use Rattle.qscript_chart.specs.Arrows.{caller_of, arrow_of, arrow_by};

use qbase::ids::ThreadNo;
use qkernel::call::{Completion, Mark};
use std::alloc::{AllocError, Global};

/// The sort of an arrow.
#[derive(Clone, Copy, PartialEq, Eq)]
pub enum ArrowKind {
    /// A message that is received.
    Message,
    /// A pulse that is received.
    Pulse,
    /// A reply with this status.
    Reply(i64),
    /// An error reply with this code.
    Error(i32),
}

/// An arrow from one thread to another, or from a thread to itself.
#[derive(Clone, Copy, PartialEq, Eq)]
pub struct Arrow {
    /// The number of the call that sent the message or the pulse. A reply has the number of its message.
    pub number: u64,
    pub from: ThreadNo,
    pub to: ThreadNo,
    pub what: ArrowKind,
}

/// Returns the thread that made the call with this number, if there is one. `callers` has the threads of the
/// calls, starting with call 1.
pub fn caller_of(callers: &[ThreadNo], number: u64) -> Option<ThreadNo>
    ensures { result ≡ caller_of callers.now number }
{
    if number == 0 {
        return None;
    }
    callers.get((number - 1) as usize).copied()
}

/// Returns the arrow of a completion in the event of the latest call, which `caller` made. It goes from the
/// sender to the receiver, or from the thread that replies to the sender.
#[tactic(auto, unfolding(crate::specs::Arrows::arrow_by))]
pub fn arrow_of(callers: &[ThreadNo], caller: ThreadNo, completion: &Completion) -> Option<Arrow>
    ensures { result ≡ arrow_of callers.now caller completion.now }
{
    let (number, from, what) = match completion.mark {
        Mark::Message { rcvid, .. } => (rcvid.0, caller_of(callers, rcvid.0)?, ArrowKind::Message),
        Mark::Pulse { item, .. } => (item, caller_of(callers, item)?, ArrowKind::Pulse),
        Mark::Replied { status, .. } => (completion.call, caller, ArrowKind::Reply(status)),
        Mark::Errored(code) => (completion.call, caller, ArrowKind::Error(code)),
        _ => return None,
    };
    Some(Arrow {
        number,
        from,
        to: completion.thread,
        what,
    })
}

/// Returns the arrows of an event whose call `caller` made, in the order of its completions.
pub fn arrows_of(
    alloc: Global,
    callers: &[ThreadNo],
    caller: ThreadNo,
    completions: &[Completion],
) -> Result<Vec<Arrow>, AllocError>
    ensures { IfOk result
        (λ arrows. arrows.items ≡ filter_map (arrow_of callers.now caller) completions.now) }
{
    completions
        .iter()
        .filter_map(|completion| arrow_of(callers, caller, completion))
        .collect(alloc)
}
