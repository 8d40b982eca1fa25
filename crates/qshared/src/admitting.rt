//! Makes the room that a kept history needs for a call, before the call is made.

ghost use Rattle.std.specs.Prelude.{◌≡◌, ◌<◌, ◌≤◌, ◌+◌, ◌⊎◌, length, IfOk, IfErr, IfSome, ◌^◌};
ghost use Rattle.qmodel.specs.declared.call.Call.TheVariants.{Shutdown};
ghost use Rattle.qshared.specs.Private.Recorded.{HasRoomFor};

use crate::logged_copy::LoggedCopy;
use crate::preallocated::Preallocated;
use qbase::errno::Errno;
use qkernel::event_log::EventLog;
use qmodel::call::Call;
use std::alloc::Global;

/// The most completions that an event can have.
const COMPLETIONS: usize = 64;

/// Returns the copy of the call and room for a copy of its buffer. Makes room in the log for the call's event
/// and one more event. A Shutdown is always admitted, since the room for it was made before.
///
/// Fails with `TraceFull` if one event of the limit is left, and with `NoMemory` if there is no copy or the
/// allocator refuses.
pub(crate) fn admit(
    alloc: Global,
    log: &mut EventLog,
    limit: usize,
    call: &Call,
    copies: Option<LoggedCopy>,
) -> Result<(Call, Preallocated), Errno>
    requires copies { IfSome copies (λ c. c ≡ call.now) }
    requires room { (length log.old.events < limit) × (limit ≤ 2 ^ 20) }
    ensures same { log.new ≡ record log.old {
      call_room = log.new.call_room;
      completion_room = log.new.completion_room;
    } }
    ensures kept { (log.old.call_room ≤ log.new.call_room)
        × (log.old.completion_room ≤ log.new.completion_room) }
    ensures copy { IfOk result (λ r. r.0 ≡ call.now) }
    ensures grown { IfOk result (λ r. HasRoomFor limit log.new call.now r.1) }
    ensures refused { IfErr result
        (λ e. ¬ (call.now ≡ Shutdown)
        × (((e ≡ Errno.TraceFull) × (length log.old.events + 1 ≡ limit))
        ⊎ ((e ≡ Errno.NoMemory) × (length log.old.events + 1 < limit)))) }
    ensures idle { IfErr result (λ e. ¬ (e ≡ Errno.Busy)) }
{
    if matches!(call, Call::Shutdown) {
        return Ok((Call::Shutdown, Preallocated::none(alloc)));
    }
    if log.len() + 1 == limit {
        return Err(Errno::TraceFull);
    }
    let Some(copies) = copies else {
        return Err(Errno::NoMemory);
    };
    if log.reserve(2, 2 * COMPLETIONS).is_err() {
        return Err(Errno::NoMemory);
    }
    Ok(copies.into_parts())
}
