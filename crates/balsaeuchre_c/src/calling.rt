//! Makes a call for C, and writes its completions.

ghost use Rattle.std.specs.Prelude.{◌≡◌, length, IfOk, IfErr};
ghost use Rattle.qkernel_state.specs.Contents.{members_of};
ghost use Rattle.balsaeuchre_c.specs.Calling.{CallError, IsEvent};

use crate::request::CallRequest;
use crate::row::Row;
use crate::session::Session;
use crate::write_rows::{EventCounts, tell};
use qbase::errno::Errno;

/// The number of rows that a call needs: an event has at most this many completions.
const ROW_LIMIT: usize = 64;

/// Makes the call of a request, writes the completions of its event, and returns their counts. Fails with
/// `Inval` if there are fewer than `ROW_LIMIT` rows, or like `Session::make`.
#[inline(always)]
pub fn make_call(
    session: &mut Session,
    request: &CallRequest,
    sent: &[u8],
    room: &[u8],
    rows: &mut [Row],
    bytes: &mut [u8],
) -> Result<EventCounts, Errno>
    ensures event { IfOk result
        (λ done. IsEvent session.old request.now sent.now room.now session.new rows.old rows.new bytes.old
        bytes.new done) }
    ensures roster { members_of session.new.kernel.threads ≡ members_of session.old.kernel.threads }
    ensures error { IfErr result
        (λ errno. CallError session.old request.now sent.now room.now (length rows.old) errno) }
    ensures unchanged { IfErr result
        (λ _. (session.new ≡ session.old) × (rows.new ≡ rows.old) × (bytes.new ≡ bytes.old)) }
{
    if rows.len() < ROW_LIMIT {
        return Err(Errno::Inval);
    }
    session.make(request, sent, room)?;
    Ok(tell(&session.kernel, session.completions.as_slice(), rows, bytes))
}
