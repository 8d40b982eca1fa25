//! Builds the calls that carry bytes: copies the program's bytes, and fills buffers with zeros.

ghost use Rattle.std.specs.Prelude.{◌≡◌, replicate, MatchResult};
ghost use Rattle.balsaeuchre_calls.specs.declared.error.CallError.TheVariants as error;

use crate::error::CallError;
use qbase::bytes::Bytes;
use qbase::ids::{ChannelId, ConnectionId, ReceiveId};
use qmodel::call::Call;
use std::alloc::Global;

/// Returns a `Send` of these bytes, with a reply buffer of `reply_len` bytes.
pub(crate) fn send(
    alloc: Global,
    coid: ConnectionId,
    message: &[u8],
    reply_len: usize,
) -> Result<Call, CallError>
    ensures { MatchResult result (λ call. call ≡ Call.Send coid message.now (replicate reply_len 0))
        (λ e. e ≡ error.NoMemory) }
{
    Ok(Call::Send {
        coid,
        message: Bytes::copied(alloc, message)?,
        reply_buffer: Bytes::filled(alloc, 0, reply_len)?,
    })
}

/// Returns a `Receive` into a buffer of `len` bytes.
pub(crate) fn receive(alloc: Global, chid: ChannelId, len: usize) -> Result<Call, CallError>
    ensures { MatchResult result (λ call. call ≡ Call.Receive chid (replicate len 0))
        (λ e. e ≡ error.NoMemory) }
{
    let buffer = Bytes::filled(alloc, 0, len)?;
    Ok(Call::Receive { chid, buffer })
}

/// Returns a copy of these bytes, in the memory of `others` if that is large enough.
fn copied(others: Bytes, bytes: &[u8]) -> Result<Bytes, CallError>
    ensures { MatchResult result (λ copy. copy ≡ bytes.now) (λ e. e ≡ error.NoMemory) }
{
    let mut items = others.into_vec();
    items.clear();
    items.extend_from_slice(bytes)?;
    Ok(Bytes::from(items))
}

/// Returns a `Reply` with a status and these bytes, in the memory of `others` if that is large enough.
pub(crate) fn reply(
    others: Bytes,
    rcvid: ReceiveId,
    status: i64,
    bytes: &[u8],
) -> Result<Call, CallError>
    ensures { MatchResult result (λ call. call ≡ Call.Reply rcvid status bytes.now)
        (λ e. e ≡ error.NoMemory) }
{
    let bytes = copied(others, bytes)?;
    Ok(Call::Reply {
        rcvid,
        status,
        bytes,
    })
}

/// Returns a `Read` that starts at the offset, into a buffer of `len` bytes.
pub(crate) fn read(
    alloc: Global,
    rcvid: ReceiveId,
    offset: usize,
    len: usize,
) -> Result<Call, CallError>
    ensures { MatchResult result (λ call. call ≡ Call.Read rcvid offset (replicate len 0))
        (λ e. e ≡ error.NoMemory) }
{
    let buffer = Bytes::filled(alloc, 0, len)?;
    Ok(Call::Read {
        rcvid,
        offset,
        buffer,
    })
}

/// Returns a `Write` of these bytes that starts at the offset, in the memory of `others` if that is large
/// enough.
pub(crate) fn write(
    others: Bytes,
    rcvid: ReceiveId,
    offset: usize,
    bytes: &[u8],
) -> Result<Call, CallError>
    ensures { MatchResult result (λ call. call ≡ Call.Write rcvid offset bytes.now)
        (λ e. e ≡ error.NoMemory) }
{
    let bytes = copied(others, bytes)?;
    Ok(Call::Write {
        rcvid,
        offset,
        bytes,
    })
}
