//! The calls in which a caller may wait: sends and receives.

ghost use Rattle.std.specs.Prelude.{◌≡◌, replicate};
ghost use Rattle.balsaeuchre_calls.specs.Coming.{Collects, ComesOf, ComesOfBothBytes, ComesOfBytes};
ghost use Rattle.balsaeuchre_calls.specs.Making.{Makes, MakesBothOfBytes, MakesOfBytes};
ghost use Rattle.balsaeuchre_calls.specs.Polling.{Polls, StartsOfBytes, option_in};
ghost use Rattle.balsaeuchre_calls.specs.Results.{reply_in, pulse_in, received_in};

use crate::caller::Caller;
use crate::calls::Calls;
use crate::completed::Completed;
use crate::endpoint::Endpoint;
use crate::error::{CallError, refusal};
use crate::results::{Pulse, Received, Reply};
use crate::with_bytes;
use qbase::ids::{ChannelId, ConnectionId, ReceiveId};
use qmodel::call::{Call, Completion};
use qshared::called::Called;
use std::sync::Wait;

impl<'a, E: Endpoint, R: Wait> Caller<'a, E, R> {
    /// Sends a message over a connection, and waits for the reply in a buffer of `reply_len` bytes
    /// (`MsgSend`). Refused with `Badf` if the connection isn't live, is another process's, or its channel
    /// isn't open.
    pub fn msg_send(
        &mut self,
        coid: ConnectionId,
        message: &[u8],
        reply_len: usize,
    ) -> Result<Reply, CallError>
        ensures makes { MakesOfBytes reply_in (Call.Send coid message.now (replicate reply_len 0))
            (E.history self.old.endpoint) (E.history self.new.endpoint) result }
        ensures came { ComesOfBytes (λ e. E.history e) E.came E.awaited self.old.endpoint
            (Call.Send coid message.now (replicate reply_len 0)) (E.seen self.old.endpoint)
            (E.seen self.new.endpoint) (E.history self.new.endpoint) result }
    {
        let send = with_bytes::send(self.alloc, coid, message, reply_len)?;
        self.make(send)?.reply()
    }

    /// Receives a message, into a buffer of `len` bytes, or a pulse from a channel, and waits if there is
    /// none (`MsgReceive`). Refused with `Srch` if the channel isn't open or is another process's.
    pub fn msg_receive(&mut self, chid: ChannelId, len: usize) -> Result<Received, CallError>
        ensures makes { MakesOfBytes received_in (Call.Receive chid (replicate len 0))
            (E.history self.old.endpoint) (E.history self.new.endpoint) result }
        ensures came { ComesOfBytes (λ e. E.history e) E.came E.awaited self.old.endpoint
            (Call.Receive chid (replicate len 0)) (E.seen self.old.endpoint) (E.seen self.new.endpoint)
            (E.history self.new.endpoint) result }
    {
        let receive = with_bytes::receive(self.alloc, chid, len)?;
        self.make(receive)?.received()
    }

    /// Receives a pulse from a channel, and waits if there is none; messages stay queued (`MsgReceivePulse`).
    /// Refused with `Srch` if the channel isn't open or is another process's.
    pub fn msg_receive_pulse(&mut self, chid: ChannelId) -> Result<Pulse, CallError>
        ensures makes { Makes pulse_in (Call.ReceivePulse chid) (E.history self.old.endpoint)
            (E.history self.new.endpoint) result }
        ensures came { ComesOf (λ e. E.history e) E.came E.awaited self.old.endpoint (Call.ReceivePulse chid)
            (E.seen self.new.endpoint) (E.history self.new.endpoint) }
    {
        self.make(Call::ReceivePulse(chid))?.pulse()
    }

    /// Replies to a held message with a status and bytes, and then receives from a channel into a buffer of
    /// `len` bytes. It is `msg_reply` followed by `msg_receive`, for a server's loop: the kernel's lock is
    /// taken once for both. If the reply is refused, nothing is received, and the reply's error is returned.
    /// Not a QNX call.
    pub fn msg_reply_receive(
        &mut self,
        rcvid: ReceiveId,
        status: i64,
        bytes: &[u8],
        chid: ChannelId,
        len: usize,
    ) -> Result<Received, CallError>
        ensures makes { MakesBothOfBytes received_in (Call.Reply rcvid status bytes.now)
            (Call.Receive chid (replicate len 0)) (E.history self.old.endpoint)
            (E.history self.new.endpoint) result }
        ensures came { ComesOfBothBytes (λ e. E.history e)
            (λ e. E.seen e) E.came E.came_both E.awaited self.old.endpoint (Call.Reply rcvid status bytes.now)
            (Call.Receive chid (replicate len 0)) (E.seen self.new.endpoint)
            (E.history self.new.endpoint) result }
    {
        let reply = with_bytes::reply(self.spare(), rcvid, status, bytes)?;
        let receive = with_bytes::receive(self.alloc, chid, len)?;
        self.make_both(reply, receive)?.received()
    }

    /// Receives like `msg_receive`, but doesn't wait. If there is no message or pulse it returns `None`, and
    /// the caller is RECEIVE-blocked. Then each call except `msg_receive_poll` is refused with `Busy`, until
    /// `msg_receive_poll` has returned the message or pulse.
    pub fn msg_receive_start(
        &mut self,
        chid: ChannelId,
        len: usize,
    ) -> Result<Option<Received>, CallError>
        ensures starts { StartsOfBytes received_in (Call.Receive chid (replicate len 0))
            (E.history self.old.endpoint) (E.history self.new.endpoint) result }
        ensures came { ComesOfBytes (λ e. E.history e) E.came E.awaited self.old.endpoint
            (Call.Receive chid (replicate len 0)) (E.seen self.old.endpoint) (E.seen self.new.endpoint)
            (E.history self.new.endpoint) result }
    {
        let receive = with_bytes::receive(self.alloc, chid, len)?;
        match self.endpoint.call(self.rt, receive) {
            Called::Done(completion) => received_by(false, completion),
            Called::Blocked => Ok(None),
            Called::Refused(errno, _) => Err(refusal(errno)),
        }
    }

    /// Returns the message or pulse for the receive that was started, if it has arrived. It never waits, and
    /// always returns `None` if no receive was started.
    pub fn msg_receive_poll(&mut self) -> Result<Option<Received>, CallError>
        ensures polls { Polls received_in (E.history self.old.endpoint) (E.history self.new.endpoint) result }
        ensures seen { Collects (E.waited self.old.endpoint) (E.history self.old.endpoint).taken
            (E.history self.new.endpoint).taken (E.seen self.old.endpoint) (E.seen self.new.endpoint) }
    {
        match self.endpoint.poll() {
            Some(completion) => received_by(true, completion),
            None => Ok(None),
        }
    }
}

/// Returns the message or pulse of a completed receive.
fn received_by(waited: bool, completion: Completion) -> Result<Option<Received>, CallError>
    ensures { result ≡ option_in received_in waited completion.mark completion.buffer }
{
    let Completion { mark, buffer, .. } = completion;
    let completed = Completed {
        waited,
        mark,
        buffer,
    };
    Ok(Some(completed.received()?))
}
