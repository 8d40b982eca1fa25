//! The calls of one thread of a simulator.

ghost use Rattle.std.specs.Prelude.{◌≡◌, replicate};
ghost use Rattle.balsaeuchre_calls.specs.Making.{completed_in};
ghost use Rattle.balsaeuchre_calls.specs.Results.{reply_in, pulse_in, received_in};
ghost use Rattle.balsaeuchre_calls.specs.Simulating.{Simulates, SimulatesOfBytes, at_once, unless_blocked};

use super::{Outcome, Simulator, done};
use crate::calls::Calls;
use crate::completed::Completed;
use crate::error::CallError;
use crate::results::{Pulse, Received, Reply};
use crate::with_bytes;
use qbase::ids::{ChannelId, ConnectionId, ThreadNo};
use qmodel::call::Call;
use std::alloc::Global;

/// A thread of a simulator. Its methods are the calls that may block it; the trait `Calls` has the others.
#[derive(Drop)]
pub struct SimulatorThread<'s> {
    pub(super) simulator: &'s mut Simulator,
    pub(super) thread: ThreadNo,
}

impl<'s> SimulatorThread<'s> {
    /// Sends a message over a connection, with a reply buffer of `reply_len` bytes (`MsgSend`). The thread is
    /// blocked until the reply, and then `Completed::reply` reads the reply from the completion. Refused
    /// with `Badf` if the connection isn't live, is another process's, or its channel isn't open.
    pub fn msg_send(
        &mut self,
        coid: ConnectionId,
        message: &[u8],
        reply_len: usize,
    ) -> Result<Outcome<Reply>, CallError>
        ensures made { SimulatesOfBytes (unless_blocked reply_in) self.old.thread
            (Call.Send coid message.now (replicate reply_len 0)) self.old.simulator.now
            self.new.simulator.now result }
        ensures same { (self.new.thread ≡ self.old.thread)
            × (self.new.simulator.ghost_name ≡ self.old.simulator.ghost_name) }
    {
        let send = with_bytes::send(self.simulator.alloc(), coid, message, reply_len)?;
        match self.simulator.make(self.thread, send)? {
            Outcome::Done(completed) => done(completed.reply()),
            Outcome::Blocked => Ok(Outcome::Blocked),
        }
    }

    /// Receives a message, into a buffer of `len` bytes, or a pulse from a channel (`MsgReceive`). If there
    /// is none, the thread is blocked until one arrives, and then `Completed::received` reads it from the
    /// completion. Refused with `Srch` if the channel isn't open or is another process's.
    pub fn msg_receive(
        &mut self,
        chid: ChannelId,
        len: usize,
    ) -> Result<Outcome<Received>, CallError>
        ensures made { SimulatesOfBytes (unless_blocked received_in) self.old.thread
            (Call.Receive chid (replicate len 0)) self.old.simulator.now self.new.simulator.now result }
        ensures same { (self.new.thread ≡ self.old.thread)
            × (self.new.simulator.ghost_name ≡ self.old.simulator.ghost_name) }
    {
        let receive = with_bytes::receive(self.simulator.alloc(), chid, len)?;
        match self.simulator.make(self.thread, receive)? {
            Outcome::Done(completed) => done(completed.received()),
            Outcome::Blocked => Ok(Outcome::Blocked),
        }
    }

    /// Receives a pulse from a channel; messages stay queued (`MsgReceivePulse`). If there is none, the
    /// thread is blocked until one arrives, and then `Completed::pulse` reads it from the completion. Refused
    /// with `Srch` if the channel isn't open or is another process's.
    pub fn msg_receive_pulse(&mut self, chid: ChannelId) -> Result<Outcome<Pulse>, CallError>
        ensures made { Simulates (unless_blocked pulse_in) self.old.thread
            (Call.ReceivePulse chid) self.old.simulator.now self.new.simulator.now result }
        ensures same { (self.new.thread ≡ self.old.thread)
            × (self.new.simulator.ghost_name ≡ self.old.simulator.ghost_name) }
    {
        match self.simulator.make(self.thread, Call::ReceivePulse(chid))? {
            Outcome::Done(completed) => done(completed.pulse()),
            Outcome::Blocked => Ok(Outcome::Blocked),
        }
    }
}

impl<'s> Calls for SimulatorThread<'s> {
    ghost made = { λ before call after completed. (
        Simulates (at_once completed_in) before.thread call before.simulator.now after.simulator.now completed
        × (after.thread ≡ before.thread)
        × (after.simulator.ghost_name ≡ before.simulator.ghost_name)) };

    fn alloc(&self) -> Global {
        self.simulator.alloc()
    }

    fn complete(&mut self, call: Call) -> Result<Completed, CallError> {
        self.simulator.complete(self.thread, call)
    }
}
