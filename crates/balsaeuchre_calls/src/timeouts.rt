//! Calls with a time limit, which the process's timekeeper ends.

ghost use Rattle.std.specs.Prelude.{replicate};
ghost use Rattle.qmodel.specs.declared.call.Call.TheVariants as Call;
ghost use Rattle.balsaeuchre_calls.specs.Coming.{ComesWithin};
ghost use Rattle.balsaeuchre_calls.specs.Results.{reply_in, pulse_in, received_in};
ghost use Rattle.balsaeuchre_calls.specs.Timing.{IsTimed, MakesWithin};

use crate::alarms::Alarms;
use crate::caller::Caller;
use crate::endpoint::Endpoint;
use crate::error::CallError;
use crate::results::{Pulse, Received, Reply};
use qbase::errno::Errno;
use qbase::ids::{ChannelId, ConnectionId};
use std::sync::Wait;
use std::time::{Clock, Duration};

impl<'a, E: Endpoint, R: Wait + Clock> Caller<'a, E, R> {
    /// Sends a message like `msg_send`, but waits for at most this time (`TimerTimeout`). The alarms must be
    /// the ones that the process's timekeeper rings. Fails like `msg_send`, with `TimedOut`, or with
    /// `NoClock`. If the channel has the flag `UNBLOCK` and the server holds the message, the server gets a
    /// pulse when the time is over. Then the call completes when the server replies.
    pub fn msg_send_within(
        &mut self,
        alarms: &Alarms,
        coid: ConnectionId,
        message: &[u8],
        reply_len: usize,
        time: Duration,
    ) -> Result<Reply, CallError>
        ensures makes { MakesWithin reply_in (Call.Send coid message.now (replicate reply_len 0))
            (E.history self.old.endpoint) (E.history self.new.endpoint) result }
        ensures came { ComesWithin (λ e. E.history e) E.came E.awaited self.old.endpoint
            (Call.Send coid message.now (replicate reply_len 0)) (E.seen self.old.endpoint)
            (E.seen self.new.endpoint) (E.history self.new.endpoint) result }
    {
        alarms.set(self.rt, self.thread(), time)?;
        let answer = self.msg_send(coid, message, reply_len);
        self.timed(alarms, answer)
    }

    /// Receives like `msg_receive`, but waits for at most this time. Fails like `msg_receive`, with
    /// `TimedOut`, or with `NoClock`.
    pub fn msg_receive_within(
        &mut self,
        alarms: &Alarms,
        chid: ChannelId,
        len: usize,
        time: Duration,
    ) -> Result<Received, CallError>
        ensures makes { MakesWithin received_in (Call.Receive chid (replicate len 0))
            (E.history self.old.endpoint) (E.history self.new.endpoint) result }
        ensures came { ComesWithin (λ e. E.history e) E.came E.awaited self.old.endpoint
            (Call.Receive chid (replicate len 0)) (E.seen self.old.endpoint) (E.seen self.new.endpoint)
            (E.history self.new.endpoint) result }
    {
        alarms.set(self.rt, self.thread(), time)?;
        let received = self.msg_receive(chid, len);
        self.timed(alarms, received)
    }

    /// Receives like `msg_receive_pulse`, but waits for at most this time. Fails like `msg_receive_pulse`,
    /// with `TimedOut`, or with `NoClock`.
    pub fn msg_receive_pulse_within(
        &mut self,
        alarms: &Alarms,
        chid: ChannelId,
        time: Duration,
    ) -> Result<Pulse, CallError>
        ensures makes { MakesWithin pulse_in (Call.ReceivePulse chid) (E.history self.old.endpoint)
            (E.history self.new.endpoint) result }
        ensures came { ComesWithin (λ e. E.history e) E.came E.awaited self.old.endpoint
            (Call.ReceivePulse chid) (E.seen self.old.endpoint) (E.seen self.new.endpoint)
            (E.history self.new.endpoint) result }
    {
        alarms.set(self.rt, self.thread(), time)?;
        let pulse = self.msg_receive_pulse(chid);
        self.timed(alarms, pulse)
    }

    /// Clears the caller's alarm, and returns the result of its call: `TimedOut` if the call was cancelled
    /// with `Intr` and the alarm rang.
    fn timed<T>(&self, alarms: &Alarms, done: Result<T, CallError>) -> Result<T, CallError>
        ensures { IsTimed done result }
    {
        let rang = alarms.clear(self.rt, self.thread());
        match done {
            Err(CallError::Cancelled(Errno::Intr)) if rang => Err(CallError::TimedOut),
            done => done,
        }
    }
}
