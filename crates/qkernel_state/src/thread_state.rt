//! The state of a thread, and the channel on which it is blocked.

ghost use Rattle.std.specs.Prelude.{◌≡◌};
ghost use Rattle.qbase.specs.declared.state.ThreadState.TheVariants.{Ready};
ghost use Rattle.std.specs.Option.{option_map_or};
ghost use Rattle.qrules.specs.Rules.Threads.{state_in};
ghost use Rattle.qkernel_state.specs.Thread.{open_in};
ghost use Rattle.qkernel_state.specs.Threads.{IsSeatIn};

use crate::objects::Objects;
use crate::thread_ref::ThreadRef;
use qbase::state::ThreadState;
use qmodel::open_call::OpenCall;

/// Returns the state of a thread with this open call.
pub fn state_of(call: &OpenCall) -> ThreadState
    ensures { result ≡ state_in call.now }
{
    match call {
        OpenCall::Send(send) => match send.receipt {
            None => ThreadState::SendBlocked(send.channel),
            Some(_) => ThreadState::ReplyBlocked(send.channel),
        },
        OpenCall::Receive(receive) => ThreadState::ReceiveBlocked(receive.channel),
    }
}

impl Objects {
    /// Returns the state of the thread at this index.
    pub fn state(&self, seat: &ThreadRef) -> ThreadState
        requires { IsSeatIn self.now.threads seat.now }
        ensures { result ≡ option_map_or state_in (open_in self.now.threads seat.now.thread) Ready }
    {
        match &self.threads.record(seat).open_call {
            None => ThreadState::Ready,
            Some(call) => state_of(call),
        }
    }
}
