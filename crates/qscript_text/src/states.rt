//! The words for the state of a thread.

use qbase::ids::{ChannelId, ThreadNo};
use qbase::state::ThreadState;
use qmodel::open_call::Blocked;

/// Returns the name of a state, in the words of the QNX Neutrino System Architecture.
pub fn state_name(state: ThreadState) -> &'static str {
    match state {
        ThreadState::Ready => "ready",
        ThreadState::SendBlocked(_) => "SEND-blocked",
        ThreadState::ReceiveBlocked(_) => "RECEIVE-blocked",
        ThreadState::ReplyBlocked(_) => "REPLY-blocked",
    }
}

/// Returns the word that a trace prints for a state.
pub fn state_word(state: ThreadState) -> &'static str {
    match state {
        ThreadState::Ready => "ready",
        ThreadState::SendBlocked(_) => "send",
        ThreadState::ReceiveBlocked(_) => "receive",
        ThreadState::ReplyBlocked(_) => "reply",
    }
}

/// Returns the state of a thread, given all blocked threads. A thread that isn't among them is ready.
pub fn state_among(blocked: &[Blocked], thread: ThreadNo) -> ThreadState {
    match blocked.iter().find(|blocked| blocked.thread == thread) {
        Some(blocked) => blocked.state,
        None => ThreadState::Ready,
    }
}

/// Returns the channel on which a thread in this state is blocked, or `None` for a ready thread.
pub fn state_channel(state: ThreadState) -> Option<ChannelId> {
    match state {
        ThreadState::Ready => None,
        ThreadState::SendBlocked(chid)
        | ThreadState::ReceiveBlocked(chid)
        | ThreadState::ReplyBlocked(chid) => Some(chid),
    }
}
