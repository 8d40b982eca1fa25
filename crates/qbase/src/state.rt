//! The states of a thread.

use crate::ids::ChannelId;

/// A thread's state, named as in the QNX Neutrino System Architecture, with the channel on which it is
/// blocked.
#[derive(Clone, Copy, Debug, PartialEq, Eq)]
pub enum ThreadState {
    /// The thread isn't blocked in the kernel.
    Ready,
    /// The thread sent a message that no server has received.
    SendBlocked(ChannelId),
    /// The thread waits for a message or a pulse.
    ReceiveBlocked(ChannelId),
    /// The thread's message was received and has no reply yet.
    ReplyBlocked(ChannelId),
}
