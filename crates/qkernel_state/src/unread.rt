//! Queued messages: sent, and not yet received. The sender of each is SEND-blocked.

ghost use Rattle.std.specs.Prelude.{◌≡◌};
ghost use Rattle.qkernel_state.specs.Thread.{open_in};
ghost use Rattle.qkernel_state.specs.Threads.{IsSeatIn};
ghost use Rattle.qkernel_state.specs.Unread.{unread_in, MovesUnread};

use crate::objects::Objects;
use crate::thread::Thread;
use crate::thread_ref::ThreadRef;
use qbase::ids::ChannelId;
use qbase::priority::Priority;

/// A queued message: its Send and its channel.
#[derive(Clone, Copy, Debug, PartialEq, Eq)]
pub struct UnreadMessage {
    /// The number of its Send.
    pub number: u64,
    /// The channel to which it was sent.
    pub channel: ChannelId,
}

impl Thread {
    /// Returns the thread's message, if it is queued.
    pub fn unread(&self) -> Option<UnreadMessage>
        ensures { result ≡ unread_in self.now.open_call }
    {
        let send = self.send()?;
        if send.receipt.is_some() {
            return None;
        }
        Some(UnreadMessage {
            number: send.number,
            channel: send.channel,
        })
    }
}

impl Objects {
    /// Sets the priority of the queued message of the thread at this index, in its channel's queue. Does
    /// nothing if the thread isn't SEND-blocked. Takes no memory.
    pub fn requeue_unread(&mut self, seat: &ThreadRef, priority: Priority)
        requires { IsSeatIn self.old.threads seat.now }
        ensures threads { self.new.threads ≡ self.old.threads }
        ensures channels { MovesUnread (open_in self.old.threads seat.now.thread) priority self.old.channels
            self.new.channels }
        ensures connections { self.new.connections ≡ self.old.connections }
    {
        let there = self.threads.record(seat);
        let Some(unread) = there.unread() else {
            return;
        };
        let Some(channel) = self.channels.get_mut(unread.channel) else {
            return;
        };
        let _ = channel.queue.requeue(unread.number, priority, there.key);
    }
}
