//! The record of an open channel, and look-ups of channels and connections.

ghost use Rattle.std.specs.Prelude.{◌≡◌, ◌==◌, ◌+◌, ◌<◌, ◌++◌, ◌∷◌, ◌&&◌, [], count_by, is_some, true, None};
ghost use Rattle.std.specs.Prelude.{Some, if◌then◌else◌, IsOk, OnOk, OnErr, IfErr};
ghost use Rattle.std.specs.List.{AllByRecursion};
ghost use Rattle.qrules.specs.Records.{is_fixed, tells_disconnect, tells_unblock};
ghost use Rattle.qkernel_state.specs.Channel.{is_of, route_in, ClosesIn};
ghost use Rattle.qkernel_state.specs.Contents.{channel_in, open_channel_of};
ghost use Rattle.qtables.specs.Entries.{entry_at};

use crate::objects::Objects;
use qbase::errno::Errno;
use qbase::flags::ChannelFlags;
use qbase::ids::{ChannelId, ConnectionId, ProcessNo};
use qbase::priority::Priority;
use qqueue::item::Item;
use qqueue::queue::Queue;

/// An open channel, with its queue.
#[derive(Drop)]
pub struct Channel {
    /// The process that created it. Any thread of this process may receive on it and reply to its messages.
    pub owner: ProcessNo,
    pub flags: ChannelFlags,
    /// Its queued messages and pulses: sent, and not yet received.
    pub queue: Queue,
}

impl Channel {
    /// Returns the priority that a receiver gets with an item of this priority. Returns `None` if the channel
    /// has the fixed-priority flag: then receivers keep their own priorities.
    pub fn carried(&self, priority: Priority) -> Option<Priority>
        ensures { result ≡ (if is_fixed (Some (open_channel_of self.now)) then None else Some priority) }
    {
        if self.flags.fixes_priority() {
            None
        } else {
            Some(priority)
        }
    }

    /// Adds an item to the queue, as its newest, and returns its key there. Takes memory only if the queue
    /// has no room, and fails with `NoMemory` if the allocator refuses.
    #[inline(always)]
    pub fn enqueue(&mut self, item: Item) -> Result<usize, Errno>
        requires newest { AllByRecursion (λ x. x.number < item.number) self.old.queue.items }
        ensures owner { self.new.owner ≡ self.old.owner }
        ensures flags { self.new.flags ≡ self.old.flags }
        ensures ok { OnOk result (self.new.queue.items ≡ self.old.queue.items ++ item ∷ []) }
        ensures err { OnErr result (self.new.queue.items ≡ self.old.queue.items) }
        ensures succeeds { 0 < self.old.queue.room → IsOk result }
        ensures error { IfErr result (λ e. e ≡ Errno.NoMemory) }
    {
        self.queue.reserve(1)?;
        Ok(self.queue.push(item))
    }
}

impl Objects {
    /// Returns whether the channel is open.
    pub fn is_open(&self, chid: ChannelId) -> bool
        ensures { result ≡ is_some (channel_in self.now.channels chid) }
    {
        self.channels.get(chid).is_some()
    }

    /// Returns whether the channel is open and owned by this process.
    pub fn owns(&self, process: ProcessNo, chid: ChannelId) -> bool
        ensures { result ≡ is_of process (channel_in self.now.channels chid) }
    {
        match self.channels.get(chid) {
            None => false,
            Some(channel) => process == channel.owner,
        }
    }

    /// Returns the channel to which the process may send over a connection. Returns `None` if the process has
    /// no such live connection, or if the channel isn't open.
    pub fn route(&self, process: ProcessNo, coid: ConnectionId) -> Option<ChannelId>
        ensures { result ≡ route_in process self.now.channels (entry_at self.now.connections coid) }
    {
        let connection = self.connections.get(coid)?;
        if process == connection.process && self.is_open(connection.channel) {
            Some(connection.channel)
        } else {
            None
        }
    }

    /// Returns whether a channel has the disconnect flag, and the process has exactly one live connection to
    /// it. A detach of this connection has to send the disconnect pulse.
    pub fn tells_detached(&self, process: ProcessNo, chid: ChannelId) -> bool
        ensures { result
            ≡ (tells_disconnect (channel_in self.now.channels chid) &&
            (count_by (λ e. (e.1.process == process) && (e.1.channel == chid)) self.now.connections == 1)) }
    {
        match self.channels.get(chid) {
            None => false,
            Some(channel) => {
                channel.flags.tells_disconnect() && self.connections.count(process, chid) == 1
            }
        }
    }

    /// Returns whether a channel is open and has the unblock flag.
    pub fn tells_unblock(&self, chid: ChannelId) -> bool
        ensures { result ≡ tells_unblock (channel_in self.now.channels chid) }
    {
        match self.channels.get(chid) {
            None => false,
            Some(channel) => channel.flags.tells_unblock(),
        }
    }

    /// Removes an open channel with its queued messages and pulses.
    pub fn close(&mut self, chid: ChannelId)
        requires { is_some (channel_in self.old.channels chid) ≡ true }
        ensures threads { self.new.threads ≡ self.old.threads }
        ensures channels { ClosesIn chid self.old.channels self.new.channels }
        ensures connections { self.new.connections ≡ self.old.connections }
    {
        let _ = self.channels.remove(chid);
    }
}
