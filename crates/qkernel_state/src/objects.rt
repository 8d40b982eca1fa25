//! The records of a kernel: its threads, channels and connections.

ghost use Rattle.std.specs.Prelude.{◌≡◌, true, false, IfOk, IfErr};
ghost use Rattle.qtables.specs.Entries.{entry_at};
ghost use Rattle.qtables.specs.Members.{member_at};
ghost use Rattle.qrules.specs.Facts.{is_in_process};
ghost use Rattle.qkernel_state.specs.Channel.{own_channel_in};
ghost use Rattle.qkernel_state.specs.Contents.{members_of};
ghost use Rattle.qkernel_state.specs.Threads.{IsSeatIn};

use crate::channel::Channel;
use crate::thread_ref::ThreadRef;
use crate::threads::Threads;
use qbase::errno::Errno;
use qbase::ids::{ChannelId, ConnectionId, ProcessNo, ThreadNo};
use qtables::channels::Channels;
use qtables::connections::Connections;

/// The threads, the open channels and the live connections of a kernel.
#[derive(Drop)]
pub struct Objects {
    pub threads: Threads,
    pub channels: Channels<Channel>,
    pub connections: Connections,
}

impl Objects {
    /// Returns the index of a thread of this process. Fails with `Srch` if the thread isn't in the roster or
    /// belongs to another process.
    pub fn fellow(&self, process: ProcessNo, thread: ThreadNo) -> Result<ThreadRef, Errno>
        ensures seat { IfOk result (λ seat. IsSeatIn self.now.threads seat) }
        ensures thread { IfOk result (λ seat. seat.thread ≡ thread) }
        ensures fellow { IfOk result
            (λ seat. is_in_process process (member_at (members_of self.now.threads) thread) ≡ true) }
        ensures none { IfErr result
            (λ e. is_in_process process (member_at (members_of self.now.threads) thread) ≡ false) }
        ensures error { IfErr result (λ e. e ≡ Errno.Srch) }
    {
        let seat = self.threads.seat(thread).ok_or(Errno::Srch)?;
        if self.threads.record(&seat).member.process == process {
            Ok(seat)
        } else {
            Err(Errno::Srch)
        }
    }

    /// Returns the channel of a live connection of this process, or `None` if the process has no such
    /// connection.
    pub fn own_connection(&self, process: ProcessNo, coid: ConnectionId) -> Option<ChannelId>
        ensures { result ≡ own_channel_in process (entry_at self.now.connections coid) }
    {
        let connection = self.connections.get(coid)?;
        if process == connection.process {
            Some(connection.channel)
        } else {
            None
        }
    }
}
