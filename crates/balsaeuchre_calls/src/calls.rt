//! The calls that never block, under QNX Neutrino's names. `Caller` and `SimulatorThread` share them.

ghost use Rattle.std.specs.Prelude.{◌≡◌, replicate, Result};
ghost use Rattle.qmodel.specs.declared.call.Call.{Call as Asking};
ghost use Rattle.balsaeuchre_calls.specs.Making.{Reads, ReadsOfBytes};
ghost use Rattle.balsaeuchre_calls.specs.Results.{bytes_in, channel_in, connection_in, count_in, done_in};
ghost use Rattle.balsaeuchre_calls.specs.Results.{info_in, state_in};
ghost use Rattle.balsaeuchre_calls.specs.declared.completed.Completed.{Completed as Came};
ghost use Rattle.balsaeuchre_calls.specs.declared.error.CallError.{CallError as Failed};

use crate::completed::Completed;
use crate::error::CallError;
use crate::results::ThreadStatus;
use crate::with_bytes;
use qbase::bytes::Bytes;
use qbase::flags::ChannelFlags;
use qbase::ids::{ChannelId, ConnectionId, ReceiveId, ThreadNo};
use qbase::priority::Priority;
use qmodel::call::{Call, Info};
use std::alloc::Global;

/// A thread that makes calls: a `Caller`, or a thread of a `Simulator`. Each call here is made by `complete`,
/// and its result is read from its completion.
pub trait Calls {
    /// The relation between the thread before a call, the call, the thread after it, and the call's
    /// completion or error.
    ghost made: { Self → Asking → Self → Result Came Failed → Type 0 };

    /// Returns the allocator that the buffers of calls come from.
    fn alloc(&self) -> Global;

    /// Returns bytes whose memory the next reply or write reuses. By default they are new and have no memory.
    fn spare(&mut self) -> Bytes
        ensures { self.new ≡ self.old }
    {
        Bytes::new(self.alloc())
    }

    /// Makes a call, and returns its completion. If the call blocks, a `Caller` waits for the completion. A
    /// simulator's thread returns `Unexpected` then, and stays blocked.
    fn complete(&mut self, call: Call) -> Result<Completed, CallError>
        ensures { made self.old call self.new result };

    /// Creates a channel that the caller's process owns (`ChannelCreate`). Refused with `Inval` if a flag is
    /// unknown, and `Again` at 64 open channels.
    fn channel_create(&mut self, flags: ChannelFlags) -> Result<ChannelId, CallError>
        ensures { Reads channel_in (made self.old (Call.ChannelCreate flags) self.new) result }
    {
        self.complete(Call::ChannelCreate(flags))?.channel()
    }

    /// Destroys a channel of the caller's process, and cancels each call that is blocked on it
    /// (`ChannelDestroy`). Refused with `Inval` if the channel isn't open or is another process's.
    fn channel_destroy(&mut self, chid: ChannelId) -> Result<(), CallError>
        ensures { Reads done_in (made self.old (Call.ChannelDestroy chid) self.new) result }
    {
        self.complete(Call::ChannelDestroy(chid))?.done()
    }

    /// Attaches the caller's process to a channel of any process (`ConnectAttach`). Refused with `Srch` if
    /// the channel isn't open, and `Again` at 1,024 connections.
    fn connect_attach(&mut self, chid: ChannelId) -> Result<ConnectionId, CallError>
        ensures { Reads connection_in (made self.old (Call.ConnectAttach chid) self.new) result }
    {
        self.complete(Call::ConnectAttach(chid))?.connection()
    }

    /// Detaches a connection of the caller's process, and cancels each send over it (`ConnectDetach`).
    /// Refused with `Inval` if the connection isn't live or is another process's, and `Again` if the detach
    /// has to send a pulse and 1,024 pulses are queued on the channel.
    fn connect_detach(&mut self, coid: ConnectionId) -> Result<(), CallError>
        ensures { Reads done_in (made self.old (Call.ConnectDetach coid) self.new) result }
    {
        self.complete(Call::ConnectDetach(coid))?.done()
    }

    /// Replies to a held message with a status and bytes (`MsgReply`). Refused with `Srch` if the message
    /// isn't held, or its channel is another process's.
    fn msg_reply(&mut self, rcvid: ReceiveId, status: i64, bytes: &[u8]) -> Result<(), CallError>
        ensures { ReadsOfBytes done_in (made self.old (Call.Reply rcvid status bytes.now) self.new) self.old
            self.new result }
    {
        let reply = with_bytes::reply(self.spare(), rcvid, status, bytes)?;
        self.complete(reply)?.done()
    }

    /// Replies to a held message with a code and no bytes (`MsgError`). The code 0 is a reply of status 0.
    /// Refused like `msg_reply`.
    fn msg_error(&mut self, rcvid: ReceiveId, code: i32) -> Result<(), CallError>
        ensures { Reads done_in (made self.old (Call.Error rcvid code) self.new) result }
    {
        self.complete(Call::Error { rcvid, code })?.done()
    }

    /// Reads at most `len` bytes of a held message, starting at the offset (`MsgRead`). Refused like
    /// `msg_reply`.
    fn msg_read(&mut self, rcvid: ReceiveId, offset: usize, len: usize) -> Result<Bytes, CallError>
        ensures { ReadsOfBytes bytes_in (made self.old (Call.Read rcvid offset (replicate len 0)) self.new)
            self.old self.new result }
    {
        let read = with_bytes::read(self.alloc(), rcvid, offset, len)?;
        self.complete(read)?.bytes()
    }

    /// Writes bytes into the reply buffer of a held message's sender, starting at the offset (`MsgWrite`).
    /// Returns the number of bytes for which there was room. Refused like `msg_reply`.
    fn msg_write(
        &mut self,
        rcvid: ReceiveId,
        offset: usize,
        bytes: &[u8],
    ) -> Result<usize, CallError>
        ensures { ReadsOfBytes count_in (made self.old (Call.Write rcvid offset bytes.now) self.new) self.old
            self.new result }
    {
        let write = with_bytes::write(self.spare(), rcvid, offset, bytes)?;
        self.complete(write)?.count()
    }

    /// Returns the data of a held message: its sender, its priority, its connection, and its lengths in bytes
    /// (`MsgInfo`). Refused like `msg_reply`.
    fn msg_info(&mut self, rcvid: ReceiveId) -> Result<Info, CallError>
        ensures { Reads info_in (made self.old (Call.Info rcvid) self.new) result }
    {
        self.complete(Call::Info(rcvid))?.info()
    }

    /// Sends a pulse with a code, 0 to 127, and a value over a connection, and doesn't wait (`MsgSendPulse`).
    /// Refused with `Badf` like `msg_send`, `Inval` if the code is below 0, and `Again` if 1,024 pulses are
    /// queued on the channel.
    fn msg_send_pulse(
        &mut self,
        coid: ConnectionId,
        priority: Priority,
        code: i8,
        value: i32,
    ) -> Result<(), CallError>
        ensures { Reads done_in (made self.old (Call.Pulse coid priority code value) self.new) result }
    {
        let pulse = Call::Pulse {
            coid,
            priority,
            code,
            value,
        };
        self.complete(pulse)?.done()
    }

    /// Sets the priority of a thread of the caller's process, possibly of the caller itself (`SchedSet`).
    /// Refused with `Srch` if the thread isn't in the roster or is another process's.
    fn sched_set(&mut self, thread: ThreadNo, priority: Priority) -> Result<(), CallError>
        ensures { Reads done_in (made self.old (Call.PrioritySet thread priority) self.new) result }
    {
        self.complete(Call::PrioritySet { thread, priority })?
            .done()
    }

    /// Cancels the call in which a thread of the caller's process is blocked, as a signal or a timeout does.
    /// If the server holds the thread's message, and the channel has the flag `UNBLOCK`, it gets a pulse
    /// instead. Refused with `Srch` like `sched_set`, and with `Again` if that pulse has to be sent and 1,024
    /// pulses are queued on the channel. Not a QNX call.
    fn unblock(&mut self, thread: ThreadNo) -> Result<(), CallError>
        ensures { Reads done_in (made self.old (Call.Unblock thread) self.new) result }
    {
        self.complete(Call::Unblock(thread))?.done()
    }

    /// Returns the state and priority of a thread of any process. Refused with `Srch` if the thread isn't in
    /// the roster. Not a QNX call.
    fn state(&mut self, thread: ThreadNo) -> Result<ThreadStatus, CallError>
        ensures { Reads state_in (made self.old (Call.State thread) self.new) result }
    {
        self.complete(Call::State(thread))?.state()
    }

    /// Cancels every open call; every later call is refused with `Down`. Not a QNX call. It is itself refused
    /// with `Down` if the kernel was shut down before.
    fn shutdown(&mut self) -> Result<(), CallError>
        ensures { Reads done_in (made self.old Call.Shutdown self.new) result }
    {
        self.complete(Call::Shutdown)?.done()
    }
}
