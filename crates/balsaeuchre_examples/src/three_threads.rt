//! The roster and the calls that the examples with three threads share: a server, a client, and another
//! thread of the client's process.

ghost use Rattle.std.specs.Prelude.{◌≡◌, [], pos, IfOk};
ghost use Rattle.balsaeuchre.specs.Matching.{MatchesAt};
ghost use Rattle.balsaeuchre_examples.specs.ThreeThreads.{roster};

use balsaeuchre::{
    Bytes, Call, ChannelId, ConnectionId, Errno, Kernel, Priority, ProcessNo, ReceiveId, Roster,
    ThreadNo,
};
use std::alloc::Global;

/// The server's thread, in process 1.
pub const SERVER: ThreadNo = ThreadNo(1);

/// The client's thread, in process 2.
pub const CLIENT: ThreadNo = ThreadNo(2);

/// Another thread of process 2.
pub const FELLOW: ThreadNo = ThreadNo(3);

/// Returns the roster of the three threads.
fn roster_of_three(alloc: Global) -> Result<Roster, Errno>
    ensures { IfOk result (λ members. members ≡ roster) }
{
    let mut roster = Roster::new(alloc);
    roster.add(SERVER, ProcessNo(1), Priority::lowest())?;
    roster.add(CLIENT, ProcessNo(2), Priority::lowest())?;
    roster.add(FELLOW, ProcessNo(2), Priority::lowest())?;
    Ok(roster)
}

/// Returns a kernel of the three threads that has made no call.
pub fn kernel_of_three(alloc: Global) -> Result<Kernel, Errno>
    ensures { IfOk result (λ kernel. MatchesAt roster kernel []) }
{
    let roster = roster_of_three(alloc)?;
    Ok(Kernel::new(alloc, &roster)?)
}

/// Returns an empty message over connection 2.
pub fn send(alloc: Global) -> Call
    ensures { result ≡ Call.Send 2 [] [] }
{
    Call::Send {
        coid: ConnectionId(2),
        message: Bytes::new(alloc),
        reply_buffer: Bytes::new(alloc),
    }
}

/// Returns a receive on channel 1, with an empty buffer.
pub fn receive(alloc: Global) -> Call
    ensures { result ≡ Call.Receive 1 [] }
{
    Call::Receive {
        chid: ChannelId(1),
        buffer: Bytes::new(alloc),
    }
}

/// Returns a reply to message 3, without bytes.
pub fn reply(alloc: Global) -> Call
    ensures { result ≡ Call.Reply 3 (pos 0) [] }
{
    Call::Reply {
        rcvid: ReceiveId(3),
        status: 0,
        bytes: Bytes::new(alloc),
    }
}
