//! Carries a priority through two servers. An urgent client sends to a server, which sends to a store on its
//! behalf. Both work at the client's priority. The store receives this request before a less urgent request
//! that was sent earlier.

ghost use Rattle.std.specs.Prelude.{◌≡◌, [], pos, IfOk};
ghost use Rattle.balsaeuchre.specs.Matching.{MatchesAt};
ghost use Rattle.balsaeuchre_examples.specs.Carried.{roster, events};
ghost use Rattle.balsaeuchre_examples.specs.Written.{IsRunOf};

use balsaeuchre::{
    Bytes, Call, ChannelFlags, ChannelId, ConnectionId, Errno, Kernel, Priority, ProcessNo,
    ReceiveId, Roster, ThreadNo, Trace, run,
};
use std::alloc::Global;

const STORE: ThreadNo = ThreadNo(1);

const SERVER: ThreadNo = ThreadNo(2);

const URGENT: ThreadNo = ThreadNo(3);

const MIDDLING: ThreadNo = ThreadNo(4);

/// Returns the priority with this number, or an error for 0.
fn level(number: u8) -> Result<Priority, Errno>
    ensures { IfOk result (λ priority. priority ≡ number) }
{
    match Priority::new(number) {
        Some(priority) => Ok(priority),
        None => Err(Errno::Inval),
    }
}

/// Returns the roster of four threads, each in its own process: a store and a server of priority 10, and
/// clients of priorities 40 and 20.
fn roster_of_four(alloc: Global) -> Result<Roster, Errno>
    ensures { IfOk result (λ members. members ≡ roster) }
{
    let low = level(10)?;
    let high = level(40)?;
    let middling = level(20)?;
    let mut roster = Roster::new(alloc);
    roster.add(STORE, ProcessNo(1), low)?;
    roster.add(SERVER, ProcessNo(2), low)?;
    roster.add(URGENT, ProcessNo(3), high)?;
    roster.add(MIDDLING, ProcessNo(4), middling)?;
    Ok(roster)
}

/// Returns a kernel of the four threads that has made no call.
fn kernel_of_four(alloc: Global) -> Result<Kernel, Errno>
    ensures { IfOk result (λ kernel. MatchesAt roster kernel []) }
{
    let roster = roster_of_four(alloc)?;
    Ok(Kernel::new(alloc, &roster)?)
}

/// Returns an empty message over a connection.
fn send(alloc: Global, coid: ConnectionId) -> Call
    ensures { result ≡ Call.Send coid [] [] }
{
    Call::Send {
        coid,
        message: Bytes::new(alloc),
        reply_buffer: Bytes::new(alloc),
    }
}

/// Returns a receive on a channel, with an empty buffer.
fn receive(alloc: Global, chid: ChannelId) -> Call
    ensures { result ≡ Call.Receive chid [] }
{
    Call::Receive {
        chid,
        buffer: Bytes::new(alloc),
    }
}

/// Returns a reply without bytes.
fn reply(alloc: Global, rcvid: ReceiveId) -> Call
    ensures { result ≡ Call.Reply rcvid (pos 0) [] }
{
    Call::Reply {
        rcvid,
        status: 0,
        bytes: Bytes::new(alloc),
    }
}

/// The less urgent client's request is queued at the store, and then the urgent client sends to the server.
pub fn carry_priority(alloc: Global) -> Result<Trace, Errno>
    ensures { IfOk result (λ trace. IsRunOf roster events trace) }
{
    let mut kernel = kernel_of_four(alloc)?;
    let calls = vec![in alloc;
        (STORE, Call::ChannelCreate(ChannelFlags::of(0))),
        (SERVER, Call::ChannelCreate(ChannelFlags::of(0))),
        (SERVER, Call::ConnectAttach(ChannelId(1))),
        (URGENT, Call::ConnectAttach(ChannelId(2))),
        (MIDDLING, Call::ConnectAttach(ChannelId(1))),
        (MIDDLING, send(alloc, ConnectionId(5))),
        (URGENT, send(alloc, ConnectionId(4))),
        (SERVER, receive(alloc, ChannelId(2))),
        (SERVER, send(alloc, ConnectionId(3))),
        (STORE, receive(alloc, ChannelId(1))),
        (STORE, Call::State(STORE)),
        (STORE, reply(alloc, ReceiveId(9))),
        (SERVER, reply(alloc, ReceiveId(7))),
    ]?;
    Ok(run(&mut kernel, calls)?)
}
