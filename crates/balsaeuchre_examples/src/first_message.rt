//! All steps in one file: a roster, a kernel, a channel, a connection, a message and its reply.

ghost use Rattle.std.specs.Prelude.{◌≡◌, [], IfOk};
ghost use Rattle.balsaeuchre.specs.Matching.{MatchesAt};
ghost use Rattle.balsaeuchre_examples.specs.FirstMessage.{roster, events};
ghost use Rattle.balsaeuchre_examples.specs.Written.{IsRunOf};

use balsaeuchre::{
    Bytes, Call, ChannelFlags, ChannelId, ConnectionId, Errno, Kernel, Priority, ProcessNo,
    ReceiveId, Roster, ThreadNo, Trace, run,
};
use std::alloc::Global;

const SERVER: ThreadNo = ThreadNo(1);

const CLIENT: ThreadNo = ThreadNo(2);

/// Returns the roster of a server and a client, each in its own process.
fn roster_of_two(alloc: Global) -> Result<Roster, Errno>
    ensures { IfOk result (λ members. members ≡ roster) }
{
    let mut roster = Roster::new(alloc);
    roster.add(SERVER, ProcessNo(1), Priority::lowest())?;
    roster.add(CLIENT, ProcessNo(2), Priority::lowest())?;
    Ok(roster)
}

/// Returns a kernel of both threads that has made no call.
fn kernel_of_two(alloc: Global) -> Result<Kernel, Errno>
    ensures { IfOk result (λ kernel. MatchesAt roster kernel []) }
{
    let roster = roster_of_two(alloc)?;
    Ok(Kernel::new(alloc, &roster)?)
}

/// The server receives the client's message, and replies with bytes of its own.
pub fn first_message(alloc: Global, message: &[u8], answer: &[u8]) -> Result<Trace, Errno>
    ensures { IfOk result (λ trace. IsRunOf roster (events message.now answer.now) trace) }
{
    let mut kernel = kernel_of_two(alloc)?;
    let message = Bytes::copied(alloc, message)?;
    let answer = Bytes::copied(alloc, answer)?;
    let reply_buffer = Bytes::copied(alloc, &[0; 8])?;
    let buffer = Bytes::copied(alloc, &[0; 8])?;
    let calls = vec![in alloc;
        (SERVER, Call::ChannelCreate(ChannelFlags::of(0))), // call 1 creates channel 1
        (CLIENT, Call::ConnectAttach(ChannelId(1))), // call 2 attaches connection 2
        (CLIENT, Call::Send { coid: ConnectionId(2), message, reply_buffer }), // blocks
        (SERVER, Call::Receive { chid: ChannelId(1), buffer }), // takes the message of call 3
        (SERVER, Call::Reply { rcvid: ReceiveId(3), status: 0, bytes: answer }), // ends the Send
    ]?;
    Ok(run(&mut kernel, calls)?)
}
