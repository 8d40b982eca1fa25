//! A server and a client, each on its own thread. The server learns by a `DISCONNECT` pulse that its client
//! has detached.

ghost use Rattle.std.specs.Prelude.{IfOk};
ghost use Rattle.balsaeuchre.specs.Closing.{IsPast};
ghost use Rattle.balsaeuchre.specs.Naming.{AreParts};

use balsaeuchre::calls::{
    CallError, Caller, Calls, Endpoint, Received, Result, close, two_callers,
};
use balsaeuchre::shared::{Parts, RecordedHistory, Shared, Tie};
use balsaeuchre::{ChannelFlags, ChannelId, Priority, ProcessNo, Roster, ThreadNo, Trace};
use std::alloc::Global;
use std::marker::Brand;
use std::sync::Wait;
use std::thread::{Threads, join};

/// The client's messages.
pub const MESSAGES: [&[u8]; 3] = [b"one", b"two", b"three"];

/// Replies to each message with the message's bytes, until the client has detached.
pub fn serve<E: Endpoint, R: Wait>(server: &mut Caller<E, R>, chid: ChannelId) -> Result<()> {
    let mut received = server.msg_receive(chid, 8)?;
    for _ in server.rt().forever() {
        let Received::Message(request) = received else {
            break
        };
        received = server.msg_reply_receive(request.rcvid, 0, &request, chid, 8)?;
    }
    Ok(())
}

/// Attaches, sends the messages one after another, and detaches. Fails with `Unexpected` if a reply differs
/// from its message.
fn send<E: Endpoint, R: Wait>(client: &mut Caller<E, R>, chid: ChannelId) -> Result<()> {
    let coid = client.connect_attach(chid)?;
    for message in MESSAGES {
        let answer = client.msg_send(coid, message, 8)?;
        if answer.bytes() != message {
            return Err(CallError::Unexpected);
        }
    }
    client.connect_detach(coid)
}

/// Starts both threads, and waits for them.
fn run_both<S: Endpoint + Send, C: Endpoint + Send, R: Threads + Wait + Sync>(
    rt: &R,
    server: &mut Caller<S, R>,
    client: &mut Caller<C, R>,
) -> Result<()> {
    let chid = server.channel_create(ChannelFlags::DISCONNECT)?;
    let (served, sent) = join(
        rt,
        || server.run(|server| serve(server, chid)),
        || client.run(|client| send(client, chid)),
    );
    served.and(sent)
}

/// Opens the kernel, runs both threads, and closes the kernel.
fn run<K: Tie + Send + Sync, R: Threads + Wait + Sync>(
    rt: &R,
    alloc: Global,
    parts: Parts,
) -> Result<Trace>
    requires named { AreParts K.names K.name K.parts parts }
    ensures { IfOk result (λ trace. IsPast K.names.roster trace) }
{
    let (shared, ports) = Shared::<K, RecordedHistory<K>>::open(parts)?;
    let (mut server, mut client) = two_callers(ports, &shared, rt, alloc)?;
    run_both(rt, &mut server, &mut client)?;
    let ports = vec![in alloc; server.into_port(), client.into_port()]?;
    close(shared, ports)
}

/// Runs a server that replies to its client's messages, each on its own thread. Returns the kernel's history.
pub fn on_two_threads<R: Threads + Wait + Sync>(rt: &R, alloc: Global) -> Result<Trace> {
    let mut roster = Roster::new(alloc);
    roster.add(ThreadNo(1), ProcessNo(1), Priority::lowest())?;
    roster.add(ThreadNo(2), ProcessNo(2), Priority::lowest())?;
    run::<Brand, R>(rt, alloc, Parts::new(alloc, &roster, 1 << 20)?)
}
