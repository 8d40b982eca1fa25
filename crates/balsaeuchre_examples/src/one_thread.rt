//! A server and a client in one thread. The client's send blocks it, and the client takes the completion
//! after the reply.

use crate::reply::ClientReply;
use balsaeuchre::calls::{CallError, Calls, Received};
use balsaeuchre::simulator::{Outcome, Simulator};
use balsaeuchre::{
    ChannelFlags, ChannelId, ConnectionId, Errno, Priority, ProcessNo, Roster, ThreadNo,
};
use std::alloc::Global;

const SERVER: ThreadNo = ThreadNo(1);

const CLIENT: ThreadNo = ThreadNo(2);

/// Returns a simulator of both threads, each in its own process.
fn simulator_of_two(alloc: Global) -> Result<Simulator, CallError> {
    let roster = roster_of_two(alloc)?;
    Simulator::new(alloc, &roster)
}

/// Returns the roster of both threads. It has no contract, so that the prover doesn't unfold the kernel's
/// facts about them.
fn roster_of_two(alloc: Global) -> Result<Roster, Errno> {
    let mut roster = Roster::new(alloc);
    roster.add(SERVER, ProcessNo(1), Priority::lowest())?;
    roster.add(CLIENT, ProcessNo(2), Priority::lowest())?;
    Ok(roster)
}

/// Creates the server's channel, and attaches the client to it.
fn connect(simulator: &mut Simulator) -> Result<(ChannelId, ConnectionId), CallError> {
    let chid = simulator
        .thread(SERVER)
        .channel_create(ChannelFlags::of(0))?;
    Ok((chid, simulator.thread(CLIENT).connect_attach(chid)?))
}

/// The server receives a message, and replies with the buffer that it was received into.
fn serve(simulator: &mut Simulator, chid: ChannelId) -> Result<(), CallError> {
    let Outcome::Done(Received::Message(request)) = simulator.thread(SERVER).msg_receive(chid, 8)?
    else {
        return Err(CallError::Unexpected);
    };
    simulator
        .thread(SERVER)
        .msg_reply(request.rcvid, 0, request.buffer.as_slice())
}

/// The client sends a message, and the server replies.
pub fn echo(alloc: Global, message: &[u8]) -> Result<ClientReply, CallError> {
    let mut simulator = simulator_of_two(alloc)?;
    let (chid, coid) = connect(&mut simulator)?;
    let _blocked = simulator.thread(CLIENT).msg_send(coid, message, 8)?;
    let call = simulator.kernel().made();
    serve(&mut simulator, chid)?;
    let completion = simulator.take(CLIENT).ok_or(CallError::Unexpected)?;
    Ok(ClientReply {
        call,
        thread: CLIENT,
        answer: completion.reply()?,
    })
}
