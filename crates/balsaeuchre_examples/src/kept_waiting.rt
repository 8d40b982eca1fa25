//! A server of one resource that keeps clients waiting. It holds the message of a client that asks while the
//! resource is taken, and replies once the resource is given back. The client makes only one Send.

ghost use Rattle.std.specs.Prelude.{◌≡◌, ◌++◌, [], ◌∷◌, true, false, IfOk, IfSome, IfNone, OnErr, Some, None};
ghost use Rattle.std.specs.Prelude.{if◌then◌else◌};

use crate::reply::ClientReply;
use balsaeuchre::calls::{CallError, Calls, Received};
use balsaeuchre::simulator::{Outcome, Simulator};
use balsaeuchre::{
    ChannelFlags, ChannelId, ConnectionId, Errno, Priority, ProcessNo, ReceiveId, Roster, ThreadNo,
};
use std::alloc::{AllocError, Global};
use std::collections::VecDeque;

const SERVER: ThreadNo = ThreadNo(1);

const FIRST: ThreadNo = ThreadNo(2);

const SECOND: ThreadNo = ThreadNo(3);

/// The byte of a message that takes the resource. `GIVE_BACK` is the byte of a message that gives it back.
const TAKE: u8 = 1;

const GIVE_BACK: u8 = 2;

/// Whether the resource is taken, and the messages of the clients that wait for it, in order.
#[derive(Drop)]
pub struct Resource {
    taken: bool,
    waiting: VecDeque<ReceiveId>,
}

impl Resource {
    /// Returns the resource, which no client has.
    pub fn new(alloc: Global) -> Resource
        ensures { (result.taken ≡ false) × (result.waiting.items ≡ []) }
    {
        Resource {
            taken: false,
            waiting: VecDeque::new(alloc),
        }
    }

    /// Takes the resource for the client of this message. Returns the message if the server has to reply now.
    /// Otherwise it keeps the message until the resource is given back.
    pub fn ask(&mut self, rcvid: ReceiveId) -> Result<Option<ReceiveId>, AllocError>
        ensures answer { IfOk result (λ next. next ≡ (if self.old.taken then None else Some rcvid)) }
        ensures kept { IfOk result
            (λ next. self.new.waiting.items
            ≡ (if self.old.taken then self.old.waiting.items ++ rcvid ∷ [] else self.old.waiting.items)) }
        ensures taken { IfOk result (λ next. self.new.taken ≡ true) }
        ensures err { OnErr result
            ((self.new.taken ≡ self.old.taken) × (self.new.waiting.items ≡ self.old.waiting.items)) }
    {
        if self.taken {
            self.waiting.push_back(rcvid)?;
            return Ok(None);
        }
        self.taken = true;
        Ok(Some(rcvid))
    }

    /// Gives the resource back. Returns the message of the client that gets it next, to which the server has
    /// to reply now.
    pub fn give_back(&mut self) -> Option<ReceiveId>
        ensures next { IfSome result (λ rcvid. (self.old.waiting.items ≡ rcvid ∷ self.new.waiting.items)
            × (self.new.taken ≡ true)) }
        ensures free { IfNone result
            ((self.old.waiting.items ≡ []) × (self.new.waiting.items ≡ []) × (self.new.taken ≡ false)) }
    {
        let next = self.waiting.pop_front();
        self.taken = next.is_some();
        next
    }
}

/// A client of the server.
#[derive(Clone, Copy)]
struct Client {
    thread: ThreadNo,
    coid: ConnectionId,
    // The number of its last send.
    call: u64,
}

impl Client {
    /// Returns a client that is attached to the channel.
    fn attach(
        simulator: &mut Simulator,
        thread: ThreadNo,
        chid: ChannelId,
    ) -> Result<Client, CallError> {
        Ok(Client {
            thread,
            coid: simulator.thread(thread).connect_attach(chid)?,
            call: 0,
        })
    }

    /// Sends `TAKE` or `GIVE_BACK`, which blocks the client.
    fn wish(&mut self, simulator: &mut Simulator, wish: u8) -> Result<(), CallError> {
        let _blocked = simulator
            .thread(self.thread)
            .msg_send(self.coid, &[wish], 0)?;
        self.call = simulator.kernel().made();
        Ok(())
    }

    /// Adds the client's reply to `replies`, if it has come.
    fn take_answer(
        &self,
        simulator: &mut Simulator,
        replies: &mut Vec<ClientReply>,
    ) -> Result<(), CallError> {
        if let Some(completion) = simulator.take(self.thread) {
            replies.push(ClientReply {
                call: self.call,
                thread: self.thread,
                answer: completion.reply()?,
            })?;
        }
        Ok(())
    }
}

/// Returns a simulator of a server and two clients, each in its own process.
fn simulator_of_three(alloc: Global) -> Result<Simulator, CallError> {
    let roster = roster_of_three(alloc)?;
    Simulator::new(alloc, &roster)
}

/// Returns the roster of the three threads. It has no contract, so that the prover doesn't unfold the
/// kernel's facts about them.
fn roster_of_three(alloc: Global) -> Result<Roster, Errno> {
    let mut roster = Roster::new(alloc);
    roster.add(SERVER, ProcessNo(1), Priority::lowest())?;
    roster.add(FIRST, ProcessNo(2), Priority::lowest())?;
    roster.add(SECOND, ProcessNo(3), Priority::lowest())?;
    Ok(roster)
}

/// The server receives one message, and replies to the clients that can continue.
fn serve_one(
    simulator: &mut Simulator,
    chid: ChannelId,
    resource: &mut Resource,
) -> Result<(), CallError> {
    let Outcome::Done(Received::Message(request)) = simulator.thread(SERVER).msg_receive(chid, 1)?
    else {
        return Err(CallError::Unexpected);
    };
    let next = match request.bytes() {
        [TAKE] => resource.ask(request.rcvid)?,
        [GIVE_BACK] => {
            simulator.thread(SERVER).msg_reply(request.rcvid, 0, b"")?;
            resource.give_back()
        }
        _ => return Err(CallError::Unexpected),
    };
    match next {
        Some(rcvid) => simulator.thread(SERVER).msg_reply(rcvid, 0, b""),
        None => Ok(()),
    }
}

/// A client sends `TAKE` or `GIVE_BACK`, and the server handles it.
fn ask(
    simulator: &mut Simulator,
    client: &mut Client,
    wish: u8,
    chid: ChannelId,
    resource: &mut Resource,
) -> Result<(), CallError> {
    client.wish(simulator, wish)?;
    serve_one(simulator, chid, resource)
}

/// Both clients ask for the resource, and the first gives it back. Adds the replies in the order in which
/// they came.
fn use_resource(
    simulator: &mut Simulator,
    resource: &mut Resource,
    replies: &mut Vec<ClientReply>,
) -> Result<(), CallError> {
    let chid = simulator
        .thread(SERVER)
        .channel_create(ChannelFlags::of(0))?;
    let mut first = Client::attach(simulator, FIRST, chid)?;
    let mut second = Client::attach(simulator, SECOND, chid)?;
    ask(simulator, &mut first, TAKE, chid, resource)?;
    first.take_answer(simulator, replies)?;
    ask(simulator, &mut second, TAKE, chid, resource)?;
    ask(simulator, &mut first, GIVE_BACK, chid, resource)?;
    first.take_answer(simulator, replies)?;
    second.take_answer(simulator, replies)
}

/// Runs the server and its clients. Returns the replies in the order in which they came.
pub fn kept_waiting(alloc: Global) -> Result<Vec<ClientReply>, CallError> {
    let mut simulator = simulator_of_three(alloc)?;
    let (mut resource, mut replies) = (Resource::new(alloc), Vec::new(alloc));
    use_resource(&mut simulator, &mut resource, &mut replies)?;
    Ok(replies)
}
