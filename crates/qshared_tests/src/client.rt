//! A client that sends many messages, with other calls among them.

use crate::making::{attached, bytes, done, ended, priority};
use qbase::errno::Errno;
use qbase::ids::{ChannelId, ConnectionId, ThreadNo};
use qkernel::call::{Call, Completion, Mark};
use qshared::log::Log;
use qshared::port::Port;
use qshared::shared::Shared;
use qshared::tie::Tie;
use std::alloc::Global;
use std::process::Abort;
use std::sync::Wait;

/// The number of rounds after which a client's other calls repeat.
const ERRANDS: u64 = 16;

/// Asserts that the reply to the message has its own bytes or the code 1, or that the client was unblocked.
fn was_answered(rt: &impl Abort, completion: &Completion, message: &[u8]) {
    match completion.mark {
        Mark::Replied { status, copied } => {
            assert!(rt; status == 0 && copied == message.len());
            assert!(rt; completion.buffer.as_slice().starts_with(message));
        }
        Mark::Errored(code) => assert!(rt; code == 1),
        Mark::Failed(errno) => assert!(rt; errno == Errno::Intr),
        _ => panic!(rt; "no answer"),
    }
}

/// Sends a message of four bytes with room for eight, and checks its reply.
fn send<K: Tie, L: Log>(
    rt: &(impl Wait + Abort),
    alloc: Global,
    shared: &Shared<K, L>,
    port: &mut Port<K>,
    coid: ConnectionId,
    round: u64,
) {
    let ThreadNo(number) = port.thread();
    let message = [number, (round & 0xff) as u8, (round >> 8 & 0xff) as u8, 7];
    let send = Call::Send {
        coid,
        message: bytes(rt, alloc, &message),
        reply_buffer: bytes(rt, alloc, &[0; 8]),
    };
    was_answered(rt, &ended(rt, shared, port, send), &message);
}

/// Makes the other call of this round, if there is one. The round's number chooses its kind.
fn errand<K: Tie, L: Log>(
    rt: &(impl Wait + Abort),
    shared: &Shared<K, L>,
    port: &mut Port<K>,
    coid: ConnectionId,
    round: u64,
) {
    let own = port.thread();
    let level = priority(rt, 20u8.wrapping_add((round & 7) as u8));
    let call = match round % ERRANDS {
        1 => Call::Pulse {
            coid,
            priority: level,
            code: 1,
            value: 2,
        },
        3 => Call::PrioritySet {
            thread: own,
            priority: level,
        },
        5 => Call::State(own),
        7 => Call::Unblock(ThreadNo(17u8.wrapping_add((round >> 4 & 7) as u8))),
        9 => Call::ConnectDetach(attached(rt, shared, port, ChannelId(1))),
        _ => return,
    };
    done(rt, port.call(shared, rt, call));
}

/// Attaches, sends this many messages, and detaches.
pub fn client<K: Tie, L: Log>(
    rt: &(impl Wait + Abort),
    alloc: Global,
    shared: &Shared<K, L>,
    mut port: Port<K>,
    rounds: u64,
) -> Port<K> {
    let coid = attached(rt, shared, &mut port, ChannelId(1));
    for round in 0..rounds {
        errand(rt, shared, &mut port, coid, round);
        send(rt, alloc, shared, &mut port, coid, round);
    }
    done(rt, port.call(shared, rt, Call::ConnectDetach(coid)));
    port
}
