//! A server that replies until it gets a pulse that stops it.

use crate::making::{attached, bytes, done, ended, priority};
use qbase::bytes::Bytes;
use qbase::flags::ChannelFlags;
use qbase::ids::{ChannelId, ReceiveId};
use qkernel::call::{Call, Mark};
use qqueue::item::What;
use qshared::log::Log;
use qshared::port::Port;
use qshared::shared::Shared;
use qshared::tie::Tie;
use std::alloc::Global;
use std::process::Abort;
use std::sync::Wait;

/// The code of the pulse that stops a server.
pub const STOP: i8 = 127;

/// Creates a channel, sends a pulse over a connection to it, receives the pulse, and removes both.
fn errand<K: Tie, L: Log>(rt: &(impl Wait + Abort), shared: &Shared<K, L>, port: &mut Port<K>) {
    let create = Call::ChannelCreate(ChannelFlags::of(0));
    let chid = match done(rt, port.call(shared, rt, create)).mark {
        Mark::Channel(ChannelId(number)) => ChannelId(number),
        _ => panic!(rt; "no channel"),
    };
    let coid = attached(rt, shared, port, chid);
    let pulse = Call::Pulse {
        coid,
        priority: priority(rt, 5),
        code: 2,
        value: 3,
    };
    done(rt, port.call(shared, rt, pulse));
    let received = done(rt, port.call(shared, rt, Call::ReceivePulse(chid)));
    assert!(rt;
        matches!(
            received.mark,
            Mark::Pulse {
                what: What::User { code: 2, value: 3 },
                ..
            }
        )
    );
    done(rt, port.call(shared, rt, Call::ConnectDetach(coid)));
    done(rt, port.call(shared, rt, Call::ChannelDestroy(chid)));
}

/// Replies to a message in a way that depends on its number: after an Info, a Read, a Write or a State, or
/// with an Error. The reply fails if the client was unblocked.
fn answer<K: Tie, L: Log>(
    rt: &(impl Wait + Abort),
    alloc: Global,
    shared: &Shared<K, L>,
    port: &mut Port<K>,
    rcvid: ReceiveId,
    message: Bytes,
) {
    let ReceiveId(number) = rcvid;
    let before = match number % 8 {
        0 => Call::Info(rcvid),
        1 => Call::Read {
            rcvid,
            offset: 1,
            buffer: bytes(rt, alloc, &[0; 2]),
        },
        2 => Call::Write {
            rcvid,
            offset: 6,
            bytes: bytes(rt, alloc, &[9; 4]),
        },
        3 => {
            done(rt, port.call(shared, rt, Call::Error { rcvid, code: 1 }));
            return;
        }
        _ => Call::State(port.thread()),
    };
    done(rt, port.call(shared, rt, before));
    let reply = Call::Reply {
        rcvid,
        status: 0,
        bytes: message,
    };
    done(rt, port.call(shared, rt, reply));
}

/// Receives on channel 1 and replies, until it is stopped.
pub fn server<K: Tie, L: Log>(
    rt: &(impl Wait + Abort),
    alloc: Global,
    shared: &Shared<K, L>,
    mut port: Port<K>,
) -> Port<K> {
    for _ in rt.forever() {
        let receive = Call::Receive {
            chid: ChannelId(1),
            buffer: bytes(rt, alloc, &[0; 4]),
        };
        let received = ended(rt, shared, &mut port, receive);
        match received.mark {
            Mark::Message {
                rcvid: ReceiveId(number),
                ..
            } => answer(
                rt,
                alloc,
                shared,
                &mut port,
                ReceiveId(number),
                received.buffer,
            ),
            Mark::Pulse {
                what: What::User { code: STOP, .. },
                ..
            } => return port,
            Mark::Pulse { .. } => errand(rt, shared, &mut port),
            _ => panic!(rt; "nothing received"),
        }
    }
    unreachable!()
}
