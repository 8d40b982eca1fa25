//! Makes parts of a kernel and calls with bytes, and checks how calls complete.

ghost use Rattle.std.specs.Prelude.{◌≡◌};

use qbase::bytes::Bytes;
use qbase::ids::{ChannelId, ConnectionId};
use qbase::priority::Priority;
use qkernel::call::{Call, Completion, Mark};
use qshared::called::Called;
use qshared::ghost_history::GhostHistory;
use qshared::log::Log;
use qshared::parts::Parts;
use qshared::port::Port;
use qshared::recorded_history::RecordedHistory;
use qshared::report::{EventCounts, Report};
use qshared::shared::Shared;
use qshared::tie::Tie;
use qtables::roster::Roster;
use std::alloc::Global;
use std::process::Abort;
use std::sync::Wait;

/// Returns the priority of this number, which must be 1 to 255.
pub fn priority(rt: &impl Abort, number: u8) -> Priority {
    Priority::new(number).expect(rt, "a priority")
}

/// Returns the parts of a kernel with these threads, whose history has at most `trace_limit` events.
pub fn parts(rt: &impl Abort, alloc: Global, roster: &Roster, trace_limit: u32) -> Parts {
    Parts::new(alloc, roster, trace_limit).expect(rt, "parts")
}

/// Returns a copy of these bytes.
pub fn bytes(rt: &impl Abort, alloc: Global, from: &[u8]) -> Bytes {
    Bytes::copied(alloc, from).expect(rt, "a copy")
}

/// Returns the completion of a call that must have completed at once.
pub fn done(rt: &impl Abort, called: Called) -> Completion {
    match called {
        Called::Done(completion) => completion,
        _ => panic!(rt; "not done"),
    }
}

/// Makes a call, and returns its completion, which comes at once or after a wait.
pub fn ended<K: Tie, L: Log>(
    rt: &(impl Wait + Abort),
    shared: &Shared<K, L>,
    port: &mut Port<K>,
    call: Call,
) -> Completion {
    match port.call(shared, rt, call) {
        Called::Done(completion) => completion,
        Called::Blocked => port.wait(shared, rt),
        Called::Refused(_, _) => panic!(rt; "refused"),
    }
}

/// Attaches to a channel, and returns the connection.
pub fn attached<K: Tie, L: Log>(
    rt: &(impl Wait + Abort),
    shared: &Shared<K, L>,
    port: &mut Port<K>,
    chid: ChannelId,
) -> ConnectionId {
    match ended(rt, shared, port, Call::ConnectAttach(chid)).mark {
        Mark::Connection(ConnectionId(number)) => ConnectionId(number),
        _ => panic!(rt; "not attached"),
    }
}

/// Returns the report of a kernel; these must be all of its ports.
pub fn finished<K: Tie>(
    rt: &impl Abort,
    shared: Shared<K, RecordedHistory<K>>,
    ports: Vec<Port<K>>,
) -> Report {
    if !shared.all(&ports) {
        panic!(rt; "a port is missing");
    }
    shared.finish(ports)
}

/// Returns the tally of a kernel that keeps no history; these must be all of its ports.
pub fn tallied<K: Tie>(
    rt: &impl Abort,
    shared: Shared<K, GhostHistory>,
    ports: Vec<Port<K>>,
) -> EventCounts {
    if !shared.all(&ports) {
        panic!(rt; "a port is missing");
    }
    shared.finish(ports)
}
