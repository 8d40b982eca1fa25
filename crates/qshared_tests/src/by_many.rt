//! Many threads, each with its own port.

ghost use Rattle.qshared.specs.Naming.{AreParts};

use crate::client::client;
use crate::making::{attached, done, finished, parts, priority, tallied};
use crate::rerun::could_be_made_by_one;
use crate::server::{STOP, server};
use qbase::flags::ChannelFlags;
use qbase::ids::{ChannelId, ProcessNo, ThreadNo};
use qkernel::call::Call;
use qshared::ghost_history::GhostHistory;
use qshared::log::Log;
use qshared::parts::Parts;
use qshared::port::Port;
use qshared::recorded_history::RecordedHistory;
use qshared::report::{EventCounts, Report};
use qshared::shared::Shared;
use qshared::tie::Tie;
use qtables::roster::Roster;
use std::alloc::Global;
use std::marker::Brand;
use std::process::Abort;
use std::sync::Wait;
use std::thread;
use std::thread::{Threads, join};

/// The number of the first client; the servers have lower numbers.
const FIRST_CLIENT: u8 = 17;

/// The thread that creates the channel, stops the servers and shuts the kernel down.
const MAIN: u8 = 64;

/// The number of servers and of clients, and of the rounds of each client.
#[derive(Clone, Copy)]
struct Size {
    servers: u8,
    clients: u8,
    rounds: u64,
}

/// Adds this many threads of a process to the roster, beginning with the number `first`.
fn join_threads(rt: &impl Abort, roster: &mut Roster, first: u8, many: u8, process: u8) {
    for k in 0..many {
        let joined = roster.add(
            ThreadNo(first.wrapping_add(k)),
            ProcessNo(process),
            priority(rt, 10),
        );
        assert!(rt; joined.is_ok());
    }
}

/// Returns the roster: servers and the main thread in process 1, and clients in process 2.
fn roster(rt: &impl Abort, alloc: Global, size: Size) -> Roster {
    let mut roster = Roster::new(alloc);
    join_threads(rt, &mut roster, 1, size.servers, 1);
    join_threads(rt, &mut roster, FIRST_CLIENT, size.clients, 2);
    join_threads(rt, &mut roster, MAIN, 1, 1);
    roster
}

/// Serves with each of these ports in a thread of its own, until it is stopped.
fn serve_all<K: Tie + Send + Sync, L: Log + Send, R: Threads + Wait + Abort + Sync>(
    rt: &R,
    alloc: Global,
    shared: &Shared<K, L>,
    ports: Vec<Port<K>>,
) -> Vec<Port<K>> {
    thread::map_vec(
        rt,
        ports,
        &|port: Port<K>| -> Port<K> { server(rt, alloc, shared, port) },
    )
    .expect(rt, "memory")
}

/// Runs a client with each of these ports in a thread of its own. Then the main thread stops the servers,
/// with a pulse for each.
fn call_all<K: Tie + Send + Sync, L: Log + Send, R: Threads + Wait + Abort + Sync>(
    rt: &R,
    alloc: Global,
    shared: &Shared<K, L>,
    ports: Vec<Port<K>>,
    mut main: Port<K>,
    size: Size,
) -> Vec<Port<K>> {
    let rounds = size.rounds;
    let called = thread::map_vec(
        rt,
        ports,
        &|port: Port<K>| -> Port<K> { client(rt, alloc, shared, port, rounds) },
    );
    let mut ports = called.expect(rt, "memory");
    let coid = attached(rt, shared, &mut main, ChannelId(1));
    for _ in 0..size.servers {
        let stop = Call::Pulse {
            coid,
            priority: priority(rt, 1),
            code: STOP,
            value: 0,
        };
        done(rt, main.call(shared, rt, stop));
    }
    assert!(rt; ports.push(main).is_ok());
    ports
}

/// Destroys the channel with the last of the ports, and shuts the kernel down.
fn shut_down<K: Tie, L: Log>(
    rt: &(impl Wait + Abort),
    shared: &Shared<K, L>,
    ports: &mut Vec<Port<K>>,
) {
    let mut main = ports.pop().expect(rt, "a port");
    done(
        rt,
        main.call(shared, rt, Call::ChannelDestroy(ChannelId(1))),
    );
    done(rt, main.call(shared, rt, Call::Shutdown));
    assert!(rt; ports.push(main).is_ok());
}

/// Runs servers and clients, each in a thread of its own, from the channel's creation to the shutdown.
/// Returns all ports.
fn all_threads<K: Tie + Send + Sync, L: Log + Send, R: Threads + Wait + Abort + Sync>(
    rt: &R,
    alloc: Global,
    shared: &Shared<K, L>,
    mut ports: Vec<Port<K>>,
    size: Size,
) -> Vec<Port<K>> {
    let mut main = ports.pop().expect(rt, "a port");
    done(
        rt,
        main.call(shared, rt, Call::ChannelCreate(ChannelFlags::of(6))),
    );
    let servers = size.servers as usize;
    assert!(rt; servers <= ports.len());
    let clients = ports.split_off(servers).expect(rt, "memory");
    let (mut ports, clients) = join(
        rt,
        || -> Vec<Port<K>> { serve_all(rt, alloc, shared, ports) },
        || -> Vec<Port<K>> { call_all(rt, alloc, shared, clients, main, size) },
    );
    for port in clients {
        assert!(rt; ports.push(port).is_ok());
    }
    shut_down(rt, shared, &mut ports);
    ports
}

/// Runs all threads on a kernel that keeps its history.
fn many<K: Tie + Send + Sync, R: Threads + Wait + Abort + Sync>(
    rt: &R,
    alloc: Global,
    parts: Parts,
    size: Size,
) -> Report
    requires named { AreParts K.names K.name K.parts parts }
{
    let (shared, ports) = Shared::<K, RecordedHistory<K>>::open(parts).expect(rt, "a kernel");
    let ports = all_threads(rt, alloc, &shared, ports, size);
    finished(rt, shared, ports)
}

/// Runs all threads on a kernel that keeps no history, for this number of processors.
fn many_and_no_past<K: Tie + Send + Sync, R: Threads + Wait + Abort + Sync>(
    rt: &R,
    alloc: Global,
    parts: Parts,
    size: Size,
    processors: usize,
) -> EventCounts
    requires named { AreParts K.names K.name K.parts parts }
{
    let (mut shared, ports) = Shared::<K, GhostHistory>::open(parts).expect(rt, "a kernel");
    shared.set_processors(processors);
    let ports = all_threads(rt, alloc, &shared, ports, size);
    tallied(rt, shared, ports)
}

/// Asserts that the servers and clients make a run that one thread could have made. Returns its number of
/// events.
fn made_together(rt: &(impl Threads + Wait + Abort + Sync), alloc: Global, size: Size) -> usize {
    let roster = roster(rt, alloc, size);
    let parts = parts(rt, alloc, &roster, 1_048_576);
    let report = many::<Brand, _>(rt, alloc, parts, size);
    assert!(rt; report.left.is_empty());
    could_be_made_by_one(rt, alloc, &roster, &report.trace);
    report.trace.len()
}

/// Runs four servers and eight clients; each client sends 20,000 messages, with every kind of call among
/// them.
#[test]
fn four_servers_and_eight_clients(rt: HostRuntime) {
    let size = Size {
        servers: 4,
        clients: 8,
        rounds: 20_000,
    };
    let events = made_together(&rt, rt.alloc(), size);
    assert!(rt; events > 480_000);
}

/// Runs all 64 threads at once.
#[test]
fn sixty_four_threads(rt: HostRuntime) {
    let size = Size {
        servers: 16,
        clients: 47,
        rounds: 500,
    };
    let events = made_together(&rt, rt.alloc(), size);
    assert!(rt; events > 70_000);
}

/// Returns the sum of the counts.
fn sum_of(counts: &[u64]) -> u64 {
    let mut sum: u64 = 0;
    for count in counts {
        sum = sum.saturating_add(*count);
    }
    sum
}

/// Runs two servers and four clients on a kernel that keeps no history, for this number of processors. Each
/// message takes at least three calls: a Send, a Receive and a reply.
fn all_are_answered(
    rt: &(impl Threads + Wait + Abort + Sync),
    alloc: Global,
    rounds: u64,
    processors: usize,
) {
    let size = Size {
        servers: 2,
        clients: 4,
        rounds,
    };
    let roster = roster(rt, alloc, size);
    let parts = Parts::new(alloc, &roster, 2).expect(rt, "parts");
    let tally = many_and_no_past::<Brand, _>(rt, alloc, parts, size, processors);
    assert!(rt; tally.left.is_empty());
    assert!(rt; tally.calls.len() == 7);
    assert!(rt; tally.calls.iter().all(|calls| *calls > 3));
    assert!(rt; sum_of(tally.calls.as_slice()) > rounds.saturating_mul(12));
}

/// Each client sends 50,000 messages.
#[test]
fn no_past_is_kept(rt: HostRuntime) {
    all_are_answered(&rt, rt.alloc(), 50_000, 4);
}

/// Each client sends 5,000 messages, on a kernel for one processor, whose threads sleep whenever they wait.
#[test]
fn all_threads_sleep(rt: HostRuntime) {
    all_are_answered(&rt, rt.alloc(), 5_000, 1);
}
