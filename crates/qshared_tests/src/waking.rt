//! One call that cancels the calls of eight sleeping threads must wake all of them.

ghost use Rattle.qshared.specs.Naming.{AreParts};

use crate::making::{attached, bytes, done, ended, parts, priority};
use qbase::errno::Errno;
use qbase::flags::ChannelFlags;
use qbase::ids::{ChannelId, ProcessNo, ThreadNo};
use qbase::state::ThreadState;
use qkernel::call::{Call, Mark};
use qshared::ghost_history::GhostHistory;
use qshared::log::Log;
use qshared::parts::Parts;
use qshared::port::Port;
use qshared::shared::Shared;
use qshared::tie::Tie;
use qtables::roster::Roster;
use std::alloc::Global;
use std::marker::Brand;
use std::process::Abort;
use std::sync::Wait;
use std::sync::atomic::{AtomicU64, Ordering};
use std::thread;
use std::thread::{Threads, join};

/// The number of threads that sleep: 1 to 4 receive, and 5 to 8 send. Thread 9 cancels their calls.
const SLEEPERS: u8 = 8;

/// The first thread that sends.
const FIRST_CLIENT: u8 = 5;

/// How often thread 9 asks for a thread's state, which gives the others some milliseconds to fall asleep.
const QUIET: u32 = 20_000;

/// How often thread 9 then checks whether all are awake: this takes some seconds.
const PATIENCE: u32 = 20_000_000;

/// Returns the roster: eight threads that sleep, and thread 9, which wakes them. Thread 9 is in the servers'
/// process, which owns the channel.
fn roster(rt: &impl Abort, alloc: Global) -> Roster {
    let mut roster = Roster::new(alloc);
    for number in 1..10u8 {
        let process = if number < FIRST_CLIENT || number > SLEEPERS {
            1
        } else {
            2
        };
        let joined = roster.add(ThreadNo(number), ProcessNo(process), priority(rt, 10));
        assert!(rt; joined.is_ok());
    }
    roster
}

/// Receives messages and replies to none, until its Receive is cancelled.
fn serve<K: Tie, L: Log>(
    rt: &(impl Wait + Abort),
    alloc: Global,
    shared: &Shared<K, L>,
    port: &mut Port<K>,
) {
    for _ in rt.forever() {
        let receive = Call::Receive {
            chid: ChannelId(1),
            buffer: bytes(rt, alloc, &[]),
        };
        match ended(rt, shared, port, receive).mark {
            Mark::Message { .. } => {}
            mark => {
                assert!(rt; mark == Mark::Failed(Errno::Srch));
                return;
            }
        }
    }
}

/// Sends a message that gets no reply: its Send is cancelled.
fn send<K: Tie, L: Log>(
    rt: &(impl Wait + Abort),
    alloc: Global,
    shared: &Shared<K, L>,
    port: &mut Port<K>,
) {
    let coid = attached(rt, shared, port, ChannelId(1));
    let send = Call::Send {
        coid,
        message: bytes(rt, alloc, &[1]),
        reply_buffer: bytes(rt, alloc, &[]),
    };
    let completion = ended(rt, shared, port, send);
    assert!(rt; completion.mark == Mark::Failed(Errno::Srch));
}

/// Serves or sends until the call is cancelled, and counts itself as awake.
fn sleep<K: Tie, L: Log>(
    rt: &(impl Wait + Abort),
    alloc: Global,
    shared: &Shared<K, L>,
    mut port: Port<K>,
    awake: &AtomicU64,
) -> Port<K> {
    let ThreadNo(number) = port.thread();
    if number < FIRST_CLIENT {
        serve(rt, alloc, shared, &mut port);
    } else {
        send(rt, alloc, shared, &mut port);
    }
    awake.fetch_add(1, Ordering::SeqCst);
    port
}

/// Returns whether the thread is blocked in the call from which it is to be woken.
fn is_asleep<K: Tie, L: Log>(
    rt: &(impl Wait + Abort),
    shared: &Shared<K, L>,
    main: &mut Port<K>,
    number: u8,
) -> bool {
    let mark = done(rt, main.call(shared, rt, Call::State(ThreadNo(number)))).mark;
    match mark {
        Mark::State {
            state: ThreadState::ReceiveBlocked(_),
            ..
        } => number < FIRST_CLIENT,
        Mark::State {
            state: ThreadState::ReplyBlocked(_),
            ..
        } => number >= FIRST_CLIENT,
        Mark::State { .. } => false,
        _ => panic!(rt; "no state"),
    }
}

/// Waits until all eight threads are blocked and had time to fall asleep, makes the last call, and waits
/// until all are awake.
fn wake_all<K: Tie, L: Log>(
    rt: &(impl Wait + Abort),
    shared: &Shared<K, L>,
    mut main: Port<K>,
    last: Call,
    awake: &AtomicU64,
) -> Port<K> {
    for number in 1..SLEEPERS + 1 {
        for _ in rt.forever() {
            if is_asleep(rt, shared, &mut main, number) {
                break;
            }
        }
    }
    for _ in 0..QUIET {
        is_asleep(rt, shared, &mut main, 1);
    }
    assert!(rt; awake.load(Ordering::SeqCst) == 0);
    done(rt, main.call(shared, rt, last));
    for _ in 0..PATIENCE {
        if awake.load(Ordering::SeqCst) == SLEEPERS as u64 {
            return main;
        }
        thread::yield_now();
    }
    panic!(rt; "a thread still sleeps")
}

/// Runs all nine threads on a kernel that keeps no history, up to the call that cancels the calls of eight
/// threads.
fn sleep_and_wake<K: Tie + Send + Sync, R: Threads + Wait + Abort + Sync>(
    rt: &R,
    alloc: Global,
    parts: Parts,
    last: Call,
)
    requires named { AreParts K.names K.name K.parts parts }
{
    let (shared, mut ports) = Shared::<K, GhostHistory>::open(parts).expect(rt, "a kernel");
    let mut main = ports.pop().expect(rt, "a port");
    let create = Call::ChannelCreate(ChannelFlags::of(0));
    done(rt, main.call(&shared, rt, create));
    let awake = AtomicU64::new(0);
    join(
        rt,
        || {
            let slept = thread::map_vec(
                rt,
                ports,
                &|port: Port<K>| -> Port<K> { sleep(rt, alloc, &shared, port, &awake) },
            );
            assert!(rt; slept.is_ok());
        },
        || {
            wake_all(rt, &shared, main, last, &awake);
        },
    );
}

#[test]
fn a_destroyed_channel_wakes_eight_threads(rt: HostRuntime) {
    let alloc = rt.alloc();
    let roster = roster(&rt, alloc);
    let parts = parts(&rt, alloc, &roster, 2);
    let last = Call::ChannelDestroy(ChannelId(1));
    sleep_and_wake::<Brand, _>(&rt, alloc, parts, last);
}

#[test]
fn a_shutdown_wakes_eight_threads(rt: HostRuntime) {
    let alloc = rt.alloc();
    let roster = roster(&rt, alloc);
    let parts = parts(&rt, alloc, &roster, 2);
    sleep_and_wake::<Brand, _>(&rt, alloc, parts, Call::Shutdown);
}
