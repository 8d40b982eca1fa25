//! The main thread: starts the workers, waits for them and stops the servers.

ghost use Rattle.std.specs.Prelude.{IfOk, IfSome};
ghost use Rattle.qshared.specs.Naming.{AreParts};
ghost use Rattle.qdemo_serve.specs.Recording.{IsRun};

use crate::fault::{ServeFault, WorkerFault};
use crate::progress::Progress;
use crate::protocol::{MAIN_LEVEL, STOP, priority};
use crate::settings::{Settings, Stacks};
use crate::texts::Totals;
use crate::timing::{Timing, start_of, timing_of};
use crate::work_counts::{WorkCounts, both};
use crate::worker_threads::{Joined, Started, WorkerScope};
use balsaeuchre_calls::caller::Caller;
use balsaeuchre_calls::calls::Calls;
use balsaeuchre_calls::endpoint::Endpoint;
use qbase::flags::ChannelFlags;
use qbase::ids::ConnectionId;
use qkernel::trace::Trace;
use qshared::log::Log;
use qshared::parts::Parts;
use qshared::port::Port;
use qshared::recorded_history::RecordedHistory;
use qshared::report::Report;
use qshared::shared::Shared;
use qshared::tie::Tie;
use std::alloc::Global;
use std::rt::Clock;
use std::sync::Wait;
use std::thread;
use std::thread::{Threads, available_parallelism};

/// The ports of a kernel except the main thread's port, by the work of their threads.
#[derive(Drop)]
struct Crew<K: Tie> {
    servers: Vec<Port<K>>,
    clients: Vec<Port<K>>,
    /// Only the port of the alarm.
    alarm: Vec<Port<K>>,
}

/// The results of all workers, the nanoseconds of each round trip of a client, and all their ports and the
/// alarm's port, by rising thread number.
#[derive(Drop)]
struct Gathered<K: Tie> {
    tally: WorkCounts,
    trips: Vec<u64>,
    ports: Vec<Port<K>>,
}

/// The results of a run.
#[derive(Drop)]
pub struct Finished {
    pub totals: Totals,
    /// All events, if they were recorded.
    pub trace: Option<Trace>,
}

/// Runs a demonstration on a kernel of these parts.
pub fn run<K: Tie + Send + Sync, R: Threads + Wait + Clock + Eprint + Sync>(
    rt: &R,
    alloc: Global,
    parts: Parts,
    settings: Settings,
    stacks: Stacks,
) -> Result<Finished, ServeFault>
    requires named { AreParts K.names K.name K.parts parts }
    ensures run { IfOk result (λ f. IfSome f.trace (λ t. IsRun K.names.roster t)) }
{
    let Ok((mut shared, ports)) = Shared::<K, RecordedHistory<K>>::open(parts) else {
        return Err(ServeFault::NoMemory);
    };
    if let Ok(processors) = available_parallelism(rt) {
        shared.set_processors(processors.get());
    }
    let progress = Progress::new();
    let (tally, timing, ports) = gather(rt, alloc, &shared, &progress, ports, settings, stacks)?;
    if !shared.all(ports.as_slice()) {
        return Err(ServeFault::Worker);
    }
    let Report { trace, .. } = shared.finish(ports);
    let totals = Totals {
        tally,
        events: trace.len(),
        timing,
    };
    let trace = if settings.record { Some(trace) } else { None };
    Ok(Finished { totals, trace })
}

/// Sorts the ports, which come by rising thread number: servers, clients, the alarm, the main thread.
fn crew_of<K: Tie>(
    mut ports: Vec<Port<K>>,
    servers: u8,
) -> Result<(Port<K>, Crew<K>), WorkerFault> {
    let servers = usize::from(servers);
    let workers = ports.len().saturating_sub(2);
    if workers < servers {
        return Err(WorkerFault::Unexpected);
    }
    let mut alarm = ports.split_off(workers)?;
    let clients = ports.split_off(servers)?;
    let main = alarm.pop().ok_or(WorkerFault::Unexpected)?;
    let crew = Crew {
        servers: ports,
        clients,
        alarm,
    };
    Ok((main, crew))
}

/// Starts the workers, each on its own thread, and waits until all have ended. If the main thread's work
/// fails, it shuts the kernel down, which ends the workers. Returns the sum of their results, the times if
/// they are taken, and all ports.
fn gather<K: Tie + Send + Sync, L: Log + Send, R: Threads + Wait + Clock + Eprint + Sync>(
    rt: &R,
    alloc: Global,
    shared: &Shared<K, L>,
    progress: &Progress,
    ports: Vec<Port<K>>,
    settings: Settings,
    stacks: Stacks,
) -> Result<(WorkCounts, Option<Timing>, Vec<Port<K>>), WorkerFault> {
    let start = start_of(rt, settings.time)?;
    let (main, crew) = crew_of(ports, settings.servers)?;
    let (work, port) = thread::scope(thread::scope_env(), rt, move |scope| {
        let workers = WorkerScope {
            rt,
            alloc,
            scope,
            shared,
            progress,
            stacks,
        };
        let mut main = Caller::of(main, shared, rt, alloc);
        let work = conduct(&workers, &mut main, crew, settings);
        (main.or_shutdown(work), main.into_port())
    });
    let mut main = Vec::new(alloc);
    main.push(port)?;
    let mut gathered = work?;
    gathered.ports.append(&mut main)?;
    let timing = timing_of(rt, start, gathered.trips)?;
    Ok((gathered.tally, timing, gathered.ports))
}

/// Creates the channel, starts all workers, waits for the clients, stops the servers, waits for them, and
/// shuts down.
fn conduct<
    's,
    X,
    K: Tie + Send + Sync,
    L: Log + Send,
    R: Threads + Wait + Clock + Eprint + Sync,
    E: Endpoint,
>(
    workers: &WorkerScope<'s, X, K, L, R>,
    main: &mut Caller<'_, E, R>,
    crew: Crew<K>,
    settings: Settings,
) -> Result<Gathered<K>, WorkerFault> {
    let chid = main.channel_create(ChannelFlags::of(0))?;
    let coid = main.connect_attach(chid)?;
    let (given, mut alarm) = if settings.hold {
        (crew.alarm, Vec::new(workers.alloc))
    } else {
        (Vec::new(workers.alloc), crew.alarm)
    };
    let many = crew.servers.len();
    let servers = workers.start(crew.servers, None, given, chid)?;
    let clients = workers.start(crew.clients, Some(settings), Vec::new(workers.alloc), chid)?;
    let started = main.or_shutdown(both(servers.all, clients.all));
    if settings.progress {
        workers.show(clients.threads.len() as u64, settings.all_rounds());
    }
    let clients = workers.join_all(clients.threads, &mut alarm)?;
    let stopped = stop_servers(main, coid, many);
    let servers = workers.join_all(servers.threads, &mut alarm)?;
    let gathered = gathered_of(servers, clients, alarm, both(started, stopped))?;
    main.channel_destroy(chid)?;
    main.shutdown()?;
    Ok(gathered)
}

/// Sends one pulse for each server, which stops it. If that fails, it shuts the kernel down, which also stops
/// them.
fn stop_servers<E: Endpoint, R: Wait>(
    main: &mut Caller<E, R>,
    coid: ConnectionId,
    servers: usize,
) -> Result<WorkCounts, WorkerFault> {
    for _ in 0..servers {
        let sent = main.msg_send_pulse(coid, priority(MAIN_LEVEL), STOP, 0);
        main.or_shutdown(sent)?;
    }
    Ok(WorkCounts::default())
}

/// Returns the results of all workers, and their ports and the alarm's port. Returns an error if a worker or
/// `rest` failed.
fn gathered_of<K: Tie>(
    mut servers: Joined<K>,
    mut clients: Joined<K>,
    mut alarm: Vec<Port<K>>,
    rest: Result<WorkCounts, WorkerFault>,
) -> Result<Gathered<K>, WorkerFault> {
    let tally = both(both(clients.done, servers.done), rest)?;
    servers.ports.append(&mut clients.ports)?;
    servers.ports.append(&mut alarm)?;
    Ok(Gathered {
        tally,
        trips: clients.trips,
        ports: servers.ports,
    })
}
