//! Runs workers, each on its own thread.

use crate::client::client;
use crate::fault::WorkerFault;
use crate::hold::holding_server;
use crate::progress::{Progress, show};
use crate::protocol::FIRST_CLIENT;
use crate::server::server;
use crate::settings::{Settings, Stacks};
use crate::timed::{Stopwatch, Timed};
use crate::work_counts::{WorkCounts, both};
use balsaeuchre_calls::caller::Caller;
use balsaeuchre_calls::endpoint::KernelPort;
use qbase::ids::ChannelId;
use qshared::log::Log;
use qshared::port::Port;
use qshared::shared::Shared;
use qshared::tie::Tie;
use std::alloc::Global;
use std::mem;
use std::rt::Clock;
use std::sync::Wait;
use std::thread::{Builder, JoinHandle, Scope, Threads};

/// The end of a worker, with the ports that it returns.
#[derive(Drop)]
pub struct Ended<K: Tie> {
    /// Its result, or its error.
    done: Result<WorkCounts, WorkerFault>,
    /// Its own port.
    port: Port<K>,
    /// The port of its alarm, if it had one.
    alarm: Option<Port<K>>,
    /// The nanoseconds of each of its round trips, if they were timed.
    trips: Vec<u64>,
}

/// The threads of all workers of a kind.
#[derive(Drop)]
pub struct Started<K: Tie> {
    /// The threads that were started.
    pub threads: Vec<JoinHandle<Ended<K>>>,
    /// An error if a thread couldn't be started.
    pub all: Result<WorkCounts, WorkerFault>,
}

/// The ends of all workers of a kind, put together.
#[derive(Drop)]
pub struct Joined<K: Tie> {
    /// The sum of their results, or an error.
    pub done: Result<WorkCounts, WorkerFault>,
    /// Their ports, in the order in which their threads were started.
    pub ports: Vec<Port<K>>,
    /// The nanoseconds of all round trips, if they were timed.
    pub trips: Vec<u64>,
}

/// The scope in which workers are started, and the kernel that they call.
#[derive(Drop)]
pub struct WorkerScope<'s, X, K: Tie, L: Log, R> {
    pub rt: &'s R,
    pub alloc: Global,
    pub scope: &'s Scope<'s, X>,
    pub shared: &'s Shared<K, L>,
    pub progress: &'s Progress,
    pub stacks: Stacks,
}

impl<
    's,
    X,
    K: Tie + Send + Sync,
    L: Log + Send,
    R: Threads + Wait + Clock + Eprint + Sync,
> WorkerScope<'s, X, K, L, R> {
    /// Starts a worker for each of these ports: a client if there are settings, otherwise a server. If there
    /// is an alarm, the first server takes it and holds a message. If there is no memory for a list of
    /// threads, it returns an error before it starts the first.
    pub fn start(
        &self,
        ports: Vec<Port<K>>,
        settings: Option<Settings>,
        mut alarm: Vec<Port<K>>,
        chid: ChannelId,
    ) -> Result<Started<K>, WorkerFault> {
        let (rt, alloc, shared) = (self.rt, self.alloc, self.shared);
        let progress = self.progress;
        let stack = settings.map_or(self.stacks.server, |_| self.stacks.client);
        let mut threads = Vec::with_capacity(alloc, ports.len())?;
        let mut all = Ok(WorkCounts::default());
        for port in ports {
            let builder = Builder::new().stack_size(stack);
            let alarm = mem::replace(&mut alarm, Vec::new(alloc));
            let started = builder.spawn_scoped(self.scope, move || match settings {
                Some(settings) => client_thread(rt, alloc, shared, progress, port, chid, settings),
                None => server_thread(rt, alloc, shared, port, alarm, chid),
            });
            match started {
                Ok(thread) => threads.push(thread)?,
                Err(_) => all = Err(WorkerFault::Unexpected),
            }
        }
        Ok(Started { threads, all })
    }

    /// Shows the progress of a run of `rounds` rounds, until `clients` clients have ended.
    pub fn show(&self, clients: u64, rounds: u64) {
        show(self.rt, self.alloc, self.progress, clients, rounds);
    }

    /// Waits for all these threads to end, and adds the port of the alarm to `alarm` if one of them had it.
    /// If there is no memory for their ports, it returns an error, and some threads may still run.
    pub fn join_all(
        &self,
        threads: Vec<JoinHandle<Ended<K>>>,
        alarm: &mut Vec<Port<K>>,
    ) -> Result<Joined<K>, WorkerFault> {
        let mut joined = Joined {
            done: Ok(WorkCounts::default()),
            ports: Vec::with_capacity(self.alloc, threads.len())?,
            trips: Vec::new(self.alloc),
        };
        for thread in threads {
            joined.add(thread.join(self.rt), alarm)?;
        }
        Ok(joined)
    }
}

impl<K: Tie> Joined<K> {
    /// Adds the end of one more worker.
    fn add(&mut self, mut ended: Ended<K>, alarm: &mut Vec<Port<K>>) -> Result<(), WorkerFault> {
        self.done = both(self.done, ended.done);
        self.ports.push(ended.port)?;
        let own = ended.alarm;
        if let Some(port) = own {
            alarm.push(port)?;
        }
        self.trips.append(&mut ended.trips)?;
        Ok(())
    }
}

/// The work of a client's thread.
fn client_thread<K: Tie, L: Log, R: Wait + Clock>(
    rt: &R,
    alloc: Global,
    shared: &Shared<K, L>,
    progress: &Progress,
    port: Port<K>,
    chid: ChannelId,
    settings: Settings,
) -> Ended<K> {
    let number = port.thread().0.wrapping_sub(FIRST_CLIENT);
    let port = Timed {
        inner: KernelPort::new(port, shared),
        stopwatch: Stopwatch::new(rt, alloc, settings.time, progress),
    };
    let mut caller = Caller::new(port, rt, alloc);
    let done = client(&mut caller, chid, number, settings.rounds);
    progress.end(rt);
    let Timed { inner, stopwatch } = caller.into_endpoint();
    Ended {
        done: both(done, stopwatch.all()),
        port: inner.into_port(),
        alarm: None,
        trips: stopwatch.into_trips(),
    }
}

/// The work of a server's thread, which holds a message if it has an alarm.
fn server_thread<K: Tie, L: Log, R: Wait>(
    rt: &R,
    alloc: Global,
    shared: &Shared<K, L>,
    port: Port<K>,
    mut alarm: Vec<Port<K>>,
    chid: ChannelId,
) -> Ended<K> {
    let mut caller = Caller::of(port, shared, rt, alloc);
    let (done, alarm) = match alarm.pop() {
        Some(alarm) => {
            let mut alarm = Caller::of(alarm, shared, rt, alloc);
            let done = holding_server(&mut caller, &mut alarm, chid);
            (done, Some(alarm.into_port()))
        }
        None => (server(&mut caller, chid), None),
    };
    Ended {
        done,
        port: caller.into_port(),
        alarm,
        trips: Vec::new(alloc),
    }
}
