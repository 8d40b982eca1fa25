//! The shared kernel: opening it, closing it, and waking threads.

ghost use Rattle.std.specs.Prelude.{◌≡◌, ◌≤◌, ◌++◌, ℕ, [], length, map, sum, IfOk, IfErr, OnOk, IsTrue, ◌↔◌};
ghost use Rattle.std.specs.Prelude.{◌==◌, Some, false, not, vec_capacity};
ghost use mathlib.Core.Option.{some};
ghost use lib.ListN.{get_elem?};
ghost use Rattle.qrules.specs.Lawful.{IsLawful};
ghost use Rattle.qrules.specs.Trace.{followed_by};
ghost use Rattle.qrules.specs.Properties.{HasProperties};
ghost use Rattle.qhandoff.specs.Words.{cells_id, thread_of};
ghost use Rattle.qshared.specs.Delivered.{origin_of, IsOrigin};
ghost use Rattle.qshared.specs.Asking.{AreCallsOf};
ghost use Rattle.qshared.specs.Collected.{collected_by};
ghost use Rattle.qshared.specs.Desks.{AreNewPorts};
ghost use Rattle.qshared.specs.Due.{AreDue, AreKnown};
ghost use Rattle.qshared.specs.Naming.{AreParts, AreAll};
ghost use Rattle.qshared.specs.Past.{AreSeen, RiseByThread};
ghost use Rattle.qshared.specs.Unrecorded.{HasPast};

use crate::asking::{KernelCalls, PortCalls};
use crate::close_buffers::CloseBuffers;
use crate::delivery::{Delivery, Origin};
use crate::desk::Desk;
use crate::desk_port::DeskPort;
use crate::ghost_history::GhostHistory;
use crate::history::History;
use crate::lock_state::LockState;
use crate::log::Log;
use crate::opened_desk::OpenedDesk;
use crate::parts::Parts;
use crate::port::Port;
use crate::recorded_history::RecordedHistory;
use crate::report::{EventCounts, Report};
use crate::tie::Tie;
use crate::traced::Traced;
use crate::waker::Waker;
use crossbeam_utils::CachePadded;
use crossbeam_utils::sync::Parker;
use qbase::errno::Errno;
use qhandoff::cells::Cells;
use qhandoff::seats::ThreadSeat;
use qmodel::call::Completion;
use std::alloc::{AllocError, Global};
use std::sync::Mutex;
use std::sync::ledger::Share;

/// The kernel under its lock, and the cells that it fills.
#[derive(Drop)]
pub struct Shared<K: Tie, L: Log> {
    pub(crate) cells: Cells<Delivery, Origin>,
    // It is padded, and its value is in a box. So a thread that spins for the lock reads a cache line that
    // has nothing else.
    pub(crate) lock: CachePadded<Mutex<Box<LockState<K, L>>>>,
    // One for each port, by the index of its cell.
    wakers: Vec<Waker>,
    // Whether a thread spins for some microseconds before it sleeps.
    pub(crate) looks: bool,
    ghost cells_are: { cells_id cells ≡ K.names.cells },
    ghost origin_is: { IsOrigin K.names (origin_of cells) },
}

/// The log of a closed kernel, the number of each port's calls, and the completions that weren't collected.
#[derive(Drop)]
struct Closed<L> {
    log: L,
    calls: Vec<u64>,
    left: Vec<Completion>,
}

/// Returns the completions without the indices of their cells and without their histories.
fn without_places(mut left: Vec<(usize, Delivery)>, mut room: Vec<Completion>) -> Vec<Completion>
    requires room { (room.items ≡ []) × (length left.items ≤ vec_capacity room) }
    ensures { result.items ≡ map (λ x. x.1.completion) left.items }
{
    left.reverse();
    while let Some(next) = left.pop() {
        let (_, delivery) = next;
        let Delivery {
            completion,
            seen: _,
        } = delivery;
        room.push_reserved(completion);
    }
    room
}

/// Makes the port of each thread from its side of the desk, with its share of the ledger, and the wakers of
/// the ports' threads.
fn ports_for<K: Tie>(
    alloc: Global,
    cores: Vec<DeskPort>,
    spare: &mut Share<K>,
) -> Result<(Vec<Port<K>>, Vec<Waker>), AllocError>
    requires cores { AreNewPorts K.names.roster K.names.cells K.names.history K.names.lists cores.items }
    requires spare { (spare.old.parts ≡ length cores.items) × (spare.old.amount ≡ 0) }
    ensures spare { OnOk result ((spare.new.parts ≡ 0) × (spare.new.amount ≡ 0)) }
    ensures ports { IfOk result (λ r. AreAll (λ p. thread_of p.core.seat) K.names.cells.slots r.0.items) }
    ensures new { IfOk result (λ r. (k : ℕ) (p : _) → get_elem? r.0.items k ≡ some p → (p.calls ≡ 0)
        × (p.core.turn.pending ≡ false) × (collected_by p ≡ [])
        × (p.core.asked.calls ≡ []) × (p.core.seen.trace ≡ [])) }
{
    let mut ports = Vec::with_capacity(alloc, cores.len())?;
    let mut wakers = Vec::with_capacity(alloc, cores.len())?;
    for core in cores {
        let parker = Parker::new(alloc)?;
        wakers.push(Waker::new(parker.unparker().clone()?))?;
        let port = Port::new(core, spare.split_off(1, 0), parker);
        ports.push_reserved(port);
    }
    Ok((ports, wakers))
}

/// Takes the ports apart. Gathers their tokens, the number of calls of each, the list of calls that each
/// asked for, and the sum of all their shares. The history extends the prefix that each port has seen.
fn gather<K: Tie>(
    ports: Vec<Port<K>>,
    seats: &mut Vec<ThreadSeat<Delivery>>,
    calls: &mut Vec<u64>,
    asked: &mut Vec<PortCalls>,
    spare: &mut Share<K>,
    history: &mut History,
)
    requires seats { (seats.old.items ≡ []) × (length ports.items ≤ vec_capacity seats.old) }
    requires calls { (calls.old.items ≡ []) × (length ports.items ≤ vec_capacity calls.old) }
    requires asked { (asked.old.items ≡ []) × (length ports.items ≤ vec_capacity asked.old) }
    requires spare { (spare.old.parts ≡ 0) × (spare.old.amount ≡ 0) }
    requires history { history.old.name ≡ K.names.history }
    ensures seats { seats.new.items ≡ map (λ p. p.core.seat) ports.items }
    ensures calls { calls.new.items ≡ map (λ p. p.calls) ports.items }
    ensures asked { asked.new.items ≡ map (λ p. p.core.asked) ports.items }
    ensures spare { (spare.new.parts ≡ length ports.items) × (spare.new.amount ≡ sum calls.new.items) }
    ensures seen { AreSeen history.old.trace (map (λ p. p.core.seen.trace) ports.items) }
{
    for port in ports {
        let Port {
            core,
            share,
            calls: made,
            ..
        } = port;
        let DeskPort {
            seat,
            asked: own,
            mut seen,
            ..
        } = core;
        seats.push_reserved(seat);
        calls.push_reserved(made);
        asked.push_reserved(own);
        spare.merge(share);
        history.look(&mut seen);
    }
}

/// Guarantees that the two halves of each of these lists are equal.
fn agree(mut asked: Vec<PortCalls>, mut heard: Vec<KernelCalls>)
    requires { map (λ a. a.name) asked.items ≡ map (λ h. h.name) heard.items }
    ensures { map (λ a. a.calls) asked.items ≡ map (λ h. h.calls) heard.items }
{
    while let Some(mut one) = asked.pop() {
        let Some(mut other) = heard.pop() else {
            unreachable!()
        };
        one.agree(&mut other);
    }
}

impl<K: Tie, L: Log> Shared<K, L> {
    /// Opens a kernel of these parts, whose history the log keeps. Returns a port for each thread, in
    /// ascending order of thread number.
    fn with_log(parts: Parts, log: L) -> Result<(Shared<K, L>, Vec<Port<K>>), AllocError>
        requires named { AreParts K.names K.name K.parts parts }
        requires log { (L.roster log ≡ K.names.roster) × (L.past log ≡ []) }
        ensures ports { IfOk result (λ r. AreAll (λ p. thread_of p.core.seat) K.names.cells.slots r.1.items) }
        ensures new { IfOk result (λ r. (k : ℕ) (p : _) → get_elem? r.1.items k ≡ some p → (p.calls ≡ 0)
            × (p.core.turn.pending ≡ false) × (collected_by p ≡ [])
            × (p.core.asked.calls ≡ []) × (p.core.seen.trace ≡ [])) }
    {
        let alloc = parts.kernel.alloc();
        let room = CloseBuffers::new(alloc, parts.ports.len())?;
        let OpenedDesk {
            desk,
            cells,
            ports: cores,
            blank,
        } = parts.into_desk(log);
        let (book, mut spare) = blank.open::<K>();
        let (ports, wakers) = ports_for(alloc, cores, &mut spare)?;
        let locked = LockState::new(desk, book, spare, room);
        let lock = CachePadded::new(Mutex::new(Box::new(alloc, locked)?));
        let shared = Shared {
            cells,
            lock,
            wakers,
            looks: true,
        };
        Ok((shared, ports))
    }

    /// Sets how many processors the ports' threads run on, as `std::thread::available_parallelism` returns
    /// it. With one processor, a thread that waits sleeps at once. With more, which is the default, it spins
    /// for some microseconds first.
    /// `course.rt` of the bench's round trips sets it.
    pub fn set_processors(&mut self, processors: usize)
        ensures looks { self.new.looks ≡ not (processors == 1) }
        ensures same { (self.new.cells ≡ self.old.cells) × (self.new.wakers ≡ self.old.wakers) }
    {
        self.looks = processors != 1;
    }

    /// Returns whether these are all ports of the kernel, in ascending order of thread number.
    /// It serves to check the ports before `finish`, as in `opening.rt` of `crates/balsaeuchre_calls`.
    pub fn all(&self, ports: &[Port<K>]) -> bool
        ensures { IsTrue result ↔ AreAll (λ p. thread_of p.core.seat) K.names.cells.slots ports.now }
    {
        if ports.len() != self.cells.threads() {
            return false;
        }
        for k in 0..ports.len() {
            if ports[k].core.seat.thread() != k {
                return false;
            }
        }
        true
    }

    /// Sets whether the thread of a cell sleeps or is about to sleep. Other threads wake it only then.
    pub(crate) fn set_asleep(&self, place: usize, asleep: bool) {
        if place < self.wakers.len() {
            self.wakers[place].set_asleep(asleep);
        }
    }

    /// Wakes the threads whose bits are set, if they sleep.
    pub(crate) fn wake(&self, woken: u64) {
        let mut left = woken;
        for _ in 0..self.wakers.len() {
            if left == 0 {
                return;
            }
            let place = left.trailing_zeros() as usize;
            if place < self.wakers.len() {
                self.wakers[place].wake();
            }
            left &= left - 1;
        }
    }

    /// Takes the kernel and all its ports apart. The list must have all ports, in ascending order of thread
    /// number.
    fn close(self, ports: Vec<Port<K>>) -> Closed<L>
        requires all { AreAll (λ p. thread_of p.core.seat) K.names.cells.slots ports.items }
        ensures calls { result.calls.items ≡ map (λ p. p.calls) ports.items }
        ensures sum { sum result.calls.items ≡ length (L.past result.log) }
        ensures asked { AreCallsOf K.names.roster (map (λ p. p.core.asked.calls) ports.items)
            (L.past result.log) }
        ensures seen { AreSeen (L.past result.log) (map (λ p. p.core.seen.trace) ports.items) }
        ensures lawful { IsLawful K.names.roster (L.past result.log)
            × HasProperties K.names.roster (L.past result.log) }
        ensures rises { RiseByThread result.left.items }
        ensures known { AreKnown K.names.roster result.left.items }
        ensures due { AreDue K.names.roster (map collected_by ports.items) result.left.items
            (L.past result.log) }
    {
        let Shared { cells, lock, .. } = self;
        let LockState {
            desk,
            mut book,
            mut spare,
            room,
            ..
        } = Box::into_inner(lock.into_inner().into_inner());
        let CloseBuffers {
            mut seats,
            mut calls,
            left: room,
            mut asked,
            ..
        } = room;
        let Desk { traced, heard } = desk;
        let Traced {
            seat,
            log,
            mut history,
            ..
        } = traced;
        gather(
            ports,
            &mut seats,
            &mut calls,
            &mut asked,
            &mut spare,
            &mut history,
        );
        agree(asked, heard);
        book.audit(&mut spare);
        let left = cells.close(seat, seats);
        Closed {
            log,
            calls,
            left: without_places(left, room),
        }
    }
}

impl<K: Tie> Shared<K, RecordedHistory<K>> {
    /// Opens a kernel of these parts that keeps its history in memory. Returns a port for each thread, in
    /// ascending order of thread number. The only error is `NoMemory`, which drops the parts.
    /// `two_threads.rt` of `crates/balsaeuchre_examples` opens one.
    pub fn open(parts: Parts) -> Result<(Shared<K, RecordedHistory<K>>, Vec<Port<K>>), Errno>
        requires named { AreParts K.names K.name K.parts parts }
        ensures ports { IfOk result (λ r. AreAll (λ p. thread_of p.core.seat) K.names.cells.slots r.1.items) }
        ensures new { IfOk result (λ r. (k : ℕ) (p : _) → get_elem? r.1.items k ≡ some p → (p.calls ≡ 0)
            × (p.core.turn.pending ≡ false) × (collected_by p ≡ [])
            × (p.core.asked.calls ≡ []) × (p.core.seen.trace ≡ [])) }
        ensures error { IfErr result (λ e. e ≡ Errno.NoMemory) }
    {
        let alloc = parts.kernel.alloc();
        let _made = parts.kernel.made();
        let log = RecordedHistory::new(alloc, parts.ports.len(), parts.limit)?;
        Ok(Shared::with_log(parts, log)?)
    }

    /// Closes the kernel and takes back all its ports, in ascending order of thread number. Returns the
    /// trace, the number of events of each port, and the completions that weren't collected.
    ///
    /// A thread's completions in the history are the completions that its port took, followed by the
    /// completion that is left for it, if any.
    /// `opening.rt` of `crates/balsaeuchre_calls` closes one.
    pub fn finish(self, ports: Vec<Port<K>>) -> Report
        requires all { AreAll (λ p. thread_of p.core.seat) K.names.cells.slots ports.items }
        ensures calls { result.calls.items ≡ map (λ p. p.calls) ports.items }
        ensures sum { sum result.calls.items ≡ length result.trace.events }
        ensures within { length result.trace.events ≤ K.names.limit }
        ensures asked { AreCallsOf K.names.roster (map (λ p. p.core.asked.calls) ports.items)
            (followed_by [] result.trace.events) }
        ensures seen { AreSeen (followed_by [] result.trace.events)
            (map (λ p. p.core.seen.trace) ports.items) }
        ensures lawful { (result.trace.first ≡ 1)
            × IsLawful K.names.roster (followed_by [] result.trace.events)
            × HasProperties K.names.roster (followed_by [] result.trace.events) }
        ensures rises { RiseByThread result.left.items }
        ensures known { AreKnown K.names.roster result.left.items }
        ensures due { AreDue K.names.roster (map collected_by ports.items) result.left.items
            (followed_by [] result.trace.events) }
    {
        let Closed { log, calls, left } = self.close(ports);
        Report {
            trace: log.into_trace(),
            calls,
            left,
        }
    }
}

impl<K: Tie> Shared<K, GhostHistory> {
    /// Opens a kernel of these parts that keeps no history. Returns a port for each thread, in ascending
    /// order of thread number. The limit of the parts is ignored. The only error is `NoMemory`, which drops
    /// the parts.
    /// `course.rt` of `bench/programs/qroundtrips` opens and closes one.
    pub fn open(parts: Parts) -> Result<(Shared<K, GhostHistory>, Vec<Port<K>>), Errno>
        requires named { AreParts K.names K.name K.parts parts }
        ensures ports { IfOk result (λ r. AreAll (λ p. thread_of p.core.seat) K.names.cells.slots r.1.items) }
        ensures new { IfOk result (λ r. (k : ℕ) (p : _) → get_elem? r.1.items k ≡ some p → (p.calls ≡ 0)
            × (p.core.turn.pending ≡ false) × (collected_by p ≡ [])
            × (p.core.asked.calls ≡ []) × (p.core.seen.trace ≡ [])) }
        ensures error { IfErr result (λ e. e ≡ Errno.NoMemory) }
    {
        let log = GhostHistory::new(&parts.kernel);
        Ok(Shared::with_log(parts, log)?)
    }

    /// Closes the kernel and takes back all its ports, in ascending order of thread number. Returns the
    /// number of events of each port, and the completions that weren't collected.
    ///
    /// There is a history of the calls, although it isn't kept. A thread's completions in it are the
    /// completions that its port took, followed by the completion that is left for it, if any.
    pub fn finish(self, ports: Vec<Port<K>>) -> EventCounts
        requires all { AreAll (λ p. thread_of p.core.seat) K.names.cells.slots ports.items }
        ensures calls { result.calls.items ≡ map (λ p. p.calls) ports.items }
        ensures rises { RiseByThread result.left.items }
        ensures known { AreKnown K.names.roster result.left.items }
        ensures past { HasPast K.names.roster (map collected_by ports.items)
            (map (λ p. p.core.asked.calls) ports.items) (map (λ p. p.core.seen.trace) ports.items)
            result.calls.items
            result.left.items }
    {
        let Closed { calls, left, .. } = self.close(ports);
        EventCounts { calls, left }
    }
}
