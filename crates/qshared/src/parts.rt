//! The parts of a shared kernel.

ghost use Rattle.std.specs.Prelude.{◌≡◌, ◌≤◌, ◌^◌, ◌⊎◌, ◌<◌, ℕ, [], length, IfOk, IfErr};
ghost use lib.ListN.{get_elem?};
ghost use Rattle.qtables.specs.Members.{IsRoster};
ghost use Rattle.qrules.specs.Facts.{threads_of};
ghost use Rattle.qkernel_state.specs.Contents.{members_of};
ghost use Rattle.qkernel.specs.Matching.{MatchesAt};
ghost use Rattle.qhandoff.specs.Steps.{seated_kernel_view};
ghost use Rattle.qhandoff.specs.Words.{cells_id, kernel_id, count, took, IsRow};
ghost use Rattle.qshared.specs.Asking.{heard_in};
ghost use Rattle.qshared.specs.Delivered.{kernel_view, origin_of};
ghost use Rattle.qshared.specs.Desks.{AreNewPorts, names_in};

use crate::asking::{KernelCalls, halves};
use crate::delivery::{Delivery, Origin};
use crate::desk_port::DeskPort;
use crate::history::{History, Prefix};
use crate::turn::Turn;
use qbase::errno::Errno;
use qhandoff::cells::Cells;
use qhandoff::seats::{KernelSeat, ThreadSeat};
use qkernel::kernel::Kernel;
use qtables::member::Member;
use qtables::roster::Roster;
use std::alloc::{AllocError, Global};
use std::sync::ledger::Blank;

/// The parts from which a shared kernel is made. A function over `K: Tie` takes them, on the condition that K
/// names them.
#[derive(Drop)]
pub struct Parts {
    pub(crate) cells: Cells<Delivery, Origin>,
    pub(crate) seat: KernelSeat<Delivery>,
    // One for each thread, in ascending order of thread number.
    pub(crate) ports: Vec<DeskPort>,
    pub(crate) blank: Blank,
    pub(crate) kernel: Kernel,
    pub(crate) limit: usize,
    pub(crate) heard: Vec<KernelCalls>,
    pub(crate) history: History,
    ghost fits: { (kernel_id seat ≡ cells_id cells)
        × (kernel_view seat ≡ seated_kernel_view (count cells) (count cells)) × (blank.parts ≡ count cells) },
    ghost matches: { MatchesAt (members_of kernel.threads) kernel [] },
    ghost sized: { (length (threads_of (members_of kernel.threads)) ≡ count cells)
        × (length heard.items ≡ count cells) },
    ghost bounded: { (2 ≤ limit) × (limit ≤ 2 ^ 20) },
    ghost origin: { ((origin_of cells).roster.value ≡ members_of kernel.threads)
        × ((origin_of cells).seen.name ≡ history.name) },
    ghost unused: { (history.trace ≡ []) × ((k : ℕ) → heard_in (get_elem? heard.items k) ≡ []) },
    ghost ports_are: { AreNewPorts (members_of kernel.threads) (cells_id cells) history.name
        (names_in heard.items) ports.items },
}

/// Returns a port for each member of the roster, and the list of its calls that the kernel keeps.
fn ports_of(
    kernel: &Kernel,
    members: &[Member],
    seats: Vec<ThreadSeat<Delivery>>,
    seen: &Prefix,
    cells: &Cells<Delivery, Origin>,
) -> Result<(Vec<DeskPort>, Vec<KernelCalls>), AllocError>
    requires roster { IsRoster members.now × (members_of kernel.now.threads ≡ members.now) }
    requires sized { length members.now ≡ count cells.now }
    requires seats { (length seats.items ≡ count cells.now) × IsRow (cells_id cells.now) seats.items
        × ((k : ℕ) → took (get_elem? seats.items k) ≡ []) }
    requires seen { seen.now.trace ≡ [] }
    ensures heard { IfOk result (λ r. (length r.1.items ≡ count cells.now)
        × ((k : ℕ) → heard_in (get_elem? r.1.items k) ≡ [])) }
    ensures ports { IfOk result (λ r. AreNewPorts members.now (cells_id cells.now) seen.now.name
        (names_in r.1.items) r.0.items) }
{
    let alloc = kernel.alloc();
    let mut ports = Vec::with_capacity(alloc, cells.threads())?;
    let mut heard = Vec::with_capacity(alloc, cells.threads())?;
    for seat in seats {
        let thread = members[seat.thread()].thread;
        let Some(place) = kernel.seat(thread) else {
            unreachable!()
        };
        let turn = Turn::new(alloc, place)?;
        let (asked, kept) = halves();
        let core = DeskPort::new(seat, turn, asked, seen.again());
        ports.push_reserved(core);
        heard.push_reserved(kept);
    }
    Ok((ports, heard))
}

/// The most events that a history in memory may have: 1,048,576.
const TRACE_LIMIT: u32 = 1 << 20;

impl Parts {
    /// Makes the parts of a kernel for these threads, whose trace has at most `trace_limit` events. A kernel
    /// that keeps no history ignores the limit. Fails with `Inval` unless the limit is from 2 to 1,048,576,
    /// and with `NoMemory` if the allocator refuses.
    /// `two_threads.rt` of `crates/balsaeuchre_examples` hands them to a function over `K: Tie`.
    pub fn new(alloc: Global, roster: &Roster, trace_limit: u32) -> Result<Parts, Errno>
        ensures roster { IfOk result (λ p. members_of p.kernel.threads ≡ roster.now) }
        ensures limit { IfOk result (λ p. p.limit ≡ trace_limit) }
        ensures error { IfErr result (λ e. ((e ≡ Errno.Inval) × ((trace_limit < 2) ⊎ (2 ^ 20 < trace_limit)))
            ⊎ ((e ≡ Errno.NoMemory) × (2 ≤ trace_limit) × (trace_limit ≤ 2 ^ 20))) }
    {
        if trace_limit < 2 || trace_limit > TRACE_LIMIT {
            return Err(Errno::Inval);
        }
        let (history, seen) = History::begin();
        let origin = Origin::new(roster, &seen);
        let (cells, seat, seats) = Cells::new(alloc, roster.members().len(), &origin)?;
        let kernel = Kernel::new(alloc, roster)?;
        let (ports, heard) = ports_of(&kernel, roster.members(), seats, &seen, &cells)?;
        let blank = Blank::new(cells.threads() as u64);
        Ok(Parts {
            cells,
            seat,
            ports,
            blank,
            kernel,
            limit: trace_limit as usize,
            heard,
            history,
        })
    }
}
