//! A run of many calls.

ghost use Rattle.std.specs.Prelude.{◌≡◌, ◌+◌, ◌<◌, ◌≤◌, ◌^◌, [], length, map, true, IfOk, IfErr, OnOk, OnErr};
ghost use Rattle.std.specs.Prelude.{vec_len};
ghost use Rattle.std.specs.List.{AllByRecursion};
ghost use Rattle.qkernel.specs.Run.{Headline, RunsAtTraces, AllKnown, RunError};
ghost use Rattle.qrules.specs.Lawful.{event_call};
ghost use Rattle.qkernel_state.specs.Thread.{blocked_count};
ghost use Rattle.qkernel_state.specs.Contents.{members_of};

use crate::event_log::EventLog;
use crate::kernel::{CALL_LIMIT, Kernel};
use crate::trace::Trace;
use arrayvec::ArrayVec;
use qbase::errno::Errno;
use qbase::ids::ThreadNo;
use qkernel_state::completions::Completions;
use qmodel::call::Call;
use qtables::roster::THREAD_LIMIT;
use std::alloc::{AllocError, Global};

/// Makes a log that notes a copy of each call, with room for all their completions.
fn log_for(alloc: Global, calls: &[(ThreadNo, Call)]) -> Result<EventLog, AllocError>
    requires { length calls.now ≤ 2 ^ 40 }
    ensures none { IfOk result (λ log. (log.events ≡ []) × (log.completions ≡ [])) }
    ensures noted { IfOk result (λ log. log.noted ≡ calls.now) }
    ensures room { IfOk result (λ log. log.completion_room ≡ length calls.now + 64) }
{
    let mut log = EventLog::with_room(alloc, calls.len(), calls.len() + THREAD_LIMIT)?;
    for (thread, call) in calls {
        log.note(*thread, call.copied(alloc)?);
    }
    Ok(log)
}

/// Returns whether the thread of each call is in the roster.
fn all_known(kernel: &Kernel, calls: &[(ThreadNo, Call)]) -> bool
    ensures known { result ≡ true → AllKnown (members_of kernel.now.threads) calls.now }
    ensures unknown { AllKnown (members_of kernel.now.threads) calls.now → result ≡ true }
{
    calls.iter().all(|(thread, _)| kernel.knows(*thread))
}

/// A list with room for fewer calls than this keeps its memory. This many calls take some hundreds of
/// kilobytes.
const WORTH_GIVING_BACK: usize = 4096;

/// Frees memory of a large list of calls, once at least half of its room is unused because the calls there
/// were made.
fn give_back(calls: &mut Vec<(ThreadNo, Call)>)
    ensures items { calls.new.items ≡ calls.old.items }
    ensures len { vec_len calls.new ≡ vec_len calls.old }
{
    if calls.capacity() >= WORTH_GIVING_BACK && calls.len() <= calls.capacity() / 2 {
        calls.shrink_to_fit();
    }
}

/// Makes the calls in order, and logs the events. The calls must be the noted calls of the log.
fn run_all(kernel: &mut Kernel, log: &mut EventLog, mut calls: Vec<(ThreadNo, Call)>)
    requires noted { log.old.noted ≡ calls.items }
    requires none { (log.old.events ≡ []) × (log.old.completions ≡ []) }
    requires known { AllKnown (members_of kernel.old.threads) calls.items }
    requires limit { kernel.old.made + length calls.items ≤ 2 ^ 40 }
    requires room { length calls.items + blocked_count kernel.old.threads ≤ log.old.completion_room }
    ensures ran { RunsAtTraces kernel.old log.new.events kernel.new }
    ensures told { map event_call log.new.events ≡ calls.items }
    ensures all { log.new.noted ≡ [] }
{
    let mut completions: Completions = ArrayVec::new_in(kernel.alloc());
    calls.reverse();
    while let Some(next) = calls.pop() {
        let (thread, call) = next;
        kernel.step(thread, call, &mut completions);
        log.append(&mut completions);
        log.event();
        give_back(&mut calls);
    }
}

/// Makes the calls in order, and returns the trace of the run. It takes the memory for the trace, which keeps
/// copies of the calls, before it makes the first call. So an `Err` leaves the kernel unchanged, and drops
/// the list.
///
/// The error is `NoThread` if a thread of the list isn't in the roster. Otherwise it is `Exhausted` if the
/// list would pass 2^40 calls, and otherwise `NoMemory`.
///
/// `first_message.rt` of `crates/balsaeuchre_examples` is a complete use of it.
pub fn run(kernel: &mut Kernel, calls: Vec<(ThreadNo, Call)>) -> Result<Trace, Errno>
    ensures headline { IfOk result (λ trace. Headline kernel.old trace kernel.new) }
    ensures ok { OnOk result
        (AllKnown (members_of kernel.old.threads) calls.items
        × (kernel.old.made + length calls.items ≤ 2 ^ 40)) }
    ensures told { IfOk result (λ trace. map event_call trace.events ≡ calls.items) }

    // On an error nothing changes.
    ensures unchanged { OnErr result (kernel.new ≡ kernel.old) }
    ensures error { IfErr result (RunError kernel.old calls.items) }
{
    if !all_known(kernel, &calls) {
        return Err(Errno::NoThread);
    }
    let made = kernel.made();
    if made > CALL_LIMIT || calls.len() as u64 > CALL_LIMIT - made {
        return Err(Errno::Exhausted);
    }
    let Ok(mut log) = log_for(kernel.alloc(), &calls) else {
        return Err(Errno::NoMemory);
    };
    run_all(kernel, &mut log, calls);
    Ok(log.into_trace(made + 1))
}
