//! The blocked threads.

ghost use Rattle.std.specs.Prelude.{◌≡◌, ◌++◌, List, Some, is_some, IfOk, OnOk};
ghost use Rattle.qkernel_state.specs.Thread.{open_in};
ghost use Rattle.std.specs.Option.{option_to_list};
ghost use Rattle.qtables.specs.declared.member.Member.{Member};
ghost use Rattle.qrules.specs.Records.{blocked_thread};
ghost use Rattle.qrules.specs.Lawful.{facts_of};
ghost use Rattle.qrules.specs.Trace.{Trace};
ghost use Rattle.qkernel.specs.Blocked.{blocked_threads};

use super::Kernel;
use qbase::ids::ThreadNo;
use qkernel_state::thread::Thread;
use qkernel_state::thread_state::state_of;
use qmodel::open_call::Blocked;
use std::alloc::{AllocError, Global};

/// Adds the record of a thread to the list, if the thread is blocked.
fn push_blocked(list: &mut Vec<Blocked>, thread: &Thread) -> Result<(), AllocError>
    ensures { OnOk result (list.new.items ≡ list.old.items ++ option_to_list
        (blocked_thread thread.now.member.thread thread.now.open_call)) }
{
    if let Some(call) = &thread.open_call {
        list.push(Blocked {
            number: call.number(),
            thread: thread.member.thread,
            state: state_of(call),
        })?;
    }
    Ok(())
}

impl Kernel {
    ghost use Rattle.qkernel.specs.Matching.{MatchesAt};

    /// Returns whether the thread is blocked. Returns `false` if it isn't in the roster.
    pub fn is_blocked(&self, thread: ThreadNo) -> bool
        ensures { result ≡ is_some (open_in self.now.threads thread) }
    {
        match self.seat(thread) {
            Some(seat) => self.objects.threads.record(&seat).open_call.is_some(),
            None => false,
        }
    }

    /// Returns the blocked threads, in ascending order of their numbers, for a report of how a run ended.
    /// Only the list takes memory.
    pub fn blocked(&self, alloc: Global) -> Result<Vec<Blocked>, AllocError>
        ensures { (roster : List Member) (past : Trace) → MatchesAt roster self.now past
            → IfOk result (λ list. list.items ≡ blocked_threads (facts_of roster past)) }
    {
        let mut list = Vec::new(alloc);
        for thread in self.objects.threads.records() {
            push_blocked(&mut list, thread)?;
        }
        Ok(list)
    }
}
