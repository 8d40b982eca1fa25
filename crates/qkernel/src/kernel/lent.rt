//! Calls that borrow their bytes.

ghost use Rattle.std.specs.Prelude.{◌≡◌, ◌+◌, ◌<◌, ◌≤◌, ◌^◌, [], length, IfErr, OnErr, OnOk};
ghost use Rattle.qkernel_state.specs.Thread.{blocked_count};
ghost use Rattle.qkernel_state.specs.Threads.{IsSeatIn};
ghost use Rattle.qkernel_state.specs.Contents.{members_of};
ghost use Rattle.qkernel.specs.LentCall.{call_lent};

use super::call_context::CallContext;
use super::{CALL_LIMIT, Kernel};
use crate::lent_call::LentCall;
use qbase::bytes::Bytes;
use qbase::errno::Errno;
use qkernel_state::completions::Completions;
use qkernel_state::thread_ref::ThreadRef;

impl Kernel {
    ghost use Rattle.qkernel.specs.Kernel.{IsSound};
    ghost use Rattle.qkernel.specs.Private.Steps.{Steps};
    ghost use Rattle.qkernel.specs.Matching.{AnswersAtTraces, LeavesIfRefused};
    ghost use Rattle.qkernel.specs.Private.Caller.{MayCall, MakesOrRefuses};

    /// Makes a call by its own method, after `refusal` found no error and the call was counted. On an `Err`
    /// the call fails with this error, and its completion isn't in the list yet.
    fn make_lent(
        &mut self,
        caller: &CallContext,
        call: &LentCall,
        completions: &mut Completions,
    ) -> Result<(), Errno>
        requires { MayCall self.old caller.now completions.old.items }
        ensures { MakesOrRefuses self.old caller.now
            (call_lent call.now) result completions.new.items self.new }
    {
        match call {
            LentCall::Reply {
                rcvid,
                status,
                bytes,
            } => self.reply(caller, *rcvid, *status, bytes, completions),
            LentCall::Write {
                rcvid,
                offset,
                bytes,
            } => self.write(caller, *rcvid, *offset, bytes, completions),
        }
    }

    /// Counts a call of the thread at this index and makes it. The call fails if the kernel is shut down or
    /// the thread is blocked.
    fn perform_lent(&mut self, seat: &ThreadRef, call: &LentCall, completions: &mut Completions)
        requires limit { self.old.made < 2 ^ 40 }
        requires seat { IsSeatIn self.old.threads seat.now }
        requires none { completions.old.items ≡ [] }
        ensures sound { IsSound self.old }
        ensures steps { Steps self.old seat.now.thread (call_lent call.now) completions.new.items self.new }
    {
        let refusal = self.refusal(seat);
        let caller = self.caller_at(seat);
        self.made += 1;
        if let Some(errno) = refusal {
            return caller.refuse(completions, errno, Bytes::new(self.alloc));
        }
        if let Err(errno) = self.make_lent(&caller, call, completions) {
            caller.refuse(completions, errno, Bytes::new(self.alloc));
        }
    }

    /// Makes one call as `call_at` does, but the call borrows its bytes. They are copied once, into the
    /// sender's reply buffer.
    pub fn call_lent_at(
        &mut self,
        seat: &ThreadRef,
        call: &LentCall,
        completions: &mut Completions,
    ) -> Result<(), Errno>
        requires seat { IsSeatIn self.old.threads seat.now }
        requires none { completions.old.items ≡ [] }
        ensures event { OnOk result
            (AnswersAtTraces self.old seat.now.thread (call_lent call.now) completions.new.items self.new) }
        ensures refused { OnOk result
            (LeavesIfRefused self.old seat.now.thread (call_lent call.now) completions.new.items self.new) }
        ensures roster { members_of self.new.threads ≡ members_of self.old.threads }
        ensures ok { OnOk result ((self.old.made < 2 ^ 40) × (self.new.made ≡ self.old.made + 1)) }

        // An event completes at most its own call and calls that were open.
        ensures room { OnOk result
            (length completions.new.items + blocked_count self.new.threads
            ≤ blocked_count self.old.threads + 1) }

        // On an error nothing changes.
        ensures unchanged { OnErr result ((self.new ≡ self.old) × (completions.new.items ≡ [])) }
        ensures error { IfErr result (λ e. (2 ^ 40 ≤ self.old.made) × (e ≡ Errno.Exhausted)) }
    {
        if self.made >= CALL_LIMIT {
            return Err(Errno::Exhausted);
        }
        self.perform_lent(seat, call, completions);
        Ok(())
    }
}
