//! The call `Unblock`.

use super::Kernel;
use super::call_context::CallContext;
use qbase::errno::Errno;
use qbase::ids::ThreadNo;
use qkernel_state::cancelling::CancelSet;
use qkernel_state::completions::{Completions, put, put_if};
use qmodel::call::{Call, Mark};
use qqueue::item::What;

impl Kernel {
    ghost use Rattle.qkernel.specs.Private.Caller.{MayCall, MakesOrRefuses};

    /// Cancels, with `Intr`, the call that a thread of the caller's process is blocked in. But if the
    /// thread's message is held on a channel with the unblock flag, the call stays open, and the server gets
    /// one pulse for the message. If the thread isn't blocked, nothing changes. The call is Balsaeuchre's
    /// own: it has the effect of a signal or a timeout. Never blocks, and takes memory only if that pulse is
    /// queued.
    pub(super) fn unblock(
        &mut self,
        caller: &CallContext,
        target: ThreadNo,
        completions: &mut Completions,
    ) -> Result<(), Errno>
        requires { MayCall self.old caller.now completions.old.items }
        ensures { MakesOrRefuses self.old caller.now
            (Call.Unblock target) result completions.new.items self.new }
    {
        let fellow = self.objects.fellow(caller.process, target)?;
        let Some(held) = self.objects.guarded_message(&fellow) else {
            let own = caller.completion(Mark::Ok);
            self.objects
                .cancel(CancelSet::Of(target), Errno::Intr, own, completions);
            return Ok(());
        };
        if held.receipt.unblocked {
            put(completions, caller.completion(Mark::Ok));
            return Ok(());
        }
        let pulse = caller.item(held.receipt.priority, What::Unblock(held.rcvid));
        let met = self.objects.send_pulse(held.channel, pulse)?;
        self.objects.threads.mark_unblocked(&fellow);
        put(completions, caller.completion(Mark::Ok));
        put_if(completions, met);
        Ok(())
    }
}
