//! The call `ChannelDestroy`.

use super::Kernel;
use super::call_context::CallContext;
use qbase::errno::Errno;
use qbase::ids::ChannelId;
use qkernel_state::cancelling::CancelSet;
use qkernel_state::completions::Completions;
use qmodel::call::{Call, Mark};

impl Kernel {
    ghost use Rattle.qkernel.specs.Private.Caller.{MayCall, MakesOrRefuses};

    /// Destroys a channel of the caller's process, and cancels, with `Srch`, each call that is blocked on it.
    /// Under Balsaeuchre's own rule, its queued messages and pulses are dropped, and the connections to it
    /// stay. Never blocks, and takes no memory.
    pub(super) fn channel_destroy(
        &mut self,
        caller: &CallContext,
        chid: ChannelId,
        completions: &mut Completions,
    ) -> Result<(), Errno>
        requires { MayCall self.old caller.now completions.old.items }
        ensures { MakesOrRefuses self.old caller.now
            (Call.ChannelDestroy chid) result completions.new.items self.new }
    {
        if !self.objects.owns(caller.process, chid) {
            return Err(Errno::Inval);
        }
        let own = caller.completion(Mark::Ok);
        self.objects
            .cancel(CancelSet::On(chid), Errno::Srch, own, completions);
        self.objects.close(chid);
        Ok(())
    }
}
