//! The call `Info`.

use super::Kernel;
use super::call_context::CallContext;
use qbase::errno::Errno;
use qbase::ids::ReceiveId;
use qkernel_state::completions::{Completions, put};
use qmodel::call::{Call, Info, Mark};

impl Kernel {
    ghost use Rattle.qkernel.specs.Matching.{InfoAtTraces};
    ghost use Rattle.qkernel.specs.Private.Caller.{MayCall, MakesOrRefuses};

    /// Returns the result that an `Info` would have for a held message, or `None` if no message is held under
    /// this receive id. It isn't a call: it isn't counted and has no caller, so it doesn't check which
    /// process owns the message's channel. It serves to give a receiver the sender's data along with the
    /// message.
    pub fn message_info(&self, rcvid: ReceiveId) -> Option<Info>
        ensures { InfoAtTraces self.now rcvid result }
    {
        let sender = self.objects.threads.sender(rcvid.0)?;
        self.objects.threads.record(&sender).info()
    }

    /// Completes with the data of a held message and its sender. Changes nothing, never blocks, and takes no
    /// memory.
    pub(super) fn info(
        &mut self,
        caller: &CallContext,
        rcvid: ReceiveId,
        completions: &mut Completions,
    ) -> Result<(), Errno>
        requires { MayCall self.old caller.now completions.old.items }
        ensures { MakesOrRefuses self.old caller.now (Call.Info rcvid) result completions.new.items self.new }
    {
        let holder = self.objects.holder(caller.process, rcvid)?;
        let told = self.objects.threads.record(&holder).info();
        let info = told.ok_or(Errno::Srch)?;
        put(completions, caller.completion(Mark::Info(info)));
        Ok(())
    }
}
