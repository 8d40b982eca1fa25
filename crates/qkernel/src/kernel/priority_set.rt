//! The call `PrioritySet`.

use super::Kernel;
use super::call_context::CallContext;
use qbase::errno::Errno;
use qbase::ids::ThreadNo;
use qbase::priority::Priority;
use qkernel_state::completions::{Completions, put};
use qmodel::call::{Call, Mark};

impl Kernel {
    ghost use Rattle.qkernel.specs.Private.Caller.{MayCall, MakesOrRefuses};

    /// Sets the priority of a thread of the caller's process, and of the message with which the thread is
    /// SEND-blocked. Never blocks, and takes no memory.
    pub(super) fn priority_set(
        &mut self,
        caller: &CallContext,
        target: ThreadNo,
        priority: Priority,
        completions: &mut Completions,
    ) -> Result<(), Errno>
        requires { MayCall self.old caller.now completions.old.items }
        ensures { MakesOrRefuses self.old caller.now
            (Call.PrioritySet target priority) result completions.new.items self.new }
    {
        let fellow = self.objects.fellow(caller.process, target)?;
        self.objects.requeue_unread(&fellow, priority);
        self.objects.threads.set_priority(&fellow, Some(priority));
        put(completions, caller.completion(Mark::Ok));
        Ok(())
    }
}
