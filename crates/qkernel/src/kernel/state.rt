//! The call `State`.

use super::Kernel;
use super::call_context::CallContext;
use qbase::errno::Errno;
use qbase::ids::ThreadNo;
use qkernel_state::completions::{Completions, put};
use qmodel::call::{Call, Mark};

impl Kernel {
    ghost use Rattle.qkernel.specs.Private.Caller.{MayCall, MakesOrRefuses};

    /// Completes with the state and the priority of any thread of the roster. Changes nothing, never blocks,
    /// and takes no memory.
    pub(super) fn state(
        &mut self,
        caller: &CallContext,
        target: ThreadNo,
        completions: &mut Completions,
    ) -> Result<(), Errno>
        requires { MayCall self.old caller.now completions.old.items }
        ensures { MakesOrRefuses self.old caller.now
            (Call.State target) result completions.new.items self.new }
    {
        let seat = self.seat(target).ok_or(Errno::Srch)?;
        let mark = Mark::State {
            state: self.objects.state(&seat),
            priority: self.objects.threads.priority(&seat),
        };
        put(completions, caller.completion(mark));
        Ok(())
    }
}
