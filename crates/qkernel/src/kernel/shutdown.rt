//! The call `Shutdown`.

use super::Kernel;
use super::call_context::CallContext;
use qbase::errno::Errno;
use qkernel_state::cancelling::CancelSet;
use qkernel_state::completions::Completions;
use qmodel::call::{Call, Mark};

impl Kernel {
    ghost use Rattle.qkernel.specs.Private.Caller.{MayCall, Makes};

    /// Cancels every open call with `Srch`, and shuts the kernel down: every later call fails with `Down`.
    /// The call is Balsaeuchre's own. Never blocks, and takes no memory.
    pub(super) fn shutdown(&mut self, caller: &CallContext, completions: &mut Completions)
        requires { MayCall self.old caller.now completions.old.items }
        ensures { Makes self.old caller.now Call.Shutdown completions.new.items self.new }
    {
        let own = caller.completion(Mark::Ok);
        self.objects
            .cancel(CancelSet::All, Errno::Srch, own, completions);
        self.down = true;
    }
}
