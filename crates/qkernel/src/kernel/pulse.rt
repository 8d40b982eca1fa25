//! The call `Pulse`.

use super::Kernel;
use super::call_context::CallContext;
use qbase::errno::Errno;
use qbase::ids::ConnectionId;
use qbase::priority::Priority;
use qkernel_state::completions::{Completions, put, put_if};
use qmodel::call::{Call, Mark};
use qqueue::item::What;

impl Kernel {
    ghost use Rattle.qkernel.specs.Private.Caller.{MayCall, MakesOrRefuses};

    /// Sends a pulse to the newest receiver that may take it, or into the channel's queue. Only the room of
    /// the queue takes memory. Never blocks. Under Balsaeuchre's own rule, a code below 0 fails with `Inval`.
    pub(super) fn pulse(
        &mut self,
        caller: &CallContext,
        coid: ConnectionId,
        priority: Priority,
        code: i8,
        value: i32,
        completions: &mut Completions,
    ) -> Result<(), Errno>
        requires { MayCall self.old caller.now completions.old.items }
        ensures { MakesOrRefuses self.old caller.now
            (Call.Pulse coid priority code value) result completions.new.items self.new }
    {
        let Some(chid) = self.objects.route(caller.process, coid) else {
            return Err(Errno::Badf);
        };
        if code < 0 {
            return Err(Errno::Inval);
        }
        let item = caller.item(priority, What::User { code, value });
        let met = self.objects.send_pulse(chid, item)?;
        put(completions, caller.completion(Mark::Ok));
        put_if(completions, met);
        Ok(())
    }
}
