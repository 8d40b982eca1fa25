//! The call `ConnectDetach`.

ghost use Rattle.std.specs.Prelude.{◌≡◌, ◌+◌, None, Some, if◌then◌else◌};
ghost use Rattle.qrules.specs.Records.{disconnect_item};

use super::Kernel;
use super::call_context::CallContext;
use qbase::errno::Errno;
use qbase::ids::ConnectionId;
use qbase::priority::Priority;
use qkernel_state::cancelling::CancelSet;
use qkernel_state::completions::{Completions, put_if};
use qmodel::call::{Call, Mark};
use qqueue::item::{Item, What};

/// Returns the pulse by which a server learns that the caller's process has detached its last connection.
/// Returns `None` if the connection isn't the last.
fn pulse_for(caller: &CallContext, last: bool, priority: Priority) -> Option<Item>
    ensures { result
        ≡ (if last then Some (disconnect_item (caller.now.made + 1) priority caller.now.process) else None) }
{
    if last {
        Some(caller.item(priority, What::Disconnect(caller.process)))
    } else {
        None
    }
}

impl Kernel {
    ghost use Rattle.qkernel.specs.Private.Caller.{MayCall, MakesOrRefuses};

    /// Detaches a connection of the caller's process, and cancels each Send over it with `Badf`. If it was
    /// the process's last connection to a channel with the disconnect flag, the channel's server gets a pulse
    /// with the caller's priority. Never blocks, and takes memory only if that pulse is queued.
    pub(super) fn connect_detach(
        &mut self,
        caller: &CallContext,
        coid: ConnectionId,
        completions: &mut Completions,
    ) -> Result<(), Errno>
        requires { MayCall self.old caller.now completions.old.items }
        ensures { MakesOrRefuses self.old caller.now
            (Call.ConnectDetach coid) result completions.new.items self.new }
    {
        let Some(chid) = self.objects.own_connection(caller.process, coid) else {
            return Err(Errno::Inval);
        };
        let last = self.objects.tells_detached(caller.process, chid);
        let priority = self.objects.threads.priority(&caller.seat);
        let due = pulse_for(caller, last, priority);
        let met = self.objects.send_due(chid, due)?;
        let own = caller.completion(Mark::Ok);
        self.objects
            .cancel(CancelSet::Over(coid), Errno::Badf, own, completions);
        put_if(completions, met);
        let _ = self.objects.connections.remove(coid);
        Ok(())
    }
}
