//! The call `ConnectAttach`.

use super::Kernel;
use super::call_context::CallContext;
use qbase::errno::Errno;
use qbase::ids::{ChannelId, ConnectionId};
use qkernel_state::completions::{Completions, put};
use qmodel::call::{Call, Mark};
use qtables::connection::Connection;

impl Kernel {
    ghost use Rattle.qkernel.specs.Private.Caller.{MayCall, MakesOrRefuses};

    /// Attaches the caller's process to an open channel. Only the connection's record takes memory.
    pub(super) fn connect_attach(
        &mut self,
        caller: &CallContext,
        chid: ChannelId,
        completions: &mut Completions,
    ) -> Result<(), Errno>
        requires { MayCall self.old caller.now completions.old.items }
        ensures { MakesOrRefuses self.old caller.now
            (Call.ConnectAttach chid) result completions.new.items self.new }
    {
        if !self.objects.is_open(chid) {
            return Err(Errno::Srch);
        }
        let coid = ConnectionId(caller.number());
        let connection = Connection {
            process: caller.process,
            channel: chid,
        };
        if let Err((errno, _)) = self.objects.connections.create(coid, connection) {
            return Err(errno);
        }
        put(completions, caller.completion(Mark::Connection(coid)));
        Ok(())
    }
}
