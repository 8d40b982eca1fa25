//! The call `ChannelCreate`.

use super::Kernel;
use super::call_context::CallContext;
use qbase::errno::Errno;
use qbase::flags::ChannelFlags;
use qbase::ids::ChannelId;
use qkernel_state::channel::Channel;
use qkernel_state::completions::{Completions, put};
use qmodel::call::{Call, Mark};
use qqueue::queue::Queue;

impl Kernel {
    ghost use Rattle.qkernel.specs.Private.Caller.{MayCall, MakesOrRefuses};

    /// Creates a channel of the caller's process. Only the channel's record takes memory.
    pub(super) fn channel_create(
        &mut self,
        caller: &CallContext,
        flags: ChannelFlags,
        completions: &mut Completions,
    ) -> Result<(), Errno>
        requires { MayCall self.old caller.now completions.old.items }
        ensures { MakesOrRefuses self.old caller.now
            (Call.ChannelCreate flags) result completions.new.items self.new }
    {
        if !flags.is_known() {
            return Err(Errno::Inval);
        }
        let chid = ChannelId(caller.number());
        let channel = Channel {
            owner: caller.process,
            flags,
            queue: Queue::new(self.alloc),
        };
        if let Err((errno, _)) = self.objects.channels.create(chid, channel) {
            return Err(errno);
        }
        put(completions, caller.completion(Mark::Channel(chid)));
        Ok(())
    }
}
