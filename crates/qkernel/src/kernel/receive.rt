//! The calls `Receive` and `ReceivePulse`.

ghost use Rattle.std.specs.Prelude.{◌≡◌, []};
ghost use Rattle.qrules.specs.Records.{receive_of};

use super::Kernel;
use super::call_context::CallContext;
use qbase::bytes::Bytes;
use qbase::errno::Errno;
use qbase::ids::ChannelId;
use qkernel_state::completions::{Completions, put};
use qmodel::open_call::{OpenCall, OpenReceive};
use qqueue::item::Kind;

impl Kernel {
    ghost use Rattle.qkernel.specs.Private.Caller.{MayCall, Makes};

    /// Takes an item from the channel's queue. Of the items that a receive of this kind may take, it takes
    /// the item with the greatest priority, and among equals the item that was sent first. If there is none,
    /// the caller blocks until such an item is sent. Takes no memory. A `ReceivePulse` takes only pulses, and
    /// has no buffer.
    pub(super) fn receive(
        &mut self,
        caller: &CallContext,
        chid: ChannelId,
        kind: Kind,
        buffer: Bytes,
        completions: &mut Completions,
    )
        requires may { MayCall self.old caller.now completions.old.items }
        requires buffer { kind ≡ Kind.PulseOnly → buffer ≡ [] }
        ensures { Makes self.old caller.now (receive_of kind chid buffer) completions.new.items self.new }
    {
        let objects = &mut self.objects;
        let Some(channel) = objects.channels.get_mut(chid) else {
            return caller.refuse(completions, Errno::Srch, buffer);
        };
        if caller.process != channel.owner {
            return caller.refuse(completions, Errno::Srch, buffer);
        }
        let Some(item) = channel.queue.take(kind) else {
            let call = OpenCall::Receive(OpenReceive {
                number: caller.number(),
                thread: caller.seat.thread(),
                channel: chid,
                kind,
                buffer,
            });
            return objects.threads.block(&caller.seat, call, 0);
        };
        let mut buffer = buffer;
        let priority = channel.carried(item.priority);
        let mark = objects.threads.hand_item(item, &mut buffer);
        objects.threads.set_priority(&caller.seat, priority);
        put(completions, caller.completion_with(mark, buffer));
    }
}
