//! Sends a pulse to a blocked receiver, or into the queue of a channel.

ghost use Rattle.std.specs.Prelude.{◌≡◌, ◌<◌, true, is_some, IfOk, IfErr, IfSome};
ghost use Rattle.std.specs.List.{AllByRecursion};
ghost use Rattle.qqueue.specs.Best.{is_pulse};
ghost use Rattle.qkernel_state.specs.Contents.{channel_in, pending_in};
ghost use Rattle.qkernel_state.specs.Pulses.{IsSent, IsSentIfDue, IsTurnedAway, IsUnsent};

use crate::objects::Objects;
use qbase::errno::Errno;
use qbase::ids::ChannelId;
use qmodel::call::{Completion, Mark};
use qqueue::item::Item;

/// The most pulses that may be queued on a channel. The limit is Balsaeuchre's own.
pub const PULSE_LIMIT: usize = 1024;

/// Returns the result of a receive that takes this pulse.
pub(crate) fn pulse_mark(item: &Item) -> Mark
    ensures { result ≡ Mark.Pulse item.now.number item.now.priority item.now.what }
{
    Mark::Pulse {
        item: item.number,
        priority: item.priority,
        what: item.what,
    }
}

impl Objects {
    /// Sends a pulse. The newest receiver on the channel that may take the pulse gets it, and the completion
    /// of its receive is returned. If there is no such receiver, the pulse is queued. Only the room of the
    /// queue takes memory.
    ///
    /// Fails with `Again` if 1,024 pulses are queued, and with `NoMemory` if no receiver may take the pulse
    /// and the allocator refuses.
    pub fn send_pulse(&mut self, chid: ChannelId, item: Item) -> Result<Option<Completion>, Errno>
        requires pulse { is_pulse item.what ≡ true }
        requires there { is_some (channel_in self.old.channels chid) ≡ true }
        requires newest { AllByRecursion (λ x. x.number < item.number) (pending_in self.old.channels chid) }
        ensures ok { IfOk result
            (λ met. IsSent chid item self.old.threads self.old.channels self.new.threads self.new.channels
            met) }
        ensures err { IfErr result
            (λ e. IsTurnedAway chid item self.old.threads self.old.channels self.new.threads
            self.new.channels e) }
        ensures connections { self.new.connections ≡ self.old.connections }
    {
        let Some(channel) = self.channels.get_mut(chid) else {
            unreachable!();
        };
        if channel.queue.pulses() >= PULSE_LIMIT {
            return Err(Errno::Again);
        }
        let priority = channel.carried(item.priority);
        match self.threads.wake_newest(chid, &item, priority) {
            Some(receive) => Ok(Some(receive.completion(pulse_mark(&item)))),
            None => {
                let _ = channel.enqueue(item)?;
                Ok(None)
            }
        }
    }

    /// Sends a pulse, if there is one to send, as `send_pulse` does.
    pub fn send_due(
        &mut self,
        chid: ChannelId,
        due: Option<Item>,
    ) -> Result<Option<Completion>, Errno>
        requires pulse { IfSome due (λ item. is_pulse item.what ≡ true) }
        requires there { is_some due ≡ true → is_some (channel_in self.old.channels chid) ≡ true }
        requires newest { IfSome due
            (λ item. AllByRecursion (λ x. x.number < item.number) (pending_in self.old.channels chid)) }
        ensures ok { IfOk result
            (λ met. IsSentIfDue chid due self.old.threads self.old.channels self.new.threads
            self.new.channels met) }
        ensures err { IfErr result
            (λ e. IsUnsent chid due self.old.threads self.old.channels self.new.threads self.new.channels e) }
        ensures connections { self.new.connections ≡ self.old.connections }
    {
        match due {
            None => Ok(None),
            Some(item) => self.send_pulse(chid, item),
        }
    }
}
