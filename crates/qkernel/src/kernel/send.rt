//! The call `Send`.

ghost use Rattle.std.specs.Prelude.{◌≡◌, Some, false};
ghost use Rattle.qqueue.specs.Best.{is_pulse};
ghost use Rattle.qrules.specs.Past.{item_in};
ghost use Rattle.qrules.specs.Delivery.{receipt_completion};

use super::Kernel;
use super::call_context::CallContext;
use qbase::bytes::Bytes;
use qbase::errno::Errno;
use qbase::ids::{ConnectionId, ReceiveId};
use qkernel_state::completions::{Completions, put};
use qmodel::call::{Call, Completion, Mark};
use qmodel::open_call::{OpenCall, OpenReceive, OpenSend, Receipt};
use qqueue::item::{Item, What};

/// Hands the message to a receive and completes it. Returns the receive's completion, and the receipt for the
/// sender's open call.
fn deliver(receive: OpenReceive, item: &Item, message: &Bytes) -> (Completion, Receipt)
    requires { is_pulse item.now.what ≡ false }
    ensures ended { result.0 ≡ receipt_completion item.now message.now receive.thread receive.number
        receive.buffer }
    ensures copied { item_in result.0.mark ≡ Some (record {
      number = item.now.number;
      copied = result.1.copied;
    }) }
    ensures receipt { result.1 ≡ record {
      priority = item.now.priority;
      copied = result.1.copied;
      unblocked = false;
    } }
{
    let mut receive = receive;
    let copied = receive.buffer.lay(0, message.as_slice());
    let rcvid = ReceiveId(item.number);
    let receipt = Receipt {
        priority: item.priority,
        copied,
        unblocked: false,
    };
    (receive.completion(Mark::Message { rcvid, copied }), receipt)
}

impl Kernel {
    ghost use Rattle.qkernel.specs.Private.Caller.{MayCall, Makes};

    /// Sends a message to the newest receiver, or into the channel's queue. Only the room of the queue takes
    /// memory. The caller is blocked until the reply.
    pub(super) fn send(
        &mut self,
        caller: &CallContext,
        coid: ConnectionId,
        message: Bytes,
        reply_buffer: Bytes,
        completions: &mut Completions,
    )
        requires { MayCall self.old caller.now completions.old.items }
        ensures { Makes self.old caller.now (Call.Send coid message reply_buffer) completions.new.items
            self.new }
    {
        let objects = &mut self.objects;
        let priority = objects.threads.priority(&caller.seat);
        let item = caller.item(priority, What::Message);
        let Some(chid) = objects.own_connection(caller.process, coid) else {
            return caller.refuse(completions, Errno::Badf, reply_buffer);
        };
        let Some(channel) = objects.channels.get_mut(chid) else {
            return caller.refuse(completions, Errno::Badf, reply_buffer);
        };
        let carried = channel.carried(item.priority);
        let mut key = 0;
        let receipt = match objects.threads.wake_newest(chid, &item, carried) {
            Some(receive) => {
                let (ended, receipt) = deliver(receive, &item, &message);
                put(completions, ended);
                Some(receipt)
            }
            None => match channel.enqueue(item) {
                Ok(place) => {
                    key = place;
                    None
                }
                Err(errno) => return caller.refuse(completions, errno, reply_buffer),
            },
        };
        let call = OpenCall::Send(OpenSend {
            number: caller.number(),
            thread: caller.seat.thread(),
            connection: coid,
            channel: chid,
            message,
            reply_buffer,
            receipt,
        });
        objects.threads.block(&caller.seat, call, key);
    }
}
