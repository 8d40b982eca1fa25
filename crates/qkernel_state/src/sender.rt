//! Look-ups of a message's sender, and the hand-over of an item to a receive.

ghost use Rattle.std.specs.Prelude.{◌≡◌, Some, false, option_map, position, IfSome};
ghost use Rattle.qbase.specs.Copying.{laid_count, lay_over};
ghost use Rattle.qqueue.specs.Best.{is_pulse};
ghost use Rattle.qrules.specs.Records.{is_send, held_call};
ghost use Rattle.qrules.specs.Delivery.{delivery_of};
ghost use Rattle.qkernel_state.specs.Thread.{sender_in, message_from, ChangesSender, HandsOver};
ghost use Rattle.qkernel_state.specs.Threads.{IsSeatIn};

use crate::pulses::pulse_mark;
use crate::thread::Thread;
use crate::thread_ref::ThreadRef;
use crate::threads::Threads;
use qbase::bytes::Bytes;
use qbase::ids::ReceiveId;
use qbase::priority::Priority;
use qmodel::call::Mark;
use qqueue::item::Item;

/// Returns the index of the thread whose open call is the Send of this number. Searches all threads.
fn sender_index(threads: &[Thread], number: u64) -> Option<usize>
    ensures { result ≡ position (λ t. is_send number t.open_call) threads.now }
{
    threads.iter().position(|t| t.sends(number))
}

impl Threads {
    /// Returns the index of a message's sender, if the first guess is right.
    #[inline(always)]
    fn guess_sender(&self, number: u64) -> Option<ThreadRef>
        ensures seat { IfSome result (λ seat. IsSeatIn self.now seat) }
        ensures sender { IfSome result (λ seat. sender_in self.now number ≡ Some seat.thread) }
    {
        let index = self.index.sender(number);
        if self.index.rising && self.records.get(index)?.sends(number) {
            Some(self.seat_at(index))
        } else {
            None
        }
    }

    /// Returns the index of the thread whose open call is the Send of this number, or `None` if there is
    /// none.
    #[inline(always)]
    pub fn sender(&self, number: u64) -> Option<ThreadRef>
        ensures seat { IfSome result (λ seat. IsSeatIn self.now seat) }
        ensures sender { option_map (λ seat. seat.thread) result ≡ sender_in self.now number }
    {
        match self.guess_sender(number) {
            Some(seat) => Some(seat),
            None => Some(self.seat_at(sender_index(&self.records, number)?)),
        }
    }

    /// Copies the message of this number to the front of a buffer and records the receipt in its Send.
    /// Returns the number of bytes copied, which is 0 if there is no such message.
    fn hand_over(&mut self, number: u64, priority: Priority, buffer: &mut Bytes) -> usize
        ensures kept { ChangesSender number (held_call (record {
          priority = priority;
          copied = result;
          unblocked = false;
        })) self.old self.new }
        ensures buffer { buffer.new ≡ lay_over buffer.old 0 (message_from self.old number) }
        ensures count { result ≡ laid_count buffer.old 0 (message_from self.old number) }
    {
        match self.sender(number) {
            None => 0,
            Some(seat) => {
                let sender = &mut self.records[seat.index];
                sender.hand_over(priority, buffer)
            }
        }
    }

    /// Hands an item to a receive, and returns the result of the receive's completion. A message is copied to
    /// the front of the buffer, and its Send records the receipt. A pulse changes neither.
    pub fn hand_item(&mut self, item: Item, buffer: &mut Bytes) -> Mark
        ensures kept { HandsOver (is_pulse item.what) item.number (record {
          priority = item.priority;
          copied = laid_count buffer.old 0 (message_from self.old item.number);
          unblocked = false;
        }) self.old self.new }
        ensures mark { result ≡ (delivery_of item (message_from self.old item.number) buffer.old).0 }
        ensures buffer { buffer.new ≡ (delivery_of item (message_from self.old item.number) buffer.old).1 }
    {
        if item.what.is_pulse() {
            return pulse_mark(&item);
        }
        let copied = self.hand_over(item.number, item.priority, buffer);
        Mark::Message {
            rcvid: ReceiveId(item.number),
            copied,
        }
    }
}
