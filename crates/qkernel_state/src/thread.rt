//! The record of a thread.

ghost use Rattle.std.specs.Prelude.{◌≡◌, false, true, option_and_then, option_copied, option_map};
ghost use Rattle.qmodel.specs.OpenCalls.{receive_in, send_in};
ghost use Rattle.qbase.specs.Copying.{laid_count, lay_over};
ghost use Rattle.qrules.specs.Records.{held_call, message_in, is_send};
ghost use Rattle.qrules.specs.Delivery.{wait_on};
ghost use Rattle.qkernel_state.specs.Thread.{is_sending};

use qbase::bytes::Bytes;
use qbase::ids::ChannelId;
use qbase::priority::Priority;
use qmodel::open_call::{OpenCall, OpenReceive, OpenSend, Receipt};
use qqueue::item::Item;
use qtables::member::Member;

/// A thread of the roster, with the call that it is blocked in.
#[derive(Debug, Drop)]
pub struct Thread {
    /// Its number, its process and its initial priority.
    pub member: Member,
    /// Its current priority.
    pub priority: Priority,
    /// Its open call, if it is blocked.
    pub open_call: Option<OpenCall>,
    /// The key of its message in the channel's queue, if it is SEND-blocked. Otherwise it may be any number.
    pub key: usize,
}

impl Thread {
    /// Returns the Send that the thread is blocked in, if it is blocked in one.
    pub fn send(&self) -> Option<&OpenSend>
        ensures { option_copied result ≡ option_and_then send_in self.now.open_call }
    {
        self.open_call.as_ref()?.send()
    }

    /// Returns the receive that the thread is blocked in, if it is blocked in one.
    pub fn receive(&self) -> Option<&OpenReceive>
        ensures { option_copied result ≡ option_and_then receive_in self.now.open_call }
    {
        self.open_call.as_ref()?.receive()
    }

    /// Returns whether the thread's open call is the Send of this number.
    pub fn sends(&self, number: u64) -> bool
        ensures { result ≡ is_send number self.now.open_call }
    {
        match self.send() {
            None => false,
            Some(send) => send.number == number,
        }
    }

    /// Returns the number of the thread's open call, if the call is a receive on this channel that may take
    /// the item.
    pub fn receives(&self, channel: ChannelId, item: &Item) -> Option<u64>
        ensures { result ≡ wait_on channel item.now self.now.open_call }
    {
        let receive = self.receive()?;
        if receive.channel == channel && receive.kind.may_take(item) {
            Some(receive.number)
        } else {
            None
        }
    }

    /// Copies the message of the thread's open Send to the front of a buffer and records the receipt. Returns
    /// the number of bytes copied.
    pub fn hand_over(&mut self, priority: Priority, buffer: &mut Bytes) -> usize
        requires { is_sending self.old.open_call ≡ true }
        ensures member { self.new.member ≡ self.old.member }
        ensures priority { self.new.priority ≡ self.old.priority }
        ensures kept { self.new.open_call ≡ option_map (held_call (record {
          priority = priority;
          copied = result;
          unblocked = false;
        })) self.old.open_call }
        ensures buffer { buffer.new ≡ lay_over buffer.old 0 (message_in self.old.open_call) }
        ensures count { result ≡ laid_count buffer.old 0 (message_in self.old.open_call) }
    {
        match &mut self.open_call {
            Some(OpenCall::Send(send)) => {
                let copied = buffer.lay(0, send.message.as_slice());
                send.receipt = Some(Receipt {
                    priority,
                    copied,
                    unblocked: false,
                });
                copied
            }
            _ => unreachable!(),
        }
    }
}
