//! Held messages: received, and without a reply yet.

ghost use Rattle.std.specs.Prelude.{◌≡◌, None, Some, true, false, option_and_then, option_map, IfOk, IfErr};
ghost use Rattle.std.specs.Prelude.{OnErr};
ghost use Rattle.qbase.specs.Copying.{laid_count};
ghost use Rattle.qmodel.specs.OpenCalls.{send_in};
ghost use Rattle.qrules.specs.Records.{info_of_open, reply_buffer_in, unblocked_call, written_call};
ghost use Rattle.qkernel_state.specs.Held.{guarded_message_in, is_held_in};
ghost use Rattle.qkernel_state.specs.Thread.{is_sending, message_from, open_in, sender_in, ChangesOpen};
ghost use Rattle.qkernel_state.specs.Thread.{SetsOpen};
ghost use Rattle.qkernel_state.specs.Threads.{IsSeatIn};

use crate::objects::Objects;
use crate::thread::Thread;
use crate::thread_ref::ThreadRef;
use crate::threads::Threads;
use qbase::errno::Errno;
use qbase::ids::{ChannelId, ProcessNo, ReceiveId};
use qmodel::call::Info;
use qmodel::open_call::{OpenCall, OpenSend, Receipt};

/// A held message: its receive id, its channel and its receipt.
#[derive(Clone, Copy, Debug, PartialEq, Eq)]
pub struct HeldMessage {
    pub rcvid: ReceiveId,
    /// The channel on which it was received.
    pub channel: ChannelId,
    /// Its priority, the number of bytes copied, and whether an unblock pulse was sent for it.
    pub receipt: Receipt,
}

impl Objects {
    /// Returns the held message of the thread at this index, if its channel has the unblock flag. Returns
    /// `None` if the thread isn't REPLY-blocked, or if the channel doesn't have the flag.
    pub fn guarded_message(&self, seat: &ThreadRef) -> Option<HeldMessage>
        requires { IsSeatIn self.now.threads seat.now }
        ensures { result ≡ guarded_message_in self.now.channels (open_in self.now.threads seat.now.thread) }
    {
        let send = self.threads.record(seat).send()?;
        let receipt = send.receipt?;
        if !self.tells_unblock(send.channel) {
            return None;
        }
        Some(HeldMessage {
            rcvid: ReceiveId(send.number),
            channel: send.channel,
            receipt,
        })
    }

    /// Returns the thread index of the client whose message is held under this receive id, on a channel of
    /// this process. Fails with `Srch` if there is no such message.
    #[inline(always)]
    pub fn holder(&self, process: ProcessNo, rcvid: ReceiveId) -> Result<ThreadRef, Errno>
        ensures held { IfOk result
            (λ seat. is_held_in self.now.threads self.now.channels process rcvid ≡ true) }
        ensures seat { IfOk result (λ seat. IsSeatIn self.now.threads seat) }
        ensures sender { IfOk result (λ seat. sender_in self.now.threads rcvid ≡ Some seat.thread) }
        ensures sends { IfOk result (λ seat. is_sending (open_in self.now.threads seat.thread) ≡ true) }
        ensures none { IfErr result
            (λ e. is_held_in self.now.threads self.now.channels process rcvid ≡ false) }
        ensures error { IfErr result (λ e. e ≡ Errno.Srch) }
    {
        let seat = self.threads.sender(rcvid.0).ok_or(Errno::Srch)?;
        let send = self.threads.record(&seat).send().ok_or(Errno::Srch)?;
        if send.receipt.is_some() && self.owns(process, send.channel) {
            Ok(seat)
        } else {
            Err(Errno::Srch)
        }
    }

    /// Returns the message that is held under this receive id, on a channel of this process. Fails with
    /// `Srch` if there is none.
    pub fn held_message(&self, process: ProcessNo, rcvid: ReceiveId) -> Result<&[u8], Errno>
        ensures held { IfOk result
            (λ message. is_held_in self.now.threads self.now.channels process rcvid ≡ true) }
        ensures message { IfOk result (λ message. message.now ≡ message_from self.now.threads rcvid) }
        ensures none { IfErr result
            (λ e. is_held_in self.now.threads self.now.channels process rcvid ≡ false) }
        ensures error { IfErr result (λ e. e ≡ Errno.Srch) }
    {
        let holder = self.holder(process, rcvid)?;
        match self.threads.record(&holder).send() {
            None => unreachable!(),
            Some(send) => Ok(send.message.as_slice()),
        }
    }

    /// Takes the Send of the thread that `holder` finds and returns it. The thread then isn't blocked. If
    /// there is no such thread, fails with `Srch` and changes nothing.
    #[inline(always)]
    pub fn take_held(&mut self, process: ProcessNo, rcvid: ReceiveId) -> Result<OpenSend, Errno>
        ensures held { IfOk result
            (λ sent. is_held_in self.old.threads self.old.channels process rcvid ≡ true) }
        ensures sender { IfOk result (λ sent. sender_in self.old.threads rcvid ≡ Some sent.thread) }
        ensures had { IfOk result
            (λ sent. option_and_then send_in (open_in self.old.threads sent.thread) ≡ Some sent) }
        ensures after { IfOk result (λ sent. SetsOpen sent.thread None self.old.threads self.new.threads) }
        ensures channels { self.new.channels ≡ self.old.channels }
        ensures connections { self.new.connections ≡ self.old.connections }

        // On an error nothing changes.
        ensures none { IfErr result
            (λ e. is_held_in self.old.threads self.old.channels process rcvid ≡ false) }
        ensures unchanged { OnErr result (self.new ≡ self.old) }
        ensures error { IfErr result (λ e. e ≡ Errno.Srch) }
    {
        let holder = self.holder(process, rcvid)?;
        self.threads.take_sent(&holder).ok_or(Errno::Srch)
    }
}

impl Threads {
    /// Records in the receipt of a held message that an unblock pulse was sent for it. Does nothing if the
    /// thread at this index has no held message.
    pub fn mark_unblocked(&mut self, seat: &ThreadRef)
        requires { IsSeatIn self.old seat.now }
        ensures { ChangesOpen seat.now.thread unblocked_call self.old self.new }
    {
        let there = &mut self.records[seat.index];
        there.mark_unblocked();
    }

    /// Copies bytes into the reply buffer of the open Send of the thread at this index, beginning at an
    /// offset. Returns the number of bytes copied.
    pub fn write_sent(&mut self, seat: &ThreadRef, offset: usize, bytes: &[u8]) -> usize
        requires seat { IsSeatIn self.old seat.now }
        requires sends { is_sending (open_in self.old seat.now.thread) ≡ true }
        ensures after { ChangesOpen seat.now.thread (written_call offset bytes.now) self.old self.new }
        ensures count { result ≡ laid_count (reply_buffer_in (open_in self.old seat.now.thread)) offset
            bytes.now }
    {
        let sender = &mut self.records[seat.index];
        sender.write(offset, bytes)
    }
}

impl Thread {
    /// Records that an unblock pulse was sent for the thread's message, if the message is held.
    fn mark_unblocked(&mut self)
        ensures member { self.new.member ≡ self.old.member }
        ensures priority { self.new.priority ≡ self.old.priority }
        ensures after { self.new.open_call ≡ option_map unblocked_call self.old.open_call }
    {
        if let Some(OpenCall::Send(send)) = &mut self.open_call {
            if let Some(receipt) = &mut send.receipt {
                receipt.unblocked = true;
            }
        }
    }

    /// Copies bytes into the reply buffer of the thread's open Send, beginning at an offset. Returns the
    /// number of bytes copied.
    fn write(&mut self, offset: usize, bytes: &[u8]) -> usize
        requires { is_sending self.old.open_call ≡ true }
        ensures member { self.new.member ≡ self.old.member }
        ensures priority { self.new.priority ≡ self.old.priority }
        ensures after { self.new.open_call ≡ option_map (written_call offset bytes.now) self.old.open_call }
        ensures count { result ≡ laid_count (reply_buffer_in self.old.open_call) offset bytes.now }
    {
        match &mut self.open_call {
            Some(OpenCall::Send(send)) => send.reply_buffer.lay(offset, bytes),
            _ => unreachable!(),
        }
    }

    /// Returns the result that an `Info` has for the thread's message, if the message is held.
    pub fn info(&self) -> Option<Info>
        ensures { result ≡ info_of_open self.now.member self.now.open_call }
    {
        let send = self.send()?;
        let receipt = send.receipt?;
        Some(Info {
            process: self.member.process,
            thread: self.member.thread,
            connection: send.connection,
            msglen: receipt.copied,
            srcmsglen: send.message.len(),
            dstmsglen: send.reply_buffer.len(),
            priority: receipt.priority,
        })
    }
}
