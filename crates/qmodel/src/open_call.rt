//! Open calls: calls that haven't completed, in which their threads are blocked.

ghost use Rattle.std.specs.Prelude.{◌≡◌, option_copied};
ghost use Rattle.qmodel.specs.OpenCalls.{buffer_in, number_of, receive_in, send_in};

use crate::call::{Completion, Mark};
use qbase::bytes::Bytes;
use qbase::ids::{ChannelId, ConnectionId, ThreadNo};
use qbase::priority::Priority;
use qbase::state::ThreadState;
use qqueue::item::Kind;

/// The kernel's record of a message's receipt.
#[derive(Clone, Copy, Debug, PartialEq, Eq)]
pub struct Receipt {
    /// The priority that the message was received with.
    pub priority: Priority,
    /// Whether an unblock pulse was made for the message.
    pub unblocked: bool,
    /// The number of bytes of the message that were copied at its receipt.
    pub copied: usize,
}

/// A Send that hasn't completed: its thread is SEND-blocked until the message is received, and then
/// REPLY-blocked.
#[derive(Debug, Drop)]
pub struct OpenSend {
    /// The number of the call, which is the message's receive id.
    pub number: u64,
    pub thread: ThreadNo,
    pub connection: ConnectionId,
    /// The channel that the connection leads to.
    pub channel: ChannelId,
    pub message: Bytes,
    /// The buffer that the reply is copied into, with the bytes that Writes copied over it so far.
    pub reply_buffer: Bytes,
    /// The record of the receipt; `None` until the message is received.
    pub receipt: Option<Receipt>,
}

/// A Receive or a ReceivePulse that hasn't completed: its thread is RECEIVE-blocked.
#[derive(Debug, Drop)]
pub struct OpenReceive {
    /// The number of the call.
    pub number: u64,
    pub thread: ThreadNo,
    pub channel: ChannelId,
    /// The kind of items that the call may take.
    pub kind: Kind,
    /// The buffer that a message is copied into. It is empty for a ReceivePulse.
    pub buffer: Bytes,
}

/// An open call.
#[derive(Debug, Drop)]
pub enum OpenCall {
    Send(OpenSend),
    Receive(OpenReceive),
}

/// A blocked thread, as a printed trace lists it.
#[derive(Clone, Copy, Debug, PartialEq, Eq)]
pub struct Blocked {
    /// The number of its open call.
    pub number: u64,
    pub thread: ThreadNo,
    /// Its state, with the channel. It is never `Ready`.
    pub state: ThreadState,
}

impl OpenSend {
    /// Returns the completion of the Send, with its reply buffer.
    pub fn completion(self, mark: Mark) -> Completion
        ensures { result ≡ record {
          call = self.number;
          thread = self.thread;
          mark = mark;
          buffer = self.reply_buffer;
        } }
    {
        Completion {
            call: self.number,
            thread: self.thread,
            mark,
            buffer: self.reply_buffer,
        }
    }
}

impl OpenReceive {
    /// Returns the completion of the receive, with its buffer.
    pub fn completion(self, mark: Mark) -> Completion
        ensures { result ≡ record {
          call = self.number;
          thread = self.thread;
          mark = mark;
          buffer = self.buffer;
        } }
    {
        Completion {
            call: self.number,
            thread: self.thread,
            mark,
            buffer: self.buffer,
        }
    }
}

impl OpenCall {
    /// Returns the number of the call.
    pub fn number(&self) -> u64
        ensures { result ≡ number_of self.now }
    {
        match self {
            OpenCall::Send(send) => send.number,
            OpenCall::Receive(receive) => receive.number,
        }
    }

    /// Returns the Send, if the call is one.
    pub fn send(&self) -> Option<&OpenSend>
        ensures { option_copied result ≡ send_in self.now }
    {
        match self {
            OpenCall::Send(send) => Some(send),
            OpenCall::Receive(_) => None,
        }
    }

    /// Returns the receive, if the call is one.
    pub fn receive(&self) -> Option<&OpenReceive>
        ensures { option_copied result ≡ receive_in self.now }
    {
        match self {
            OpenCall::Send(_) => None,
            OpenCall::Receive(receive) => Some(receive),
        }
    }

    /// Returns the Send, if the call is one.
    pub fn into_send(self) -> Option<OpenSend>
        ensures { result ≡ send_in self }
    {
        match self {
            OpenCall::Send(send) => Some(send),
            OpenCall::Receive(_) => None,
        }
    }

    /// Returns the receive, if the call is one.
    pub fn into_receive(self) -> Option<OpenReceive>
        ensures { result ≡ receive_in self }
    {
        match self {
            OpenCall::Send(_) => None,
            OpenCall::Receive(receive) => Some(receive),
        }
    }

    /// Returns the buffer that the call gets back.
    pub fn into_buffer(self) -> Bytes
        ensures { result ≡ buffer_in self }
    {
        match self {
            OpenCall::Send(send) => send.reply_buffer,
            OpenCall::Receive(receive) => receive.buffer,
        }
    }
}
