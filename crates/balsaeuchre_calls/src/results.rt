//! The values that calls return.

ghost use Rattle.std.specs.Prelude.{◌≡◌, take};

use qbase::bytes::Bytes;
use qbase::ids::ReceiveId;
use qbase::priority::Priority;
use qbase::state::ThreadState;
use qqueue::item::What;
use std::ops::DerefSlice;

/// A server's reply to a message (`MsgSend`).
#[derive(Debug, Drop)]
pub struct Reply {
    /// The status of the server's reply.
    pub status: i64,
    /// The number of bytes that the server copied to the start of the buffer.
    pub copied: usize,
    /// The reply buffer, with the length that the sender asked for. After the reply it has the bytes that
    /// `msg_write` wrote, and zeros elsewhere.
    pub buffer: Bytes,
}

impl Reply {
    /// Returns the bytes of the reply, as many as the buffer had room for.
    pub fn bytes(&self) -> &[u8]
        ensures { result.now ≡ take self.now.copied self.now.buffer }
    {
        front(&self.buffer, self.copied)
    }
}

/// The message or pulse that was received (`MsgReceive`).
#[derive(Debug, Drop)]
pub enum Received {
    /// A message. Its sender is blocked until the reply.
    Message(Request),
    /// A pulse. No thread waits for a reply.
    Pulse(Pulse),
}

/// A message that was received.
#[derive(Debug, Drop)]
pub struct Request {
    /// The receive id, by which the server replies to the message.
    pub rcvid: ReceiveId,
    /// The number of its bytes that were copied to the start of the buffer.
    pub copied: usize,
    /// The buffer that it was received into, with the length that the receiver asked for. After the message
    /// it has zeros.
    pub buffer: Bytes,
}

impl Request {
    /// Returns the bytes of the message, as many as the buffer had room for.
    pub fn bytes(&self) -> &[u8]
        ensures { result.now ≡ take self.now.copied self.now.buffer }
    {
        front(&self.buffer, self.copied)
    }
}

impl DerefSlice for Request {
    type Elem = u8;

    ghost deref_gives = { λ request bytes. bytes ≡ take request.copied request.buffer };

    fn deref(&self) -> &[u8] {
        self.bytes()
    }
}

/// Returns the first `count` bytes of a buffer, or all if it has fewer.
fn front(buffer: &Bytes, count: usize) -> &[u8]
    ensures { result.now ≡ take count buffer.now }
{
    let bytes = buffer.as_slice();
    &bytes[..count.min(bytes.len())]
}

/// A pulse that was received (`MsgReceivePulse`).
#[derive(Clone, Copy, Debug, PartialEq, Eq)]
pub struct Pulse {
    /// The priority that it was sent with.
    pub priority: Priority,
    /// A pulse that a thread sent, with its code and value, or a pulse of the kernel: a client is to be
    /// unblocked, or a process has detached.
    pub what: What,
}

/// The state and priority of a thread.
#[derive(Clone, Copy, Debug, PartialEq, Eq)]
pub struct ThreadStatus {
    /// Whether the thread is blocked, in which state and on which channel.
    pub state: ThreadState,
    /// The thread's priority.
    pub priority: Priority,
}
