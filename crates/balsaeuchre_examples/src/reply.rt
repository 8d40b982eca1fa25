//! The reply to a client.

use balsaeuchre::ThreadNo;
use balsaeuchre::calls::Reply;

/// A reply to a client, with the number of the client's send and its thread.
#[derive(Debug, Drop)]
pub struct ClientReply {
    pub call: u64,
    pub thread: ThreadNo,
    pub answer: Reply,
}
