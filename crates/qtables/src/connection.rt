//! The kernel's record of a connection.

use qbase::ids::{ChannelId, ProcessNo};

/// A connection: the process that attached it, and the channel that it leads to. All threads of the process
/// may use it.
#[derive(Clone, Copy, Debug, PartialEq, Eq)]
pub struct Connection {
    pub process: ProcessNo,
    pub channel: ChannelId,
}
