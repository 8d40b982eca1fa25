//! The completion of a call, and the results that are read from it.

ghost use Rattle.std.specs.Prelude.{◌≡◌};
ghost use Rattle.balsaeuchre_calls.specs.Results.{reply_in, bytes_in, channel_in, connection_in, count_in};
ghost use Rattle.balsaeuchre_calls.specs.Results.{done_in, info_in, pulse_in, received_in, state_in};

use crate::error::{CallError, error_in};
use crate::results::{Pulse, Received, Reply, Request, ThreadStatus};
use qbase::bytes::Bytes;
use qbase::ids::{ChannelId, ConnectionId};
use qmodel::call::{Info, Mark};

/// The completion of a call. Each method reads one kind of result from it. It returns the call's error if the
/// call failed, and `Unexpected` if the completion has another kind of result.
#[derive(Debug, Drop)]
pub struct Completed {
    /// Whether the call was blocked before.
    pub waited: bool,
    /// The result in the completion: the call's value, or its error.
    pub mark: Mark,
    /// The buffer that the call lent to the kernel, and got back.
    pub buffer: Bytes,
}

impl Completed {
    /// Returns `Ok(())` if the call succeeded, for a call that has no value.
    pub fn done(self) -> Result<(), CallError>
        ensures { result ≡ done_in self.waited self.mark self.buffer }
    {
        let Completed { waited, mark, .. } = self;
        match mark {
            Mark::Ok => Ok(()),
            _ => Err(error_in(waited, mark)),
        }
    }

    /// Returns the channel that was created.
    pub fn channel(self) -> Result<ChannelId, CallError>
        ensures { result ≡ channel_in self.waited self.mark self.buffer }
    {
        let Completed { waited, mark, .. } = self;
        match mark {
            Mark::Channel(ChannelId(number)) => Ok(ChannelId(number)),
            _ => Err(error_in(waited, mark)),
        }
    }

    /// Returns the connection that was attached.
    pub fn connection(self) -> Result<ConnectionId, CallError>
        ensures { result ≡ connection_in self.waited self.mark self.buffer }
    {
        let Completed { waited, mark, .. } = self;
        match mark {
            Mark::Connection(ConnectionId(number)) => Ok(ConnectionId(number)),
            _ => Err(error_in(waited, mark)),
        }
    }

    /// Returns the reply to a message.
    pub fn reply(self) -> Result<Reply, CallError>
        ensures { result ≡ reply_in self.waited self.mark self.buffer }
    {
        let Completed {
            waited,
            mark,
            buffer,
        } = self;
        match mark {
            Mark::Replied { status, copied } => Ok(Reply {
                status,
                copied,
                buffer,
            }),
            _ => Err(error_in(waited, mark)),
        }
    }

    /// Returns the message or the pulse that was received.
    pub fn received(self) -> Result<Received, CallError>
        ensures { result ≡ received_in self.waited self.mark self.buffer }
    {
        let Completed {
            waited,
            mark,
            buffer,
        } = self;
        match mark {
            Mark::Message { rcvid, copied } => Ok(Received::Message(Request {
                rcvid,
                copied,
                buffer,
            })),
            Mark::Pulse { priority, what, .. } => Ok(Received::Pulse(Pulse { priority, what })),
            _ => Err(error_in(waited, mark)),
        }
    }

    /// Returns the pulse that was received.
    pub fn pulse(self) -> Result<Pulse, CallError>
        ensures { result ≡ pulse_in self.waited self.mark self.buffer }
    {
        let Completed { waited, mark, .. } = self;
        match mark {
            Mark::Pulse { priority, what, .. } => Ok(Pulse { priority, what }),
            _ => Err(error_in(waited, mark)),
        }
    }

    /// Returns the bytes that were read: the part of the buffer that was copied to.
    pub fn bytes(self) -> Result<Bytes, CallError>
        ensures { result ≡ bytes_in self.waited self.mark self.buffer }
    {
        let Completed {
            waited,
            mark,
            buffer,
        } = self;
        match mark {
            Mark::Count(copied) => {
                let mut bytes = buffer.into_vec();
                bytes.truncate(copied);
                Ok(Bytes::from(bytes))
            }
            _ => Err(error_in(waited, mark)),
        }
    }

    /// Returns the number of bytes that were written.
    pub fn count(self) -> Result<usize, CallError>
        ensures { result ≡ count_in self.waited self.mark self.buffer }
    {
        let Completed { waited, mark, .. } = self;
        match mark {
            Mark::Count(copied) => Ok(copied),
            _ => Err(error_in(waited, mark)),
        }
    }

    /// Returns the sender, priority, connection and lengths of a held message.
    pub fn info(self) -> Result<Info, CallError>
        ensures { result ≡ info_in self.waited self.mark self.buffer }
    {
        let Completed { waited, mark, .. } = self;
        match mark {
            Mark::Info(info) => Ok(info),
            _ => Err(error_in(waited, mark)),
        }
    }

    /// Returns a thread's state and priority.
    pub fn state(self) -> Result<ThreadStatus, CallError>
        ensures { result ≡ state_in self.waited self.mark self.buffer }
    {
        let Completed { waited, mark, .. } = self;
        match mark {
            Mark::State { state, priority } => Ok(ThreadStatus { state, priority }),
            _ => Err(error_in(waited, mark)),
        }
    }
}
