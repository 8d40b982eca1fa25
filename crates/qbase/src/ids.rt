//! The numbers by which a call names a thread, a process, a channel, a connection or a message. Contracts see
//! each as a plain number.

ghost use Rattle.std.specs.Prelude.{ℕ};

use std::marker::Model;

/// The number of a thread, 0 to 255; a roster has at most 64 threads.
/// `first_message.rt` of `crates/balsaeuchre_examples` uses two.
#[derive(Clone, Copy, Debug, PartialEq, Eq)]
pub struct ThreadNo(pub u8);

impl Model for ThreadNo {
    ghost Value = { ℕ };

    ghost view = { λ a. a.0 };

    ghost inverse = { λ n. record { 0 = n } };
}

/// The number of a process, 0 to 255. Threads of one process share its channels and connections, as the
/// client and its fellow do in `timeout.rt` of `crates/balsaeuchre_examples`.
#[derive(Clone, Copy, Debug, PartialEq, Eq)]
pub struct ProcessNo(pub u8);

impl Model for ProcessNo {
    ghost Value = { ℕ };

    ghost view = { λ a. a.0 };

    ghost inverse = { λ n. record { 0 = n } };
}

/// A channel's id: the number of the call that created it. The id is never used again for another channel, by
/// this kernel's own choice.
/// The result of a `ChannelCreate` has it.
#[derive(Clone, Copy, Debug, PartialEq, Eq)]
pub struct ChannelId(pub u64);

impl Model for ChannelId {
    ghost Value = { ℕ };

    ghost view = { λ a. a.0 };

    ghost inverse = { λ n. record { 0 = n } };
}

/// A connection's id: the number of the call that attached it. The id is never used again for another
/// connection, by this kernel's own choice.
/// The result of a `ConnectAttach` has it.
#[derive(Clone, Copy, Debug, PartialEq, Eq)]
pub struct ConnectionId(pub u64);

impl Model for ConnectionId {
    ghost Value = { ℕ };

    ghost view = { λ a. a.0 };

    ghost inverse = { λ n. record { 0 = n } };
}

/// The receive id of a message (QNX's rcvid): the number of the call that sent it, by this kernel's own
/// choice.
/// The result of a `Receive` that got a message has it.
#[derive(Clone, Copy, Debug, PartialEq, Eq)]
pub struct ReceiveId(pub u64);

impl Model for ReceiveId {
    ghost Value = { ℕ };

    ghost view = { λ a. a.0 };

    ghost inverse = { λ n. record { 0 = n } };
}
