//! Items: messages and pulses.

use qbase::ids::{ProcessNo, ReceiveId};
use qbase::priority::Priority;

/// The content of an item: a message, or one of the three kinds of pulse.
#[derive(Clone, Copy, Debug, PartialEq, Eq)]
pub enum What {
    /// A message; its bytes stay with the sender until it is received.
    Message,
    /// A pulse that a thread sent: a code from 0 to 127 and a value (`MsgSendPulse`).
    User { code: i8, value: i32 },
    /// A pulse of the kernel: the sender of this held message is to be unblocked.
    Unblock(ReceiveId),
    /// A pulse of the kernel: this process detached its last connection to the channel.
    Disconnect(ProcessNo),
}

impl What {
    ghost use Rattle.std.specs.Prelude.{◌≡◌};
    ghost use Rattle.qqueue.specs.Best.{is_pulse};

    /// Returns whether it is a pulse. A pulse never gets a reply.
    pub fn is_pulse(&self) -> bool
        ensures { result ≡ is_pulse self.now }
    {
        match self {
            What::Message => false,
            What::User { .. } | What::Unblock(_) | What::Disconnect(_) => true,
        }
    }
}

/// A message or a pulse that was sent and not yet received.
#[derive(Clone, Copy, Debug, PartialEq, Eq)]
pub struct Item {
    /// The number of the call that made it. An item that is made later has a greater number.
    pub number: u64,
    /// Its priority; the item of the greatest priority is received first.
    pub priority: Priority,
    /// Its content.
    pub what: What,
}

/// The items that a receive may take.
#[derive(Clone, Copy, Debug, PartialEq, Eq)]
pub enum Kind {
    /// Messages and pulses (`MsgReceive`).
    Any,
    /// Only pulses (`MsgReceivePulse`).
    PulseOnly,
}

impl Kind {
    ghost use Rattle.std.specs.Prelude.{◌≡◌};
    ghost use Rattle.qqueue.specs.Best.{may_take};

    /// Returns whether a receive of this kind may take the item.
    pub fn may_take(self, item: &Item) -> bool
        ensures { result ≡ may_take self item.now }
    {
        match self {
            Kind::Any => true,
            Kind::PulseOnly => item.what.is_pulse(),
        }
    }
}
