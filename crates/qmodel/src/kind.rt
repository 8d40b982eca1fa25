//! The kinds of calls, and the table of their words and operands.

ghost use Rattle.std.specs.Prelude.{◌≡◌};
ghost use Rattle.qmodel.specs.Kinds.{kind_named, script_word, sorts_of};

use crate::operands::OperandKind;

/// A call without its operands. The variants have the names of the variants of `Call`.
#[derive(Clone, Copy, Debug, PartialEq, Eq)]
pub enum CallKind {
    ChannelCreate,
    ConnectAttach,
    Send,
    Receive,
    Reply,
    Error,
    Read,
    Write,
    Info,
    ReceivePulse,
    Pulse,
    PrioritySet,
    State,
    ChannelDestroy,
    Shutdown,
    Unblock,
    ConnectDetach,
}

/// All kinds, in the order in which the library for C numbers them from 1 on.
pub const KINDS: [CallKind; 17] = [
    CallKind::ChannelCreate,
    CallKind::ConnectAttach,
    CallKind::Send,
    CallKind::Receive,
    CallKind::Reply,
    CallKind::Error,
    CallKind::Read,
    CallKind::Write,
    CallKind::Info,
    CallKind::ReceivePulse,
    CallKind::Pulse,
    CallKind::PrioritySet,
    CallKind::State,
    CallKind::ChannelDestroy,
    CallKind::Shutdown,
    CallKind::Unblock,
    CallKind::ConnectDetach,
];

/// All kinds, in the order in which texts list them.
pub const LISTED: [CallKind; 17] = [
    CallKind::ChannelCreate,
    CallKind::ConnectAttach,
    CallKind::ConnectDetach,
    CallKind::Send,
    CallKind::Receive,
    CallKind::Reply,
    CallKind::Error,
    CallKind::Read,
    CallKind::Write,
    CallKind::Info,
    CallKind::ReceivePulse,
    CallKind::Pulse,
    CallKind::PrioritySet,
    CallKind::Unblock,
    CallKind::State,
    CallKind::ChannelDestroy,
    CallKind::Shutdown,
];

/// The thing that a call makes, if another call can name it or another thread can receive it.
#[derive(Clone, Copy, Debug, PartialEq, Eq)]
pub enum Product {
    Nothing,
    Channel,
    Connection,
    Message,
    Pulse,
}

/// A row of the table of calls.
#[derive(Clone, Copy)]
pub struct CallForm {
    /// The word for the call in a script.
    pub word: &'static str,
    /// QNX's names for the call, in lowercase without underscores.
    pub qnx_names: &'static [&'static str],
    /// The operands, in the order of a script.
    pub operands: &'static [OperandKind],
    pub product: Product,
}

/// A row of the table: the word, QNX's names, the operands, and the product of the call.
macro_rules! form {
    ($word:literal, [$($name:literal),*], [$($operand:ident),*], $product:ident) => {
        CallForm {
            word: $word,
            qnx_names: &[$($name),*],
            operands: &[$(OperandKind::$operand),*],
            product: Product::$product,
        }
    };
}

impl CallKind {
    /// Returns the row of this kind in the table of calls.
    pub fn form(self) -> CallForm
        ensures word { result.word.now ≡ script_word self }
        ensures operands { result.operands.now ≡ sorts_of self }
    {
        match self {
            CallKind::ChannelCreate => form!("create", ["channelcreate"], [Flags], Channel),
            CallKind::ConnectAttach => form!("attach", ["connectattach"], [Channel], Connection),
            CallKind::Send => form!(
                "send",
                ["msgsend", "msgsendv", "msgsendnc"],
                [Connection, Message, ReplyBuffer],
                Message
            ),
            CallKind::Receive => form!("receive", ["msgreceive"], [Channel, Buffer], Nothing),
            CallKind::Reply => form!("reply", ["msgreply"], [ReceiveId, Status, Data], Nothing),
            CallKind::Error => form!("error", ["msgerror"], [ReceiveId, ErrorCode], Nothing),
            CallKind::Read => form!("read", ["msgread"], [ReceiveId, Offset, Buffer], Nothing),
            CallKind::Write => form!("write", ["msgwrite"], [ReceiveId, Offset, Data], Nothing),
            CallKind::Info => form!("info", ["msginfo"], [ReceiveId], Nothing),
            CallKind::ReceivePulse => form!(
                "receivepulse",
                ["msgreceivepulse"],
                [Channel],
                Nothing
            ),
            CallKind::Pulse => form!(
                "pulse",
                ["msgsendpulse"],
                [Connection, Priority, PulseCode, Value],
                Pulse
            ),
            CallKind::PrioritySet => form!("setprio", ["schedset"], [Thread, Priority], Nothing),
            CallKind::State => form!("state", ["schedget"], [Thread], Nothing),
            CallKind::ChannelDestroy => form!("destroy", ["channeldestroy"], [Channel], Nothing),
            CallKind::Shutdown => form!("shutdown", [], [], Nothing),
            CallKind::Unblock => form!("unblock", ["timertimeout"], [Thread], Pulse),
            CallKind::ConnectDetach => form!("detach", ["connectdetach"], [Connection], Pulse),
        }
    }

    /// Returns the word for a call of this kind in a script.
    pub fn word(self) -> &'static str
        ensures { result.now ≡ script_word self }
    {
        self.form().word
    }

    /// Returns the kind with this word; `None` if no kind has it.
    pub fn of_word(word: &[u8]) -> Option<CallKind>
        ensures { result ≡ kind_named word.now }
    {
        for kind in &KINDS {
            if word == kind.word().as_bytes() {
                return Some(*kind);
            }
        }
        None
    }
}
