//! Unproved: words and layout. Finds the rule that refused a call, in the table of `docs/MODEL.md`, and says
//! it in words.

use crate::history::{CallEnd, CallHistory, PastCall};
use crate::why::operand_shown;
use qbase::errno::Errno;
use qbase::ids::{ChannelId, ConnectionId, ProcessNo};
use qbase::state::ThreadState;
use qkernel::kernel::Kernel;
use qkernel::open_call::Blocked;
use qmodel::kind::CallKind;
use qmodel::operands::OperandKind;
use qscript_names::context::Context;
use qscript_names::shown::ShownNames;
use std::alloc::AllocError;

/// A refused call, with the kernel and the history. The call is the last of the history, and left the kernel
/// as it was.
#[derive(Drop)]
pub struct RefusedCall<'a> {
    pub names: Context<'a>,
    pub kernel: &'a Kernel,
    /// The blocked threads of the kernel.
    pub blocked: Vec<Blocked>,
    pub history: &'a CallHistory,
    pub call: PastCall,
}

impl RefusedCall<'_> {
    /// Returns the rule that refuses the call with this error, and a guess at the operand that was meant.
    pub fn rule(&self, errno: Errno) -> Result<String, AllocError> {
        let kind = self.call.kind;
        match errno {
            Errno::Down => self.down(),
            Errno::Busy => self.busy(),
            Errno::NoMemory => self.plain("there was no memory for the call"),
            Errno::Again => self.plain(match kind {
                CallKind::ChannelCreate => "64 channels are open, which is the limit",
                CallKind::ConnectAttach => "there are 1,024 connections, which is the limit",
                _ => "1,024 pulses are queued on the channel, which is the limit",
            }),
            Errno::Badf => self.bad_connection(),
            Errno::Inval if kind == CallKind::Pulse => {
                self.plain("its code is below 0: expected a pulse code from 0 to 127")
            }
            Errno::Inval | Errno::Srch => self.badly_named(),
            _ => self.unknown(),
        }
    }

    /// Returns why the thing that the call names is wrong.
    fn badly_named(&self) -> Result<String, AllocError> {
        match self.call.kind.form().operands.first() {
            Some(OperandKind::Flags) => self.bad_flags(),
            Some(OperandKind::Channel) => self.bad_channel(),
            Some(OperandKind::Connection) => self.bad_connection(),
            Some(OperandKind::Thread) => self.bad_thread(),
            Some(OperandKind::ReceiveId) => self.bad_message(),
            _ => self.unknown(),
        }
    }

    /// Returns these words.
    fn plain(&self, words: &str) -> Result<String, AllocError> {
        String::from_str(self.names.alloc, words)
    }

    /// Returns the words for a call that no rule known here refuses.
    fn unknown(&self) -> Result<String, AllocError> {
        self.plain("no rule is known for it")
    }

    /// Returns which call shut the kernel down.
    fn down(&self) -> Result<String, AllocError> {
        let by = self.history.accepted(CallKind::Shutdown, 0).unwrap_or(0);
        let by = self.names.call(by);
        format!(in self.names.alloc; "{by} shut the kernel down")
    }

    /// Returns the call in which its thread is blocked.
    fn busy(&self) -> Result<String, AllocError> {
        let mut all = self.blocked.iter();
        let Some(blocked) = all.find(|blocked| blocked.thread == self.call.thread) else {
            return self.plain("its thread is blocked");
        };
        let thread = self.names.thread(blocked.thread);
        let call = self.names.call(blocked.number);
        let lack = match blocked.state {
            ThreadState::ReceiveBlocked(chid) => {
                let channel = self.names.id(chid.0);
                return format!(in self.names.alloc;
                    "thread {thread} is blocked in {call}, and waits to receive on channel {channel}"
                );
            }
            ThreadState::ReplyBlocked(_) => "has a reply",
            _ => "is received",
        };
        format!(in self.names.alloc;
            "thread {thread} is blocked in {call} until its message {lack}"
        )
    }

    /// Returns why its flags are wrong.
    fn bad_flags(&self) -> Result<String, AllocError> {
        let flags = self.call.operand;
        format!(in self.names.alloc;
            "{flags} isn't a sum of the flags 1 (FIXED_PRIORITY), 2 (UNBLOCK) and 4 (DISCONNECT)"
        )
    }

    /// Returns the call of this kind that ended the channel or connection with this number, and that channel
    /// or connection.
    fn ended(&self, kind: CallKind, number: u64) -> Option<(ShownNames<'_>, ShownNames<'_>)> {
        let by = self.history.accepted(kind, number)?;
        Some((self.names.call(by), self.names.id(number)))
    }

    /// Returns why the channel that the call names is wrong.
    fn bad_channel(&self) -> Result<String, AllocError> {
        let channel = self.call.operand;
        if let Some(open) = self.kernel.channels().get(ChannelId(channel)) {
            return self.of_others("channel", open.owner);
        }
        match self.ended(CallKind::ChannelDestroy, channel) {
            Some((by, channel)) => format!(in self.names.alloc; "{by} destroyed channel {channel}"),
            None => self.missing("channel", self.likely_channel()?),
        }
    }

    /// Returns why the connection that the call names is wrong, or the channel to which the connection leads.
    fn bad_connection(&self) -> Result<String, AllocError> {
        let number = self.call.operand;
        let Some(live) = self.kernel.connections().get(ConnectionId(number)) else {
            return match self.ended(CallKind::ConnectDetach, number) {
                Some((by, connection)) => {
                    format!(in self.names.alloc; "{by} detached connection {connection}")
                }
                None => self.missing("connection", self.likely_connection()?),
            };
        };
        if live.process != self.process() {
            return self.of_others("connection", live.process);
        }
        match self.ended(CallKind::ChannelDestroy, live.channel.0) {
            Some((by, channel)) => {
                format!(in self.names.alloc; "it leads to channel {channel}, which {by} destroyed")
            }
            None => self.unknown(),
        }
    }

    /// Returns why the thread that the call names is wrong.
    fn bad_thread(&self) -> Result<String, AllocError> {
        let thread = self.call.operand;
        match self.process_of(thread) {
            Some(process) => self.of_others("thread", process),
            None => format!(in self.names.alloc; "there is no line 'thread {thread} ..'"),
        }
    }

    /// Returns why the message that the call names is wrong.
    fn bad_message(&self) -> Result<String, AllocError> {
        let message = self.call.operand;
        if let Some(owner) = self.holder_of(message) {
            return self.of_others("the channel of message", owner);
        }
        let send = match self.history.call(message) {
            Some(send) if send.kind == CallKind::Send && send.end != CallEnd::Refused => send,
            _ => return self.missing("message", self.likely_message()?),
        };
        let (by, message) = (self.names.call(send.ended_by), self.names.id(message));
        match send.end {
            CallEnd::Open => format!(in self.names.alloc; "message {message} isn't received yet"),
            CallEnd::Cut => format!(in self.names.alloc;
                "{by} cancelled the send of message {message}"
            ),
            _ => format!(in self.names.alloc; "{by} replied to message {message}"),
        }
    }

    /// Returns the words for a call that names a thing of this process, which isn't the process of its
    /// thread.
    fn of_others(&self, thing: &str, owner: ProcessNo) -> Result<String, AllocError> {
        let named = operand_shown(self.names, self.call.kind, self.call.operand);
        let owner = self.names.process(owner);
        let thread = self.names.thread(self.call.thread);
        let process = self.names.process(self.process());
        format!(in self.names.alloc;
            "{thing} {named} belongs to process {owner}, and thread {thread} to process {process}"
        )
    }

    /// Returns the words for a number that never named such a thing. `other` is a guess at the number that
    /// was meant.
    fn missing(&self, thing: &str, other: String) -> Result<String, AllocError> {
        let named = self.names.id(self.call.operand);
        let found = self.call_words(self.call.operand)?;
        format!(in self.names.alloc; "{named} isn't a {thing}: {found}; {other}")
    }

    /// Returns what the call with this number did.
    fn call_words(&self, number: u64) -> Result<String, AllocError> {
        let alloc = self.names.alloc;
        if number == 0 {
            return self.plain("calls are numbered from 1");
        }
        let Some(past) = self.history.call(number) else {
            return format!(in alloc; "call {number} isn't made yet");
        };
        let call = self.names.call(number);
        let (did, item) = match past.end {
            _ if number == self.history.made() => ("is this call", None),
            CallEnd::Refused => ("was refused", None),
            CallEnd::Channel => ("made a channel", None),
            CallEnd::Connection => ("made a connection", None),
            CallEnd::Message(message) => ("received message", Some(message)),
            CallEnd::Pulse(item) => ("received pulse", Some(item)),
            _ if past.kind == CallKind::Send => ("sent message", Some(number)),
            _ if past.kind == CallKind::Pulse => ("sent a pulse", None),
            _ => return format!(in alloc; "{call} is the call '{}'", past.kind.word()),
        };
        let Some(item) = item else {
            return format!(in alloc; "{call} {did}");
        };
        let item = self.names.id(item);
        format!(in alloc; "{call} {did} {item}")
    }

    /// Returns the channel that may be meant: the channel to which this connection leads, or the last open
    /// channel.
    fn likely_channel(&self) -> Result<String, AllocError> {
        let channels = self.kernel.channels();
        if let Some(past) = self.history.call(self.call.operand)
            && past.end == CallEnd::Connection
            && channels.get(ChannelId(past.operand)).is_some()
        {
            let leads = self.names.id(past.operand);
            return format!(in self.names.alloc; "it leads to channel {leads}");
        }
        let count = channels.len();
        if count == 0 {
            return self.plain("no channel is open");
        }
        let channel = channels.id_at(count - 1).0;
        let (call, channel) = (self.names.call(channel), self.names.id(channel));
        format!(in self.names.alloc; "{call} made channel {channel}")
    }

    /// Returns the connection that may be meant. It is the first of the call's process to the channel with
    /// this number, or the last of that process.
    fn likely_connection(&self) -> Result<String, AllocError> {
        let process = self.process();
        let connections = self.kernel.connections();
        let mut likely = None;
        for place in 0..connections.len() {
            let connection = connections.at(place);
            if connection.process == process {
                likely = Some(connections.id_at(place).0);
                if connection.channel.0 == self.call.operand {
                    break;
                }
            }
        }
        let process = self.names.process(process);
        match likely {
            Some(number) => {
                let (call, connection) = (self.names.call(number), self.names.id(number));
                format!(in self.names.alloc; "{call} made connection {connection}")
            }
            None => format!(in self.names.alloc; "process {process} has no connection"),
        }
    }

    /// Returns the message that may be meant: of the messages that its process holds, the last received.
    fn likely_message(&self) -> Result<String, AllocError> {
        let process = self.process();
        let mut likely = None;
        let mut received_by = 0u64;
        for past in self.history.calls() {
            if let CallEnd::Message(message) = past.end
                && past.ended_by > received_by
                && self.holder_of(message) == Some(process)
            {
                likely = Some(message);
                received_by = past.ended_by;
            }
        }
        let process = self.names.process(process);
        match likely {
            Some(message) => {
                let message = self.names.id(message);
                format!(in self.names.alloc; "message {message} is held")
            }
            None => format!(in self.names.alloc; "process {process} holds no message"),
        }
    }

    /// Returns the process that holds a message. It owns the message's channel, and the message is received
    /// and has no reply.
    fn holder_of(&self, message: u64) -> Option<ProcessNo> {
        let mut all = self.blocked.iter();
        match all.find(|blocked| blocked.number == message)?.state {
            ThreadState::ReplyBlocked(chid) => Some(self.kernel.channels().get(chid)?.owner),
            _ => None,
        }
    }

    /// Returns the process of a thread, or `None` if the roster has no thread with this number.
    fn process_of(&self, thread: u64) -> Option<ProcessNo> {
        let mut threads = self.kernel.threads().iter();
        let found = threads.find(|found| u64::from(found.member.thread.0) == thread)?;
        Some(found.member.process)
    }

    /// Returns the process of the call's thread.
    fn process(&self) -> ProcessNo {
        let thread = u64::from(self.call.thread.0);
        self.process_of(thread).unwrap_or(ProcessNo(0))
    }
}
