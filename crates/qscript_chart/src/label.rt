//! Describes calls and arrows in a few words.

use crate::arrow::{Arrow, arrow_of};
use crate::row::CancelledCall;
use qbase::errno::word;
use qbase::ids::ThreadNo;
use qbase::priority::Priority;
use qkernel::call::{Call, Completion, Mark};
use qmodel::kind::CallKind;
use qqueue::item::What;
use qscript_explain::why::operand_shown;
use qscript_names::context::Context;
use qscript_text::states::state_name;
use std::alloc::{AllocError, Global};

/// Words, or an error if there is no memory.
pub type LabelWords = Result<String, AllocError>;

/// Returns the words for a call, as they are drawn beside the caller's lifeline. They have the bytes that the
/// call sends if `bytes` is set.
pub fn call_words(names: Context<'_>, number: u64, call: &Call, bytes: bool) -> LabelWords {
    let mut words = plain_words(names, number, call)?;
    match call {
        Call::Send { message, .. } if bytes => push_bytes(&mut words, message.as_slice())?,
        Call::Reply { bytes: sent, .. } if bytes => push_bytes(&mut words, sent.as_slice())?,
        Call::Write { bytes: sent, .. } if bytes => push_bytes(&mut words, sent.as_slice())?,
        _ => {}
    }
    Ok(words)
}

/// Returns the words for a call without its bytes. A Send or a Pulse has its own number, or the name of its
/// message or pulse.
fn plain_words(names: Context<'_>, number: u64, call: &Call) -> LabelWords {
    let name = call.kind().word();
    match call {
        Call::ChannelCreate(_) => String::from_str(names.alloc, name),
        Call::Send { .. } => id_label(names, name, number),
        Call::Pulse { code, value, .. } => user_words(names, number, *code, *value),
        Call::Reply { rcvid, status, .. } => answer_label(names, name, rcvid.0, "status", *status),
        Call::Error { rcvid, code } => answer_label(names, name, rcvid.0, "code", i64::from(*code)),
        Call::PrioritySet { thread, priority } => {
            format!(in names.alloc; "{name} of {} to {}", names.thread(*thread), priority.get())
        }
        _ => named_label(names, call.kind(), call.operand()),
    }
}

fn named_label(names: Context<'_>, kind: CallKind, operand: Option<u64>) -> LabelWords {
    let name = kind.word();
    let Some(operand) = operand else {
        return String::from_str(names.alloc, name);
    };
    let shown = operand_shown(names, kind, operand);
    let link = match kind {
        CallKind::ConnectAttach => " to",
        CallKind::Receive | CallKind::ReceivePulse => " on",
        CallKind::State => " of",
        _ => "",
    };
    format!(in names.alloc; "{name}{link} {shown}")
}

fn id_label(names: Context<'_>, name: &str, number: u64) -> LabelWords {
    format!(in names.alloc; "{name} {}", names.id(number))
}

fn answer_label(names: Context<'_>, name: &str, number: u64, kind: &str, value: i64) -> LabelWords {
    format!(in names.alloc; "{name} {} {kind} {value}", names.id(number))
}

/// Returns `priority PRIORITY`.
pub fn priority_words(alloc: Global, priority: Priority) -> LabelWords {
    format!(in alloc; "priority {}", priority.get())
}

/// Adds the result that the latest call had in its own event. Adds nothing if an arrow shows the result, or
/// if there is none to show.
pub fn push_result(
    names: Context<'_>,
    words: &mut String,
    number: u64,
    completions: &[Completion],
) -> Result<(), AllocError> {
    let Some(own) = completions
        .iter()
        .find(|completion| completion.call == number)
    else {
        return Ok(());
    };
    let (kind, id) = match own.mark {
        Mark::Failed(errno) => return write!(words, ": fail {}", word(errno)),
        Mark::Channel(channel) => ("channel", channel.0),
        Mark::Connection(coid) => ("connection", coid.0),
        Mark::Count(copied) => return write!(words, ": {copied} bytes"),
        Mark::State { state, priority } => {
            return write!(words, ": {} {}", state_name(state), priority.get());
        }
        _ => return Ok(()),
    };
    write!(words, ": {kind} {}", names.id(id))
}

/// The greatest number of bytes of a message or a reply that are shown.
const MOST_SHOWN: usize = 8;

/// Adds a space and the first eight bytes in hexadecimal digits, and the number of bytes if there are more.
/// Adds ` -` if there are none.
fn push_bytes(words: &mut String, bytes: &[u8]) -> Result<(), AllocError> {
    if bytes.is_empty() {
        return words.push_str(" -");
    }
    words.push(' ')?;
    for byte in bytes.iter().take(MOST_SHOWN) {
        write!(words, "{byte:02x}")?;
    }
    if bytes.len() > MOST_SHOWN {
        write!(words, ".. ({} bytes)", bytes.len())?;
    }
    Ok(())
}

/// Returns the words of an event's arrows, in the order of its completions. They have the bytes if `bytes` is
/// set.
pub fn arrow_labels(
    names: Context<'_>,
    callers: &[ThreadNo],
    caller: ThreadNo,
    completions: &[Completion],
    bytes: bool,
) -> Result<Vec<String>, AllocError> {
    let mut labels = Vec::new(names.alloc);
    for completion in completions {
        if let Some(arrow) = arrow_of(callers, caller, completion) {
            let mut words = arrow_words(names, &arrow, completion.mark)?;
            match completion.mark {
                Mark::Message { copied, .. } | Mark::Replied { copied, .. } if bytes => {
                    let copied = completion.buffer.as_slice().get(..copied);
                    push_bytes(&mut words, copied.unwrap_or(&[]))?;
                }
                _ => {}
            }
            labels.push(words)?;
        }
    }
    Ok(labels)
}

/// Returns the words for the arrow of a completion with this result. A message has the number of its send, or
/// its name.
fn arrow_words(names: Context<'_>, arrow: &Arrow, mark: Mark) -> LabelWords {
    let number = arrow.number;
    match mark {
        Mark::Pulse { what, .. } => pulse_words(names, number, what),
        Mark::Replied { status, .. } => answer_label(names, "reply", number, "status", status),
        Mark::Errored(code) => answer_label(names, "error", number, "code", i64::from(code)),
        _ => id_label(names, "send", number),
    }
}

/// Returns the words for a pulse: the number of the call that made it, or its name, and its content.
fn pulse_words(names: Context<'_>, number: u64, what: What) -> LabelWords {
    let id = names.id(number);
    match what {
        What::Message => id_label(names, "pulse", number),
        What::User { code, value } => user_words(names, number, code, value),
        What::Unblock(rcvid) => {
            format!(in names.alloc; "pulse {id} unblock of send {}", names.id(rcvid.0))
        }
        What::Disconnect(process) => {
            let process = names.process(process);
            format!(in names.alloc; "pulse {id} disconnect of process {process}")
        }
    }
}

/// Returns the words for a pulse that a thread sent.
fn user_words(names: Context<'_>, number: u64, code: i8, value: i32) -> LabelWords {
    format!(in names.alloc; "pulse {} code {code} value {value}", names.id(number))
}

/// Returns the words for a cancelled call: its number or its name, and the error.
pub fn cut_words(names: Context<'_>, cut: &CancelledCall) -> LabelWords {
    format!(in names.alloc; "call {}: fail {}", names.id(cut.number), word(cut.errno))
}
