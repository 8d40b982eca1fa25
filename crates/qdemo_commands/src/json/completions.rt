//! Unproved: words and layout. The completions of calls as JSON.

use crate::json::names::RunNames;
use crate::json::{Added, Record};
use qbase::errno::word;
use qbase::state::ThreadState;
use qmodel::call::{Completion, Info, Mark};
use qmodel::kind::CallKind;
use qqueue::item::What;
use qscript_text::states::{state_channel, state_word};
use serde_json::Value;
use std::alloc::{AllocError, Global};

/// Returns the completion of a call of this kind.
pub fn completion_of<N: RunNames>(
    alloc: Global,
    completion: &Completion,
    kind: CallKind,
    names: &N,
) -> Result<Value, AllocError> {
    let mut record = Record::new(alloc);
    record.set_call("call", completion.call, names)?;
    record.set_thread("thread", completion.thread, names)?;
    record.set_text("kind", kind.word())?;
    record.set("result", result_of(alloc, &completion.mark, names)?)?;
    if matches!(kind, CallKind::Send | CallKind::Receive | CallKind::Read) {
        record.set_bytes("buffer", completion.buffer.as_slice())?;
    }
    Ok(record.into_value())
}

/// Returns the result of a call.
fn result_of<N: RunNames>(alloc: Global, mark: &Mark, names: &N) -> Result<Value, AllocError> {
    let mut record = Record::new(alloc);
    record.set_text("kind", kind_of(*mark))?;
    add_result(alloc, &mut record, *mark, names)?;
    Ok(record.into_value())
}

/// Returns the word of a result.
fn kind_of(mark: Mark) -> &'static str {
    match mark {
        Mark::Ok => "ok",
        Mark::Failed(_) => "fail",
        Mark::Channel(_) => "channel",
        Mark::Connection(_) => "connection",
        Mark::Replied { .. } => "reply",
        Mark::Message { .. } => "message",
        Mark::Errored(_) => "error",
        Mark::Count(_) => "count",
        Mark::Info(_) => "info",
        Mark::Pulse { .. } => "pulse",
        Mark::State { .. } => "state",
    }
}

/// Adds the data of a result.
fn add_result<N: RunNames>(alloc: Global, record: &mut Record, mark: Mark, names: &N) -> Added {
    match mark {
        Mark::Ok => Ok(()),
        Mark::Failed(errno) => record.set_text("error", word(errno)),
        Mark::Channel(chid) => record.set_made("channel", chid.0, names),
        Mark::Connection(coid) => record.set_made("connection", coid.0, names),
        Mark::Replied { status, copied } => {
            record.set("status", status)?;
            record.set("copied", copied)
        }
        Mark::Message { rcvid, copied } => {
            record.set_made("rcvid", rcvid.0, names)?;
            record.set("copied", copied)
        }
        Mark::Errored(code) => record.set("code", code),
        Mark::Count(copied) => record.set("copied", copied),
        Mark::Info(info) => add_info(record, info, names),
        Mark::Pulse {
            item,
            priority,
            what,
        } => {
            record.set_made("pulse", item, names)?;
            record.set("priority", priority.get())?;
            record.set("content", content_of(alloc, what, names)?)
        }
        Mark::State { state, priority } => {
            add_state(record, &state, names)?;
            record.set("priority", priority.get())
        }
    }
}

/// Adds the data of a held message.
fn add_info<N: RunNames>(record: &mut Record, info: Info, names: &N) -> Added {
    record.set_process("process", info.process, names)?;
    record.set_thread("thread", info.thread, names)?;
    record.set_made("connection", info.connection.0, names)?;
    record.set("priority", info.priority.get())?;
    record.set("msglen", info.msglen)?;
    record.set("srcmsglen", info.srcmsglen)?;
    record.set("dstmsglen", info.dstmsglen)
}

/// Returns the content of a pulse. It is never `What::Message`.
fn content_of<N: RunNames>(alloc: Global, what: What, names: &N) -> Result<Value, AllocError> {
    let mut record = Record::new(alloc);
    match what {
        What::Message => {}
        What::User { code, value } => {
            record.set_text("kind", "user")?;
            record.set("code", code)?;
            record.set("value", value)?;
        }
        What::Unblock(rcvid) => {
            record.set_text("kind", "unblock")?;
            record.set_made("rcvid", rcvid.0, names)?;
        }
        What::Disconnect(process) => {
            record.set_text("kind", "disconnect")?;
            record.set_process("process", process, names)?;
        }
    }
    Ok(record.into_value())
}

/// Adds a thread's state, and the channel on which it is blocked.
pub fn add_state<N: RunNames>(record: &mut Record, state: &ThreadState, names: &N) -> Added {
    record.set_text("state", state_word(*state))?;
    match state_channel(*state) {
        Some(channel) => record.set_made("channel", channel.0, names),
        None => Ok(()),
    }
}
