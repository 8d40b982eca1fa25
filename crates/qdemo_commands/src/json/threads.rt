//! Unproved: words and layout. Blocked threads, and the threads at the end of a run of a design, as JSON.

use crate::json::completions::add_state;
use crate::json::names::{DesignNames, RunNames};
use crate::json::{Added, Record};
use qexplore::violation::{is_left, state_at};
use qexplore_design::verdict::replay::Replay;
use qexplore_programs::design::thread_of;
use qmodel::open_call::Blocked;
use qscript_explain::waiting::Wait;
use serde_json::Value;
use std::alloc::{AllocError, Global};

/// Returns a blocked thread, with the thread that it waits for.
pub fn blocked_of<N: RunNames>(
    alloc: Global,
    blocked: &Blocked,
    wait: Option<&Wait>,
    names: &N,
) -> Result<Value, AllocError> {
    let mut record = Record::new(alloc);
    record.set_call("call", blocked.number, names)?;
    record.set_thread("thread", blocked.thread, names)?;
    add_state(&mut record, &blocked.state, names)?;
    record.set("wait", wait_of(alloc, wait, names)?)?;
    Ok(record.into_value())
}

/// Returns what a blocked thread waits for: the reply of a thread, or an item.
fn wait_of<N: RunNames>(
    alloc: Global,
    wait: Option<&Wait>,
    names: &N,
) -> Result<Value, AllocError> {
    let mut record = Record::new(alloc);
    let Some(wait) = wait else {
        record.set_text("for", "item")?;
        return Ok(record.into_value());
    };
    record.set_text("for", "reply")?;
    record.set_thread("thread", wait.on, names)?;
    record.set("is_received", wait.is_held)?;
    record.set("has_others", !wait.is_held && wait.has_others)?;
    Ok(record.into_value())
}

/// Returns the place of the thread at an index: `fault` if its program doesn't allow what it did; `done`,
/// `receive` or `timeout` if it rests there; `call` if it is at another call.
pub fn place_of(replay: &Replay<'_>, seat: usize) -> &'static str {
    let finding = replay.state.locals.finding();
    if finding.is_some_and(|(at, _)| at == seat) {
        "fault"
    } else if is_left(replay.design, &replay.state, seat) {
        "call"
    } else if replay.state.is_blocked(seat) {
        "receive"
    } else if replay.state.locals.call_at(replay.design, seat).is_some() {
        "timeout"
    } else {
        "done"
    }
}

/// Returns the threads at the end of a run of a design. `waits` are the threads that wait for a reply.
pub fn threads_of(
    replay: &Replay<'_>,
    waits: &[Wait],
    names: &DesignNames<'_>,
) -> Result<Value, AllocError> {
    let mut list = Vec::new(replay.alloc);
    for (seat, thread) in replay.design.threads.iter().enumerate() {
        let mut record = Record::new(replay.alloc);
        record.set_thread("thread", thread_of(seat), names)?;
        record.set_process("process", thread.process, names)?;
        record.set("priority", replay.state.priority(seat))?;
        add_place(&mut record, replay, seat)?;
        let state = state_at(&replay.state, seat);
        add_state(&mut record, &state, names)?;
        add_wait(&mut record, replay, seat, waits, names)?;
        list.push(record.into_value())?;
    }
    Ok(Value::Array(list))
}

/// Adds the place of the thread at an index, and its line unless the thread is done.
fn add_place(record: &mut Record, replay: &Replay<'_>, seat: usize) -> Added {
    let place = place_of(replay, seat);
    record.set_text("place", place)?;
    match replay.line(seat) {
        line if line > 0 && place != "done" => record.set("line", line),
        _ => Ok(()),
    }
}

/// Adds what the thread at an index waits for, if it is at a call that it can't make or complete.
fn add_wait(
    record: &mut Record,
    replay: &Replay<'_>,
    seat: usize,
    waits: &[Wait],
    names: &DesignNames<'_>,
) -> Added {
    if replay.state.is_blocked(seat) {
        let thread = thread_of(seat);
        let wait = waits.iter().find(|wait| wait.thread == thread);
        return record.set("wait", wait_of(replay.alloc, wait, names)?);
    }
    if replay.waits(seat) {
        return record.set("wait", wait_at_call(replay, seat, names)?);
    }
    Ok(())
}

/// Returns what a call that can't be made yet waits for: a name, or a thread that has to be blocked.
fn wait_at_call(
    replay: &Replay<'_>,
    seat: usize,
    names: &DesignNames<'_>,
) -> Result<Value, AllocError> {
    let mut record = Record::new(replay.alloc);
    if let Some((owner, name)) = replay.name_waited_for(seat) {
        record.set_text("for", "name")?;
        record.set("name", replay.full_name(owner, name)?)?;
        if let Some(line) = replay.line_that_binds(owner, name) {
            record.set("line", line)?;
        }
    } else if let Some(other) = replay.thread_awaited(seat) {
        record.set_text("for", "blocked")?;
        record.set_thread("thread", thread_of(other), names)?;
    }
    Ok(record.into_value())
}
