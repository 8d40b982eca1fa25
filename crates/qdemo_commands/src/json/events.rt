//! Unproved: words and layout. The events of runs as JSON.

use crate::json::calls::operands_of;
use crate::json::completions::completion_of;
use crate::json::names::RunNames;
use crate::json::threads::blocked_of;
use crate::json::{Added, Record, push_line};
use qbase::ids::ThreadNo;
use qkernel::trace::Trace;
use qmodel::call::{Call, Completion};
use qmodel::kind::CallKind;
use qscript_explain::report::ReportedRun;
use qscript_names::context::Context;
use serde_json::Value;
use std::alloc::{AllocError, Global};

/// Writes the events of a run. It keeps the kinds of the calls so far.
#[derive(Drop)]
pub struct EventWriter {
    alloc: Global,
    kinds: Vec<CallKind>,
}

impl EventWriter {
    /// Returns the writer of a run without calls so far.
    pub fn new(alloc: Global) -> EventWriter {
        let kinds = Vec::new(alloc);
        EventWriter { alloc, kinds }
    }

    /// Makes a call in a run, and returns its event. `context` has the names for reasons.
    pub fn make<N: RunNames>(
        &mut self,
        run: &mut ReportedRun,
        context: Context<'_>,
        (thread, call): (ThreadNo, Call),
        names: &N,
    ) -> Result<Value, AllocError> {
        let event = self.begin(thread, &call, names)?;
        run.make(context, thread, call)?;
        self.end(event, run.run().completions(), names)
    }

    /// Returns the event of the next call, without its completions.
    fn begin<N: RunNames>(
        &mut self,
        thread: ThreadNo,
        call: &Call,
        names: &N,
    ) -> Result<Record, AllocError> {
        let kind = call.kind();
        self.kinds.push(kind)?;
        let mut record = Record::new(self.alloc);
        record.set_call("event", self.kinds.len() as u64, names)?;
        record.set_thread("thread", thread, names)?;
        record.set_text("kind", kind.word())?;
        record.set("operands", operands_of(self.alloc, call, names)?)?;
        Ok(record)
    }

    /// Returns the event with its completions.
    fn end<N: RunNames>(
        &self,
        mut record: Record,
        completions: &[Completion],
        names: &N,
    ) -> Result<Value, AllocError> {
        let mut list = Vec::new(self.alloc);
        for completion in completions {
            if let Some(kind) = self.kind_of(completion.call) {
                list.push(completion_of(self.alloc, completion, kind, names)?)?;
            }
        }
        record.set("completions", list)?;
        Ok(record.into_value())
    }

    /// Returns the kind of the call with this number.
    fn kind_of(&self, number: u64) -> Option<CallKind> {
        self.kinds.get(number.checked_sub(1)? as usize).copied()
    }
}

/// Returns the list of the events of a run.
pub fn events_of<N: RunNames>(alloc: Global, run: &Trace, names: &N) -> Result<Value, AllocError> {
    let mut writer = EventWriter::new(alloc);
    let mut list = Vec::new(alloc);
    for k in 0..run.len() {
        let event = writer.begin(run.thread(k), run.call(k), names)?;
        list.push(writer.end(event, run.completions(k), names)?)?;
    }
    Ok(Value::Array(list))
}

/// Returns a line for each thread that is blocked at the end of a run.
pub fn push_blocked<N: RunNames>(out: &mut String, run: &ReportedRun, names: &N) -> Added {
    let alloc = *out.allocator();
    let waits = run.waits(alloc)?;
    for blocked in &run.run().kernel().blocked(alloc)? {
        let wait = waits.iter().find(|wait| wait.thread == blocked.thread);
        push_line(out, &blocked_of(alloc, blocked, wait, names)?)?;
    }
    Ok(())
}
