//! Unproved: words and layout. The violations that searches find, as JSON.

use crate::json::completions::completion_of;
use crate::json::names::DesignNames;
use crate::json::threads::place_of;
use crate::json::{Added, Record};
use qexplore::violation::{Violation, is_inside};
use qexplore_design::verdict::replay::Replay;
use qexplore_programs::design::{seat_of_thread, thread_of};
use qexplore_programs::machine::local_state::Finding;
use qscript_explain::waiting::Wait;
use serde_json::Value;
use std::alloc::AllocError;

/// Returns the word of a violation.
fn kind_of(fault: Violation) -> &'static str {
    match fault {
        Violation::Blocked => "deadlock",
        Violation::NoEnd => "livelock",
        Violation::Program(_, Finding::Failed(_)) => "failed_call",
        Violation::Program(_, Finding::Unexpected(_)) => "unexpected",
        Violation::Program(_, Finding::Unset(_)) => "unbound_name",
        Violation::Inversion(_, _) => "inversion",
        Violation::Crowd(_) => "too_many_inside",
        Violation::Claim(_) => "claim",
        Violation::Starved(_, _) => "starvation",
    }
}

/// A violation at the end of a run, and the threads that wait for a reply there.
#[derive(Clone, Copy)]
pub struct ShownViolation<'a> {
    pub replay: &'a Replay<'a>,
    pub names: &'a DesignNames<'a>,
    pub waits: &'a [Wait],
}

impl ShownViolation<'_> {
    /// Returns the violation.
    pub fn record(self, fault: Violation) -> Result<Value, AllocError> {
        let mut record = Record::new(self.replay.alloc);
        record.set_text("kind", kind_of(fault))?;
        match fault {
            Violation::Blocked | Violation::NoEnd => record.set("circles", self.circles()?),
            Violation::Program(seat, finding) => self.add_finding(&mut record, seat, finding),
            Violation::Inversion(seat, other) => self.add_inversion(&mut record, seat, other),
            Violation::Crowd(at) => self.add_crowd(&mut record, at),
            Violation::Claim(at) => self.add_claim(&mut record, at),
            Violation::Starved(seat, _) => self.add_thread(&mut record, "thread", seat),
        }?;
        Ok(record.into_value())
    }

    /// Adds the thread at an index.
    fn add_thread(self, record: &mut Record, key: &str, seat: usize) -> Added {
        record.set_thread(key, thread_of(seat), self.names)
    }

    /// Adds a line of the design and its text.
    fn add_line(self, record: &mut Record, line: u64) -> Added {
        record.set("line", line)?;
        record.set_text("text", self.replay.line_text(line))
    }

    /// Returns the circles of threads that wait for one another.
    fn circles(self) -> Result<Value, AllocError> {
        let mut circles = Vec::new(self.replay.alloc);
        for deadlock in &self.replay.deadlocks_among(self.waits)? {
            let mut circle = Vec::new(self.replay.alloc);
            for wait in deadlock.waits() {
                circle.push(self.thread(seat_of_thread(wait.thread))?)?;
            }
            circles.push(Value::Array(circle))?;
        }
        Ok(Value::Array(circles))
    }

    /// Returns the thread at an index.
    fn thread(self, seat: usize) -> Result<Value, AllocError> {
        let mut record = Record::new(self.replay.alloc);
        self.add_thread(&mut record, "thread", seat)?;
        Ok(record.into_value())
    }

    /// Adds the thread, its line, and the completion that isn't allowed there.
    fn add_finding(self, record: &mut Record, seat: usize, finding: Finding) -> Added {
        let line = match finding {
            Finding::Failed(line) | Finding::Unexpected(line) | Finding::Unset(line) => line,
        };
        self.add_thread(record, "thread", seat)?;
        self.add_line(record, line)?;
        if let Some(hint) = self.replay.hint(seat, finding) {
            record.set_text("hint", hint)?;
        }
        if matches!(finding, Finding::Unset(_)) {
            return Ok(());
        }
        self.add_completion(record, seat)
    }

    /// Adds the completion of the thread at an index that the last call caused.
    fn add_completion(self, record: &mut Record, seat: usize) -> Added {
        let alloc = self.replay.alloc;
        if let Some(completion) = self.replay.last_completion(seat)
            && let Some(kind) = self.replay.kind_of_call(completion.call)
        {
            let completion = completion_of(alloc, completion, kind, self.names)?;
            record.set("completion", completion)?;
        }
        Ok(())
    }

    /// Adds the client that waits, its server, and the thread that is ready.
    fn add_inversion(self, record: &mut Record, seat: usize, other: usize) -> Added {
        self.add_thread(record, "client", seat)?;
        self.add_thread(record, "ready", other)?;
        match self.replay.server_of(seat) {
            Some(server) => self.add_thread(record, "server", server),
            None => Ok(()),
        }
    }

    /// Adds a lock, how many threads may be inside, and the threads that are.
    fn add_crowd(self, record: &mut Record, at: usize) -> Added {
        let design = self.replay.design;
        let Some(limit) = design.limits.get(at) else {
            return Ok(());
        };
        record.set_text("lock", limit.name.as_str())?;
        record.set("most", limit.most)?;
        let mut inside = Vec::new(self.replay.alloc);
        for seat in 0..design.threads.len() {
            if is_inside(design, &self.replay.state, limit.lock, seat) {
                inside.push(self.thread(seat)?)?;
            }
        }
        record.set("inside", inside)
    }

    /// Adds the line of a claim, and the threads that it names.
    fn add_claim(self, record: &mut Record, at: usize) -> Added {
        let design = self.replay.design;
        let Some(claim) = design.claims.get(at) else {
            return Ok(());
        };
        self.add_line(record, claim.line)?;
        let mut named = Vec::new(self.replay.alloc);
        for part in &claim.parts {
            named.push(self.thread(design.seat_of(claim.seat, part.thread))?)?;
        }
        record.set("threads", named)
    }
}

/// Returns the places of the threads at the end of a run without a violation.
pub fn end_of(replay: &Replay<'_>) -> Result<Value, AllocError> {
    let mut end = Vec::new(replay.alloc);
    for seat in 0..replay.design.threads.len() {
        let mut record = Record::new(replay.alloc);
        record.set("thread", thread_of(seat).0)?;
        record.set_text("thread_name", replay.thread_name(seat))?;
        record.set_text("place", place_of(replay, seat))?;
        end.push(record.into_value())?;
    }
    Ok(Value::Array(end))
}
