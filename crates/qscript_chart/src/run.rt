//! Makes the rows of a run, one for each call.

ghost use Rattle.std.specs.Prelude.{◌≡◌, ◌+◌, ◌<◌, ◌∷◌, ◌++◌, [], is_some, length, map, true, IfOk, OnOk};
ghost use Rattle.std.specs.List.{filter_map};
ghost use Rattle.qtables.specs.Members.{member_at};
ghost use Rattle.qkernel_state.specs.Contents.{members_of};
ghost use Rattle.qkernel.specs.Matching.{AnswersAtTraces};
ghost use Rattle.qscript_chart.specs.Arrows.{arrow_of};
ghost use Rattle.qscript.specs.Running.{AreBlocked};
ghost use Rattle.qscript_chart.specs.Changes.{change_since, level_of};
ghost use Rattle.qscript_chart.specs.Rows.{HasRows, TellsChanges};

use crate::arrow::arrows_of;
use crate::changes::{Level, changes_since, levels_of};
use crate::label::{arrow_labels, call_words, push_result};
use crate::row::{CancelledCall, ChartRow};
use qbase::ids::ThreadNo;
use qkernel::call::{Call, Completion, Mark};
use qkernel::kernel::Kernel;
use qkernel::open_call::Blocked;
use qkernel::trace::Trace;
use qscript::run::Run;
use qscript_explain::history::{CallHistory, PastCall};
use qscript_names::context::Context;
use std::alloc::{AllocError, Global};

/// The facts about the calls so far that later rows need.
#[derive(Drop)]
struct RunFacts<'a> {
    names: Context<'a>,
    callers: Vec<ThreadNo>,
    bytes: bool,
}

/// The priorities of a kernel's threads at some time, and the threads that are blocked then.
#[derive(Drop)]
pub struct ThreadStates {
    levels: Vec<Level>,
    blocked: Vec<Blocked>,
}

impl ThreadStates {
    /// Returns the present priorities and the blocked threads of a kernel.
    pub fn of(alloc: Global, kernel: &Kernel) -> Result<ThreadStates, AllocError>
        ensures levels { IfOk result (λ s. s.levels.items ≡ map level_of kernel.now.threads) }
        ensures blocked { IfOk result (λ s. AreBlocked kernel.now s.blocked.items) }
    {
        Ok(ThreadStates {
            levels: levels_of(alloc, kernel)?,
            blocked: kernel.blocked(alloc)?,
        })
    }

    /// Returns a copy.
    fn copied(&self, alloc: Global) -> Result<ThreadStates, AllocError> {
        Ok(ThreadStates {
            levels: Vec::from_slice(alloc, self.levels.as_slice())?,
            blocked: Vec::from_slice(alloc, self.blocked.as_slice())?,
        })
    }
}

/// Returns a row for each event of a trace. `states` are the states of the threads before the first event and
/// after each event.
pub fn rows_of_trace(
    names: Context<'_>,
    trace: &Trace,
    states: &[ThreadStates],
    bytes: bool,
) -> Result<Vec<ChartRow>, AllocError> {
    let mut facts = RunFacts::new(names, bytes);
    let mut rows = Vec::new(names.alloc);
    for (k, (before, after)) in states.iter().zip(states.iter().skip(1)).enumerate() {
        if k < trace.len() {
            rows.push(facts.row_at(trace, k, before, after.copied(names.alloc)?)?)?;
        }
    }
    Ok(rows)
}

/// Makes the calls in order, adds them to the history, and returns a row for each. The words have the bytes
/// if `bytes` is set.
pub fn rows_of(
    names: Context<'_>,
    run: &mut Run,
    history: &mut CallHistory,
    calls: Vec<(ThreadNo, Call)>,
    bytes: bool,
) -> Result<Vec<ChartRow>, AllocError>
    ensures { IfOk result (λ rows. HasRows run.old.kernel calls.items run.new.kernel rows.items) }
{
    let mut course = RunFacts::new(names, bytes);
    let mut rows = Vec::new(names.alloc);
    'calls: for (thread, call) in calls {
        let past = PastCall::of(thread, &call);
        let row = course.next_row(run, thread, call)?;
        history.add(past, run.completions())?;
        rows.push(row)?;
    }
    Ok(rows)
}

impl<'a> RunFacts<'a> {
    /// Returns the facts before the first call.
    fn new(names: Context<'a>, bytes: bool) -> RunFacts<'a>
        ensures { result.callers.items ≡ [] }
    {
        RunFacts {
            names,
            callers: Vec::new(names.alloc),
            bytes,
        }
    }

    /// Returns the row of the event at index `k` of a trace.
    fn row_at(
        &mut self,
        trace: &Trace,
        k: usize,
        before: &ThreadStates,
        after: ThreadStates,
    ) -> Result<ChartRow, AllocError>
        requires { k < length trace.now.events }
    {
        let number = (k as u64).saturating_add(1);
        let words = call_words(self.names, number, trace.call(k), self.bytes)?;
        self.callers.push(trace.thread(k))?;
        self.row(trace.thread(k), words, trace.completions(k), before, after)
    }

    /// Returns the row of the last call so far. These are its thread, its words, its completions, and the
    /// states before and after it.
    fn row(
        &self,
        thread: ThreadNo,
        words: String,
        completions: &[Completion],
        before: &ThreadStates,
        after: ThreadStates,
    ) -> Result<ChartRow, AllocError>
        ensures thread { IfOk result (λ row. row.thread ≡ thread) }
        ensures arrows { IfOk result
            (λ row. row.arrows.items ≡ filter_map (arrow_of self.now.callers.items thread) completions.now) }
        ensures changes { IfOk result
            (λ row. row.changes.items
            ≡ filter_map (change_since before.now.levels.items) after.levels.items) }
        ensures blocked { IfOk result (λ row. row.blocked ≡ after.blocked) }
    {
        let (names, callers) = (self.names, self.callers.as_slice());
        let alloc = names.alloc;
        let number = callers.len() as u64;
        let mut words = words;
        push_result(names, &mut words, number, completions)?;
        let (earlier, later) = (before.levels.as_slice(), after.levels.as_slice());
        Ok(ChartRow {
            number,
            thread,
            words,
            arrows: arrows_of(alloc, callers, thread, completions)?,
            labels: arrow_labels(names, callers, thread, completions, self.bytes)?,
            cuts: cuts_of(alloc, number, completions)?,
            changes: changes_since(alloc, earlier, later)?,
            blocked: after.blocked,
        })
    }

    /// Makes a call, and returns its row.
    fn next_row(
        &mut self,
        run: &mut Run,
        thread: ThreadNo,
        call: Call,
    ) -> Result<ChartRow, AllocError>
        ensures event { OnOk result
            (AnswersAtTraces run.old.kernel thread call run.new.completions.items run.new.kernel) }
        ensures thread { IfOk result (λ row. row.thread ≡ thread) }
        ensures arrows { IfOk result
            (λ row. row.arrows.items ≡ filter_map (arrow_of (self.old.callers.items ++ thread ∷ []) thread)
            run.new.completions.items) }
        ensures changes { IfOk result (λ row. TellsChanges run.old.kernel run.new.kernel row.changes.items) }
        ensures blocked { IfOk result (λ row. AreBlocked run.new.kernel row.blocked.items) }
        ensures callers { OnOk result (self.new.callers.items ≡ self.old.callers.items ++ thread ∷ []) }
        ensures known { OnOk result (is_some (member_at (members_of run.old.kernel.threads) thread) ≡ true) }
        ensures roster { OnOk result (members_of run.new.kernel.threads ≡ members_of run.old.kernel.threads) }
    {
        let alloc = self.names.alloc;
        let number = run.kernel().made().saturating_add(1);
        let words = call_words(self.names, number, &call, self.bytes)?;
        let before = ThreadStates::of(alloc, run.kernel())?;
        self.callers.push(thread)?;
        let Ok(()) = run.make(thread, call) else {
            return Err(AllocError);
        };
        let after = ThreadStates::of(alloc, run.kernel())?;
        let row = self.row(thread, words, run.completions(), &before, after)?;
        Ok(row)
    }
}

/// Returns the calls that an event cancelled. The event's own call, which has this number, isn't one of them.
fn cuts_of(
    alloc: Global,
    number: u64,
    completions: &[Completion],
) -> Result<Vec<CancelledCall>, AllocError> {
    completions
        .iter()
        .filter_map(|completion| cut_of(number, completion))
        .collect(alloc)
}

fn cut_of(number: u64, completion: &Completion) -> Option<CancelledCall> {
    match completion.mark {
        Mark::Failed(errno) if completion.call != number => Some(CancelledCall {
            number: completion.call,
            thread: completion.thread,
            errno,
        }),
        _ => None,
    }
}
