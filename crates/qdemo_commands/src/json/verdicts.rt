//! Unproved: words and layout. The verdicts of searches as JSON.

use crate::json::events::events_of;
use crate::json::names::DesignNames;
use crate::json::threads::threads_of;
use crate::json::violations::{ShownViolation, end_of};
use crate::json::{Added, Record};
use qexplore::counts::SearchCounts;
use qexplore::replay::NoObserver;
use qexplore::verdict::Summary;
use qexplore::violation::Counterexample;
use qexplore_design::verdict::chosen_names::ScriptNames;
use qexplore_design::verdict::replay::{DesignSource, Replay};
use qexplore_design::verdict::roles::CallRole;
use qexplore_design::verdict::violation::loop_calls;
use serde_json::Value;
use std::alloc::{AllocError, Global};

/// Returns the verdict on the design of a file, with this outcome.
pub fn verdict_of(alloc: Global, file: &str, outcome: &str) -> Result<Record, AllocError> {
    let mut verdict = Record::new(alloc);
    verdict.set_text("design", file)?;
    verdict.set_text("outcome", outcome)?;
    Ok(verdict)
}

/// Returns the counts of a search.
fn counts_of(source: DesignSource<'_>, tally: SearchCounts) -> Result<Record, AllocError> {
    let mut counts = Record::new(source.alloc);
    counts.set("threads", source.design.threads.len())?;
    counts.set("states", tally.states)?;
    counts.set("transitions", tally.moves)?;
    Ok(counts)
}

/// Returns the verdict of a search that found no violation.
pub fn nothing_verdict(source: DesignSource<'_>, summary: &Summary) -> Result<Value, AllocError> {
    let mut verdict = verdict_of(source.alloc, source.file, "nothing")?;
    let mut counts = counts_of(source, summary.tally)?;
    if let Some(runs) = summary.runs {
        counts.set("calls", runs.longest)?;
        if let (Some(count), false) = (runs.count, summary.alone) {
            counts.set("interleavings", count)?;
        }
    }
    verdict.set("counts", counts.into_value())?;
    verdict.set("ends", ends_of(source, summary.ends.as_slice())?)?;
    Ok(verdict.into_value())
}

/// Returns the ends of the interleavings. An end with the same places is listed only once.
fn ends_of(source: DesignSource<'_>, ways: &[Vec<usize>]) -> Result<Value, AllocError> {
    let mut ends: Vec<Value> = Vec::new(source.alloc);
    for way in ways {
        let end = end_of(&Replay::of(source, way.as_slice(), &mut NoObserver)?)?;
        if !ends.contains(&end) {
            ends.push(end)?;
        }
    }
    Ok(Value::Array(ends))
}

/// Returns the verdict of a search that gave up.
pub fn gave_up_verdict(source: DesignSource<'_>, tally: SearchCounts) -> Result<Value, AllocError> {
    let mut verdict = verdict_of(source.alloc, source.file, "nothing so far")?;
    verdict.set("counts", counts_of(source, tally)?.into_value())?;
    Ok(verdict.into_value())
}

/// Returns the verdict of random interleavings without a violation.
pub fn random_verdict(
    source: DesignSource<'_>,
    count: u64,
    seed: u64,
) -> Result<Value, AllocError> {
    let mut verdict = verdict_of(source.alloc, source.file, "nothing so far")?;
    let mut counts = Record::new(source.alloc);
    counts.set("threads", source.design.threads.len())?;
    counts.set("interleavings", count)?;
    verdict.set("counts", counts.into_value())?;
    verdict.set("seed", seed)?;
    Ok(verdict.into_value())
}

/// Returns the verdict of a search that found a violation. `is_shortest` says whether no interleaving with
/// fewer calls shows one of the same kind.
pub fn found_verdict(
    source: DesignSource<'_>,
    found: &Counterexample,
    is_shortest: bool,
) -> Result<Value, AllocError> {
    let mut verdict = verdict_of(source.alloc, source.file, "fault")?;
    verdict.set("counts", calls_of(source, found)?)?;
    verdict.set("is_shortest", is_shortest)?;
    let replay = Replay::of_found(source, found, &mut NoObserver)?;
    add_run(&mut verdict, &replay, found)?;
    Ok(verdict.into_value())
}

/// Returns the counts of a violation: the calls that lead to it, and the calls of the loop after them.
fn calls_of(source: DesignSource<'_>, found: &Counterexample) -> Result<Value, AllocError> {
    let repeated = loop_calls(found.violation);
    let mut counts = Record::new(source.alloc);
    counts.set("threads", source.design.threads.len())?;
    counts.set("calls", found.way.len().saturating_sub(repeated))?;
    if repeated > 0 {
        counts.set("loop", repeated)?;
    }
    Ok(counts.into_value())
}

/// Adds the violation, the run that shows it, and the threads at its end.
fn add_run(verdict: &mut Record, replay: &Replay<'_>, found: &Counterexample) -> Added {
    let names = ScriptNames::of(replay)?;
    let names = DesignNames {
        replay,
        names: &names,
    };
    let waits = replay.waits_now()?;
    let shown = ShownViolation {
        replay,
        names: &names,
        waits: waits.as_slice(),
    };
    let roles = replay.roles(found.violation)?;
    let roles = roles.as_slice();
    verdict.set("faulty", calls_with(replay.alloc, roles, CallRole::Faulty)?)?;
    verdict.set(
        "harmless",
        calls_with(replay.alloc, roles, CallRole::Harmless)?,
    )?;
    verdict.set("fault", shown.record(found.violation)?)?;
    verdict.set("run", events_of(replay.alloc, &replay.trace, &names)?)?;
    verdict.set("threads", threads_of(replay, waits.as_slice(), &names)?)
}

/// Returns the numbers of the calls with this role. `roles` has the roles of all calls, from call 1 on.
fn calls_with(alloc: Global, roles: &[CallRole], role: CallRole) -> Result<Value, AllocError> {
    let mut numbers: Vec<Value> = Vec::new(alloc);
    for (at, other) in roles.iter().enumerate() {
        if *other == role {
            numbers.push(Value::from((at as u64).saturating_add(1)))?;
        }
    }
    Ok(Value::Array(numbers))
}
