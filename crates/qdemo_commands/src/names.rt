//! Unproved: words and layout. Runs a script with names, or prints its plain script.

use crate::command::ScriptRun;
use crate::completion::{ExitResult, end_failed, end_with, print_text, text_of};
use crate::json::events::{EventWriter, push_blocked};
use crate::json::faults::{faults_in, lines_of};
use crate::json::names::{LabelPlaces, ScriptLabels};
use crate::json::push_line;
use crate::kinds::{OtherKind, TextKind};
use crate::remarks::FaultSource;
use crate::scripts::refuse_empty;
use qscript_explain::report::{ReportedRun, RunReport};
use qscript_names::names_fault::NamesFault;
use qscript_names::{NamedReading, NamedScript, read};
use qscript_text::place::Fault;
use std::alloc::{AllocError, Global};
use std::mem;
use std::process::ExitCode;
use std::rt::Files;

/// Returns whether a file has a script with names, judged by its name.
pub fn is_named(file: &str) -> bool {
    file.ends_with(".names")
}

/// The form in which a run is printed.
#[derive(Clone, Copy, PartialEq, Eq)]
enum RunForm {
    /// The trace, with numbers.
    Plain,
    /// The trace, with names.
    Names,
    /// An object of JSON for each event and each blocked thread.
    Json,
}

impl RunForm {
    /// Returns the requested form.
    fn of(run: &ScriptRun) -> RunForm {
        match (run.json, run.names) {
            (true, _) => RunForm::Json,
            (false, true) => RunForm::Names,
            (false, false) => RunForm::Plain,
        }
    }
}

/// Returns the script with names of a source; the program ends if it is faulty.
pub fn named_of<R: Eprint + AllocGlobal>(
    rt: &R,
    source: FaultSource<'_>,
) -> Result<NamedScript, ExitCode> {
    match read(rt.alloc(), source.text) {
        Ok(NamedReading::Good(named)) => Ok(named),
        Ok(NamedReading::Faulty(faults)) => Err(source.end_faulty(rt, faults.as_slice())),
        Err(_) => Err(end_failed(rt, "out of memory")),
    }
}

/// Runs the script with names in a file or in standard input. Prints its trace, and reports the differences
/// from its expectations. With `--plain` it prints the plain script and runs nothing.
pub fn run_named<R: Files + Input + Print + Eprint + AllocGlobal>(
    rt: &R,
    run: &ScriptRun,
) -> ExitResult {
    let file = run.file.as_deref();
    let text = text_of(rt, file)?;
    let shows = run.explain || run.screen.errors;
    let source = FaultSource::new(file, text.as_slice(), shows, run.screen.colours.errors);
    refuse_empty(rt, file, Some(source.text))?;
    match read(rt.alloc(), source.text) {
        Ok(NamedReading::Good(mut named)) => run_read(rt, run, source, &mut named),
        Ok(NamedReading::Faulty(faults)) => Err(end_named(rt, run, source, faults.as_slice())),
        Err(_) => Err(end_failed(rt, "out of memory")),
    }
}

/// Runs a script with names that was read, or prints its plain script.
fn run_read<R: Print + Eprint + AllocGlobal>(
    rt: &R,
    run: &ScriptRun,
    source: FaultSource<'_>,
    named: &mut NamedScript,
) -> ExitResult {
    if run.plain {
        return print_text(rt, named.text.as_str()).map(|()| ExitCode::SUCCESS);
    }
    match outcome_of(rt.alloc(), named, RunForm::of(run)) {
        Ok(outcome) => print_outcome(rt, run, source, &outcome),
        Err(_) => Err(end_failed(rt, "out of memory")),
    }
}

/// Prints the trace of a script with names, and reports the differences from its expectations. With
/// `--strict` the status is 1 if a call failed.
fn print_outcome<R: Print + Eprint + AllocGlobal>(
    rt: &R,
    run: &ScriptRun,
    source: FaultSource<'_>,
    (trace, report, faults): &NamedOutcome,
) -> ExitResult {
    print_text(rt, trace.as_str())?;
    if run.explain {
        let _ = source.tell_report(rt, report);
    }
    if faults.is_empty() {
        let is_refused = run.strict && report.failures > 0;
        return Ok(ExitCode::from(u8::from(is_refused)));
    }
    Err(end_named(rt, run, source, faults.as_slice()))
}

/// Ends the program for these faults of a script with names, and prints them. With `--json` they are also
/// printed as objects. For a file of another kind the right command is named instead.
fn end_named<R: Print + Eprint + AllocGlobal>(
    rt: &R,
    run: &ScriptRun,
    source: FaultSource<'_>,
    faults: &[Fault<NamesFault>],
) -> ExitCode {
    if run.json
        && let Err(code) = print_faults(rt, faults)
    {
        return code;
    }
    if let Some(file) = source.file
        && let Some(other) = OtherKind::of(file, source.text, TextKind::Named)
    {
        return end_with(rt, other, 1);
    }
    source.end_faulty(rt, faults)
}

/// Prints faults as lines of JSON.
fn print_faults<R: Print + Eprint + AllocGlobal>(
    rt: &R,
    faults: &[Fault<NamesFault>],
) -> Result<(), ExitCode> {
    let faults = faults_in(rt.alloc(), faults);
    let lines = faults.and_then(|faults| lines_of(rt.alloc(), faults.as_slice()));
    let lines = lines.map_err(|_| end_failed(rt, "out of memory"))?;
    print_text(rt, lines.as_str())
}

/// The outcome of a script with names: its printed run, the report on its run, and the differences from its
/// expectations.
type NamedOutcome = (String, RunReport, Vec<Fault<NamesFault>>);

/// Runs a script with names once, and returns its outcome, with the run in this form.
fn outcome_of(
    alloc: Global,
    named: &mut NamedScript,
    form: RunForm,
) -> Result<NamedOutcome, AllocError> {
    let calls = named.check.calls.iter();
    let lines = calls.map(|call| call.place.line as usize).collect(alloc)?;
    let mut run = ReportedRun::new(alloc, &named.script, lines)?;
    let mut told = String::new(alloc);
    let faults = match form {
        RunForm::Json => record_all(&mut run, named, &mut told),
        form => make_all(&mut run, named, &mut told, form == RunForm::Names),
    }?;
    let (plain, report) = run.finish(named.check.context())?;
    let printed = if form == RunForm::Plain { plain } else { told };
    Ok((printed, report, faults))
}

/// Makes the calls of a script with names, and returns the differences from its expectations. Adds the trace
/// if `in_names` is set.
fn make_all(
    run: &mut ReportedRun,
    named: &mut NamedScript,
    trace: &mut String,
    in_names: bool,
) -> Result<Vec<Fault<NamesFault>>, AllocError> {
    let NamedScript { script, check, .. } = named;
    let alloc = check.context().alloc;
    check.compare_states(Some(run.run().kernel()))?;
    for (thread, call) in mem::replace(&mut script.calls, Vec::new(alloc)) {
        run.make(check.context(), thread, call)?;
        check.follow(run.run().kernel(), run.run().completions())?;
        if in_names {
            check.push_trace(trace, run.run().completions())?;
        }
    }
    check.finish(run.run().kernel())?;
    let blocked = run.run().kernel().blocked(alloc)?;
    check.context().push_blocked(trace, blocked.as_slice())?;
    check.take_faults()
}

/// Makes the calls of a script with names, and returns the differences from its expectations. Adds the events
/// and the blocked threads as lines of JSON.
fn record_all(
    run: &mut ReportedRun,
    named: &mut NamedScript,
    out: &mut String,
) -> Result<Vec<Fault<NamesFault>>, AllocError> {
    let NamedScript { script, check, .. } = named;
    let alloc = check.context().alloc;
    let labels = LabelPlaces::of(alloc, &check.scope)?;
    let mut events = EventWriter::new(alloc);
    check.compare_states(Some(run.run().kernel()))?;
    for call in mem::replace(&mut script.calls, Vec::new(alloc)) {
        let names = ScriptLabels::of(check, &labels);
        push_line(out, &events.make(run, check.context(), call, &names)?)?;
        check.follow(run.run().kernel(), run.run().completions())?;
    }
    check.finish(run.run().kernel())?;
    push_blocked(out, run, &ScriptLabels::of(check, &labels))?;
    check.take_faults()
}

/// Returns the faults of a script with names. If there are none, returns the differences of its run from its
/// expectations.
pub fn faults_of(alloc: Global, text: &[u8]) -> Result<Vec<Fault<NamesFault>>, AllocError> {
    match read(alloc, text)? {
        NamedReading::Good(mut named) => {
            let (_, _, faults) = outcome_of(alloc, &mut named, RunForm::Plain)?;
            Ok(faults)
        }
        NamedReading::Faulty(faults) => Ok(faults),
    }
}
