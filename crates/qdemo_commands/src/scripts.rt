//! Unproved: words and layout. Runs a script, from a file or from standard input.

use crate::command::ScriptRun;
use crate::completion::{ExitResult, end_failed, end_quietly, end_unread, end_with, print_text};
use crate::json::events::{EventWriter, push_blocked};
use crate::json::faults::{faults_told, lines_of};
use crate::json::names::PlainLines;
use crate::json::push_line;
use crate::kinds::{NoLine, OtherKind, TextKind, has_line};
use crate::names::{is_named, run_named};
use crate::remarks;
use crate::remarks::tell_faults;
use crate::streams::{KeptReader, Outlet};
use qbase::ids::ThreadNo;
use qmodel::call::Call;
use qscript::fault::ScriptFault;
use qscript::script::script;
use qscript::transfer::read_all;
use qscript::watched::Watched;
use qscript::{Script, parse};
use qscript_explain::faults::faults;
use qscript_explain::report::{ReportedRun, RunReport, explained};
use qscript_names::context::Context;
use qscript_names::scope::Scope;
use qscript_text::parts::call_lines;
use std::alloc::{AllocError, Global};
use std::io::Read;
use std::process::ExitCode;
use std::rt::Files;
use std::{fs, io};

/// Runs a script, from a file or from standard input. It is a script with names if its file is called
/// `NAME.names` or `names_in` is set, and a plain script otherwise. A faulty line is explained on a terminal,
/// or if explanations are requested.
pub fn run_script<R: Files + Input + Print + Eprint + AllocGlobal>(
    rt: &R,
    run: &ScriptRun,
) -> ExitResult {
    let file = run.file.as_deref();
    match file {
        _ if run.names_in || file.is_some_and(is_named) => run_named(rt, run),
        _ if run.plain => {
            let why = "--plain needs a script with names: a file NAME.names, or --names-in";
            Err(end_with(rt, why, 2))
        }
        None => run_plain(rt, run, rt.reader()),
        Some(name) => match fs::open(rt, name) {
            Ok(file) => run_plain(rt, run, file),
            Err(error) => Err(end_unread(rt, name, error)),
        },
    }
}

/// Runs the plain script from this reader.
fn run_plain<R: Print + Eprint + AllocGlobal, S: Read + Drop>(
    rt: &R,
    run: &ScriptRun,
    input: S,
) -> ExitResult {
    if run.explain || run.strict || run.json {
        return explain_from(rt, run, input);
    }
    let keeps = run.screen.errors || run.file.is_some();
    let mut reader = Watched::new(KeptReader::new(rt.alloc(), input, keeps));
    let mut writer = Watched::new(Outlet::new(io::writer(rt)));
    match script(rt.alloc(), &mut reader, &mut writer) {
        Ok(()) => {
            let source = reader.into_inner();
            refuse_empty(rt, run.file.as_deref(), source.text())?;
            Ok(ExitCode::SUCCESS)
        }
        Err(ScriptFault::Write) if writer.into_inner().is_closed() => Err(end_quietly()),
        Err(fault) => Err(end_faulty(rt, run, fault, &reader.into_inner())),
    }
}

/// Runs the script from this reader, and reports on the same run. With `--strict` the status is 1 if a call
/// failed.
fn explain_from<R: Print + Eprint + AllocGlobal, S: Read + Drop>(
    rt: &R,
    run: &ScriptRun,
    input: S,
) -> ExitResult {
    let mut reader = Watched::new(KeptReader::new(rt.alloc(), input, true));
    let text = read_all(rt.alloc(), &mut reader);
    let explained = text.and_then(|text| match run.json {
        true => recorded(rt.alloc(), text.as_slice()),
        false => explained(rt.alloc(), text.as_slice()),
    });
    let source = reader.into_inner();
    let (trace, report) = explained.map_err(|fault| end_faulty(rt, run, fault, &source))?;
    refuse_empty(rt, run.file.as_deref(), source.text())?;
    print_text(rt, trace.as_str())?;
    if run.explain {
        let text = source.text().unwrap_or(&[]);
        let file = run.file.as_deref();
        let told = remarks::FaultSource::new(file, text, true, run.screen.colours.errors);
        let _ = told.tell_report(rt, &report);
    }
    let is_refused = run.strict && report.failures > 0;
    Ok(ExitCode::from(u8::from(is_refused)))
}

/// Ends the program if a file has no line of a script. Standard input may have none.
pub fn refuse_empty<R: Eprint>(
    rt: &R,
    file: Option<&str>,
    text: Option<&[u8]>,
) -> Result<(), ExitCode> {
    if let (Some(file), Some(text)) = (file, text)
        && !has_line(text)
    {
        return Err(end_with(rt, NoLine(file), 1));
    }
    Ok(())
}

/// Returns the lines of JSON that a script prints, and the report of the same run.
fn recorded(alloc: Global, text: &[u8]) -> Result<(String, RunReport), ScriptFault> {
    let script = parse(alloc, text)?;
    let lines = call_lines(alloc, text)?;
    Ok(recorded_run(alloc, script, lines.as_slice())?)
}

/// Runs a script whose calls have these line numbers. Returns its lines of JSON, and the report.
fn recorded_run(
    alloc: Global,
    script: Script,
    lines: &[usize],
) -> Result<(String, RunReport), AllocError> {
    let mut run = ReportedRun::new(alloc, &script, Vec::from_slice(alloc, lines)?)?;
    let scope = Scope::new(alloc);
    let context = Context::plain(alloc, &scope);
    let told = record_calls(&mut run, context, script.calls, &PlainLines(lines))?;
    let (_, report) = run.finish(context)?;
    Ok((told, report))
}

/// Makes these calls in a run. Returns a line of JSON for each of them, and for each thread that is blocked
/// at the end.
fn record_calls(
    run: &mut ReportedRun,
    context: Context<'_>,
    calls: Vec<(ThreadNo, Call)>,
    names: &PlainLines<'_>,
) -> Result<String, AllocError> {
    let mut events = EventWriter::new(context.alloc);
    let mut told = String::new(context.alloc);
    for call in calls {
        push_line(&mut told, &events.make(run, context, call, names)?)?;
    }
    push_blocked(&mut told, run, names)?;
    Ok(told)
}

/// Prints the faults of a plain script as lines of JSON.
fn print_faults<R: Print + Eprint + AllocGlobal>(
    rt: &R,
    run: &ScriptRun,
    text: &[u8],
) -> Result<(), ExitCode> {
    let lines = fault_lines(rt.alloc(), run, text).map_err(|_| end_failed(rt, "out of memory"))?;
    print_text(rt, lines.as_str())
}

/// Returns the faults of a plain script as lines of JSON.
fn fault_lines(alloc: Global, run: &ScriptRun, text: &[u8]) -> Result<String, AllocError> {
    let faults = faults_told(alloc, faults(alloc, text)?.as_slice(), run.explain)?;
    lines_of(alloc, faults.as_slice())
}

/// Ends the program for a script that has no run, and prints why. If explanations are requested, or on a
/// terminal, its faults are explained. Otherwise only the first fault is printed, with its place if the
/// script has a file. With `--json` the faults are also printed as objects. For a file of another kind the
/// right command is named instead.
fn end_faulty<R: Print + Eprint + AllocGlobal, S>(
    rt: &R,
    run: &ScriptRun,
    fault: ScriptFault,
    source: &KeptReader<S>,
) -> ExitCode {
    let file = run.file.as_deref();
    if let (ScriptFault::Read, Some(name), Some(error)) = (&fault, file, source.error()) {
        return end_unread(rt, name, error);
    }
    if let (ScriptFault::Line { .. }, Some(text)) = (&fault, source.text()) {
        if run.json
            && let Err(code) = print_faults(rt, run, text)
        {
            return code;
        }
        if let Some(name) = file
            && let Some(other) = OtherKind::of(name, text, TextKind::Plain)
        {
            return end_with(rt, other, 1);
        }
        let shows = run.explain || run.screen.errors;
        let faulty = remarks::FaultSource::new(file, text, shows, run.screen.colours.errors);
        if tell_faults(rt, faulty) {
            return ExitCode::from(fault.status());
        }
    }
    end_with(rt, format_args!("{fault}"), fault.status())
}
