//! The action `serve`: runs a server and its clients.

ghost use Rattle.qdemo_serve.specs.Fit.{Fit};

use crate::files::RecordFiles;
use qdemo_commands::command::ServeRun;
use qdemo_commands::completion::{end_failed, end_quietly, end_unwritten, end_with};
use qdemo_commands::json::numbers_line;
use qdemo_commands::streams::Outlet;
use qdemo_serve::fault::ServeFault;
use qdemo_serve::recording::{Forget, RecordStore};
use qdemo_serve::serve::{lines_of, serve, write_results};
use qdemo_serve::settings::Settings;
use qdemo_serve::texts::Totals;
use qscript::watched::Watched;
use std::alloc::{AllocError, Global};
use std::io;
use std::process::ExitCode;
use std::rt::{Clock, Files};
use std::sync::Wait;
use std::thread::Threads;

/// Runs a server and its clients, and records the calls if the recording has a name. Shows progress on a
/// terminal, unless `quiet` is set.
pub fn run_serve<R: Files + Print + Eprint + AllocGlobal + Threads + Wait + Clock + Sync>(
    rt: &R,
    run: ServeRun,
    terminal: bool,
) -> ExitCode {
    if run.hold && (run.clients < 2 || run.servers != 1) {
        return end_with(
            rt,
            "--hold needs exactly one server, and two clients or more",
            2,
        );
    }
    let settings = Settings {
        clients: run.clients,
        servers: run.servers,
        rounds: run.rounds,
        hold: run.hold,
        time: run.time,
        progress: terminal && !run.quiet,
        record: run.record.is_some(),
    };
    // The command line allows only numbers in their ranges.
    if !settings.fit() {
        return end_with(rt, "worker failed", 3);
    }
    let json = run.json;
    let Some(name) = run.record else {
        return serve_with(rt, settings, json, &mut Forget);
    };
    let name = name.as_str();
    let mut files = RecordFiles { rt, name };
    serve_with(rt, settings, json, &mut files)
}

/// Runs a server and its clients, stores their recording, and prints the results as lines or as JSON.
fn serve_with<R: Print + Eprint + AllocGlobal + Threads + Wait + Clock + Sync, S: RecordStore>(
    rt: &R,
    settings: Settings,
    json: bool,
    store: &mut S,
) -> ExitCode
    requires { Fit settings }
{
    match serve(rt, rt.alloc(), settings, store) {
        Ok(totals) if json => print_results(rt, json_of(rt.alloc(), &totals)),
        Ok(totals) if settings.time => print_results(rt, lines_of(rt.alloc(), &totals)),
        Ok(totals) => print_lines(rt, &totals),
        Err(fault) => end_served(rt, fault),
    }
}

/// Ends a run that failed. A recording that couldn't be stored was reported before.
fn end_served(rt: &impl Eprint, fault: ServeFault) -> ExitCode {
    match fault {
        ServeFault::Record => ExitCode::from(fault.status()),
        fault => end_with(rt, fault, fault.status()),
    }
}

/// Prints the lines of results.
fn print_lines<R: Print + Eprint + AllocGlobal>(rt: &R, totals: &Totals) -> ExitCode {
    let mut writer = Watched::new(Outlet::new(io::writer(rt)));
    match write_results(rt.alloc(), totals, &mut writer) {
        Ok(()) => ExitCode::SUCCESS,
        Err(ServeFault::Write) if writer.into_inner().is_closed() => end_quietly(),
        Err(fault) => end_served(rt, fault),
    }
}

/// Returns the results as a line of JSON.
fn json_of(alloc: Global, totals: &Totals) -> Result<String, AllocError> {
    let tally = totals.tally;
    let mut numbers = Vec::new(alloc);
    numbers.extend_from_slice(&[
        ("sent", tally.sent),
        ("answered", tally.answered),
        ("pulses", tally.pulses),
        ("sum", tally.sum),
        ("events", totals.events as u64),
    ])?;
    if let Some(timing) = totals.timing {
        numbers.extend_from_slice(&[
            ("run_nanoseconds", timing.run),
            ("round_trips_per_second", timing.rate()),
            ("least_nanoseconds", timing.least),
            ("median_nanoseconds", timing.median),
            ("ninety_ninth_nanoseconds", timing.ninety_ninth),
        ])?;
    }
    numbers_line(alloc, numbers.as_slice())
}

/// Prints the results.
fn print_results<R: Print + Eprint + AllocGlobal>(
    rt: &R,
    text: Result<String, AllocError>,
) -> ExitCode {
    let Ok(text) = text else {
        return end_failed(rt, "out of memory");
    };
    match print!(rt; "{text}") {
        Ok(()) => ExitCode::SUCCESS,
        Err(error) => end_unwritten(rt, error),
    }
}
