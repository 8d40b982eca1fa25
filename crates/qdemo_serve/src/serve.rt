//! Runs a demonstration, and writes its results.

ghost use Rattle.std.specs.Prelude.{IfOk, IfSome, string_bytes};
ghost use Rattle.qdemo_serve.specs.Fit.{Fit};
ghost use Rattle.qdemo_serve.specs.Recording.{IsRecording};

use crate::fault::ServeFault;
use crate::protocol::{
    CLIENT_LEVEL, FIRST_CLIENT, FIRST_SERVER, MAIN_LEVEL, SERVER_LEVEL, priority,
};
use crate::recording::{RecordStore, Recording, recording_of};
use crate::run::{Finished, run};
use crate::settings::{Settings, Stacks};
use crate::texts::{Totals, text_of, write_all};
use crate::timing::timing_text_of;
use qbase::errno::Errno;
use qbase::ids::{ProcessNo, ThreadNo};
use qscript::watched::Watched;
use qshared::parts::Parts;
use qtables::roster::Roster;
use std::alloc::{AllocError, Global};
use std::io::Write;
use std::marker::Brand;
use std::rt::Clock;
use std::sync::Wait;
use std::thread::Threads;

/// The process of the servers, the main thread and its alarm.
const SERVERS: ProcessNo = ProcessNo(1);

/// The process of the clients.
const CLIENTS: ProcessNo = ProcessNo(2);

/// The thread that shuts the kernel down for a server whose own receive is still open.
const ALARM: ThreadNo = ThreadNo(63);

/// The thread that starts and stops the others.
const MAIN: ThreadNo = ThreadNo(64);

/// The greatest number of events in the kernel's history.
const TRACE_LIMIT: u32 = 1_048_576;

/// Returns the roster: the servers, the clients, the alarm and the main thread.
fn roster_of(alloc: Global, settings: &Settings) -> Result<Roster, Errno>
    requires { Fit settings.now }
{
    let mut roster = Roster::new(alloc);
    for server in 0..settings.servers {
        let thread = ThreadNo(FIRST_SERVER + server);
        roster.add(thread, SERVERS, priority(SERVER_LEVEL))?;
    }
    for client in 0..settings.clients {
        let thread = ThreadNo(FIRST_CLIENT + client);
        roster.add(thread, CLIENTS, priority(CLIENT_LEVEL))?;
    }
    roster.add(ALARM, SERVERS, priority(MAIN_LEVEL))?;
    roster.add(MAIN, SERVERS, priority(MAIN_LEVEL))?;
    Ok(roster)
}

/// The results of a demonstration.
#[derive(Drop)]
pub struct RunOutcome {
    pub totals: Totals,
    /// The recording, if there is one.
    pub recording: Option<Recording>,
}

/// Starts clients and servers, each on its own thread. Each client sends its messages and checks the replies.
/// Then it stops the servers, stores the recording if one is made, and returns the results. It stores and
/// returns only after all threads have ended. A worker that fails ends all of them.
pub fn serve<R: Threads + Wait + Clock + Eprint + Sync, S: RecordStore>(
    rt: &R,
    alloc: Global,
    settings: Settings,
    store: &mut S,
) -> Result<Totals, ServeFault>
    requires { Fit settings }
{
    let outcome = outcome_of(rt, alloc, settings, Stacks::ample())?;
    if let Some(recording) = &outcome.recording {
        store.store(recording)?;
    }
    Ok(outcome.totals)
}

/// Returns the five lines of results, and five more of times if they were taken.
pub fn lines_of(alloc: Global, totals: &Totals) -> Result<String, AllocError> {
    let mut lines = text_of(alloc, totals)?;
    if let Some(timing) = totals.timing {
        let times = timing_text_of(alloc, &timing)?;
        lines.push_str(times.as_str())?;
    }
    Ok(lines)
}

/// Writes the lines of results.
pub fn write_results<W: Write>(
    alloc: Global,
    totals: &Totals,
    writer: &mut Watched<W>,
) -> Result<(), ServeFault> {
    let lines = lines_of(alloc, totals)?;
    write_all(writer, lines.as_bytes())
}

/// Runs a demonstration whose threads have stacks of these sizes. A thread whose stack is too large can't be
/// started, and the error is `Worker`.
pub fn outcome_of<R: Threads + Wait + Clock + Eprint + Sync>(
    rt: &R,
    alloc: Global,
    settings: Settings,
    stacks: Stacks,
) -> Result<RunOutcome, ServeFault>
    requires { Fit settings }
    ensures { IfOk result
        (λ o. IfSome o.recording (λ r. IsRecording (string_bytes r.script) (string_bytes r.trace))) }
{
    if settings.hold && (settings.clients < 2 || settings.servers > 1) {
        return Err(ServeFault::Hold);
    }
    let Ok(roster) = roster_of(alloc, &settings) else {
        return Err(ServeFault::Worker);
    };
    let Ok(parts) = Parts::new(alloc, &roster, TRACE_LIMIT) else {
        return Err(ServeFault::NoMemory);
    };
    let Finished { totals, trace } = run::<Brand, R>(rt, alloc, parts, settings, stacks)?;
    let recording = match trace {
        Some(trace) => Some(recording_of(alloc, roster.members(), &trace)?),
        None => None,
    };
    Ok(RunOutcome { totals, recording })
}
