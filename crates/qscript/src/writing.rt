//! Writes the script of a run: its threads and its calls, in lines that mean exactly these.

ghost use Rattle.std.specs.Prelude.{◌≡◌, ◌<◌, ◌++◌, length, IfOk, OnOk, Some, slice_get, string_bytes};
ghost use Rattle.std.specs.List.{flat_map};
ghost use Rattle.std.specs.Option.{option_map};
ghost use Rattle.qscript.specs.Writing.Text.{member_text, call_text, script_text};

mod call_line;
mod writing_laws;

use call_line::push_call;
use qkernel::trace::Trace;
use qtables::member::Member;
use std::alloc::{AllocError, Global};

/// The bytes that are reserved for a line. A typical line without message bytes needs fewer.
const LINE: usize = 32;

/// Returns the script with these threads in its roster and with the calls of the run's events. Each call has
/// the thread that made it. The script may be longer than the limit for scripts that are read, `MOST_TEXT`.
#[tactic(auto, unfolding(crate::specs::Writing::Text::script_text))]
pub fn script_of(alloc: Global, roster: &[Member], run: &Trace) -> Result<String, AllocError>
    ensures { IfOk result (λ text. string_bytes text ≡ script_text roster.now run.now.events) }
{
    let mut out = String::with_capacity(alloc, run.len().saturating_mul(LINE))?;
    push_roster(&mut out, roster)?;
    push_calls(&mut out, run)?;
    Ok(out)
}

fn push_roster(out: &mut String, roster: &[Member]) -> Result<(), AllocError>
    ensures { OnOk result (string_bytes out.new ≡ string_bytes out.old ++ flat_map member_text roster.now) }
{
    'threads: for member in roster {
        push_member(out, *member)?;
    }
    Ok(())
}

/// Adds `thread THREAD PROCESS PRIORITY` and a newline.
pub fn push_member(out: &mut String, member: Member) -> Result<(), AllocError>
    ensures { OnOk result (string_bytes out.new ≡ string_bytes out.old ++ member_text member) }
{
    let thread = member.thread.0;
    let process = member.process.0;
    let level = member.priority.get();
    write!(out, "thread {thread} {process} {level}\n")
}

fn push_calls(out: &mut String, run: &Trace) -> Result<(), AllocError>
    ensures { OnOk result (string_bytes out.new ≡ string_bytes out.old ++ flat_map call_text run.now.events) }
{
    'events: for k in 0..run.len() {
        push_call_at(out, run, k)?;
    }
    Ok(())
}

/// Adds the line of the call at index `k` of the run.
pub fn push_call_at(out: &mut String, run: &Trace, k: usize) -> Result<(), AllocError>
    requires { k < length run.now.events }
    ensures { OnOk result (option_map (λ e. string_bytes out.old ++ call_text e) (slice_get run.now.events k)
        ≡ Some (string_bytes out.new)) }
{
    let thread = run.thread(k).0;
    write!(out, "{thread}")?;
    push_call(out, run.call(k))?;
    write!(out, "\n")
}
