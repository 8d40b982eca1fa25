//! Prints a run: its completions, and the threads that are blocked at the end.

ghost use Rattle.std.specs.Prelude.{◌≡◌, ◌+◌, ◌^◌, ◌≤◌, length, IfOk, string_bytes};
ghost use Rattle.qscript.specs.Printing.Printed.{printed};

pub mod buffer;
pub mod ended_line;
pub mod marks;
pub mod open_line;
pub(crate) mod printer;
mod printing_laws;

use ended_line::shows;
use printer::Printer;
use qkernel::open_call::Blocked;
use qkernel::trace::Trace;
use std::alloc::{AllocError, Global};

/// Returns a line for each completion of each event, and then a line for each blocked thread.
pub fn text_of(alloc: Global, run: &Trace, blocked: &[Blocked]) -> Result<String, AllocError>
    requires { run.now.first + length run.now.events ≤ 2 ^ 64 }
    ensures { IfOk result (λ text. string_bytes text ≡ printed run.now blocked.now) }
{
    let mut printer = Printer::new(alloc, run.first(), run.len())?;
    'events: for k in 0..run.len() {
        let event = run.first() + k as u64;
        printer.push_event(event, shows(run.call(k)), run.completions(k))?;
    }
    let text = printer.finish(blocked)?;
    Ok(text)
}
