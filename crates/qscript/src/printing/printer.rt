//! Prints the text of a run, event by event.

ghost use Rattle.std.specs.Prelude.{◌≡◌, ◌+◌, [], ◌∷◌, ◌++◌, length, IfOk, OnOk, string_bytes};
ghost use Rattle.std.specs.List.{flat_map};
ghost use Rattle.qmodel.specs.Trace.{Event, Run};
ghost use Rattle.qscript.specs.Printing.PrintingLaws.{with_more};
ghost use Rattle.qscript.specs.Printing.OpenLine.{open_text};
ghost use Rattle.qscript.specs.Printing.Printed.{shows_buffer, printed};
ghost use Rattle.qscript.specs.Printing.Printer.{HasPrinted};

use crate::printing::ended_line::push_completions;
use crate::printing::open_line::push_open;
use qkernel::call::Completion;
use qkernel::open_call::Blocked;
use std::alloc::{AllocError, Global};

/// The bytes that are reserved for the lines of an event. A typical line without a buffer needs fewer.
const LINE: usize = 32;

/// The lines of the events so far, and for each of their calls whether its buffer is printed when the call
/// completes. The calls themselves aren't kept.
#[derive(Drop)]
pub struct Printer {
    first: u64,
    shown: Vec<bool>,
    text: String,
}

impl Printer {
    /// Returns the printer of a run whose first event has the number `first`. Memory is reserved for the
    /// lines of `events` events.
    pub fn new(alloc: Global, first: u64, events: usize) -> Result<Printer, AllocError>
        ensures { IfOk result (HasPrinted (record { first = first; events = [] })) }
    {
        Ok(Printer {
            first,
            shown: Vec::with_capacity(alloc, events)?,
            text: String::with_capacity(alloc, events.saturating_mul(LINE))?,
        })
    }

    /// Adds the lines of the next event, which has the number `event`. `shows` says whether the buffer of the
    /// event's own call is printed when that call completes.
    pub fn push_event(
        &mut self,
        event: u64,
        shows: bool,
        completions: &[Completion],
    ) -> Result<(), AllocError>
        ensures { OnOk result ((run : Run) (e : Event) → HasPrinted run self.old
            → event ≡ run.first + length run.events → shows_buffer e.call ≡ shows
            → e.completions ≡ completions.now → HasPrinted (with_more run (e ∷ [])) self.new) }
    {
        self.shown.push(shows)?;
        push_completions(
            &mut self.text,
            self.first,
            self.shown.as_slice(),
            event,
            completions,
        )?;
        Ok(())
    }

    /// Returns the lines of the events so far.
    pub fn text(&self) -> &str
        ensures { result.now ≡ string_bytes self.now.text }
    {
        self.text.as_str()
    }

    /// Returns the text of the whole run: the lines of its events, and a line for each of these blocked
    /// threads.
    pub fn finish(self, blocked: &[Blocked]) -> Result<String, AllocError>
        ensures { IfOk result (λ text. (run : Run) → HasPrinted run self
            → string_bytes text ≡ printed run blocked.now) }
    {
        let mut text = self.text;
        push_open_lines(&mut text, blocked)?;
        Ok(text)
    }
}

fn push_open_lines(out: &mut String, blocked: &[Blocked]) -> Result<(), AllocError>
    ensures { OnOk result (string_bytes out.new ≡ string_bytes out.old ++ flat_map open_text blocked.now) }
{
    'threads: for thread in blocked {
        push_open(out, *thread)?;
    }
    Ok(())
}
