//! Unproved: words and layout. The names of the numbers in records, and the lines of calls.

use qbase::ids::{ProcessNo, ThreadNo};
use qexplore_design::verdict::chosen_names::ScriptNames;
use qexplore_design::verdict::replay::Replay;
use qscript_names::context::Context;
use qscript_names::expecting::check::ExpectationCheck;
use qscript_names::line::LineKind;
use qscript_names::scope::Scope;
use std::alloc::{AllocError, Global};

/// The names of a run's things, and the lines of its calls.
pub trait RunNames {
    /// Returns the name of a thread, if it has one.
    fn thread(&self, thread: ThreadNo) -> Option<&str>;

    /// Returns the name of a process, if it has one.
    fn process(&self, process: ProcessNo) -> Option<&str>;

    /// Returns the name of the call with this number, or of the thing that it made, if there is one.
    fn made_by(&self, call: u64) -> Option<&str>;

    /// Returns the line of the call with this number.
    fn line(&self, call: u64) -> Option<u64>;
}

/// The lines of a plain script's calls. Nothing has a name.
#[derive(Clone, Copy)]
pub struct PlainLines<'a>(pub &'a [usize]);

impl RunNames for PlainLines<'_> {
    fn thread(&self, _thread: ThreadNo) -> Option<&str> {
        None
    }

    fn process(&self, _process: ProcessNo) -> Option<&str> {
        None
    }

    fn made_by(&self, _call: u64) -> Option<&str> {
        None
    }

    fn line(&self, call: u64) -> Option<u64> {
        let line = self.0.get(call.checked_sub(1)? as usize)?;
        Some(*line as u64)
    }
}

/// The index of each name of a script among the labels of its lines.
#[derive(Drop)]
pub struct LabelPlaces {
    threads: Vec<Option<usize>>,
    calls: Vec<Option<usize>>,
}

/// Notes the index of a label at this place of a list, unless there is one.
fn note(places: &mut Vec<Option<usize>>, number: u64, at: usize) -> Result<(), AllocError> {
    let place = number as usize;
    for _ in places.len()..place.saturating_add(1) {
        places.push(None)?;
    }
    if let Some(known) = places.get_mut(place)
        && known.is_none()
    {
        *known = Some(at);
    }
    Ok(())
}

impl LabelPlaces {
    /// Returns the indexes of these labels.
    pub fn of(alloc: Global, scope: &Scope) -> Result<LabelPlaces, AllocError> {
        let mut places = LabelPlaces {
            threads: Vec::new(alloc),
            calls: Vec::new(alloc),
        };
        for (at, label) in scope.labels().iter().enumerate() {
            let list = match label.kind {
                LineKind::Thread => &mut places.threads,
                _ => &mut places.calls,
            };
            note(list, label.number, at)?;
        }
        Ok(places)
    }
}

/// Returns the index at this place of a list.
fn noted(places: &[Option<usize>], number: u64) -> Option<usize> {
    *places.get(number as usize)?
}

/// The names of a script with names.
#[derive(Clone, Copy)]
pub struct ScriptLabels<'a> {
    pub context: Context<'a>,
    pub places: &'a LabelPlaces,
}

impl<'a> ScriptLabels<'a> {
    /// Returns the names of a script with these expectations.
    pub fn of(check: &'a ExpectationCheck, places: &'a LabelPlaces) -> ScriptLabels<'a> {
        let context = check.context();
        ScriptLabels { context, places }
    }

    /// Returns the name of the label with this index.
    fn name(&self, at: usize) -> Option<&'a str> {
        let label = self.context.scope.labels().get(at)?;
        Some(label.name.as_str())
    }
}

impl RunNames for ScriptLabels<'_> {
    fn thread(&self, thread: ThreadNo) -> Option<&str> {
        self.name(noted(self.places.threads.as_slice(), u64::from(thread.0))?)
    }

    fn process(&self, process: ProcessNo) -> Option<&str> {
        let at = usize::from(process.0).checked_sub(1)?;
        let name = self.context.scope.process_names().get(at)?;
        Some(name.as_str())
    }

    fn made_by(&self, call: u64) -> Option<&str> {
        self.name(noted(self.places.calls.as_slice(), call)?)
    }

    fn line(&self, call: u64) -> Option<u64> {
        let check = self.context.calls.get(call.checked_sub(1)? as usize)?;
        Some(check.place.line)
    }
}

/// The names of a run of a design, as its script with names has them, and the lines of the design.
#[derive(Clone, Copy)]
pub struct DesignNames<'a> {
    pub replay: &'a Replay<'a>,
    pub names: &'a ScriptNames,
}

impl RunNames for DesignNames<'_> {
    fn thread(&self, thread: ThreadNo) -> Option<&str> {
        self.names.thread_name(thread)
    }

    fn process(&self, process: ProcessNo) -> Option<&str> {
        let mut threads = self.replay.design.threads.iter();
        let thread = threads.find(|thread| thread.process == process)?;
        Some(thread.process_name.as_str())
    }

    fn made_by(&self, call: u64) -> Option<&str> {
        self.names.made_name(call)
    }

    fn line(&self, call: u64) -> Option<u64> {
        self.replay.line_of_call(call)
    }
}
