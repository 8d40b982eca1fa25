//! The definitions in the lines above a line.

ghost use Rattle.std.specs.Prelude.{◌≡◌, ℕ, ◌+◌, ◌<◌, ◌≤◌, ◌^◌, length, position, find, slice_get, true};
ghost use Rattle.std.specs.Prelude.{OnOk, IfOk, IfSome};
ghost use Rattle.std.specs.List.{position_or_len, list_any};
ghost use Rattle.std.specs.Str.{bytes_eq};
ghost use Rattle.std.specs.Option.{option_map};
ghost use Rattle.std.specs.HashMap.{get_by_text};
ghost use Rattle.qscript_names.specs.Names.{Names, none, latest, number_of, with_label, thread_number};
ghost use Rattle.qscript_names.specs.Names.{process_number, with_name, with_process, with_line, code_of};
ghost use Rattle.qscript_names.specs.Names.{same_kind};
ghost use Rattle.qscript_names.specs.Scope.{HasPlaces};

use crate::label::Label;
use crate::line::{Definition, LineKind, NamedLine, Process, ThreadLine};
use qscript_text::word::Word;
use std::alloc::{AllocError, Global};
use std::collections::HashMap;
use std::marker::Model;

/// The definitions of some lines: how many threads and calls they have, the names of their processes, and the
/// labels of their names.
pub struct Scope {
    threads: u64,
    calls: u64,
    processes: Vec<Word>,
    labels: Vec<Label>,
    /// The index of the last label with each name.
    places: HashMap<String, usize>,
}

// Each place that drops one calls this. A derived drop would be repeated, and proved, at each of them.
impl Drop for Scope {
    fn drop(self) {
        let Scope {
            threads: _,
            calls: _,
            processes: _,
            labels: _,
            places: _,
        } = self;
    }
}

impl Model for Scope {
    ghost Value = { Names };

    ghost view = { λ a. record {
      threads = a.threads;
      calls = a.calls;
      processes = a.processes.items;
      labels = a.labels.items;
    } };

    ghost invariant = { λ a. HasPlaces (get_by_text a.places) a.labels.items };
}

/// Returns the number of a kind.
fn code(kind: LineKind) -> u8
    ensures { result ≡ code_of kind }
{
    match kind {
        LineKind::Thread => 0,
        LineKind::Channel => 1,
        LineKind::Connection => 2,
        LineKind::Message => 3,
        LineKind::Pulse => 4,
        LineKind::Call => 5,
    }
}

/// Returns whether two kinds are the same.
pub fn is_same_kind(a: LineKind, b: LineKind) -> bool
    ensures { result ≡ same_kind a b }
{
    code(a) == code(b)
}

fn is(word: &Word, name: &str) -> bool
    ensures { result ≡ bytes_eq word.now name.now }
{
    word.as_str() == name
}

/// Returns the index of the last label with each name.
fn places_of(alloc: Global, labels: &[Label]) -> Result<HashMap<String, usize>, AllocError>
    ensures { IfOk result (λ places. HasPlaces (get_by_text places) labels.now) }
{
    let mut places = HashMap::new(alloc);
    'labels: for (place, label) in labels.iter().enumerate() {
        places.insert(String::from_str(alloc, label.name.as_str())?, place)?;
    }
    Ok(places)
}

fn label_at(labels: &[Label], place: usize) -> Option<&Label>
    ensures { option_map (λ l. l.now) result ≡ slice_get labels.now place }
{
    labels.get(place)
}

/// Returns the first index of a name among the names of the processes.
fn found_process(processes: &[Word], name: &Word) -> Option<usize>
    ensures place { result ≡ position (λ p. bytes_eq p name.now) processes.now }
    ensures within { IfSome result (λ at. at < length processes.now) }
{
    processes.iter().position(|p| is(p, name.as_str()))
}

fn has_process(processes: &[Word], name: &Word) -> bool
    ensures { result ≡ list_any (λ p. bytes_eq p name.now) processes.now }
{
    processes.iter().any(|p| is(p, name.as_str()))
}

/// Returns the index of a name among the names of the processes, or their number if it isn't one of them.
#[tactic(auto, using(crate::proofs::Places::place_some, crate::proofs::Places::place_none))]
fn process_place(processes: &[Word], name: &Word) -> usize
    ensures place { result ≡ position_or_len (λ p. bytes_eq p name.now) processes.now }
    ensures within { result ≤ length processes.now }
{
    match found_process(processes, name) {
        Some(at) => at,
        None => processes.len(),
    }
}

fn number_of_process(processes: &[Word], process: &Process) -> u64
    requires { length processes.now < 2 ^ 63 }
    ensures { result ≡ process_number processes.now process.now }
{
    match process {
        Process::Number(number) => *number,
        Process::Name(name) => process_place(processes, name) as u64 + 1,
    }
}

/// Adds a name to the names of the processes, unless it is one of them.
fn add_name(alloc: Global, processes: &mut Vec<Word>, name: &Word) -> Result<(), AllocError>
    ensures { OnOk result (processes.new.items ≡ with_name processes.old.items name.now) }
{
    if has_process(processes.as_slice(), name) {
        return Ok(());
    }
    processes.push(name.copied(alloc)?)?;
    Ok(())
}

/// Adds the name of a process, if it has a name and the name is new.
fn add_process(
    alloc: Global,
    processes: &mut Vec<Word>,
    process: &Process,
) -> Result<(), AllocError>
    ensures { OnOk result (processes.new.items ≡ with_process processes.old.items process.now) }
{
    match process {
        Process::Number(_) => Ok(()),
        Process::Name(name) => add_name(alloc, processes, name),
    }
}

impl Scope {
    /// Returns the scope above the first line, which has no definitions.
    pub fn new(alloc: Global) -> Scope
        ensures { result ≡ none }
    {
        Scope {
            threads: 0,
            calls: 0,
            processes: Vec::new(alloc),
            labels: Vec::new(alloc),
            places: HashMap::new(alloc),
        }
    }

    /// Returns whether the scope can count one more line. It always can, since a text has fewer lines.
    pub fn has_room(&self) -> bool
        ensures threads { result ≡ true → self.now.threads < 2 ^ 63 }
        ensures calls { result ≡ true → self.now.calls < 2 ^ 63 }
        ensures processes { result ≡ true → length self.now.processes < 2 ^ 63 }
    {
        let most = u64::MAX / 2;
        self.threads < most && self.calls < most && (self.processes.len() as u64) < most
    }

    /// Returns the size of the scope, to which `go_back` can return.
    pub fn extent(&self) -> (u64, u64, usize, usize) {
        let processes = self.processes.len();
        (self.threads, self.calls, processes, self.labels.len())
    }

    /// Removes the lines that were added since the scope had this size.
    pub fn go_back(
        &mut self,
        alloc: Global,
        extent: (u64, u64, usize, usize),
    ) -> Result<(), AllocError> {
        let (threads, calls, processes, labels) = extent;
        let kept = labels.min(self.labels.len());
        let places = places_of(alloc, &self.labels.as_slice()[..kept])?;
        self.threads = threads;
        self.calls = calls;
        self.processes.truncate(processes);
        self.labels.truncate(kept);
        self.places = places;
        Ok(())
    }

    /// Returns the labels of the lines so far, in order.
    pub fn labels(&self) -> &[Label]
        ensures { result.now ≡ self.now.labels }
    {
        self.labels.as_slice()
    }

    /// Returns the names of the processes. The first is the name of process 1.
    pub fn process_names(&self) -> &[Word]
        ensures { result.now ≡ self.now.processes }
    {
        self.processes.as_slice()
    }

    /// Returns the number of the process with this name, or 0 if no line has it.
    pub fn process_named(&self, name: &Word) -> u64 {
        let found = found_process(self.processes.as_slice(), name);
        found.map_or(0, |at| (at as u64).saturating_add(1))
    }

    /// Returns the name of the call with this number, or of the thread with this number if `of_thread` is
    /// set.
    pub fn name_of(&self, of_thread: bool, number: u64) -> Option<&Word> {
        let mut labels = self.labels.iter();
        let is_of = |label: &&Label| (label.kind == LineKind::Thread) == of_thread;
        let label = labels.find(|label| label.number == number && is_of(label))?;
        Some(&label.name)
    }

    /// Returns the last label with this name.
    pub fn latest(&self, name: &Word) -> Option<&Label>
        ensures { option_map (λ l. l.now) result ≡ latest name.now self.now.labels }
    {
        match self.places.get(name.as_str()) {
            Some(place) => label_at(self.labels.as_slice(), *place),
            None => None,
        }
    }

    /// Returns the number of a name, or 0 if it isn't defined.
    pub fn number(&self, name: &Word) -> u64
        ensures { result ≡ number_of name.now self.now.labels }
    {
        match self.latest(name) {
            Some(label) => label.number,
            None => 0,
        }
    }

    /// Returns the number of a thread whose line is the next line.
    pub fn thread(&self, line: &ThreadLine) -> u64
        requires { self.now.threads < 2 ^ 63 }
        ensures { result ≡ thread_number self.now line.now }
    {
        line.thread.unwrap_or(self.threads + 1)
    }

    /// Returns the number of the process of the next thread line.
    pub fn process(&self, process: &Process) -> u64
        requires { length self.now.processes < 2 ^ 63 }
        ensures { result ≡ process_number self.now.processes process.now }
    {
        number_of_process(self.processes.as_slice(), process)
    }

    /// Adds a line.
    pub fn add(&mut self, alloc: Global, line: &NamedLine) -> Result<(), AllocError>
        requires threads { self.old.threads < 2 ^ 63 }
        requires calls { self.old.calls < 2 ^ 63 }
        requires processes { length self.old.processes < 2 ^ 63 }
        ensures { OnOk result (self.new ≡ with_line self.old line.now) }
    {
        match line {
            NamedLine::Aside(_) | NamedLine::State(_) => Ok(()),
            NamedLine::Thread(thread) => self.add_thread(alloc, thread),
            NamedLine::Call(call) => {
                self.calls += 1;
                self.add_label(alloc, &call.definition, self.calls)
            }
        }
    }

    fn add_thread(&mut self, alloc: Global, line: &ThreadLine) -> Result<(), AllocError>
        requires { self.old.threads < 2 ^ 63 }
        ensures { OnOk result (self.new ≡ with_line self.old (NamedLine.Thread line.now)) }
    {
        let number = self.thread(line);
        self.threads += 1;
        add_process(alloc, &mut self.processes, &line.process)?;
        self.add_label(alloc, &line.definition, number)
    }

    /// Adds a line's definition, if it has one.
    fn add_label(
        &mut self,
        alloc: Global,
        definition: &Option<Definition>,
        number: u64,
    ) -> Result<(), AllocError>
        ensures { OnOk result (self.new ≡ record self.old {
          labels = with_label definition.now number self.old.labels;
        }) }
    {
        let Some(definition) = definition else {
            return Ok(());
        };
        let label = Label {
            name: definition.name.copied(alloc)?,
            kind: definition.kind,
            number,
            line: definition.place.line,
        };
        let name = String::from_str(alloc, definition.name.as_str())?;
        self.labels.reserve(1)?;
        self.places.insert(name, self.labels.len())?;
        self.labels.push_reserved(label);
        Ok(())
    }
}
