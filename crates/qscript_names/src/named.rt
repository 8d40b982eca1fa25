//! Reads and translates a script with names.

use crate::context::Context;
use crate::expectation::{Extent, StateCheck};
use crate::expecting::check::ExpectationCheck;
use crate::expecting::names::NameCheck;
use crate::hints::is_utf_16;
use crate::label::NameFault;
use crate::line::{CallLine, LineKind, NamedLine, Operand, Process};
use crate::names_fault::{FaultyName, NameUsage, NamesFault};
use crate::reading::script::{Lined, lines_behind};
use crate::scope::Scope;
use crate::translation::{Refusal, ResolvedLines, resolve, translate};
use qmodel::kind::CallKind;
use qscript_text::fault::{LineFault, ScriptFault};
use qscript_text::parts::Lines;
use qscript_text::place::{Fault, Place};
use qscript_text::word::Word;
use qscript_text::{MOST_TEXT, Script};
use std::alloc::{AllocError, Global};
use std::mem;

/// A script with names that can run.
#[derive(Drop)]
pub struct NamedScript {
    /// The plain script.
    pub text: String,
    /// Its threads and calls.
    pub script: Script,
    /// The expectations of its run.
    pub check: ExpectationCheck,
    /// The numbers that lines of threads have for their processes, with their places.
    pub processes: Vec<(Place, u64)>,
    /// The number of its lines.
    pub lines: u64,
}

/// The result of reading a script with names.
#[derive(Drop)]
pub enum NamedReading {
    /// It can run.
    Good(NamedScript),
    /// The faults, in the order of its lines, at most `MOST_FAULTS`.
    Faulty(Vec<Fault<NamesFault>>),
}

/// The most faults of a text that are reported.
pub const MOST_FAULTS: usize = 20;

/// The place of the first byte of a text.
const START: Place = Place { line: 1, column: 1 };

/// Faults, or an error if there is no memory for them.
type NamedFaults = Result<Vec<Fault<NamesFault>>, AllocError>;

/// Returns a list of one fault.
fn single(alloc: Global, place: Place, kind: NamesFault) -> NamedFaults {
    Ok(vec![in alloc; Fault::new(place, kind)]?)
}

/// A name in a line.
#[derive(Clone, Copy)]
struct NameLookup<'a> {
    name: &'a Word,
    /// The call that has it as an operand.
    call: Option<CallKind>,
    /// The kind that it must have.
    kind: LineKind,
}

impl NameLookup<'_> {
    /// Returns the way in which the line uses the name.
    fn usage(self) -> NameUsage {
        self.call.map_or(NameUsage::Caller, NameUsage::Operand)
    }
}

/// Returns the name that an operand has, if it is at this place. `call` is the call that has the operand.
fn use_by<'a>(
    operand: &'a Operand,
    call: Option<CallKind>,
    place: Place,
) -> Option<NameLookup<'a>> {
    match operand {
        Operand::Name(mention) if mention.place == place => Some(NameLookup {
            name: &mention.name,
            call,
            kind: mention.expected,
        }),
        _ => None,
    }
}

/// Returns the use of a name at a place of a call's line.
fn use_in<'a>(call: &'a CallLine, place: Place) -> Option<NameLookup<'a>> {
    for operand in &call.operands {
        let used = use_by(operand, Some(call.kind), place);
        if used.is_some() {
            return used;
        }
    }
    use_by(&call.caller, None, place)
}

/// Returns the use of a name at a place, or its definition.
fn use_at<'a>(lines: &'a [NamedLine], place: Place) -> Option<NameLookup<'a>> {
    for line in lines {
        let (definition, used) = match line {
            NamedLine::Aside(_) | NamedLine::State(_) => continue,
            NamedLine::Thread(thread) => (&thread.definition, None),
            NamedLine::Call(call) => (&call.definition, use_in(call, place)),
        };
        match definition {
            _ if used.is_some() => return used,
            Some(definition) if definition.place == place => {
                return Some(NameLookup {
                    name: &definition.name,
                    call: None,
                    kind: definition.kind,
                });
            }
            _ => {}
        }
    }
    None
}

/// Returns the first faults of the names of the lines.
pub fn name_faults(lines: &[NamedLine], context: Context<'_>, faults: &[NameFault]) -> NamedFaults {
    let mut told = Vec::new(context.alloc);
    for fault in faults.iter().take(MOST_FAULTS) {
        let place = fault.place;
        if let Some(used) = use_at(lines, place) {
            let name = context.faulty_name(used.name, used.usage(), used.kind, fault.error)?;
            told.push(Fault::new(place, NamesFault::Name(name)))?;
        }
    }
    Ok(told)
}

/// Returns the faults of the names in the expectations.
fn expectation_faults(context: Context<'_>, states: &[StateCheck], extent: Extent) -> NamedFaults {
    let mut names = NameCheck::new(context, extent);
    for call in context.calls {
        names.call(call)?;
    }
    for state in states {
        names.state(state)?;
    }
    Ok(names.faults)
}

/// Adds the number that the line of a thread has for its process, with its place.
pub fn push_process_number(
    numbers: &mut Vec<(Place, u64)>,
    line: &NamedLine,
) -> Result<(), AllocError> {
    if let NamedLine::Thread(thread) = line
        && let Process::Number(number) = &thread.process
    {
        numbers.push((thread.place, *number))?;
    }
    Ok(())
}

/// Returns the faults of process numbers: a line has the number of a process that has a name.
pub fn process_faults(alloc: Global, numbers: &[(Place, u64)], scope: &Scope) -> NamedFaults {
    let mut faults = Vec::new(alloc);
    for (place, number) in numbers {
        let at = number.wrapping_sub(1) as usize;
        if let Some(name) = scope.process_names().get(at) {
            let name = FaultyName::ProcessNumber(name.copied(alloc)?);
            faults.push(Fault::new(*place, NamesFault::Name(name)))?;
        }
    }
    Ok(faults)
}

/// Returns the fault of the content of the line with this number.
pub fn line_fault(alloc: Global, line: u64, fault: LineFault) -> NamedFaults {
    single(alloc, Place { line, column: 1 }, NamesFault::Plain(fault))
}

/// Returns the faults of lines whose names can't be resolved.
fn refusal_faults(alloc: Global, lined: &Lined, refusal: Refusal) -> NamedFaults {
    match refusal {
        Refusal::Memory | Refusal::Script(ScriptFault::NoMemory) => Err(AllocError),
        Refusal::Names { faults, scope } => {
            let context = lined.context(&scope);
            name_faults(lined.lines.as_slice(), context, faults.as_slice())
        }
        Refusal::Script(ScriptFault::Line { number, fault }) => line_fault(alloc, number, fault),
        Refusal::Script(fault) => single(alloc, START, NamesFault::Script(fault)),
    }
}

/// Returns whether a fault is about an undefined name that occurs in one of these faulty lines. Such a fault
/// may only be a consequence of theirs.
fn follows(fault: &NamesFault, faulty: &[&[u8]]) -> bool {
    let NamesFault::Name(faulty_name) = fault else {
        return false;
    };
    let Some(name) = faulty_name.undefined() else {
        return false;
    };
    let is_end = |byte: &u8| !byte.is_ascii_alphanumeric() && !b"_-.".contains(byte);
    let mut lines = faulty.iter();
    lines.any(|line| line
        .split(is_end)
        .any(|word| word == name.as_str().as_bytes()))
}

/// Returns the faults of the names of these lines, which were resolved, and then the faults of the names in
/// their expectations.
fn resolved_faults(lined: &Lined, resolved: &ResolvedLines, extent: Extent) -> NamedFaults {
    let context = lined.context(&resolved.scope);
    let mut faults = name_faults(lined.lines.as_slice(), context, resolved.faults.as_slice())?;
    let mut unmet = expectation_faults(context, lined.states.as_slice(), extent)?;
    faults.append(&mut unmet)?;
    Ok(faults)
}

/// Returns those lines of a text that have these faults.
fn faulty_lines<'a>(
    alloc: Global,
    text: &'a [u8],
    faults: &[Fault<NamesFault>],
) -> Result<Vec<&'a [u8]>, AllocError> {
    let numbers = faults
        .iter()
        .map(|fault| fault.place.line.saturating_sub(1) as usize);
    numbers
        .map(|number| Lines(text).nth(number).unwrap_or(&[]))
        .collect(alloc)
}

/// Returns the faults of lines, and the faults of names in the other lines that aren't consequences of them.
fn all_faults(alloc: Global, text: &[u8], lined: &mut Lined, extent: Extent) -> NamedFaults {
    let most = if is_utf_16(text) { 1 } else { MOST_FAULTS };
    lined.faults.truncate(most);
    let faulty = faulty_lines(alloc, text, lined.faults.as_slice())?;
    let resolved = resolve(alloc, lined.lines.as_slice())?;
    let mut others = resolved_faults(lined, &resolved, extent)?;
    others.retain(|fault| !follows(&fault.kind, faulty.as_slice()));
    lined.faults.append(&mut others)?;
    lined.faults.sort_by_key(|fault| fault.place.line)?;
    lined.faults.truncate(MOST_FAULTS);
    Ok(mem::replace(&mut lined.faults, Vec::new(alloc)))
}

/// Reads the text of a script with names.
pub fn read(alloc: Global, text: &[u8]) -> Result<NamedReading, AllocError> {
    read_lines(alloc, text, Extent::Whole)
}

/// Reads the first lines of a script with names. A name in an expected result may be defined by a later line.
pub fn read_so_far(alloc: Global, text: &[u8]) -> Result<NamedReading, AllocError> {
    read_lines(alloc, text, Extent::Front)
}

/// Reads the lines of this part of a script.
fn read_lines(alloc: Global, text: &[u8], extent: Extent) -> Result<NamedReading, AllocError> {
    if text.len() > MOST_TEXT {
        let kind = NamesFault::Script(ScriptFault::TooLong);
        return single(alloc, START, kind).map(NamedReading::Faulty);
    }
    let mut lined = lines_behind(alloc, text, 0, 0)?;
    if lined.faults.is_empty() {
        read_lined(alloc, &mut lined, extent)
    } else {
        all_faults(alloc, text, &mut lined, extent).map(NamedReading::Faulty)
    }
}

/// Reads lines that have no faults of their own.
fn read_lined(
    alloc: Global,
    lined: &mut Lined,
    extent: Extent,
) -> Result<NamedReading, AllocError> {
    let resolved = match translate(alloc, lined.lines.as_slice()) {
        Ok(resolved) => resolved,
        Err(refusal) => return refusal_faults(alloc, lined, refusal).map(NamedReading::Faulty),
    };
    let calls = mem::replace(&mut lined.calls, Vec::new(alloc));
    let states = mem::replace(&mut lined.states, Vec::new(alloc));
    let mut named = NamedScript {
        text: resolved.text,
        script: resolved.script,
        check: ExpectationCheck::new(alloc, resolved.scope, calls, states),
        processes: Vec::new(alloc),
        lines: lined.count,
    };
    match add_processes(alloc, &mut named, lined.lines.as_slice(), extent) {
        Ok(faults) if faults.is_empty() => Ok(NamedReading::Good(named)),
        faults => faults.map(NamedReading::Faulty),
    }
}

/// Adds the process numbers of these lines, and returns their faults. If there are none, returns the faults
/// of the names in the expectations.
fn add_processes(
    alloc: Global,
    named: &mut NamedScript,
    lines: &[NamedLine],
    extent: Extent,
) -> NamedFaults {
    for line in lines {
        push_process_number(&mut named.processes, line)?;
    }
    let check = &named.check;
    let faults = process_faults(alloc, named.processes.as_slice(), &check.scope)?;
    if faults.is_empty() {
        return expectation_faults(check.context(), check.states.as_slice(), extent);
    }
    Ok(faults)
}
