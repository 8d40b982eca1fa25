//! Resolves the names of a script: its threads and calls, and its plain script.

ghost use Rattle.std.specs.Prelude.{◌≡◌, ◌<◌, ◌^◌, [], ◌∷◌, ◌++◌, length, IfOk, IfErr, OnOk};
ghost use Rattle.std.specs.Prelude.{string_bytes};
ghost use Rattle.qscript_names.specs.Names.{none, with_line};
ghost use Rattle.qscript_names.specs.NameFaults.{line_fault, listed, name_faults};
ghost use Rattle.qscript_names.specs.Plain.{line_text, plain_text};
ghost use Rattle.qscript_names.specs.Resolution.{content_within, line_after};
ghost use Rattle.qscript_names.specs.Translation.{IsTranslation, IsRefusal, said_by, and_line, meaning_after};
ghost use Rattle.qscript_text.specs.Reading.Meaning.{Says};
ghost use Rattle.qscript_text.specs.Reading.Steps.{Gives};

use crate::label::NameFault;
use crate::line::NamedLine;
use crate::plain::push_line;
use crate::resolution::{content_within, fault_of_line};
use crate::scope::Scope;
use qscript_text::fault::{LineFault, ParseError, ScriptFault};
use qscript_text::reading::line::ScriptLine;
use qscript_text::{MOST_TEXT, Script};
use qtables::member::Member;
use std::alloc::{AllocError, Global};

/// The reason why lines can't run.
#[derive(Drop)]
pub enum Refusal {
    /// There is no memory for what the lines say.
    Memory,
    /// The faults of the names, and the definitions of the lines.
    Names {
        faults: Vec<NameFault>,
        scope: Scope,
    },
    /// The fault of a line, or the plain script is too long.
    Script(ScriptFault),
}

/// Lines that were read: their plain script, their threads and calls, and their faults. With faults of names
/// neither can be used, since an undefined name has the number 0 in it.
#[derive(Drop)]
pub struct ResolvedLines {
    pub text: String,
    pub script: Script,
    /// The number of the first faulty line, and its fault. The script has only the lines above it.
    pub fault: Option<(u64, LineFault)>,
    /// The first fault of the names of each line.
    pub faults: Vec<NameFault>,
    pub scope: Scope,
}

/// Adds the plain line of a line, and returns its length.
fn push_measured(
    alloc: Global,
    out: &mut String,
    scope: &Scope,
    line: &NamedLine,
) -> Result<usize, AllocError>
    requires threads { scope.now.threads < 2 ^ 63 }
    requires processes { length scope.now.processes < 2 ^ 63 }
    ensures text { OnOk result (string_bytes out.new ≡ string_bytes out.old ++ line_text scope.now line.now) }
    ensures len { IfOk result (λ len. len ≡ length (line_text scope.now line.now)) }
{
    let before = out.len();
    push_line(alloc, out, scope, line)?;
    Ok(out.len() - before)
}

/// Returns the content of a line that comes after this roster and the lines of a scope. `is_late` says
/// whether calls are among them.
pub fn content_after(
    alloc: Global,
    roster: &[Member],
    is_late: bool,
    scope: &Scope,
    line: &NamedLine,
) -> Result<ScriptLine, ParseError>
    ensures { Gives result (line_after scope.now line.now roster.now is_late) }
{
    if !scope.has_room() {
        return Err(ParseError::Memory);
    }
    let mut plain = String::new(alloc);
    let len = push_measured(alloc, &mut plain, scope, line)?;
    content_within(alloc, roster, is_late, scope, line, len)
}

impl ResolvedLines {
    /// Returns the resolution of no lines.
    fn new(alloc: Global) -> ResolvedLines
        ensures text { string_bytes result.text ≡ [] }
        ensures script { said_by result.fault result.script ≡ Says [] [] }
        ensures faults { result.faults.items ≡ [] }
        ensures scope { result.scope ≡ none }
    {
        ResolvedLines {
            text: String::new(alloc),
            script: Script::new(alloc),
            fault: None,
            faults: Vec::new(alloc),
            scope: Scope::new(alloc),
        }
    }

    /// Adds the content of a line, unless a line above it is faulty. The line has this number, and its plain
    /// line has `len` bytes.
    fn add_content(
        &mut self,
        alloc: Global,
        number: u64,
        line: &NamedLine,
        len: usize,
    ) -> Result<(), AllocError>
        requires threads { self.old.scope.threads < 2 ^ 63 }
        requires processes { length self.old.scope.processes < 2 ^ 63 }
        ensures script { OnOk result (said_by self.new.fault self.new.script
            ≡ and_line number (said_by self.old.fault self.old.script)
            (content_within len self.old.scope line.now)) }
        ensures text { self.new.text ≡ self.old.text }
        ensures faults { self.new.faults ≡ self.old.faults }
        ensures scope { self.new.scope ≡ self.old.scope }
    {
        if self.fault.is_some() {
            return Ok(());
        }
        let is_late = !self.script.calls.is_empty();
        let roster = self.script.roster.as_slice();
        match content_within(alloc, roster, is_late, &self.scope, line, len) {
            Ok(content) => self.script.add(content)?,
            Err(ParseError::Memory) => return Err(AllocError),
            Err(ParseError::Fault(fault)) => self.fault = Some((number, fault)),
        }
        Ok(())
    }

    /// Adds the line with this number.
    fn add(&mut self, alloc: Global, number: u64, line: &NamedLine) -> Result<(), AllocError>
        requires threads { self.old.scope.threads < 2 ^ 63 }
        requires calls { self.old.scope.calls < 2 ^ 63 }
        requires processes { length self.old.scope.processes < 2 ^ 63 }
        ensures text { OnOk result
            (string_bytes self.new.text ≡ string_bytes self.old.text ++ line_text self.old.scope line.now
            ++ 10 ∷ []) }
        ensures script { OnOk result (said_by self.new.fault self.new.script
            ≡ and_line number (said_by self.old.fault self.old.script)
            (line_after self.old.scope line.now)) }
        ensures faults { OnOk result
            (self.new.faults.items ≡ self.old.faults.items
            ++ listed (line_fault self.old.scope.labels line.now)) }
        ensures scope { OnOk result (self.new.scope ≡ with_line self.old.scope line.now) }
    {
        let len = push_measured(alloc, &mut self.text, &self.scope, line)?;
        self.text.push_str("\n")?;
        if let Some(fault) = fault_of_line(&self.scope, line) {
            self.faults.push(fault)?;
        }
        self.add_content(alloc, number, line, len)?;
        self.scope.add(alloc, line)
    }
}

/// Returns the plain script of these lines, their threads and calls, and the first fault of the names of each
/// line.
pub fn resolve(alloc: Global, lines: &[NamedLine]) -> Result<ResolvedLines, AllocError>
    ensures text { IfOk result (λ r. string_bytes r.text ≡ plain_text none lines.now) }
    ensures script { IfOk result
        (λ r. said_by r.fault r.script ≡ meaning_after none 0 (Says [] []) lines.now) }
    ensures faults { IfOk result (λ r. r.faults.items ≡ name_faults none lines.now) }
{
    let mut resolved = ResolvedLines::new(alloc);
    let mut number = 0u64;
    'lines: for line in lines {
        number += 1;
        resolved.add(alloc, number, line)?;
    }
    Ok(resolved)
}

/// Returns the plain script of these lines, and their threads and calls.
#[tactic(auto, unfolding(crate::specs::Translation::meaning_of))]
pub fn translate(alloc: Global, lines: &[NamedLine]) -> Result<ResolvedLines, Refusal>
    ensures ok { IfOk result (λ r. IsTranslation lines.now r) }
    ensures err { IfErr result (λ e. IsRefusal lines.now e) }
{
    let resolved = match resolve(alloc, lines) {
        Ok(resolved) => resolved,
        Err(_) => return Err(Refusal::Memory),
    };
    if !resolved.faults.is_empty() {
        return Err(Refusal::Names {
            faults: resolved.faults,
            scope: resolved.scope,
        });
    }
    if resolved.text.len() > MOST_TEXT {
        return Err(Refusal::Script(ScriptFault::TooLong));
    }
    match resolved.fault {
        None => Ok(resolved),
        Some((number, fault)) => Err(Refusal::Script(ScriptFault::Line { number, fault })),
    }
}
