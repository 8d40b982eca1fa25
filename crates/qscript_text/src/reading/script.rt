//! Reads the text of a script.

ghost use Rattle.std.specs.Prelude.{◌≡◌, ◌++◌, [], OnOk};
ghost use Rattle.std.specs.List.{cons_option};
ghost use Rattle.qscript_text.specs.Reading.Meaning.{of_line, member_in, call_in, is_in, line_after_roster};
ghost use Rattle.qscript_text.specs.Reading.Meaning.{line_behind, line_with, meaning, Means};
ghost use Rattle.qscript_text.specs.Reading.Steps.{Gives};

use crate::fault::{LineFault, ParseError, ScriptFault};
use crate::reading::line::{ScriptLine, line_said};
use crate::reading::lines::next_line;
use qbase::ids::ThreadNo;
use qmodel::call::Call;
use qtables::member::Member;
use qtables::roster::THREAD_LIMIT;
use std::alloc::{AllocError, Global};

/// The most bytes that a script's text may have.
pub const MOST_TEXT: usize = 4_194_304;

/// The threads and the calls of a script, each in the order of its lines.
#[derive(Debug, Drop)]
pub struct Script {
    pub roster: Vec<Member>,
    pub calls: Vec<(ThreadNo, Call)>,
}

impl Script {
    /// Returns a script without threads and calls.
    pub fn new(alloc: Global) -> Script
        ensures roster { result.roster.items ≡ [] }
        ensures calls { result.calls.items ≡ [] }
    {
        Script {
            roster: Vec::new(alloc),
            calls: Vec::new(alloc),
        }
    }

    /// Adds the content of a line.
    pub fn add(&mut self, said: ScriptLine) -> Result<(), AllocError>
        ensures roster { OnOk result
            (self.new.roster.items ≡ self.old.roster.items ++ cons_option (member_in (Ok said)) []) }
        ensures calls { OnOk result
            (self.new.calls.items ≡ self.old.calls.items ++ cons_option (call_in (Ok said)) []) }
    {
        match said {
            ScriptLine::Blank => {}
            ScriptLine::Roster(member) => self.roster.push(member)?,
            ScriptLine::Call(thread, call) => self.calls.push((thread, call))?,
        }
        Ok(())
    }
}

/// Returns the error of the line with this number. An error of memory has no line.
fn at_line(number: u64, error: ParseError) -> ScriptFault
    ensures { result ≡ of_line number error }
{
    match error {
        ParseError::Memory => ScriptFault::NoMemory,
        ParseError::Fault(fault) => ScriptFault::Line { number, fault },
    }
}

fn has_thread(roster: &[Member], thread: ThreadNo) -> bool
    ensures { result ≡ is_in thread roster.now }
{
    roster.iter().any(|m| m.thread == thread)
}

/// Checks a line against the roster above it: no thread is listed twice, there are at most 64 threads, and
/// each caller is in the roster.
pub fn place(roster: &[Member], said: ScriptLine) -> Result<ScriptLine, LineFault>
    ensures { result ≡ line_after_roster roster.now said }
{
    match said {
        ScriptLine::Blank => Ok(ScriptLine::Blank),
        ScriptLine::Roster(member) => {
            if has_thread(roster, member.thread) {
                return Err(LineFault::DoubleThread);
            }
            if roster.len() >= THREAD_LIMIT {
                return Err(LineFault::TooManyThreads);
            }
            Ok(ScriptLine::Roster(member))
        }
        ScriptLine::Call(thread, call) => {
            if !has_thread(roster, thread) {
                return Err(LineFault::UnknownThread);
            }
            Ok(ScriptLine::Call(thread, call))
        }
    }
}

/// Reads a line after the lines of this roster. `is_late` says whether call lines are above it.
#[tactic(auto, unfolding(crate::specs::Reading::Meaning::line_behind))]
pub fn line_behind(
    alloc: Global,
    roster: &[Member],
    is_late: bool,
    line: &[u8],
) -> Result<ScriptLine, ParseError>
    ensures { Gives result (line_behind roster.now is_late line.now) }
{
    let said = line_said(alloc, is_late, line)?;
    let placed = place(roster, said)?;
    Ok(placed)
}

/// Reads a line after the lines of this script.
#[tactic(auto, unfolding(crate::specs::Reading::Meaning::line_with))]
fn line_after(alloc: Global, script: &Script, line: &[u8]) -> Result<ScriptLine, ParseError>
    ensures { Gives result (line_with script.now.roster.items script.now.calls.items line.now) }
{
    line_behind(
        alloc,
        script.roster.as_slice(),
        !script.calls.is_empty(),
        line,
    )
}

/// Reads the text of a script: returns its roster and its calls, or its first faulty line with its first
/// fault.
pub fn parse(alloc: Global, text: &[u8]) -> Result<Script, ScriptFault>
    ensures { Means result (meaning text.now) }
{
    if text.len() > MOST_TEXT {
        return Err(ScriptFault::TooLong);
    }
    let mut script = Script::new(alloc);
    let mut rest = text;
    let mut number = 0u64;
    'reading: while let Some(next) = next_line(rest) {
        let (line, after) = next;
        number += 1;
        let said = match line_after(alloc, &script, line) {
            Ok(said) => said,
            Err(error) => return Err(at_line(number, error)),
        };
        script.add(said)?;
        rest = after;
    }
    Ok(script)
}
