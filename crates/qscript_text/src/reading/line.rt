//! Reads one line.

ghost use Rattle.std.specs.Prelude.{◌≡◌};
ghost use Rattle.std.specs.List.{list_all};
ghost use Rattle.qscript_text.specs.Reading.Line.{is_text, call_line_of, roster_line_of, said_of, line_of};
ghost use Rattle.qscript_text.specs.Reading.Steps.{Gives};
ghost use Rattle.qscript_text.specs.Reading.Words.{words_of};

use crate::fault::{LineFault, ParseError};
use crate::reading::call::{call_named, is};
use crate::reading::forms::member;
use crate::reading::number::small;
use crate::reading::words::{first, next_word};
use qbase::ids::ThreadNo;
use qmodel::call::Call;
use qtables::member::Member;
use std::alloc::Global;

/// The most bytes of a line.
pub const MOST_BYTES: usize = 4096;

/// The content of one line.
#[derive(Drop)]
pub enum ScriptLine {
    /// No words, or a comment.
    Blank,
    /// A thread of the roster.
    Roster(Member),
    /// A call, and the thread that makes it.
    Call(ThreadNo, Call),
}

/// Reads a call line: the thread that calls, and its call.
#[tactic(auto, unfolding(crate::specs::Reading::Line::call_line_of))]
fn call_line(alloc: Global, caller: &[u8], rest: &[u8]) -> Result<ScriptLine, ParseError>
    ensures { Gives result (call_line_of caller.now (words_of rest.now)) }
{
    let thread = small(caller)?;
    let (word, operands) = first(rest)?;
    let call = call_named(alloc, word, operands)?;
    Ok(ScriptLine::Call(ThreadNo(thread), call))
}

/// Reads a roster line. It is refused if `is_late`, that is, if call lines are above it.
#[tactic(auto, unfolding(crate::specs::Reading::Line::roster_line_of))]
fn roster_line(is_late: bool, operands: &[u8]) -> Result<ScriptLine, LineFault>
    ensures { result ≡ roster_line_of is_late (words_of operands.now) }
{
    if is_late {
        return Err(LineFault::LateThread);
    }
    Ok(ScriptLine::Roster(member(operands)?))
}

/// Returns whether a line has only tabs and printable ASCII (32 to 126).
fn is_plain_text(line: &[u8]) -> bool
    ensures { result ≡ list_all is_text line.now }
{
    line.iter()
        .all(|b| *b == b'\t' || (*b >= 0x20 && *b <= 0x7e))
}

/// Reads a line of any length; `is_late` says whether call lines are above it.
#[tactic(auto, unfolding(crate::specs::Reading::Line::said_of))]
fn said(alloc: Global, is_late: bool, line: &[u8]) -> Result<ScriptLine, ParseError>
    ensures { Gives result (said_of is_late line.now (words_of line.now)) }
{
    let Some((first, rest)) = next_word(line) else {
        return Ok(ScriptLine::Blank);
    };
    if !first.is_empty() && first[0] == b'#' {
        return Ok(ScriptLine::Blank);
    }
    if !is_plain_text(line) {
        return Err(ParseError::Fault(LineFault::BadByte));
    }
    if is(first, "thread") {
        return Ok(roster_line(is_late, rest)?);
    }
    call_line(alloc, first, rest)
}

/// Reads a line, which may have at most 4,096 bytes; `is_late` says whether call lines are above it.
#[tactic(auto, unfolding(crate::specs::Reading::Line::line_of))]
pub fn line_said(alloc: Global, is_late: bool, line: &[u8]) -> Result<ScriptLine, ParseError>
    ensures { Gives result (line_of is_late line.now) }
{
    if line.len() > MOST_BYTES {
        return Err(ParseError::Fault(LineFault::LongLine));
    }
    said(alloc, is_late, line)
}
