//! Unproved: words and layout. Finds all faults of a text.

use crate::explanation::{Explanation, explain_line};
use qscript_names::hints::is_utf_16;
use qscript_names::named::MOST_FAULTS;
use qscript_text::fault::{LineFault, ParseError};
use qscript_text::parts::Lines;
use qscript_text::reading::line::ScriptLine;
use qscript_text::reading::number::small;
use qscript_text::reading::script::line_behind;
use qscript_text::reading::words::next_word;
use qtables::member::Member;
use std::alloc::{AllocError, Global};

/// A remark on a line: its number, counted from 1, its fault if it has one, and the explanation.
#[derive(Drop)]
pub struct Remark<'a> {
    pub line: usize,
    pub fault: Option<LineFault>,
    pub explanation: Explanation<'a>,
}

/// The facts from the lines so far on which the next lines depend.
#[derive(Drop)]
struct FaultReader {
    roster: Vec<Member>,
    /// The threads without a line that were reported, or whose lines are faulty.
    strangers: Vec<u8>,
    has_calls: bool,
}

/// Returns the faults of the lines of a text in order, at most `MOST_FAULTS`, or only the first of a text in
/// UTF-16. The first is the fault that a run reports. Lines after a faulty one are read too. A fault that
/// follows from an earlier one is left out if it is recognized.
pub fn faults(alloc: Global, text: &[u8]) -> Result<Vec<Remark<'_>>, AllocError> {
    let mut reader = FaultReader {
        roster: Vec::new(alloc),
        strangers: Vec::new(alloc),
        has_calls: false,
    };
    let most = if is_utf_16(text) { 1 } else { MOST_FAULTS };
    let mut remarks = Vec::new(alloc);
    for (at, line) in Lines(text).enumerate() {
        if let Some(fault) = reader.fault_of(alloc, line)? {
            remarks.push(Remark {
                line: at.saturating_add(1),
                fault: Some(fault),
                explanation: explain_line(alloc, text, line, fault)?,
            })?;
            if remarks.len() >= most {
                break;
            }
        }
    }
    Ok(remarks)
}

impl FaultReader {
    /// Returns the fault of the next line.
    fn fault_of(&mut self, alloc: Global, line: &[u8]) -> Result<Option<LineFault>, AllocError> {
        let said = match line_behind(alloc, self.roster.as_slice(), self.has_calls, line) {
            Ok(said) => said,
            Err(ParseError::Memory) => return Err(AllocError),
            Err(ParseError::Fault(fault)) => return self.untold(line, fault),
        };
        match &said {
            ScriptLine::Blank => {}
            ScriptLine::Roster(member) => self.roster.push(*member)?,
            ScriptLine::Call(..) => self.has_calls = true,
        }
        Ok(None)
    }

    /// Returns the fault of a line unless it follows from an earlier one. Guesses what the line was meant to
    /// be: a call if it begins with a number, otherwise the line of the thread that it names.
    fn untold(&mut self, line: &[u8], fault: LineFault) -> Result<Option<LineFault>, AllocError> {
        let Some((first, rest)) = next_word(line) else {
            return Ok(Some(fault));
        };
        if let Ok(thread) = small(first) {
            self.has_calls = true;
            if fault == LineFault::UnknownThread {
                if self.strangers.contains(&thread) {
                    return Ok(None);
                }
                self.strangers.push(thread)?;
            }
        } else if let Some((second, _)) = next_word(rest)
            && let Ok(thread) = small(second)
            && fault != LineFault::TooManyThreads
        {
            self.strangers.push(thread)?;
        }
        Ok(Some(fault))
    }
}
