//! Unproved: words and layout. Compares the output of scripts with their traces.

mod counts;
mod places;
mod report;

use crate::colours::{Mood, marks};
use crate::command::CheckRun;
use crate::completion::{end_unwritten, tell_unread};
use crate::designs::{is_design, words_of};
use crate::difference::{Difference, difference_of, without_returns};
use crate::example::{ExampleOutcome, outcome_of, printed};
use crate::json::faults::{faults_in, faults_told};
use crate::json::push_line;
use crate::names::{faults_of, is_named};
use counts::CheckCounts;
use places::Example;
use qscript::fault::ScriptFault;
use qscript_explain::faults::faults;
use qscript_text::parts::{Lines, call_lines};
use qscript_text::place::Fault;
use report::{ExampleReport, Origin};
use std::alloc::{AllocError, Global};
use std::fmt::Display;
use std::path::Path;
use std::process::ExitCode;
use std::rt::Files;
use std::{fs, io};

/// The most bytes of a line of a script that are shown.
const MOST_SHOWN: usize = 72;

/// A check: its options, and the counts so far.
#[derive(Drop)]
struct CheckRunner<'a, R> {
    rt: &'a R,
    run: &'a CheckRun,
    tally: CheckCounts,
}

/// Checks the scripts of these files and folders, and prints the counts. The status is 0 if each printed its
/// trace, 1 if one differs, is faulty or has no trace, and 3 if a file can't be read or written.
pub fn run_check<R: Files + Print + Eprint + AllocGlobal + Clone + Drop>(
    rt: &R,
    run: &CheckRun,
) -> Result<ExitCode, ExitCode> {
    let tally = CheckCounts::default();
    let mut check = CheckRunner { rt, run, tally };
    let checked = check.check_all();
    checked.map_err(|error| end_unwritten(rt, error))?;
    Ok(ExitCode::from(check.tally.status()))
}

/// The methods fail if standard output can't be written, or if memory runs out.
impl<R: Files + Print + Eprint + AllocGlobal + Clone + Drop> CheckRunner<'_, R> {
    /// Checks each script, and prints the counts.
    fn check_all(&mut self) -> io::Result<()> {
        let examples = self.examples()?;
        for example in &examples {
            match fs::read(self.rt, example.script.as_str()) {
                Ok(text) => self.check_one(example, text.as_slice())?,
                Err(error) => self.count_unread(example.script.as_str(), error)?,
            }
        }
        let tally = self.tally;
        if tally.has_some() && !self.run.json {
            println!(self.rt; "{tally}")?;
        }
        Ok(())
    }

    /// Checks the script or the design in this text.
    fn check_one(&mut self, example: &Example, text: &[u8]) -> io::Result<()> {
        let file = example.script.as_str();
        if is_named(file) {
            self.check_named(example, text)
        } else if is_design(file) {
            self.check_design(example, text)
        } else {
            self.check_plain(example, text)
        }
    }

    /// Runs a script with names, and prints the differences from its expectations.
    fn check_named(&mut self, example: &Example, text: &[u8]) -> io::Result<()> {
        let faults = faults_of(self.rt.alloc(), text)?;
        if faults.is_empty() {
            return self.tell_words(example, "same", "as it expects");
        }
        self.tell_faults(example, "differs", "not as it expects", faults.as_slice())
    }

    /// Reports an outcome of an example, and faults of its text.
    fn tell_faults<K: Display>(
        &mut self,
        example: &Example,
        outcome: &'static str,
        words: &str,
        faults: &[Fault<K>],
    ) -> io::Result<()> {
        let alloc = self.rt.alloc();
        let mut report = ExampleReport::new(alloc, outcome, words)?;
        report.faults = faults_in(alloc, faults)?;
        self.tell(example, &report)
    }

    /// Explores a design, and compares the output of the search with its verdict.
    fn check_design(&mut self, example: &Example, text: &[u8]) -> io::Result<()> {
        let name = example.name.as_str();
        // A verdict has only the file's name, so it doesn't depend on the folder.
        let file = Path::new(name).file_name().unwrap_or(name);
        let words = match words_of(self.rt.alloc(), file, text)? {
            Ok(words) => words,
            Err(faults) => return self.tell_faults(example, "faulty", "faulty", faults.as_slice()),
        };
        let words = words.as_str().as_bytes();
        match self.expected(example) {
            Ok(Some(verdict)) if verdict.as_slice() == words => self.tell_same(example),
            Ok(verdict) => self.settle(example, text, words, verdict),
            Err(error) => self.count_unread(example.trace.as_str(), error),
        }
    }

    /// Runs a script, and compares its output with its trace.
    fn check_plain(&mut self, example: &Example, text: &[u8]) -> io::Result<()> {
        let alloc = self.rt.alloc();
        let trace = match self.expected(example) {
            Ok(trace) => trace,
            Err(error) => return self.count_unread(example.trace.as_str(), error),
        };
        let outcome = match &trace {
            Some(trace) => outcome_of(alloc, text, trace.as_slice()),
            None => match printed(alloc, text) {
                Ok(found) => ExampleOutcome::Differs(found),
                Err(fault) => ExampleOutcome::Fault(fault),
            },
        };
        match outcome {
            ExampleOutcome::Same => self.tell_same(example),
            ExampleOutcome::Fault(fault) => self.tell_fault(example, text, fault),
            ExampleOutcome::Differs(found) => self.settle(example, text, found.as_slice(), trace),
        }
    }

    /// Returns the expected output of an example, or `None` if its file is missing.
    fn expected(&self, example: &Example) -> io::Result<Option<Vec<u8>>> {
        match fs::read(self.rt, example.trace.as_str()) {
            Ok(text) => Ok(Some(without_returns(self.rt.alloc(), text.as_slice())?)),
            Err(error) if error.kind() == io::ErrorKind::NotFound => Ok(None),
            Err(error) => Err(error),
        }
    }

    /// Reports that an example printed its expected output.
    fn tell_same(&mut self, example: &Example) -> io::Result<()> {
        let words = format!(in self.rt.alloc(); "as its {} says", example.what)?;
        self.tell_words(example, "same", words.as_str())
    }

    /// Reports an outcome of an example in these words.
    fn tell_words(
        &mut self,
        example: &Example,
        outcome: &'static str,
        words: &str,
    ) -> io::Result<()> {
        let report = ExampleReport::new(self.rt.alloc(), outcome, words)?;
        self.tell(example, &report)
    }

    /// Counts the outcome of an example, and prints its report: in words, or as an object of JSON.
    fn tell(&mut self, example: &Example, report: &ExampleReport) -> io::Result<()> {
        match (report.outcome, example.what) {
            ("without", "verdict") => self.tally.add("without a verdict"),
            (outcome, _) => self.tally.add(outcome),
        }
        let alloc = self.rt.alloc();
        let mut text = String::new(alloc);
        if self.run.json {
            push_line(&mut text, &report.record(alloc, example)?)?;
        } else {
            let mood = match report.outcome {
                "differs" | "faulty" => Mood::Bad,
                "without" => Mood::Unsure,
                _ => Mood::Good,
            };
            report.push_words(
                &mut text,
                example,
                marks(mood, self.run.screen.colours.output),
            )?;
        }
        print!(self.rt; "{text}")
    }

    /// Writes the output of an example over its expected output, if an update is requested. Otherwise reports
    /// the difference, or that there is no expected output.
    fn settle(
        &mut self,
        example: &Example,
        text: &[u8],
        found: &[u8],
        expected: Option<Vec<u8>>,
    ) -> io::Result<()> {
        let alloc = self.rt.alloc();
        let Example { what, trace, .. } = example;
        if self.run.update {
            return match fs::write(self.rt, trace.as_str(), found) {
                Ok(()) => {
                    let words = format!(in alloc; "{what} written")?;
                    self.tell_words(example, "written", words.as_str())
                }
                Err(error) => self.count_unread(trace.as_str(), error),
            };
        }
        match expected {
            Some(expected) => {
                let difference = difference_of(alloc, found, expected.as_slice())?;
                self.tell_difference(example, text, difference)
            }
            None => {
                let words = format!(in alloc; "no {what}; --update writes {trace}")?;
                self.tell_words(example, "without", words.as_str())
            }
        }
    }

    /// Reports the first difference of an example from its expected output, with the line of a script from
    /// which it comes.
    fn tell_difference(
        &mut self,
        example: &Example,
        text: &[u8],
        difference: Difference,
    ) -> io::Result<()> {
        let alloc = self.rt.alloc();
        let line = difference.line;
        let words = format!(in alloc; "differs from its {} at line {line}", example.what)?;
        let mut report = ExampleReport::new(alloc, "differs", words.as_str())?;
        if !is_design(example.script.as_str()) {
            report.origin = origin_of(alloc, text, &difference)?;
        }
        report.difference = Some(difference);
        self.tell(example, &report)
    }

    /// Reports why a script has no run: each faulty line with its place, and explained if explanations are
    /// requested.
    fn tell_fault(&mut self, example: &Example, text: &[u8], fault: ScriptFault) -> io::Result<()> {
        if fault.status() == 3 {
            return Err(io::Error::from(io::ErrorKind::OutOfMemory));
        }
        let alloc = self.rt.alloc();
        let ScriptFault::Line { .. } = fault else {
            let words = format!(in alloc; "{fault}")?;
            return self.tell_words(example, "faulty", words.as_str());
        };
        let mut report = ExampleReport::new(alloc, "faulty", "faulty")?;
        report.faults = faults_told(alloc, faults(alloc, text)?.as_slice(), self.run.explain)?;
        self.tell(example, &report)
    }

    /// Reports a file or folder that can't be read or written, and counts it.
    fn count_unread(&mut self, path: &str, error: io::Error) -> io::Result<()> {
        if error.kind() == io::ErrorKind::OutOfMemory {
            return Err(error);
        }
        tell_unread(self.rt, path, error);
        self.tally.add("unread");
        Ok(())
    }
}

/// Returns the line of a script from which a difference comes, if it is about a call.
fn origin_of(
    alloc: Global,
    script: &[u8],
    difference: &Difference,
) -> Result<Option<Origin>, AllocError> {
    let lines = call_lines(alloc, script)?;
    let call = difference.call();
    let at = call.map(|call| call.saturating_sub(1) as usize);
    let Some(number) = at.and_then(|at| lines.get(at)) else {
        return Ok(None);
    };
    let line = Lines(script).nth(number.saturating_sub(1)).unwrap_or(&[]);
    Ok(Some(Origin {
        line: *number,
        text: shown_part(alloc, line)?,
    }))
}

/// Returns the first bytes of a line for display. A byte that isn't printable is a space.
fn shown_part(alloc: Global, line: &[u8]) -> Result<String, AllocError> {
    let mut shown = String::new(alloc);
    for byte in line.iter().take(MOST_SHOWN) {
        match *byte {
            0x20..=0x7e => shown.push(*byte as char)?,
            _ => shown.push(' ')?,
        }
    }
    if line.len() > MOST_SHOWN {
        shown.push_str("..")?;
    }
    Ok(shown)
}
