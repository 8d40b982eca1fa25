//! Unproved: words and layout. Reports on examples, in words and as JSON.

use super::places::Example;
use crate::difference::Difference;
use crate::json::faults::{TextFault, list_of};
use crate::json::{Added, Record};
use serde_json::Value;
use std::alloc::{AllocError, Global};

/// A line of a script, from which a difference comes.
#[derive(Drop)]
pub struct Origin {
    /// Its number, counted from 1.
    pub line: usize,
    /// Its text for display.
    pub text: String,
}

/// The report on an example.
#[derive(Drop)]
pub struct ExampleReport {
    /// The word of the outcome, by which it is counted.
    pub outcome: &'static str,
    words: String,
    /// The first difference from the expected output.
    pub difference: Option<Difference>,
    /// The line of a script from which this difference comes.
    pub origin: Option<Origin>,
    /// The faults of the text, or the differences of its run from its expectations.
    pub faults: Vec<TextFault>,
}

impl ExampleReport {
    /// Returns a report without a difference and without faults.
    pub fn new(
        alloc: Global,
        outcome: &'static str,
        words: &str,
    ) -> Result<ExampleReport, AllocError> {
        Ok(ExampleReport {
            outcome,
            words: String::from_str(alloc, words)?,
            difference: None,
            origin: None,
            faults: Vec::new(alloc),
        })
    }

    /// Adds the report in words. The outcome is between these marks.
    pub fn push_words(
        &self,
        out: &mut String,
        example: &Example,
        (begin, end): (&str, &str),
    ) -> Added {
        let (name, words) = (&example.name, &self.words);
        write!(out, "{name}: {begin}{words}{end}\n")?;
        if let Some(difference) = &self.difference {
            write!(out, "{difference}\n")?;
        }
        if let Some(Origin { line, text }) = &self.origin {
            write!(out, "  script: line {line}: {text}\n")?;
        }
        for fault in &self.faults {
            let TextFault {
                line,
                column,
                message,
                ..
            } = fault;
            write!(out, "  {}:{line}:{column}: {message}\n", example.script)?;
            if let Some(explanation) = &fault.explanation {
                write!(out, "{explanation}\n")?;
            }
        }
        Ok(())
    }

    /// Returns the report as an object.
    pub fn record(&self, alloc: Global, example: &Example) -> Result<Value, AllocError> {
        let mut record = Record::new(alloc);
        record.set_text("name", example.name.as_str())?;
        record.set_text("file", example.script.as_str())?;
        record.set_text("outcome", self.outcome)?;
        if let Some(difference) = &self.difference {
            let difference = self.difference_record(alloc, difference)?;
            record.set("difference", difference)?;
        }
        if !self.faults.is_empty() {
            record.set("faults", list_of(alloc, self.faults.as_slice())?)?;
        }
        Ok(record.into_value())
    }

    /// Returns the difference as an object.
    fn difference_record(
        &self,
        alloc: Global,
        difference: &Difference,
    ) -> Result<Value, AllocError> {
        let mut record = Record::new(alloc);
        record.set("line", difference.line)?;
        record.set_text("found", difference.found())?;
        record.set_text("expected", difference.expected())?;
        if let Some(call) = difference.call() {
            record.set("call", call)?;
        }
        if let Some(origin) = &self.origin {
            record.set("script_line", origin.line)?;
        }
        Ok(record.into_value())
    }
}
