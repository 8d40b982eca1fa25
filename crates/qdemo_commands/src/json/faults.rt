//! Unproved: words and layout. The faults of texts as JSON.

use crate::json::{Record, push_line};
use qscript_explain::faults::Remark;
use qscript_text::place::Fault;
use serde_json::Value;
use std::alloc::{AllocError, Global};
use std::fmt::Display;

/// A fault of a text, its place, and its explanation if there is one.
#[derive(Drop)]
pub struct TextFault {
    pub line: u64,
    pub column: u64,
    pub message: String,
    pub explanation: Option<String>,
}

impl TextFault {
    /// Returns the fault of a script with names or of a design.
    pub fn of<K: Display>(alloc: Global, fault: &Fault<K>) -> Result<TextFault, AllocError> {
        let kind = &fault.kind;
        let hint = fault.hint();
        Ok(TextFault {
            line: fault.place.line,
            column: fault.place.column,
            message: format!(in alloc; "{kind}{hint}")?,
            explanation: None,
        })
    }

    /// Returns the fault of a line of a plain script, with its explanation if `explains` is set.
    pub fn of_remark(
        alloc: Global,
        remark: &Remark<'_>,
        explains: bool,
    ) -> Result<TextFault, AllocError> {
        let message = match remark.fault {
            Some(fault) => format!(in alloc; "{fault}")?,
            None => String::new(alloc),
        };
        let explanation = if explains {
            Some(remark.explanation.text(alloc)?)
        } else {
            None
        };
        Ok(TextFault {
            line: remark.line as u64,
            column: remark.explanation.column() as u64,
            message,
            explanation,
        })
    }

    /// Returns the fault as an object.
    pub fn record(&self, alloc: Global) -> Result<Value, AllocError> {
        let mut record = Record::new(alloc);
        record.set("line", self.line)?;
        record.set("column", self.column)?;
        record.set_text("message", self.message.as_str())?;
        if let Some(explanation) = &self.explanation {
            record.set_text("explanation", explanation.as_str())?;
        }
        Ok(record.into_value())
    }
}

/// Returns the faults of a script with names or of a design.
pub fn faults_in<K: Display>(
    alloc: Global,
    faults: &[Fault<K>],
) -> Result<Vec<TextFault>, AllocError> {
    let mut list = Vec::new(alloc);
    for fault in faults {
        list.push(TextFault::of(alloc, fault)?)?;
    }
    Ok(list)
}

/// Returns the faults of a plain script, with explanations if `explains` is set.
pub fn faults_told(
    alloc: Global,
    remarks: &[Remark<'_>],
    explains: bool,
) -> Result<Vec<TextFault>, AllocError> {
    let mut list = Vec::new(alloc);
    for remark in remarks {
        list.push(TextFault::of_remark(alloc, remark, explains)?)?;
    }
    Ok(list)
}

/// Returns the list of these faults.
pub fn list_of(alloc: Global, faults: &[TextFault]) -> Result<Value, AllocError> {
    let mut list = Vec::new(alloc);
    for fault in faults {
        list.push(fault.record(alloc)?)?;
    }
    Ok(Value::Array(list))
}

/// Returns a line for each of these faults.
pub fn lines_of(alloc: Global, faults: &[TextFault]) -> Result<String, AllocError> {
    let mut out = String::new(alloc);
    for fault in faults {
        push_line(&mut out, &fault.record(alloc)?)?;
    }
    Ok(out)
}
