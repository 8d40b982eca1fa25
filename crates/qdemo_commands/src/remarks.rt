//! Unproved: words and layout. Writes remarks on a script to standard error: all its faults, its odd
//! buffers, why its calls failed, and who is blocked on whom.

use crate::colours::{Mood, marks};
use crate::completion::tell_fault;
use qscript_explain::excerpt::excerpt_of;
use qscript_explain::faults::{Remark, faults};
use qscript_explain::odd_buffer::OddBuffer;
use qscript_explain::report::RunReport;
use qscript_text::parts::{Lines, Span};
use qscript_text::place::Fault;
use std::fmt::Display;
use std::io;
use std::process::ExitCode;

/// The source of faults: its file's name, its text, whether faulty lines are shown, and whether errors have
/// colours.
#[derive(Clone, Copy)]
pub struct FaultSource<'a> {
    pub file: Option<&'a str>,
    pub text: &'a [u8],
    pub shows: bool,
    pub colours: bool,
}

impl<'a> FaultSource<'a> {
    /// Returns the source with these parts.
    pub fn new(
        file: Option<&'a str>,
        text: &'a [u8],
        shows: bool,
        colours: bool,
    ) -> FaultSource<'a> {
        FaultSource {
            file,
            text,
            shows,
            colours,
        }
    }

    /// Prints a line for each fault, and below it the faulty line with a mark, if `shows` is set.
    pub fn tell_faults<R: Eprint + AllocGlobal, K: Display>(self, rt: &R, faults: &[Fault<K>]) {
        for fault in faults {
            let (line, column) = (fault.place.line, fault.place.column);
            match self.file {
                Some(file) => tell_fault(rt, self.colours, format_args!("{file}:{fault}")),
                None => {
                    let (kind, hint) = (&fault.kind, fault.hint());
                    let told = format_args!("line {line}, column {column}: {kind}{hint}");
                    tell_fault(rt, self.colours, told);
                }
            }
            let number = line.saturating_sub(1) as usize;
            let (at, len) = (column.saturating_sub(1) as usize, 1);
            if self.shows
                && let Some(line) = Lines(self.text).nth(number)
                && let Ok(excerpt) = excerpt_of(rt.alloc(), line, Span { at, len })
            {
                let _ = eprintln!(rt; "{excerpt}");
            }
        }
    }

    /// Prints faults, and ends the program with status 1.
    pub fn end_faulty<R: Eprint + AllocGlobal, K: Display>(
        self,
        rt: &R,
        faults: &[Fault<K>],
    ) -> ExitCode {
        self.tell_faults(rt, faults);
        ExitCode::FAILURE
    }

    /// Prints `FILE:LINE:COLUMN: FAULT`, or `line LINE: FAULT` if the script has no file.
    fn tell_place<R: Eprint + AllocGlobal>(self, rt: &R, remark: &Remark<'_>) -> io::Result<()> {
        let line = remark.line;
        let column = remark.explanation.column();
        let place = match self.file {
            Some(name) => format!(in rt.alloc(); "{name}:{line}:{column}")?,
            None => format!(in rt.alloc(); "line {line}")?,
        };
        match remark.fault {
            Some(fault) => eprintln!(rt; "{place}: {fault}"),
            None => eprintln!(rt; "{place}: warning"),
        }
    }

    /// Explains a buffer of a script or a design that may be meant as a length, and prints its place.
    pub fn tell_odd_buffer<R: Eprint + AllocGlobal>(
        self,
        rt: &R,
        line: usize,
        buffer: OddBuffer,
    ) -> io::Result<()> {
        let text = Lines(self.text).nth(line.saturating_sub(1)).unwrap_or(&[]);
        let Some(explanation) = buffer.explained(rt.alloc(), text)? else {
            return Ok(());
        };
        let remark = Remark {
            line,
            fault: None,
            explanation,
        };
        self.tell_place(rt, &remark)?;
        eprintln!(rt; "{}", remark.explanation.text(rt.alloc())?)
    }

    /// Explains the odd buffers of a script, and prints why its calls failed and who is blocked on whom at
    /// its end.
    pub fn tell_report<R: Eprint + AllocGlobal>(
        self,
        rt: &R,
        report: &RunReport,
    ) -> io::Result<()> {
        for (line, buffer) in &report.odd_buffers {
            self.tell_odd_buffer(rt, *line, *buffer)?;
        }
        for (line, refusal) in &report.refusals {
            match self.file {
                Some(name) => eprintln!(rt; "{name}:{line}: {refusal}")?,
                None => eprintln!(rt; "line {line}: {refusal}")?,
            }
        }
        let more = report.failures.saturating_sub(report.refusals.len());
        if more > 0 {
            eprintln!(rt; "and {more} more failed")?;
        }
        for wait in &report.waits {
            eprintln!(rt; "{wait}")?;
        }
        Ok(())
    }
}

/// Prints the faults of a plain script. If `shows` is set, they are explained, at most twenty; otherwise only
/// the first is printed. Returns false if memory ran out or no fault was found.
pub fn tell_faults<R: Eprint + AllocGlobal>(rt: &R, source: FaultSource<'_>) -> bool {
    let Ok(remarks) = faults(rt.alloc(), source.text) else {
        return false;
    };
    let (begin, end) = marks(Mood::Bad, source.colours);
    for remark in &remarks {
        let _ = eprint!(rt; "{begin}qdemo:{end} ");
        let _ = source.tell_place(rt, remark);
        if !source.shows {
            break;
        }
        let Ok(text) = remark.explanation.text(rt.alloc()) else {
            return false;
        };
        let _ = eprintln!(rt; "{text}");
    }
    !remarks.is_empty()
}
