//! Unproved: words and layout. Reports the odd buffers of a run, why its calls failed, and which threads wait
//! at its end.

use crate::explained_run::ExplainedRun;
use crate::odd_buffer::OddBuffer;
use crate::waiting::Wait;
use qbase::ids::ThreadNo;
use qmodel::call::{Call, Mark};
use qscript::fault::ScriptFault;
use qscript::run::Run;
use qscript::{Script, parse};
use qscript_names::context::Context;
use qscript_names::named::MOST_FAULTS;
use qscript_names::scope::Scope;
use qscript_text::parts::call_lines;
use std::alloc::{AllocError, Global};

/// The greatest number of failures that are reported.
pub const MOST_REFUSALS: usize = 100;

/// The report of a run: its odd buffers, its failures with their reasons, and the threads that wait at its
/// end.
#[derive(Drop)]
pub struct RunReport {
    /// The first buffers that may be meant as lengths, at most `MOST_FAULTS`, each with the number of its
    /// line, counted from 1.
    pub odd_buffers: Vec<(usize, OddBuffer)>,
    /// The first failures, at most `MOST_REFUSALS`, each with the number of its line, counted from 1.
    pub refusals: Vec<(usize, String)>,
    /// The number of calls that failed.
    pub failures: usize,
    /// Which thread waits for which at the end, and the deadlocks among them.
    pub waits: Vec<String>,
}

/// Returns the trace that a script prints, and the report of the same run.
pub fn explained(alloc: Global, text: &[u8]) -> Result<(String, RunReport), ScriptFault> {
    let script = parse(alloc, text)?;
    let run = ReportedRun::new(alloc, &script, call_lines(alloc, text)?)?;
    let scope = Scope::new(alloc);
    Ok(run.end(Context::plain(alloc, &scope), script)?)
}

/// A run that continues call by call, and its report so far.
#[derive(Drop)]
pub struct ReportedRun {
    run: ExplainedRun,
    /// The numbers of the lines of its calls.
    lines: Vec<usize>,
    /// The number of calls made so far.
    made: u64,
    report: RunReport,
}

impl ReportedRun {
    /// Begins the run of a script whose calls have these line numbers.
    pub fn new(
        alloc: Global,
        script: &Script,
        lines: Vec<usize>,
    ) -> Result<ReportedRun, AllocError> {
        Ok(ReportedRun {
            run: ExplainedRun::new(alloc, script.roster.as_slice(), script.calls.len())?,
            lines,
            made: 0,
            report: RunReport {
                odd_buffers: Vec::new(alloc),
                refusals: Vec::new(alloc),
                failures: 0,
                waits: Vec::new(alloc),
            },
        })
    }

    /// Returns the run, for reading.
    pub fn run(&self) -> &Run {
        self.run.run()
    }

    /// Returns which thread waits for which now.
    pub fn waits(&self, alloc: Global) -> Result<Vec<Wait>, AllocError> {
        self.run.waits(alloc)
    }

    /// Makes the next call, and counts the failures in its event. Notes them, up to `MOST_REFUSALS` in all.
    pub fn make(
        &mut self,
        names: Context<'_>,
        thread: ThreadNo,
        call: Call,
    ) -> Result<(), AllocError> {
        self.run.make(thread, call).map_err(|_| AllocError)?;
        self.made = self.made.saturating_add(1);
        if let Some(buffer) = self.run.take_odd_buffer()
            && self.report.odd_buffers.len() < MOST_FAULTS
        {
            let line = self.line_of(self.made);
            self.report.odd_buffers.push((line, buffer))?;
        }
        let completions = self.run().completions().iter();
        let failed = completions.filter(|completion| matches!(completion.mark, Mark::Failed(_)));
        let count = failed.count();
        self.report.failures = self.report.failures.saturating_add(count);
        if count > 0 && self.report.refusals.len() < MOST_REFUSALS {
            for (number, refusal) in self.run.refusals(names)? {
                self.note(number, refusal)?;
            }
        }
        Ok(())
    }

    /// Notes a failure of the call with this number, unless `MOST_REFUSALS` are noted already.
    fn note(&mut self, number: u64, refusal: String) -> Result<(), AllocError> {
        if self.report.refusals.len() < MOST_REFUSALS {
            let line = self.line_of(number);
            self.report.refusals.push((line, refusal))?;
        }
        Ok(())
    }

    /// Returns the number of the line of the call with this number.
    fn line_of(&self, number: u64) -> usize {
        let place = number.saturating_sub(1) as usize;
        self.lines.get(place).copied().unwrap_or(0)
    }

    /// Makes the calls of its script, and returns the result of `finish`.
    fn end(
        mut self,
        names: Context<'_>,
        script: Script,
    ) -> Result<(String, RunReport), AllocError> {
        for (thread, call) in script.calls {
            self.make(names, thread, call)?;
        }
        self.finish(names)
    }

    /// Returns the trace that the run prints, and its report with the waits at its end.
    pub fn finish(mut self, names: Context<'_>) -> Result<(String, RunReport), AllocError> {
        self.report.waits = self.run.wait_words(names)?;
        Ok((self.run.into_run().finish(names.alloc)?, self.report))
    }
}
