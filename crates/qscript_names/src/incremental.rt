//! A script with names that grows line by line while it runs.

use crate::expectation::{Extent, StateCheck};
use crate::expecting::check::ExpectationCheck;
use crate::expecting::names::NameCheck;
use crate::label::NameFault;
use crate::line::NamedLine;
use crate::named::{NamedScript, line_fault, name_faults, process_faults, push_process_number};
use crate::names_fault::NamesFault;
use crate::reading::script::{Lined, lines_behind};
use crate::resolution::fault_of_line;
use crate::scope::Scope;
use crate::translation::content_after;
use qbase::ids::ThreadNo;
use qkernel::kernel::Kernel;
use qmodel::call::Call;
use qscript_text::Script;
use qscript_text::fault::ParseError;
use qscript_text::place::{Fault, Place};
use qscript_text::reading::line::ScriptLine;
use qtables::member::Member;
use std::alloc::{AllocError, Global};
use std::{mem, slice};

/// The lines of a script with names so far, and the comparison of its run with them.
#[derive(Drop)]
pub struct IncrementalScript {
    alloc: Global,
    pub check: ExpectationCheck,
    roster: Vec<Member>,
    /// The numbers that lines of threads have for their processes, with their places.
    processes: Vec<(Place, u64)>,
    /// The number of lines.
    lines: u64,
    /// The calls whose expectations have names that aren't defined yet.
    open: Vec<u64>,
}

/// The content that a line added to the run, or the faults of a line that wasn't added. A blank line adds
/// nothing, or a state that is compared.
pub type IncrementalStep = Result<ScriptLine, Faults>;

/// The faults of a line, or the differences from its expectations.
type Faults = Vec<Fault<NamesFault>>;

impl IncrementalScript {
    /// Returns a script without lines.
    pub fn new(alloc: Global) -> IncrementalScript {
        let (calls, states) = (Vec::new(alloc), Vec::new(alloc));
        IncrementalScript {
            alloc,
            check: ExpectationCheck::new(alloc, Scope::new(alloc), calls, states),
            roster: Vec::new(alloc),
            processes: Vec::new(alloc),
            lines: 0,
            open: Vec::new(alloc),
        }
    }

    /// Returns the lines of a script that was read, and its calls, which haven't been made yet.
    pub fn of(
        alloc: Global,
        named: NamedScript,
    ) -> Result<(IncrementalScript, Vec<(ThreadNo, Call)>), AllocError> {
        let Script { roster, calls } = named.script;
        let mut growing = IncrementalScript {
            alloc,
            check: named.check,
            roster,
            processes: named.processes,
            lines: named.lines,
            open: Vec::new(alloc),
        };
        growing.find_open()?;
        Ok((growing, calls))
    }

    /// Finds the calls whose expectations have names that aren't defined yet.
    fn find_open(&mut self) -> Result<(), AllocError> {
        for call in 1..=self.check.calls.len() as u64 {
            self.open.push(call)?;
        }
        let (_, open) = self.expectation_faults(Extent::Front, None)?;
        self.open = open;
        Ok(())
    }

    /// Returns the threads so far.
    pub fn roster(&self) -> &[Member] {
        self.roster.as_slice()
    }

    /// Returns the faults of the names in a line with a state and in the expectations of the calls in `open`.
    /// Also returns the numbers of those calls in `open` that still have undefined names.
    fn expectation_faults(
        &self,
        extent: Extent,
        state: Option<&StateCheck>,
    ) -> Result<(Faults, Vec<u64>), AllocError> {
        let mut open = Vec::new(self.alloc);
        let mut names = NameCheck::new(self.check.context(), extent);
        for call in &self.open {
            names.is_open = false;
            if let Some(expected) = self.check.at(*call) {
                names.call(expected)?;
            }
            if names.is_open {
                open.push(*call)?;
            }
        }
        if let Some(state) = state {
            names.state(state)?;
        }
        Ok((names.faults, open))
    }

    /// Adds a line, unless it is faulty. It may have its line end.
    pub fn add(&mut self, line: &[u8]) -> Result<IncrementalStep, AllocError> {
        let line = if line.is_empty() { b"\n" } else { line };
        let calls = self.check.calls.len() as u64;
        let mut lined = lines_behind(self.alloc, line, self.lines, calls)?;
        if !lined.faults.is_empty() {
            return Ok(Err(mem::replace(&mut lined.faults, Vec::new(self.alloc))));
        }
        let lines = mem::replace(&mut lined.lines, Vec::new(self.alloc));
        match lines.last() {
            Some(said) => self.add_said(said, &mut lined),
            None => Ok(Ok(ScriptLine::Blank)),
        }
    }

    /// Adds a line with its expectations, and removes it again if it is faulty.
    fn add_said(
        &mut self,
        said: &NamedLine,
        lined: &mut Lined,
    ) -> Result<IncrementalStep, AllocError> {
        let calls = self.check.calls.len();
        let states = self.check.states.len();
        let extent = self.check.scope.extent();
        let fault = fault_of_line(&self.check.scope, said);
        let roster = self.roster.as_slice();
        let content = content_after(self.alloc, roster, calls > 0, &self.check.scope, said);
        if !self.check.scope.has_room() {
            return Err(AllocError);
        }
        self.check.scope.add(self.alloc, said)?;
        self.lines = lined.count;
        self.check.calls.append(&mut lined.calls)?;
        self.check.states.append(&mut lined.states)?;
        let step = self.step(said, fault, content)?;
        if step.is_err() {
            self.lines = self.lines.saturating_sub(1);
            self.check.scope.go_back(self.alloc, extent)?;
            self.check.calls.truncate(calls);
            self.check.states.truncate(states);
        }
        Ok(step)
    }

    /// Returns the content that a line adds to the run, or its faults. `fault` is the fault of its names.
    fn step(
        &mut self,
        said: &NamedLine,
        fault: Option<NameFault>,
        content: Result<ScriptLine, ParseError>,
    ) -> Result<IncrementalStep, AllocError> {
        if let Some(fault) = fault {
            let context = self.check.context();
            return name_faults(slice::from_ref(said), context, &[fault]).map(Err);
        }
        match content {
            Ok(content) => match self.expected(said, &content) {
                Ok(faults) if faults.is_empty() => Ok(Ok(content)),
                faults => faults.map(Err),
            },
            Err(ParseError::Memory) => Err(AllocError),
            Err(ParseError::Fault(fault)) => line_fault(self.alloc, self.lines, fault).map(Err),
        }
    }

    /// Adds the process, the call or the thread of a line, or returns the faults of its process or of
    /// expectations.
    fn expected(&mut self, said: &NamedLine, content: &ScriptLine) -> Result<Faults, AllocError> {
        let numbers = self.processes.len();
        push_process_number(&mut self.processes, said)?;
        let processes = self.processes.as_slice();
        let faults = process_faults(self.alloc, processes, &self.check.scope)?;
        if faults.is_empty() {
            return self.open_faults(said, content);
        }
        self.processes.truncate(numbers);
        Ok(faults)
    }

    /// Adds the call or the thread of a line, or returns the faults of the names in expectations.
    fn open_faults(
        &mut self,
        said: &NamedLine,
        content: &ScriptLine,
    ) -> Result<Faults, AllocError> {
        let waiting = self.open.len();
        if let ScriptLine::Call(..) = content {
            self.open.push(self.check.calls.len() as u64)?;
        }
        let state = match said {
            NamedLine::State(_) => self.check.states.last(),
            _ => None,
        };
        let (faults, open) = self.expectation_faults(Extent::Front, state)?;
        if !faults.is_empty() {
            self.open.truncate(waiting);
            return Ok(faults);
        }
        self.open = open;
        if let ScriptLine::Roster(member) = content {
            self.roster.push(*member)?;
        }
        Ok(faults)
    }

    /// Returns the differences from the expectations at the end of the lines that weren't returned before.
    /// These are the names that still aren't defined. If there are none, they are the calls that should have
    /// completed.
    pub fn finish(&mut self, kernel: Option<&Kernel>) -> Result<Faults, AllocError> {
        let (faults, _) = self.expectation_faults(Extent::Whole, None)?;
        if !faults.is_empty() {
            return Ok(faults);
        }
        if let Some(kernel) = kernel {
            self.check.finish(kernel)?;
        }
        self.check.take_faults()
    }
}
