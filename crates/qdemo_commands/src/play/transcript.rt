//! Unproved: words and layout. The lines of a play: a plain script, or a script with names from the first
//! line on that isn't plain.

use qbase::ids::ThreadNo;
use qkernel::kernel::Kernel;
use qmodel::call::Call;
use qscript::fault::{LineFault, ScriptFault};
use qscript_explain::odd_buffer::OddBuffer;
use qscript_explain::session::ScriptSession;
use qscript_names::context::Context;
use qscript_names::incremental::IncrementalScript;
use qscript_names::names_fault::NamesFault;
use qscript_names::scope::Scope;
use qscript_names::{NamedReading, read_so_far};
use qscript_text::MOST_TEXT;
use qscript_text::parts::{Lines, last_line};
use qscript_text::place::Fault;
use qscript_text::reading::line::ScriptLine;
use std::alloc::{AllocError, Global};

/// The outcome of adding lines.
#[derive(Drop)]
pub enum Accepted {
    /// The lines are added. The bytes are their part of the trace, without the lines of blocked threads. The
    /// faults are the differences from the expectations that weren't reported before.
    Added(Vec<u8>, Vec<Fault<NamesFault>>),
    /// The line with this number isn't a valid line of a plain script. It is counted from the first line of
    /// the sheet.
    Plain(u64, LineFault),
    /// The lines aren't valid lines of a script with names.
    Named(Vec<Fault<NamesFault>>),
}

/// Lines with names, as they were read, and their meaning.
#[derive(Drop)]
struct NamedLines {
    text: Vec<u8>,
    growing: IncrementalScript,
    /// The trace with names.
    trace: String,
}

/// The lines so far, and their run.
#[derive(Drop)]
pub struct Transcript {
    alloc: Global,
    session: ScriptSession,
    names: Option<NamedLines>,
    /// The lines of a plain script, read as lines with names. They are read when a line isn't plain.
    reader: IncrementalScript,
    /// The number of bytes of the lines that the reader has read.
    read: usize,
    /// Whether names are printed, once the lines have them.
    in_names: bool,
    no_names: Scope,
}

/// Returns whether a line has a sign that plain lines have only in comments: `=`, `->`, `;`, quotes or
/// brackets.
fn has_signs(line: &[u8]) -> bool {
    let mut before = b' ';
    for byte in line {
        match *byte {
            b'#' => return false,
            b'=' | b';' | b'"' | b'[' => return true,
            b'>' if before == b'-' => return true,
            _ => before = *byte,
        }
    }
    false
}

/// Appends lines to a text, with a line end after the last line.
fn push_lines(text: &mut Vec<u8>, lines: &[u8]) -> Result<(), AllocError> {
    text.extend_from_slice(lines)?;
    if lines.last() != Some(&b'\n') {
        text.push(b'\n')?;
    }
    Ok(())
}

/// Returns the kernel of a session, or `None` before its first call.
fn kernel_of(session: &ScriptSession) -> Option<&Kernel> {
    Some(session.run()?.run().kernel())
}

/// Returns the number of lines of a text in which each line has its end.
fn line_count(text: &[u8]) -> usize {
    text.iter().filter(|byte| **byte == b'\n').count()
}

/// Returns the number of bytes of the first `count` lines of a text.
fn lines_len(text: &[u8], count: usize) -> usize {
    let mut lines = Lines(text);
    for _ in 0..count {
        lines.next();
    }
    text.len().saturating_sub(lines.0.len())
}

impl NamedLines {
    /// Makes a call, and compares its completions with the expectations of the lines.
    fn make(
        &mut self,
        session: &mut ScriptSession,
        thread: ThreadNo,
        call: Call,
    ) -> Result<(), AllocError> {
        session.make(thread, call).map_err(|_| AllocError)?;
        if let Some(run) = session.run() {
            let completions = run.run().completions();
            self.growing.check.follow(run.run().kernel(), completions)?;
            self.growing.check.push_trace(&mut self.trace, completions)?;
        }
        Ok(())
    }

    /// Adds the threads to the run and makes the calls. Returns the differences from the expectations.
    fn make_all(
        &mut self,
        session: &mut ScriptSession,
        calls: Vec<(ThreadNo, Call)>,
    ) -> Result<Vec<Fault<NamesFault>>, AllocError> {
        for member in self.growing.roster() {
            session.add_member(*member)?;
        }
        self.growing.check.compare_states(None)?;
        for (thread, call) in calls {
            self.make(session, thread, call)?;
        }
        self.growing.check.take_faults()
    }

    /// Adds a line, and adds its content to the run, unless it is faulty. Returns its faults.
    fn add(
        &mut self,
        session: &mut ScriptSession,
        line: &[u8],
    ) -> Result<Vec<Fault<NamesFault>>, AllocError> {
        let read = match self.growing.add(line)? {
            Ok(read) => read,
            Err(faults) => return Ok(faults),
        };
        match read {
            ScriptLine::Roster(member) => session.add_member(member)?,
            ScriptLine::Call(thread, call) => self.make(session, thread, call)?,
            ScriptLine::Blank => self.growing.check.compare_states(kernel_of(session))?,
        }
        push_lines(&mut self.text, line)?;
        Ok(Vec::new(session.alloc()))
    }
}

impl Transcript {
    /// Returns a sheet without lines.
    pub fn new(alloc: Global, in_names: bool) -> Transcript {
        Transcript {
            alloc,
            session: ScriptSession::new(alloc),
            names: None,
            reader: IncrementalScript::new(alloc),
            read: 0,
            in_names,
            no_names: Scope::new(alloc),
        }
    }

    /// Returns the names that are printed: the names of the lines so far, or none.
    pub fn shown(&self) -> Context<'_> {
        match &self.names {
            Some(names) if self.in_names => names.growing.check.context(),
            _ => Context::plain(self.alloc, &self.no_names),
        }
    }

    /// Returns the trace of the lines so far.
    fn trace(&self) -> &[u8] {
        match &self.names {
            Some(names) if self.in_names => names.trace.as_bytes(),
            _ => self.session.trace().as_bytes(),
        }
    }

    /// Returns the run of the lines so far.
    pub fn session(&self) -> &ScriptSession {
        &self.session
    }

    /// Returns the buffer of the latest call if it may be meant as a length. Returns it only once.
    pub fn take_odd_buffer(&mut self) -> Option<OddBuffer> {
        self.session.take_odd_buffer()
    }

    /// Returns whether the lines so far are a script with names.
    pub fn has_names(&self) -> bool {
        self.names.is_some()
    }

    /// Returns the lines so far, as they were read.
    pub fn text(&self) -> &[u8] {
        match &self.names {
            Some(names) => names.text.as_slice(),
            None => self.session.text(),
        }
    }

    /// Adds a line of a plain script. If it isn't valid there, adds it as a line with names, and the lines
    /// are a script with names from then on.
    pub fn add(&mut self, line: &[u8]) -> Result<Accepted, ScriptFault> {
        if self.names.is_some() {
            return Ok(self.add_named_line(line)?);
        }
        let plain = self.add_plain(line)?;
        if !matches!(plain, Accepted::Plain(..)) {
            return Ok(plain);
        }
        match self.named_faults(line)? {
            None => {
                self.forget_read();
                Ok(self.add_named(line)?)
            }
            Some(faults) if has_signs(line) => Ok(Accepted::Named(faults)),
            Some(_) => Ok(plain),
        }
    }

    /// Lets the reader begin again at the first line.
    fn forget_read(&mut self) {
        self.reader = IncrementalScript::new(self.alloc);
        self.read = 0;
    }

    /// Returns the faults of a line after the lines of a plain script, read as a line with names, or `None`
    /// if it is valid. Then the reader has it, though it isn't one of the lines.
    fn named_faults(&mut self, line: &[u8]) -> Result<Option<Vec<Fault<NamesFault>>>, AllocError> {
        let text = self.session.text();
        for line in Lines(text.get(self.read..).unwrap_or(&[])) {
            let _ = self.reader.add(line)?;
        }
        self.read = text.len();
        Ok(self.reader.add(line)?.err())
    }

    /// Adds lines of a plain script.
    pub fn add_plain(&mut self, lines: &[u8]) -> Result<Accepted, ScriptFault> {
        match self.session.add(lines) {
            Ok(printed) => Ok(Accepted::Added(printed, Vec::new(self.alloc))),
            Err(ScriptFault::Line { number, fault }) => Ok(Accepted::Plain(number, fault)),
            Err(other) => Err(other),
        }
    }

    /// Adds a line to a script with names.
    fn add_named_line(&mut self, line: &[u8]) -> Result<Accepted, AllocError> {
        let shown = self.trace().len();
        match &mut self.names {
            Some(names) if names.text.len().saturating_add(line.len()) < MOST_TEXT => {
                let faults = names.add(&mut self.session, line)?;
                if !faults.is_empty() {
                    return Ok(Accepted::Named(faults));
                }
                let faults = names.growing.check.take_faults()?;
                self.added(shown, faults)
            }
            _ => self.add_named(line),
        }
    }

    /// Returns the outcome of lines that were added. `shown` is the length of the trace of the lines above
    /// them.
    fn added(&self, shown: usize, faults: Vec<Fault<NamesFault>>) -> Result<Accepted, AllocError> {
        let added = self.trace().get(shown..).unwrap_or(&[]);
        Ok(Accepted::Added(Vec::from_slice(self.alloc, added)?, faults))
    }

    /// Adds lines of a script with names. The script is run again from its first line.
    pub fn add_named(&mut self, lines: &[u8]) -> Result<Accepted, AllocError> {
        let mut text = Vec::from_slice(self.alloc, self.text())?;
        push_lines(&mut text, lines)?;
        self.run_again(text)
    }

    /// Runs a script with names from its first line, in place of the lines so far. If it is faulty, nothing
    /// changes.
    fn run_again(&mut self, text: Vec<u8>) -> Result<Accepted, AllocError> {
        let shown = line_count(self.trace());
        let named = match read_so_far(self.alloc, text.as_slice())? {
            NamedReading::Good(named) => named,
            NamedReading::Faulty(faults) => return Ok(Accepted::Named(faults)),
        };
        let (growing, calls) = IncrementalScript::of(self.alloc, named)?;
        let mut session = ScriptSession::new(self.alloc);
        let mut names = NamedLines {
            text,
            growing,
            trace: String::new(self.alloc),
        };
        let faults = names.make_all(&mut session, calls)?;
        self.session = session;
        self.names = Some(names);
        self.added(lines_len(self.trace(), shown), faults)
    }

    /// Removes the last line that is neither empty nor a comment, and returns it. The lines above it are run
    /// again.
    pub fn undo(&mut self) -> Result<Option<Vec<u8>>, AllocError> {
        if self.names.is_none() {
            self.forget_read();
            return self.session.undo().map_err(|_| AllocError);
        }
        let Some((start, line)) = last_line(self.text()) else {
            return Ok(None);
        };
        let line = Vec::from_slice(self.alloc, line)?;
        let mut front = Vec::from_slice(self.alloc, self.text())?;
        front.truncate(start);
        self.run_again(front)?;
        Ok(Some(line))
    }

    /// Returns the differences from the expectations at the end of the lines that weren't reported before.
    pub fn finish(&mut self) -> Result<Vec<Fault<NamesFault>>, AllocError> {
        match &mut self.names {
            Some(names) => names.growing.finish(kernel_of(&self.session)),
            None => Ok(Vec::new(self.alloc)),
        }
    }
}
