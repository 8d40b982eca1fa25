//! Unproved: words and layout. Keeps a script that grows line by line, and returns the part of the trace that
//! a line adds.

use crate::explained_run::ExplainedRun;
use crate::odd_buffer::OddBuffer;
use crate::states::states_of;
use qbase::errno::Errno;
use qbase::ids::ThreadNo;
use qmodel::call::Call;
use qscript::MOST_TEXT;
use qscript::fault::ScriptFault;
use qscript::printing::open_line::push_open;
use qscript_names::context::Context;
use qscript_text::fault::ParseError;
use qscript_text::parts::Lines;
pub use qscript_text::parts::last_line;
use qscript_text::reading::line::ScriptLine;
use qscript_text::reading::script::line_behind;
use qtables::member::Member;
use std::alloc::{AllocError, Global};
use std::mem;

/// The lines of a script so far, which have no fault, and its run, which continues with each line. The run
/// begins at the first call, since the lines of all threads come before it.
#[derive(Drop)]
pub struct ScriptSession {
    alloc: Global,
    text: Vec<u8>,
    /// The number of lines of the text.
    lines: u64,
    roster: Vec<Member>,
    run: Option<ExplainedRun>,
}

impl ScriptSession {
    /// Returns a session without lines.
    pub fn new(alloc: Global) -> ScriptSession {
        ScriptSession {
            alloc,
            text: Vec::new(alloc),
            lines: 0,
            roster: Vec::new(alloc),
            run: None,
        }
    }

    /// Returns the lines so far.
    pub fn text(&self) -> &[u8] {
        self.text.as_slice()
    }

    /// Returns the run, or `None` if no call is made yet.
    pub fn run(&self) -> Option<&ExplainedRun> {
        self.run.as_ref()
    }

    /// Returns the buffer of the latest call if it may be meant as a length. Returns it only once.
    pub fn take_odd_buffer(&mut self) -> Option<OddBuffer> {
        self.run.as_mut()?.take_odd_buffer()
    }

    /// Adds a thread whose line is read elsewhere, so that the text doesn't have it. It must come before the
    /// first call.
    pub fn add_member(&mut self, member: Member) -> Result<(), AllocError> {
        Ok(self.roster.push(member)?)
    }

    /// Makes a call whose line is read elsewhere, so that the text doesn't have it. The error is `NoThread`
    /// if its thread has no line. After `NoMemory` the session must not be used again.
    pub fn make(&mut self, thread: ThreadNo, call: Call) -> Result<(), Errno> {
        if self.run.is_none() {
            self.run = Some(ExplainedRun::new(self.alloc, self.roster.as_slice(), 0)?);
        }
        match &mut self.run {
            Some(run) => run.make(thread, call),
            None => Err(Errno::NoThread),
        }
    }

    /// Adds lines, and returns the part of the trace that they add, without the lines of blocked threads. If
    /// a line is faulty, no line is added. The line number of the error counts all lines of the session.
    /// After `NoMemory` the session must not be used again.
    pub fn add(&mut self, lines: &[u8]) -> Result<Vec<u8>, ScriptFault> {
        let (text, members) = (self.text.len(), self.roster.len());
        let count = self.lines;
        let added = self.try_add(lines);
        if added.is_err() {
            self.text.truncate(text);
            self.lines = count;
            self.roster.truncate(members);
        }
        added
    }

    /// Adds lines, and keeps them and their threads even if they are faulty.
    fn try_add(&mut self, lines: &[u8]) -> Result<Vec<u8>, ScriptFault> {
        let lines = if lines.is_empty() { b"\n" } else { lines };
        self.text.extend_from_slice(lines)?;
        if !lines.ends_with(b"\n") {
            self.text.push(b'\n')?;
        }
        if self.text.len() > MOST_TEXT {
            return Err(ScriptFault::TooLong);
        }
        let calls = self.read(lines)?;
        let shown = self.trace().len();
        for (thread, call) in calls {
            self.make(thread, call).map_err(|_| ScriptFault::NoMemory)?;
        }
        let new = self.trace().as_bytes().get(shown..).unwrap_or(&[]);
        Ok(Vec::from_slice(self.alloc, new)?)
    }

    /// Reads lines: counts them, adds their threads, and returns their calls.
    fn read(&mut self, lines: &[u8]) -> Result<Vec<(ThreadNo, Call)>, ScriptFault> {
        let mut calls = Vec::new(self.alloc);
        for line in Lines(lines) {
            self.lines = self.lines.saturating_add(1);
            let is_late = self.run.is_some() || !calls.is_empty();
            match line_behind(self.alloc, self.roster.as_slice(), is_late, line) {
                Ok(said) => self.keep(said, &mut calls)?,
                Err(ParseError::Memory) => return Err(ScriptFault::NoMemory),
                Err(ParseError::Fault(fault)) => {
                    let number = self.lines;
                    return Err(ScriptFault::Line { number, fault });
                }
            }
        }
        Ok(calls)
    }

    /// Adds the thread of a line to the roster, or its call to `calls`.
    fn keep(
        &mut self,
        said: ScriptLine,
        calls: &mut Vec<(ThreadNo, Call)>,
    ) -> Result<(), AllocError> {
        match said {
            ScriptLine::Blank => {}
            ScriptLine::Roster(member) => self.roster.push(member)?,
            ScriptLine::Call(thread, call) => calls.push((thread, call))?,
        }
        Ok(())
    }

    /// Returns the allocator of the session.
    pub fn alloc(&self) -> Global {
        self.alloc
    }

    /// Returns the trace so far: the lines of all completed calls.
    pub fn trace(&self) -> &str {
        self.run.as_ref().map_or("", |run| run.run().text())
    }

    /// Returns the lines of the threads that are blocked now.
    pub fn blocked(&self, names: Context<'_>) -> Result<Vec<u8>, AllocError> {
        let mut lines = String::new(self.alloc);
        if let Some(run) = &self.run {
            let blocked = run.run().kernel().blocked(self.alloc)?;
            if !names.is_plain() {
                names.push_blocked(&mut lines, blocked.as_slice())?;
            } else {
                for blocked in &blocked {
                    push_open(&mut lines, *blocked)?;
                }
            }
        }
        Vec::from_slice(self.alloc, lines.as_bytes())
    }

    /// Returns a line for each thread, in the order of their lines, with its current state and priority.
    pub fn states(&self, names: Context<'_>) -> Result<String, AllocError> {
        let members = self.roster.as_slice();
        match &self.run {
            Some(run) => states_of(names, run.run().kernel(), members),
            None => {
                let run = ExplainedRun::new(names.alloc, members, 0)?;
                states_of(names, run.run().kernel(), members)
            }
        }
    }

    /// Removes the last line that is neither empty nor a comment, and the lines after it. Returns that line,
    /// or `None` if there is none. The lines before it are run again.
    pub fn undo(&mut self) -> Result<Option<Vec<u8>>, ScriptFault> {
        let Some((start, line)) = last_line(self.text.as_slice()) else {
            return Ok(None);
        };
        let line = Vec::from_slice(self.alloc, line)?;
        let mut text = mem::replace(&mut self.text, Vec::new(self.alloc));
        text.truncate(start);
        *self = ScriptSession::new(self.alloc);
        if !text.is_empty() {
            self.add(text.as_slice())?;
        }
        Ok(Some(line))
    }
}
