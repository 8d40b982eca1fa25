//! Unproved: words and layout. Plays with a kernel: each line of the input is a line of a script or a
//! command, and is answered at once.

mod command;
mod fault;
pub mod transcript;

use crate::command::PlayRun;
use crate::completion::{end_failed, end_unwritten, tell_failed, tell_fault, tell_unread, text_of};
use crate::kinds::{OtherKind, TextKind};
use crate::names::is_named;
use crate::remarks;
use crate::remarks::FaultSource;
use command::{PlayCommand, order_of};
use fault::PlayFault;
use qscript::fault::{LineFault, ScriptFault};
use qscript_explain::explain;
use qscript_names::names_fault::NamesFault;
use qscript_text::place::Fault;
use std::alloc::AllocError;
use std::io::{BufRead, BufReader, Write};
use std::process::ExitCode;
use std::rt::Files;
use std::{fs, io, str};
use transcript::{Accepted, Transcript};

/// The text of `help`.
const HELP: &str = "  \
  thread THREAD PROCESS PRIORITY             a thread of the roster
  THREAD CALL OPERANDS                       a call; 'qdemo help script' lists all
  NAME = thread PROCESS PRIORITY             a thread with a name
  NAME = THREAD CALL OPERANDS -> COMPLETION  a named call with an expectation
  THREAD is STATE                            an expected state
  state                                      print each thread's state and priority
  undo                                       remove the last line, and print it
  save FILE                                  write the lines so far into FILE
  quit                                       end
";

/// A play: the script so far, and the state of the play.
#[derive(Drop)]
struct Play<'a, R> {
    rt: &'a R,
    sheet: Transcript,
    /// Whether the input is a terminal.
    terminal: bool,
    /// The number of lines read.
    lines: u64,
    /// Whether one of these lines was faulty.
    faulty: bool,
    /// Whether standard error has colours.
    colours: bool,
}

/// Plays with the script of a file, or without a script. Lines come from standard input. If standard input
/// isn't a terminal, the blocked threads are printed at its end, as at the end of a script. Then the status
/// is 1 if a line was faulty.
pub fn run_play<R: Files + Input + Print + Eprint + AllocGlobal>(
    rt: &R,
    run: &PlayRun,
    terminal: bool,
) -> Result<ExitCode, ExitCode> {
    let mut play = Play {
        rt,
        sheet: Transcript::new(rt.alloc(), run.names),
        terminal,
        lines: 0,
        faulty: false,
        colours: run.screen.colours.errors,
    };
    play.run(run.file.as_deref())
}

/// The methods fail if standard output can't be written, or if memory runs out.
impl<R: Files + Input + Print + Eprint + AllocGlobal> Play<'_, R> {
    /// Plays with the script of this file, or without a script.
    fn run(&mut self, file: Option<&str>) -> Result<ExitCode, ExitCode> {
        let rt = self.rt;
        if let Some(name) = file {
            let text = text_of(rt, Some(name))?;
            let taken = self.take_file(text.as_slice(), name);
            if !taken.map_err(|error| end_unwritten(rt, error))? {
                return Ok(ExitCode::FAILURE);
            }
        }
        self.go_on().map_err(|error| end_unwritten(rt, error))
    }

    /// Prints bytes unchanged.
    fn print(&self, bytes: &[u8]) -> io::Result<()> {
        io::writer(self.rt).write_all(bytes)
    }

    /// Begins with the script of a file, and returns whether it has no fault. Faults are reported as `script`
    /// reports them.
    fn take_file(&mut self, text: &[u8], name: &str) -> io::Result<bool> {
        let file = Some(name);
        let taken = if is_named(name) {
            Ok(self.sheet.add_named(text)?)
        } else {
            self.sheet.add_plain(text)
        };
        match taken {
            Ok(Accepted::Added(printed, faults)) => {
                self.print(printed.as_slice())?;
                self.tell_faults(faults.as_slice(), file, text);
                return Ok(true);
            }
            Ok(Accepted::Plain(..)) => self.tell_plain(name, text),
            Ok(Accepted::Named(faults)) => self.tell_named(name, text, faults.as_slice()),
            Err(ScriptFault::NoMemory) => return Err(AllocError.into()),
            Err(fault) => tell_failed(self.rt, format_args!("{name}: {fault}")),
        }
        Ok(false)
    }

    /// Reports the faults of a plain script in a file.
    fn tell_plain(&self, name: &str, text: &[u8]) {
        if !self.tell_other(name, text, TextKind::Plain) {
            let source = FaultSource::new(Some(name), text, self.terminal, self.colours);
            remarks::tell_faults(self.rt, source);
        }
    }

    /// Reports the faults of a script with names in a file.
    fn tell_named(&mut self, name: &str, text: &[u8], faults: &[Fault<NamesFault>]) {
        if !self.tell_other(name, text, TextKind::Named) {
            self.tell_faults(faults, Some(name), text);
        }
    }

    /// Names the command that reads a faulty text, if this is of another kind than `read`. Returns whether it
    /// is.
    fn tell_other(&self, name: &str, text: &[u8], read: TextKind) -> bool {
        let other = OtherKind::of(name, text, read);
        if let Some(other) = other {
            tell_fault(self.rt, self.colours, other);
        }
        other.is_some()
    }

    /// Reports faults of a script with names. Their places are in `text`, the text of a file or the lines
    /// read so far.
    fn tell_faults(&mut self, faults: &[Fault<NamesFault>], file: Option<&str>, text: &[u8]) {
        self.faulty = self.faulty || !faults.is_empty();
        let source = FaultSource::new(file, text, self.terminal, self.colours);
        source.tell_faults(self.rt, faults);
    }

    /// Reads lines and answers them, up to the end of the input or to `quit`. Returns the exit code.
    fn go_on(&mut self) -> io::Result<ExitCode> {
        let mut input = BufReader::new(self.rt.alloc(), self.rt.reader())?;
        for _ in 0..u64::MAX {
            if self.terminal {
                self.print(b"> ")?;
            }
            let mut line = Vec::new(self.rt.alloc());
            match input.read_until(b'\n', &mut line) {
                Ok(0) => break,
                Ok(_) => {}
                Err(error) if error.kind() == io::ErrorKind::OutOfMemory => return Err(error),
                Err(_) => return Ok(end_failed(self.rt, "read failed")),
            }
            if !self.answer(line.as_slice())? {
                break;
            }
        }
        self.finish()?;
        Ok(ExitCode::from(u8::from(self.faulty && !self.terminal)))
    }

    /// Does the action of a line, and returns whether the play continues.
    fn answer(&mut self, line: &[u8]) -> io::Result<bool> {
        self.lines = self.lines.saturating_add(1);
        match order_of(without_end(line)) {
            PlayCommand::Quit => return Ok(false),
            PlayCommand::Help => self.print(HELP.as_bytes())?,
            PlayCommand::State => {
                let states = self.sheet.session().states(self.sheet.shown())?;
                self.print(states.as_str().as_bytes())?;
            }
            PlayCommand::Undo => self.undo()?,
            PlayCommand::Save(name) => self.save(name),
            PlayCommand::Fault(why) => self.refuse(why),
            PlayCommand::Line => self.take(line)?,
        }
        Ok(true)
    }

    /// Removes the last line, and prints it.
    fn undo(&mut self) -> io::Result<()> {
        let Some(line) = self.sheet.undo()? else {
            self.refuse(PlayFault::NothingToUndo);
            return Ok(());
        };
        self.print(b"undo ")?;
        self.print(line.as_slice())?;
        self.print(b"\n")
    }

    /// Reports that the action of a line can't be done.
    fn refuse(&mut self, why: PlayFault<'_>) {
        self.faulty = true;
        if self.terminal {
            tell_fault(self.rt, self.colours, why);
        } else {
            let number = self.lines;
            tell_fault(self.rt, self.colours, format_args!("line {number}: {why}"));
        }
    }

    /// Writes the lines so far into a file.
    fn save(&mut self, name: &[u8]) {
        let name = match str::from_utf8(name) {
            Ok(name) if !name.is_empty() => name,
            _ => return self.refuse(PlayFault::NoFile),
        };
        if let Err(error) = fs::write(self.rt, name, self.sheet.text()) {
            self.faulty = true;
            tell_unread(self.rt, name, error);
        } else if self.sheet.has_names() && !is_named(name) {
            let why = format_args!("{name}: a script with names needs a file NAME.names to run");
            tell_failed(self.rt, why);
        }
    }

    /// Adds a line to the script, and prints its part of the trace.
    fn take(&mut self, line: &[u8]) -> io::Result<()> {
        match self.sheet.add(line) {
            Ok(Accepted::Added(printed, faults)) => {
                self.print(printed.as_slice())?;
                self.tell_typed(faults.as_slice(), &[])?;
                if self.terminal {
                    self.tell_odd_buffer(without_end(line))?;
                    self.tell_more()?;
                }
            }
            Ok(Accepted::Plain(number, fault)) => self.tell_fault(line, number, fault)?,
            Ok(Accepted::Named(faults)) => self.tell_typed(faults.as_slice(), line)?,
            Err(ScriptFault::NoMemory) => return Err(AllocError.into()),
            Err(_) => self.refuse(PlayFault::TooLong),
        }
        Ok(())
    }

    /// Returns the lines so far and this line after them. The line isn't added.
    fn text_with(&self, line: &[u8]) -> Result<Vec<u8>, AllocError> {
        let mut text = Vec::from_slice(self.rt.alloc(), self.sheet.text())?;
        text.extend_from_slice(line)?;
        Ok(text)
    }

    /// Reports faults of the lines so far and of this line after them.
    fn tell_typed(&mut self, faults: &[Fault<NamesFault>], line: &[u8]) -> io::Result<()> {
        if !faults.is_empty() {
            let text = self.text_with(line)?;
            self.tell_faults(faults, None, text.as_slice());
        }
        Ok(())
    }

    /// Reports the fault of a line of a plain script, and explains it.
    fn tell_fault(&mut self, line: &[u8], number: u64, fault: LineFault) -> io::Result<()> {
        self.refuse(PlayFault::Line(fault));
        let text = self.text_with(line)?;
        if let Some(explanation) = explain(self.rt.alloc(), text.as_slice(), number, fault)? {
            eprintln!(self.rt; "{}", explanation.text(self.rt.alloc())?)?;
        }
        Ok(())
    }

    /// Explains the buffer of the line's call if it may be meant as a length.
    fn tell_odd_buffer(&mut self, line: &[u8]) -> io::Result<()> {
        let Some(buffer) = self.sheet.take_odd_buffer() else {
            return Ok(());
        };
        if let Some(explanation) = buffer.explained(self.rt.alloc(), line)? {
            eprintln!(self.rt; "{}", explanation.text(self.rt.alloc())?)?;
        }
        Ok(())
    }

    /// Prints why calls failed, which threads are blocked now, and which threads wait in a circle.
    fn tell_more(&self) -> io::Result<()> {
        let names = self.sheet.shown();
        if let Some(run) = self.sheet.session().run() {
            for (_, failure) in &run.refusals(names)? {
                println!(self.rt; "  {failure}")?;
            }
            for wait in &run.wait_words(names)? {
                println!(self.rt; "  {wait}")?;
            }
        }
        Ok(())
    }

    /// Prints the blocked threads at the end, unless the input is a terminal, and the differences from the
    /// expectations.
    fn finish(&mut self) -> io::Result<()> {
        if !self.terminal {
            let blocked = self.sheet.session().blocked(self.sheet.shown())?;
            self.print(blocked.as_slice())?;
        }
        let faults = self.sheet.finish()?;
        self.tell_typed(faults.as_slice(), &[])
    }
}

fn without_end(line: &[u8]) -> &[u8] {
    match line {
        [front @ .., b'\r', b'\n'] => front,
        [front @ .., b'\n'] => front,
        _ => line,
    }
}
