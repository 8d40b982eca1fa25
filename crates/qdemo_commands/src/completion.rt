//! Unproved: words and layout. Ends the program, with a status and a line on standard error.

use crate::colours::{Mood, marks};
use std::fmt::Display;
use std::io::{Read, Write};
use std::process::ExitCode;
use std::rt::Files;
use std::{fs, io};

/// The exit code of an action. An action that failed returns its exit code as an error.
pub type ExitResult = Result<ExitCode, ExitCode>;

/// Ends the program without a message, since nobody reads the output. The status is 141, as after SIGPIPE.
pub fn end_quietly() -> ExitCode {
    ExitCode::from(141)
}

/// Prints a line with the reason on standard error.
pub fn tell_failed<D: Display + Drop>(rt: &impl Eprint, why: D) {
    tell_fault(rt, false, why);
}

/// Prints a line with the reason on standard error, in colour if `has_colours` is set.
pub fn tell_fault<D: Display + Drop>(rt: &impl Eprint, has_colours: bool, why: D) {
    let (begin, end) = marks(Mood::Bad, has_colours);
    let _ = eprintln!(rt; "{begin}qdemo:{end} {why}");
}

/// Reports a file or folder that can't be read or written.
pub fn tell_unread(rt: &impl Eprint, path: &str, error: io::Error) {
    tell_failed(rt, format_args!("{path}: {error}"));
}

/// Prints a line with the reason, and returns this status.
pub fn end_with<D: Display + Drop>(rt: &impl Eprint, why: D, status: u8) -> ExitCode {
    tell_failed(rt, why);
    ExitCode::from(status)
}

/// Ends the program because reading, writing or memory failed.
pub fn end_failed<D: Display + Drop>(rt: &impl Eprint, why: D) -> ExitCode {
    end_with(rt, why, 3)
}

/// Ends the program because this file or folder can't be read.
pub fn end_unread(rt: &impl Eprint, path: &str, error: io::Error) -> ExitCode {
    end_failed(rt, format_args!("{path}: {error}"))
}

/// Ends the program because standard output can't be written, or because there is no memory.
pub fn end_unwritten(rt: &impl Eprint, error: io::Error) -> ExitCode {
    match error.kind() {
        io::ErrorKind::BrokenPipe => end_quietly(),
        io::ErrorKind::OutOfMemory => end_failed(rt, "out of memory"),
        _ => end_failed(rt, "write failed"),
    }
}

/// Returns the text of a file, or of standard input if there is none; the program ends if it can't be read.
pub fn text_of<R: Files + Input + Eprint + AllocGlobal>(
    rt: &R,
    file: Option<&str>,
) -> Result<Vec<u8>, ExitCode> {
    if let Some(name) = file {
        return fs::read(rt, name).map_err(|error| end_unread(rt, name, error));
    }
    let mut text = Vec::new(rt.alloc());
    let read = rt.reader().read_to_end(&mut text);
    read.map_err(|_| end_failed(rt, "read failed"))?;
    Ok(text)
}

/// Prints a text; the program ends if it can't be written.
pub fn print_text<R: Print + Eprint>(rt: &R, text: &str) -> Result<(), ExitCode> {
    let printed = io::writer(rt).write_all(text.as_bytes());
    printed.map_err(|error| end_unwritten(rt, error))
}

/// Writes a text into a file, or prints it if there is none; the program ends if it can't be written.
pub fn put_text<R: Files + Print + Eprint + AllocGlobal>(
    rt: &R,
    output: Option<&str>,
    text: &str,
) -> Result<(), ExitCode> {
    match output {
        None => print_text(rt, text),
        Some(name) => fs::write(rt, name, text).map_err(|error| end_unread(rt, name, error)),
    }
}
