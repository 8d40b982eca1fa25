//! Unproved: words and layout. The faults of the lines of a play, and their words.

use qscript::fault::LineFault;
use std::fmt;

/// The reason why the action of a line can't be done.
#[derive(Clone, Copy)]
pub enum PlayFault<'a> {
    /// The line of a plain script has this fault.
    Line(LineFault),
    /// With this line the script would be too long.
    TooLong,
    /// This command has a word after it.
    ExtraWord(&'static str),
    /// The command `state` has this word after it.
    StateOf(&'a str),
    /// The command `help` has this call after it.
    HelpOn(&'a str),
    /// The line is this word, which isn't a command.
    NoCommand(&'a str),
    /// There is no line to undo.
    NothingToUndo,
    /// The name of the file to save is missing.
    NoFile,
}

impl fmt::Display for PlayFault<'_> {
    fn fmt<W: fmt::Write>(&self, f: &mut fmt::Formatter<W>) -> fmt::Result {
        match self {
            PlayFault::Line(fault) => write!(f, "{fault}"),
            PlayFault::TooLong => f.write_str("script too long"),
            PlayFault::ExtraWord(command) => write!(f, "'{command}' takes no word"),
            PlayFault::StateOf(word) => write!(
                f,
                "'state' takes no word; for a call write 'THREAD state {word}'"
            ),
            PlayFault::HelpOn(call) => write!(f, "'qdemo help script' describes {call}"),
            PlayFault::NoCommand(word) => write!(
                f,
                "'{word}' isn't a command; the commands are state, undo, save FILE, help and quit"
            ),
            PlayFault::NothingToUndo => f.write_str("there is no line to undo"),
            PlayFault::NoFile => f.write_str("expected 'save FILE'"),
        }
    }
}
