//! Unproved: words and layout. The action of a line of a play.

use super::fault::PlayFault;
use qscript_text::grammar::call_form;
use qscript_text::near::quotation;
use qscript_text::reading::call::is;
use qscript_text::reading::words::next_word;

/// The action of a line of a play.
#[derive(Clone, Copy)]
pub enum PlayCommand<'a> {
    /// Print the state of each thread.
    State,
    /// Remove the last line.
    Undo,
    /// Write the lines so far into the file with this name. The name is empty if it is missing.
    Save(&'a [u8]),
    /// List the commands.
    Help,
    /// End the play.
    Quit,
    /// No action: the line is meant as a command, and faulty.
    Fault(PlayFault<'a>),
    /// Add the line to the script.
    Line,
}

/// A command, or a word that is only meant as one.
#[derive(Clone, Copy, PartialEq, Eq)]
enum CommandWord {
    State,
    Undo,
    Save,
    Help,
    Quit,
    Unknown,
}

/// The words of commands, and words that are often meant as commands.
const WORDS: [(&str, CommandWord); 22] = [
    ("state", CommandWord::State),
    ("undo", CommandWord::Undo),
    ("save", CommandWord::Save),
    ("help", CommandWord::Help),
    ("?", CommandWord::Help),
    ("quit", CommandWord::Quit),
    ("exit", CommandWord::Quit),
    ("q", CommandWord::Quit),
    ("redo", CommandWord::Unknown),
    ("load", CommandWord::Unknown),
    ("open", CommandWord::Unknown),
    ("run", CommandWord::Unknown),
    ("clear", CommandWord::Unknown),
    ("reset", CommandWord::Unknown),
    ("restart", CommandWord::Unknown),
    ("history", CommandWord::Unknown),
    ("list", CommandWord::Unknown),
    ("ls", CommandWord::Unknown),
    ("show", CommandWord::Unknown),
    ("print", CommandWord::Unknown),
    ("delete", CommandWord::Unknown),
    ("back", CommandWord::Unknown),
];

impl CommandWord {
    /// Returns the command with this word, in any case.
    fn of(word: &[u8]) -> Option<CommandWord> {
        for (name, command) in &WORDS {
            if word.eq_ignore_ascii_case(name.as_bytes()) {
                return Some(*command);
            }
        }
        None
    }

    /// Returns the action of a line that has only the word `first`.
    fn alone(self, first: &[u8]) -> PlayCommand<'_> {
        match self {
            CommandWord::State => PlayCommand::State,
            CommandWord::Undo => PlayCommand::Undo,
            CommandWord::Save => PlayCommand::Save(&[]),
            CommandWord::Help => PlayCommand::Help,
            CommandWord::Quit => PlayCommand::Quit,
            CommandWord::Unknown => PlayCommand::Fault(PlayFault::NoCommand(quotation(first))),
        }
    }

    /// Returns the fault of a line that has a second word. The word isn't one that a line of a script has
    /// there.
    fn fault<'a>(self, first: &'a [u8], second: &'a [u8]) -> PlayFault<'a> {
        match self {
            CommandWord::State => PlayFault::StateOf(quotation(second)),
            CommandWord::Undo => PlayFault::ExtraWord("undo"),
            CommandWord::Help => PlayFault::ExtraWord("help"),
            CommandWord::Quit => PlayFault::ExtraWord("quit"),
            CommandWord::Save => PlayFault::NoFile,
            CommandWord::Unknown => PlayFault::NoCommand(quotation(first)),
        }
    }
}

/// Returns whether a word can be the second word of a line of a script with names.
fn is_second(word: &[u8]) -> bool {
    is(word, "=") || is(word, "is") || call_form(word).is_some()
}

/// Returns the action of a line, which is given without its line end.
pub fn order_of(line: &[u8]) -> PlayCommand<'_> {
    let Some((first, rest)) = next_word(line) else {
        return PlayCommand::Line;
    };
    let Some(command) = CommandWord::of(first) else {
        return PlayCommand::Line;
    };
    let Some((second, rest)) = next_word(rest) else {
        return command.alone(first);
    };
    let is_last = next_word(rest).is_none();
    match command {
        CommandWord::Save if !is_last => PlayCommand::Save(&[]),
        CommandWord::Save => PlayCommand::Save(second),
        // A call without operands may be of a thread that is called help.
        CommandWord::Help if is_last && has_operands(second) => {
            PlayCommand::Fault(PlayFault::HelpOn(quotation(second)))
        }
        _ if is_second(second) => PlayCommand::Line,
        _ => PlayCommand::Fault(command.fault(first, second)),
    }
}

/// Returns whether a word is a call that has operands.
fn has_operands(word: &[u8]) -> bool {
    match call_form(word) {
        Some(form) => !form.operands.is_empty(),
        None => false,
    }
}
