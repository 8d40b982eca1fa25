//! Unproved: words and layout. The faults of scripts with names, and their words.

use crate::difference::Difference;
use crate::hints::words::{
    BytesHint, ExpectedError, ExpectedNumber, ExpectedOperand, ExtraHint, ForeignWord, UnknownCall,
    UnknownCompletion, flags_of,
};
use crate::line::LineKind;
use qmodel::kind::CallKind;
use qscript_text::fault::{LineFault, ScriptFault};
use qscript_text::grammar::Form;
use qscript_text::lexing::token::Token;
use qscript_text::place::{Fault, Place, ReadError, fault_at, fault_made};
use qscript_text::text_fault::{FoundToken, NearName, OperandCount, TextFault, UnknownWord};
use qscript_text::word::Word;
use std::alloc::Global;
use std::fmt;

/// A value that was read, or the error if there is none.
pub type NamesRead<T> = Result<T, ReadError<NamesFault>>;

/// The kind of a fault of a script with names, or of a difference of its run from its expectations.
pub enum NamesFault {
    Text(TextFault),
    /// A part of a line that isn't what its place expects.
    Found(FoundToken, NamesExpected),
    /// A line begins like a comment of another language.
    Comment,
    /// The line of a thread after a call. It has the line of the first call, if that is known.
    LateThread(Option<u64>),
    /// The line of a thread that has neither a name nor a number.
    NamelessThread,
    /// The line of a thread that has so many words after `thread`.
    ThreadWords(usize),
    /// A part of a line is missing.
    Missing(MissingPart),
    /// A call of this form has no caller.
    NoCaller(Form),
    /// A call is written like `server.receive(ch`: its thread and its form.
    Dotted(Word, Form),
    /// A line with a state lacks `is`. It has the right line.
    NoIs(Word),
    /// A call has too few or too many operands.
    Operands(OperandCount, Option<ExtraHint>),
    Call(UnknownCall),
    Completion(UnknownCompletion),
    Error(UnknownWord, ExpectedError),
    /// A word that isn't a flag, and the sum of the flags that are meant, if that is known.
    Flag(UnknownWord, Option<i32>),
    Name(FaultyName),
    /// The numbers of the line have this fault, as a line of a plain script has it.
    Plain(LineFault),
    Script(ScriptFault),
    Difference(Difference),
}

// Each place that drops one calls this. A derived drop would be repeated, and proved, at each of them.
impl Drop for NamesFault {
    fn drop(self) {
        match self {
            NamesFault::Text(_)
            | NamesFault::Found(_, _)
            | NamesFault::Comment
            | NamesFault::LateThread(_)
            | NamesFault::NamelessThread
            | NamesFault::ThreadWords(_)
            | NamesFault::Missing(_)
            | NamesFault::NoCaller(_)
            | NamesFault::Dotted(_, _)
            | NamesFault::NoIs(_)
            | NamesFault::Operands(_, _)
            | NamesFault::Call(_)
            | NamesFault::Completion(_)
            | NamesFault::Error(_, _)
            | NamesFault::Flag(_, _)
            | NamesFault::Name(_)
            | NamesFault::Plain(_)
            | NamesFault::Script(_)
            | NamesFault::Difference(_) => {}
        }
    }
}

/// The expected part of a line.
#[derive(Drop)]
pub enum NamesExpected {
    CallName,
    /// `thread`, which is misspelt.
    Thread,
    /// `=`, which is written as `:=`.
    Equals,
    /// `=`, which is written twice.
    OneEquals,
    /// What a script has in the place of a word of another language.
    Foreign(ForeignWord),
    /// A name that a line defines.
    Definition,
    Operand(ExpectedOperand),
    Bytes(Option<BytesHint>),
    /// The name or the number of a thing of this kind.
    Id(LineKind),
    /// The process of a thread.
    Process,
    /// The state of a thread, and the state that is meant, if that is known.
    State(Option<&'static str>),
    /// `on`, and the channel of a state.
    OnChannel,
    /// Nothing, since the thread is ready.
    NoChannel,
    Number(ExpectedNumber),
    /// The bytes of a completion.
    CompletionBytes(Option<BytesHint>),
    /// The end of a completion.
    CompletionEnd,
    /// The state of a thread in a completion.
    CompletionState,
    /// The content of a pulse in a completion.
    PulseContent,
}

/// A part of a line that is missing.
#[derive(Clone, Copy)]
pub enum MissingPart {
    /// A call, or its name.
    Call,
    /// The name before `=`.
    Name,
    /// The thread or the call after `=`.
    Definition,
    /// The completion after an arrow.
    Completion,
    /// The name and the completion after a semicolon.
    Follower,
    /// The state of a thread.
    State,
}

/// The fault of a name.
#[derive(Drop)]
pub enum FaultyName {
    /// No line above defines it. A line below may define it, or another name may be meant.
    Undefined {
        name: Word,
        below: Option<u64>,
        near: NearName,
    },
    /// No line of a thread has this process.
    UndefinedProcess(Word),
    /// It has another kind than its use needs.
    OtherKind(OtherKind),
    /// This line defines it already.
    Twice {
        name: Word,
        line: u64,
    },
    /// A process is given by its number, but has this name.
    ProcessNumber(Word),
}

/// A name of another kind than its use needs.
#[derive(Drop)]
pub struct OtherKind {
    pub name: Word,
    pub kind: LineKind,
    /// The word of the call that made the thing.
    pub made: &'static str,
    pub usage: NameUsage,
    pub expected: LineKind,
}

/// The way in which a line uses a name.
#[derive(Clone, Copy)]
pub enum NameUsage {
    /// As the caller, before a call.
    Caller,
    /// As an operand of this call.
    Operand(CallKind),
    /// In an expectation.
    Expectation,
}

impl FaultyName {
    /// Returns the name that no line defines, if that is the fault.
    pub fn undefined(&self) -> Option<&Word> {
        match self {
            FaultyName::Undefined { name, .. } | FaultyName::UndefinedProcess(name) => Some(name),
            _ => None,
        }
    }
}

/// Returns the error of a line's parts as one of a script with names.
pub fn of_text(error: ReadError<TextFault>) -> ReadError<NamesFault> {
    error.map(NamesFault::Text)
}

/// Returns the fault of a part that isn't what its place expects.
pub fn expected(alloc: Global, token: &Token<'_>, what: NamesExpected) -> ReadError<NamesFault> {
    let found = FoundToken::of(alloc, token);
    fault_made(
        token.place,
        found.map(|found| NamesFault::Found(found, what)),
    )
}

/// Returns the fault of a missing part at a place.
pub fn missing(place: Place, part: MissingPart) -> ReadError<NamesFault> {
    fault_at(place, NamesFault::Missing(part))
}

impl fmt::Display for NamesFault {
    fn fmt<W: fmt::Write>(&self, f: &mut fmt::Formatter<W>) -> fmt::Result {
        match self {
            NamesFault::Text(fault) => write!(f, "{fault}"),
            NamesFault::Found(found, expected) => write!(f, "{found}: {expected}"),
            NamesFault::Comment => f.write_str("a comment begins with #"),
            NamesFault::LateThread(first) => late_thread(*first, f),
            NamesFault::NamelessThread => f.write_str(
                "the thread has neither a name nor a number: write 'NAME = thread PROCESS PRIORITY'",
            ),
            NamesFault::ThreadWords(found) => write!(
                f,
                "expected 'NAME = thread PROCESS PRIORITY' or 'NAME = thread THREAD PROCESS PRIORITY', found {found} words after 'thread'"
            ),
            NamesFault::Missing(part) => f.write_str(part.words()),
            NamesFault::NoCaller(form) => {
                write!(f, "expected the thread that makes the call: THREAD {form}")
            }
            NamesFault::Dotted(thread, form) => {
                write!(
                    f,
                    "expected a call without '.' and '(': write '{thread} {form}'"
                )
            }
            NamesFault::NoIs(line) => write!(f, "expected 'is' before a state: write '{line}'"),
            NamesFault::Operands(count, hint) => {
                let hint = hint.map_or("", |hint| hint.words());
                write!(f, "{count}{hint}")
            }
            NamesFault::Call(call) => write!(f, "{call}"),
            NamesFault::Completion(completion) => write!(f, "{completion}"),
            NamesFault::Error(word, expected) => unknown_error(word, *expected, f),
            NamesFault::Flag(word, sum) => unknown_flag(word, *sum, f),
            NamesFault::Name(name) => write!(f, "{name}"),
            NamesFault::Plain(fault) => plain_fault(*fault, f),
            NamesFault::Script(fault) => write!(f, "{fault}"),
            NamesFault::Difference(difference) => write!(f, "{difference}"),
        }
    }
}

impl MissingPart {
    fn words(self) -> &'static str {
        match self {
            MissingPart::Call => "expected a call: THREAD CALL OPERANDS",
            MissingPart::Name => "expected a name before '='",
            MissingPart::Definition => "expected a thread or a call after '='",
            MissingPart::Completion => "expected a completion after '->', as in -> ok",
            MissingPart::Follower => "expected 'NAME -> COMPLETION' after ';'",
            MissingPart::State => "expected a state: THREAD is STATE",
        }
    }
}

/// Writes the fault of a thread's line after a call, with the line of the first call.
fn late_thread<W: fmt::Write>(first: Option<u64>, f: &mut fmt::Formatter<W>) -> fmt::Result {
    f.write_str("expected no thread's line after the first call")?;
    match first {
        Some(line) => write!(f, ": move it above line {line}, the first call"),
        None => Ok(()),
    }
}

/// Writes an unknown word of an error, with the error that is meant, or with all errors.
fn unknown_error<W: fmt::Write>(
    unknown: &UnknownWord,
    expected: ExpectedError,
    f: &mut fmt::Formatter<W>,
) -> fmt::Result {
    let word = &unknown.word;
    match unknown.near {
        Some(near) => write!(f, "'{word}' isn't an error; did you mean '{near}'?"),
        None => write!(f, "'{word}' isn't an error; {expected}"),
    }
}

/// Writes an unknown word of a flag, with the flags of the sum that is meant, with the nearest flag, or with
/// all flags.
fn unknown_flag<W: fmt::Write>(
    unknown: &UnknownWord,
    sum: Option<i32>,
    f: &mut fmt::Formatter<W>,
) -> fmt::Result {
    let word = &unknown.word;
    match (sum, unknown.near) {
        (Some(sum), _) => {
            let flags = flags_of(sum);
            write!(f, "'{word}' isn't a flag; write {flags}")
        }
        (None, Some(near)) => write!(f, "'{word}' isn't a flag; did you mean '{near}'?"),
        (None, None) => write!(
            f,
            "'{word}' isn't a flag; expected FIXED_PRIORITY, UNBLOCK and DISCONNECT, with | between, or 0 for none"
        ),
    }
}

/// Writes a fault that a line of a plain script can have, too.
fn plain_fault<W: fmt::Write>(fault: LineFault, f: &mut fmt::Formatter<W>) -> fmt::Result {
    match fault {
        LineFault::LongLine => f.write_str("expected at most 4,096 bytes in the line's plain form"),
        LineFault::DoubleThread => f.write_str("another thread has this number"),
        LineFault::TooManyThreads => f.write_str("expected at most 64 threads in a script"),
        LineFault::UnknownThread => f.write_str("no thread has this number"),
        other => write!(f, "{other}"),
    }
}

/// Writes the hint about a word that isn't valid bytes, if there is one.
fn bytes_meant<W: fmt::Write>(hint: Option<BytesHint>, f: &mut fmt::Formatter<W>) -> fmt::Result {
    match hint {
        Some(hint) => write!(f, "{hint}"),
        None => Ok(()),
    }
}

impl fmt::Display for NamesExpected {
    fn fmt<W: fmt::Write>(&self, f: &mut fmt::Formatter<W>) -> fmt::Result {
        match self {
            NamesExpected::Operand(operand) => write!(f, "{operand}"),
            NamesExpected::Number(number) => write!(f, "{number}"),
            NamesExpected::Bytes(hint) => {
                f.write_str(
                    "expected bytes: a text in quotes, [N] for N zeros, pairs of hexadecimal digits (0aff), up to 4,096 equal ones (16x00), or - for none",
                )?;
                bytes_meant(*hint, f)
            }
            NamesExpected::CompletionBytes(hint) => {
                f.write_str("expected bytes, or * for any")?;
                bytes_meant(*hint, f)
            }
            NamesExpected::State(Some(near)) => write!(f, "did you mean '{near}'?"),
            NamesExpected::Id(kind) => {
                let kind = kind.words();
                write!(f, "expected {kind}'s name or number")
            }
            other => f.write_str(other.words()),
        }
    }
}

impl NamesExpected {
    /// Returns the words for an expected part without data.
    fn words(&self) -> &'static str {
        match self {
            NamesExpected::CallName => "expected a call's name",
            NamesExpected::Thread => "did you mean 'thread'?",
            NamesExpected::Equals => "write '=' for ':='",
            NamesExpected::OneEquals => "write one '='",
            NamesExpected::Foreign(word) => word.words(),
            NamesExpected::Definition =>
                "expected a name other than 'thread': a letter or _, then letters, digits, '_', '-' and '.'",
            NamesExpected::Process => "expected a process's name, or a number from 0 to 255",
            NamesExpected::State(_) =>
                "expected ready, SEND-blocked, RECEIVE-blocked, REPLY-blocked or blocked",
            NamesExpected::OnChannel => "expected nothing or 'on CHANNEL' after a state",
            NamesExpected::NoChannel =>
                "expected nothing after 'ready': a ready thread isn't blocked on a channel",
            NamesExpected::CompletionEnd => "expected no more words in this completion",
            NamesExpected::CompletionState => "expected ready, send, receive or reply",
            NamesExpected::PulseContent => "expected user, unblock or disconnect",
            NamesExpected::Operand(_)
            | NamesExpected::Number(_)
            | NamesExpected::Bytes(_)
            | NamesExpected::CompletionBytes(_)
            | NamesExpected::Id(_) => "",
        }
    }
}

impl fmt::Display for FaultyName {
    fn fmt<W: fmt::Write>(&self, f: &mut fmt::Formatter<W>) -> fmt::Result {
        match self {
            FaultyName::Undefined { name, below, near } => {
                write!(f, "{name} isn't defined before this line")?;
                match below {
                    Some(line) => write!(f, "; line {line} defines it"),
                    None => write!(f, "{near}"),
                }
            }
            FaultyName::UndefinedProcess(name) => {
                write!(f, "no thread's line names a process {name}")
            }
            FaultyName::OtherKind(other) => write!(f, "{other}"),
            FaultyName::Twice { name, line } => write!(f, "{name} is defined twice (line {line})"),
            FaultyName::ProcessNumber(name) => {
                write!(f, "process {name} has this number: write its name")
            }
        }
    }
}

impl fmt::Display for OtherKind {
    fn fmt<W: fmt::Write>(&self, f: &mut fmt::Formatter<W>) -> fmt::Result {
        let (name, made) = (&self.name, self.made);
        let (is, expected) = (self.kind.words(), self.expected.words());
        match self.kind {
            LineKind::Call => write!(f, "{name} is {is} of {made}, but ")?,
            _ => write!(f, "{name} is {is}, but ")?,
        }
        match &self.usage {
            NameUsage::Caller => f.write_str("a call begins with the thread that makes it")?,
            NameUsage::Operand(call) => {
                let call = call.word();
                write!(f, "'{call}' expects {expected}")?
            }
            NameUsage::Expectation => write!(f, "{expected} is expected here")?,
        }
        match self.expected {
            LineKind::Message if made == "receive" => {
                f.write_str("; a message has the name of its send")
            }
            _ => Ok(()),
        }
    }
}
