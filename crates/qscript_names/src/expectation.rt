//! The expectations of a script with names.

use crate::line::{NameMention, Operand};
use qbase::bytes::Bytes;
use qexplore_programs::pattern::ResultKind;
use qmodel::kind::CallKind;
use qscript_text::place::Place;
use qscript_text::word::Word;
use std::alloc::Global;

/// The part of a script that is read.
#[derive(Clone, Copy, PartialEq, Eq)]
pub enum Extent {
    /// All lines.
    Whole,
    /// The lines so far. More will follow, and they may complete calls that are open now.
    Front,
}

/// A pattern of a number.
#[derive(Drop)]
pub enum NumberPattern {
    /// Any number.
    Any,
    Number(i128),
    /// The number of this name.
    Named(NameMention),
    /// The number of the process with this name.
    Process(Word),
}

/// A pattern of the buffer of a completion.
#[derive(Drop)]
pub enum BufferPattern {
    /// Any buffer.
    Any,
    /// A buffer that begins with these bytes.
    Begins(Bytes),
}

/// A pattern of the result of a completed call. A completion matches it if it has this kind, if its first
/// numbers are these, and if its buffer matches.
#[derive(Drop)]
pub struct ResultPattern {
    pub kind: ResultKind,
    /// The numbers that the kind doesn't have: the id of a message; the call that sent a pulse, and the
    /// priority of the pulse.
    pub head: Vec<NumberPattern>,
    /// The numbers of the kind, in the order in which a trace prints them.
    pub numbers: Vec<NumberPattern>,
    /// The pattern of the buffer, if there is one. It matches no call without a buffer.
    pub buffer: Option<BufferPattern>,
}

impl ResultPattern {
    /// Returns the pattern that each result of this kind matches.
    pub fn of(alloc: Global, kind: ResultKind) -> ResultPattern {
        ResultPattern {
            kind,
            head: Vec::new(alloc),
            numbers: Vec::new(alloc),
            buffer: None,
        }
    }
}

/// The expected result of a call.
pub enum ExpectedCompletion {
    /// The call doesn't complete in its own event.
    Blocked,
    /// The call completes, and its result matches this pattern.
    Completed(ResultPattern),
}

// Each place that drops one calls this. A derived drop would be repeated, and proved, at each of them.
impl Drop for ExpectedCompletion {
    fn drop(self) {
        match self {
            ExpectedCompletion::Blocked | ExpectedCompletion::Completed(_) => {}
        }
    }
}

/// The expected result of a call, with its text and its place.
pub struct Expectation {
    pub completion: ExpectedCompletion,
    /// The result as written.
    pub text: Word,
    pub place: Place,
}

// Each place that drops one calls this. A derived drop would be repeated, and proved, at each of them.
impl Drop for Expectation {
    fn drop(self) {
        let Expectation {
            completion: _,
            text: _,
            place: _,
        } = self;
    }
}

/// The expected result of another call, which the call of the line completes.
#[derive(Drop)]
pub struct Follower {
    /// The name of the completed call, which that call's own line defines.
    pub name: Word,
    pub place: Place,
    pub expectation: Expectation,
}

/// The expectations of the line of a call.
#[derive(Drop)]
pub struct CallCheck {
    pub kind: CallKind,
    /// The place of the word that names the call.
    pub place: Place,
    /// The expected result of this call, if the line has one.
    pub own: Option<Expectation>,
    /// The expected results of other calls, which this call completes.
    pub followers: Vec<Follower>,
}

/// A line with the expected state of a thread.
#[derive(Drop)]
pub struct StateCheck {
    /// The number of calls above it.
    pub calls: u64,
    pub thread: Operand,
    /// The name of the state, or `blocked` for any of the three blocked states.
    pub state: &'static str,
    /// The channel on which the thread is blocked, if the line names it.
    pub channel: Option<Operand>,
    /// The text of the line after `is`, as written.
    pub text: Word,
    pub place: Place,
}
