//! Unproved: words and layout. The differences of a run from the expectations of its script, and their words.

use qscript_text::word::Word;
use std::fmt;

/// A difference of a run from an expectation.
#[derive(Drop)]
pub enum Difference {
    /// A call completed otherwise than expected.
    Completion {
        expected: Word,
        found: FoundEnd,
    },
    /// A call of this word failed, and no line expects it.
    Failure {
        call: &'static str,
        found: FoundEnd,
    },
    /// The call of this name completed elsewhere.
    Elsewhere {
        name: Word,
        expected: Word,
        found: FoundEnd,
    },
    /// A call didn't complete. The last part is the state of its thread.
    Open {
        expected: Word,
        state: &'static str,
    },
    /// A thread is in another state than expected.
    State {
        expected: Word,
        found: String,
    },
}

/// The completion of a call, in the notation of expectations.
#[derive(Drop)]
pub struct FoundEnd {
    pub completion: String,
    /// The line of the call that caused it, if that is another line.
    pub line: Option<u64>,
}

impl fmt::Display for Difference {
    fn fmt<W: fmt::Write>(&self, f: &mut fmt::Formatter<W>) -> fmt::Result {
        match self {
            Difference::Completion { expected, found } => {
                write!(f, "expected {expected}, found {found}")
            }
            Difference::Failure { call, found } => {
                write!(f, "expected '{call}' not to fail, found {found}")
            }
            Difference::Elsewhere {
                name,
                expected,
                found,
            } => write!(
                f,
                "expected {name} to complete here with {expected}, found {found}"
            ),
            Difference::Open { expected, state } => write!(
                f,
                "expected {expected}, found no completion: the thread is {state} at the end"
            ),
            Difference::State { expected, found } => {
                write!(f, "expected {expected}, found {found}")
            }
        }
    }
}

impl fmt::Display for FoundEnd {
    fn fmt<W: fmt::Write>(&self, f: &mut fmt::Formatter<W>) -> fmt::Result {
        let completion = &self.completion;
        match self.line {
            Some(line) => write!(f, "{completion} (line {line})"),
            None => write!(f, "{completion}"),
        }
    }
}
