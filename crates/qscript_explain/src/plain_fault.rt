//! Unproved: words and layout. The faults of the lines of plain scripts, with their hints, and their words.

use crate::odd_buffer::OddBuffer;
use qscript_names::hints::words::{ExpectedOperand, ExtraHint, NO_CLOCK, OperandHint, UnknownCall};
use qscript_text::grammar::Form;
use qscript_text::reading::line::MOST_BYTES;
use qscript_text::text_fault::{ByteHint, OperandCount};
use qscript_text::word::Word;
use std::fmt;

/// Why a part of a line is faulty or odd.
#[derive(Drop)]
pub enum PlainFault {
    /// The line has so many bytes.
    LongLine(usize),
    Byte(FoundByte),
    Operand(ExpectedOperand),
    /// A comment of another language.
    Comment,
    /// A call of this form has no caller.
    NoCaller(Form),
    /// A first word that is near to `thread`.
    MisspeltThread(Word),
    /// The number of a thread, with a colon after it.
    Colon(u8),
    /// A first word that would take time.
    NoClock,
    /// A first word that isn't a caller.
    BadCaller(Option<NamesHint>),
    /// A line with only a caller.
    NoCall,
    /// A line has an expected result.
    Expectation,
    /// A line has too few or too many operands.
    Operands(OperandCount, SuperfluousWord),
    Call(UnknownCall),
    /// This line has the thread already.
    DoubleThread { thread: u8, line: usize },
    /// The line of a thread after the first call, which is in this line.
    LateThread(usize),
    TooManyThreads,
    /// The caller has no line.
    UnknownThread(Word),
    /// A buffer that looks like a length.
    Buffer(OddBuffer),
}

/// A byte that no line may contain.
#[derive(Clone, Copy)]
pub struct FoundByte {
    pub byte: u8,
    pub column: usize,
    pub hint: Option<ByteHint>,
}

/// The line has a sign that only scripts with names have.
#[derive(Clone, Copy)]
pub struct NamesHint;

/// The text that the first superfluous word of a line probably belongs to. A missing word has no hints.
#[derive(Clone, Copy)]
pub struct SuperfluousWord {
    /// Whether a word of the line begins with a quote.
    pub has_quote: bool,
    pub names: Option<NamesHint>,
    pub extra: Option<ExtraHint>,
}

impl SuperfluousWord {
    /// Returns no hints.
    pub fn none() -> SuperfluousWord {
        SuperfluousWord {
            has_quote: false,
            names: None,
            extra: None,
        }
    }
}

impl NamesHint {
    /// Returns the words of the hint, which come after the words of a fault.
    fn words(self) -> &'static str {
        "; a script with names is a file NAME.names, or needs --names-in"
    }
}

impl fmt::Display for PlainFault {
    fn fmt<W: fmt::Write>(&self, f: &mut fmt::Formatter<W>) -> fmt::Result {
        match self {
            PlainFault::LongLine(found) => {
                write!(
                    f,
                    "expected at most {MOST_BYTES} bytes in a line, found {found}"
                )
            }
            PlainFault::Byte(byte) => write!(f, "{byte}"),
            PlainFault::Operand(operand) => write!(f, "{operand}"),
            PlainFault::Comment => f.write_str("a comment begins with #"),
            PlainFault::NoCaller(form) => {
                write!(f, "expected the thread that makes the call: THREAD {form}")
            }
            PlainFault::MisspeltThread(word) => {
                write!(f, "'{word}' isn't a thread number; did you mean 'thread'?")
            }
            PlainFault::BadCaller(hint) => {
                let hint = hint.map_or("", |hint| hint.words());
                write!(
                    f,
                    "expected 'thread', or the thread that makes a call, a number from 0 to 255{hint}"
                )
            }
            PlainFault::NoClock => f.write_str(NO_CLOCK),
            PlainFault::NoCall => f.write_str("expected a call: THREAD CALL OPERANDS"),
            PlainFault::Expectation => {
                let hint = NamesHint.words();
                write!(f, "a plain script expects no results{hint}")
            }
            PlainFault::Operands(count, hints) => write!(f, "{count}{hints}"),
            PlainFault::Call(call) => write!(f, "{call}"),
            PlainFault::Buffer(buffer) => write!(f, "{buffer}"),
            other => other.fmt_thread(f),
        }
    }
}

impl PlainFault {
    /// Writes a fault of a thread.
    fn fmt_thread<W: fmt::Write>(&self, f: &mut fmt::Formatter<W>) -> fmt::Result {
        match self {
            PlainFault::Colon(thread) => {
                write!(
                    f,
                    "expected the thread that makes a call, a number from 0 to 255: write {thread} without ':'"
                )
            }
            PlainFault::DoubleThread { thread, line } => {
                write!(f, "thread {thread} has line {line} already")
            }
            PlainFault::LateThread(call) => write!(
                f,
                "expected no thread's line after the first call, which is line {call}"
            ),
            PlainFault::TooManyThreads => f.write_str("expected at most 64 threads in a script"),
            PlainFault::UnknownThread(thread) => write!(
                f,
                "thread {thread} has no line: write 'thread {thread} PROCESS PRIORITY' before the first call"
            ),
            _ => Ok(()),
        }
    }
}

impl fmt::Display for FoundByte {
    fn fmt<W: fmt::Write>(&self, f: &mut fmt::Formatter<W>) -> fmt::Result {
        let FoundByte { byte, column, hint } = *self;
        let hint = hint.map_or("", |hint| hint.words());
        write!(
            f,
            "byte 0x{byte:02X} in column {column}: expected tabs and the bytes 0x20 to 0x7E{hint}"
        )
    }
}

impl fmt::Display for SuperfluousWord {
    fn fmt<W: fmt::Write>(&self, f: &mut fmt::Formatter<W>) -> fmt::Result {
        if self.has_quote {
            write!(f, "{}", OperandHint::Quotes)?;
        }
        let names = self.names.map_or("", |hint| hint.words());
        let extra = self.extra.map_or("", |hint| hint.words());
        write!(f, "{names}{extra}")
    }
}
