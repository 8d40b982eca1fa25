//! The hints on frequent mistakes, and their words. All languages of the front have them.

use qmodel::kind::LISTED;
use qscript_text::grammar::OperandKind;
use qscript_text::text_fault::expected_words;
use qscript_text::word::Word;
use std::fmt;

/// A correction of a word that can't be read as an operand.
#[derive(Drop)]
pub enum OperandHint {
    /// The number that the word means: the number of an error, or the sum of flags.
    Number(i32),
    /// Bytes that begin with `0x`.
    Prefix,
    /// A text in quotes.
    Quotes,
    /// A decimal number with these digits, which may be meant as so many bytes of zero.
    Zeros(Word),
    /// The digit 0, which may be meant as a byte, or as no bytes.
    Zero,
    /// Another decimal digit, which may be meant as a byte, or as so many bytes of zero.
    Digit(Word),
    /// Equal bytes that don't have two digits.
    ByteDigits,
    /// Too many equal bytes.
    TooManyBytes,
    /// Letters that aren't hexadecimal digits.
    Letters(Word),
    /// A sign after a word, and the digit 0 that the word lacks, or nothing.
    Sign {
        sign: &'static str,
        zero: &'static str,
        word: Word,
    },
}

impl fmt::Display for OperandHint {
    fn fmt<W: fmt::Write>(&self, f: &mut fmt::Formatter<W>) -> fmt::Result {
        match self {
            OperandHint::Number(number) => write!(f, ": write {number}"),
            OperandHint::Prefix => f.write_str("; write them without 0x"),
            OperandHint::Quotes => f.write_str("; a plain script has no text in quotes"),
            OperandHint::Zeros(digits) => {
                write!(f, "; for {digits} bytes of zero write {digits}x00")
            }
            OperandHint::Zero => f.write_str("; write 00 for the byte 0, or - for no bytes"),
            OperandHint::Digit(digit) => write!(
                f,
                "; write 0{digit} for the byte {digit}, or {digit}x00 for {digit} bytes of zero"
            ),
            OperandHint::ByteDigits => f.write_str("; write the two digits of one byte after x"),
            OperandHint::TooManyBytes => f.write_str("; write at most 4,096"),
            OperandHint::Letters(letters) => {
                f.write_str("; write these letters as ")?;
                for byte in letters.as_str().as_bytes() {
                    write!(f, "{byte:02x}")?;
                }
                Ok(())
            }
            OperandHint::Sign { sign, zero, word } => {
                write!(f, "; no '{sign}': write {zero}{word}")
            }
        }
    }
}

/// An operand of this sort, which a word can't be read as.
#[derive(Drop)]
pub struct ExpectedOperand {
    pub sort: OperandKind,
    pub hint: Option<OperandHint>,
}

impl fmt::Display for ExpectedOperand {
    fn fmt<W: fmt::Write>(&self, f: &mut fmt::Formatter<W>) -> fmt::Result {
        f.write_str(expected_words(self.sort))?;
        match &self.hint {
            Some(hint) => write!(f, "{hint}"),
            None => Ok(()),
        }
    }
}

/// A correction of a word that should be bytes or a text in quotes.
#[derive(Clone, Copy)]
pub enum BytesHint {
    /// A decimal number, which may be meant as so many bytes of zero.
    Zeros(u64),
    /// It begins with `0x`.
    Prefix,
    /// A text in single quotes.
    SingleQuotes,
    /// A text without quotes.
    NoQuotes,
}

// The hint comes after the words of a fault.
impl fmt::Display for BytesHint {
    fn fmt<W: fmt::Write>(&self, f: &mut fmt::Formatter<W>) -> fmt::Result {
        match self {
            BytesHint::Zeros(1) => f.write_str("; write [1] for 1 byte of zero"),
            BytesHint::Zeros(count) => write!(f, "; write [{count}] for {count} bytes of zero"),
            BytesHint::Prefix => f.write_str("; write them without 0x"),
            BytesHint::SingleQuotes => f.write_str("; write a text in double quotes"),
            BytesHint::NoQuotes => f.write_str("; write a text in quotes"),
        }
    }
}

/// What a script has in the place of a word of another language.
#[derive(Clone, Copy)]
pub enum ForeignWord {
    /// The result of a call, after its arrow.
    Result,
    /// The calls without conditions and loops.
    Control,
    /// The call `unblock`.
    Clock,
    /// The word `is`.
    Is,
}

impl ForeignWord {
    /// Returns the words about it, which come after the word itself.
    pub fn words(self) -> &'static str {
        match self {
            ForeignWord::Result => "write the result after '->', in the line of its call",
            ForeignWord::Control => "a script has no 'if' and no loop: write each call",
            ForeignWord::Clock => NO_CLOCK,
            ForeignWord::Is => "did you mean 'is'?",
        }
    }
}

/// The text that a superfluous word of a line probably belongs to.
#[derive(Clone, Copy)]
pub enum ExtraHint {
    /// A comment after a call of a plain script.
    Comment,
    /// A comment of another language after a call of a plain script.
    OtherComment,
    /// Flags with spaces around `|`.
    Flags,
    /// An expected completion, without its arrow.
    Completion,
    /// An expected completion after `=>`, in a script with names.
    WideArrow,
    /// An expected completion after `- >`.
    SplitArrow,
    /// Flags without `|` between.
    FlagSign,
    /// A time.
    NoClock,
    /// A comment of another language in a script with names.
    CommentSign,
    /// A text in single quotes.
    SingleQuotes,
}

impl ExtraHint {
    /// Returns the words of the hint, which come after the words of a fault.
    pub fn words(self) -> &'static str {
        match self {
            ExtraHint::Comment => "; write a comment on its own line",
            ExtraHint::OtherComment => "; write a comment with # on its own line",
            ExtraHint::Flags => "; write flags without spaces around |",
            ExtraHint::Completion =>
                "; write the completion after ->, or in a design in an 'expect' below",
            ExtraHint::WideArrow => "; write '->' for '=>'",
            ExtraHint::SplitArrow => "; write '->' without a space",
            ExtraHint::FlagSign => "; write flags with | between, as UNBLOCK|DISCONNECT",
            ExtraHint::NoClock => "; a script has no clock: another thread makes 'unblock'",
            ExtraHint::CommentSign => "; a comment begins with #",
            ExtraHint::SingleQuotes => "; write a text in double quotes",
        }
    }
}

/// The advice about a word that would take time.
pub const NO_CLOCK: &str = "a script has no clock: another thread makes 'unblock'";

/// The call that a word may be meant to name.
#[derive(Clone, Copy)]
pub enum MeantCall {
    /// The call that has this name in QNX, with a parenthesis or with capital letters.
    Other(&'static str),
    /// The call whose name is nearest to the word.
    Near(&'static str),
    /// It would take time, which no script has.
    NoClock,
    /// None: it begins an expected result.
    Expectation,
    /// The call that ends a connection, or the one that ends a channel.
    Close,
    /// None is near.
    Unknown,
}

/// A word that names no call.
#[derive(Drop)]
pub struct UnknownCall {
    /// Its first bytes.
    pub word: Word,
    pub meant: MeantCall,
}

impl fmt::Display for UnknownCall {
    fn fmt<W: fmt::Write>(&self, f: &mut fmt::Formatter<W>) -> fmt::Result {
        let UnknownCall { word, meant } = self;
        write!(f, "'{word}' isn't a call; ")?;
        match meant {
            MeantCall::Other(name) => write!(f, "write '{name}'"),
            MeantCall::Near(name) => write!(f, "did you mean '{name}'?"),
            MeantCall::NoClock => f.write_str(NO_CLOCK),
            MeantCall::Expectation => {
                f.write_str("expected results need a file NAME.names, as CALL -> ok")
            }
            MeantCall::Close => {
                f.write_str("write 'detach' for a connection, or 'destroy' for a channel")
            }
            MeantCall::Unknown => {
                f.write_str("the calls are")?;
                for kind in &LISTED {
                    let name = kind.word();
                    write!(f, " {name}")?;
                }
                Ok(())
            }
        }
    }
}

/// Returns the names of the flags with this sum.
pub fn flags_of(sum: i32) -> &'static str {
    match sum {
        1 => "FIXED_PRIORITY",
        2 => "UNBLOCK",
        3 => "FIXED_PRIORITY|UNBLOCK",
        4 => "DISCONNECT",
        5 => "FIXED_PRIORITY|DISCONNECT",
        6 => "UNBLOCK|DISCONNECT",
        7 => "FIXED_PRIORITY|UNBLOCK|DISCONNECT",
        _ => "0",
    }
}

/// What a word that begins no completion may be meant to be.
#[derive(Clone, Copy)]
pub enum MeantCompletion {
    /// The completion with this word.
    Near(&'static str),
    /// A failure with this error.
    Fail(&'static str),
    /// A message with these bytes.
    Message,
    /// A state of a thread.
    State,
    /// A completion before a comma.
    Comma,
    /// None of these.
    Unknown,
}

/// A word that begins no completion.
#[derive(Drop)]
pub struct UnknownCompletion {
    /// Its first bytes.
    pub word: Word,
    pub meant: MeantCompletion,
}

impl fmt::Display for UnknownCompletion {
    fn fmt<W: fmt::Write>(&self, f: &mut fmt::Formatter<W>) -> fmt::Result {
        let UnknownCompletion { word, meant } = self;
        write!(f, "'{word}' isn't a completion; ")?;
        match meant {
            MeantCompletion::Near(near) => write!(f, "did you mean '{near}'?"),
            MeantCompletion::Fail(error) => write!(f, "write fail {error}"),
            MeantCompletion::Message => write!(f, "write message NAME \"{word}\""),
            MeantCompletion::State => write!(f, "write state {word}"),
            MeantCompletion::Comma => f.write_str("separate results by ';'"),
            MeantCompletion::Unknown => f.write_str(
                "expected ok, fail, channel, connection, message, pulse, reply, error, count, state, info or blocked",
            ),
        }
    }
}

/// A number of a completion. It has the number of the error that a word names in QNX.
#[derive(Clone, Copy)]
pub struct ExpectedNumber(pub Option<i32>);

impl fmt::Display for ExpectedNumber {
    fn fmt<W: fmt::Write>(&self, f: &mut fmt::Formatter<W>) -> fmt::Result {
        f.write_str("expected a number, or * for any")?;
        match self.0 {
            Some(number) => write!(f, ": write {number}"),
            None => Ok(()),
        }
    }
}

/// An error. It has the right word for the error that a word names in QNX.
#[derive(Clone, Copy)]
pub struct ExpectedError(pub Option<&'static str>);

impl fmt::Display for ExpectedError {
    fn fmt<W: fmt::Write>(&self, f: &mut fmt::Formatter<W>) -> fmt::Result {
        f.write_str("expected srch, badf, inval, again, intr, busy, nomemory or down")?;
        match self.0 {
            Some(word) => write!(f, ": write {word}"),
            None => Ok(()),
        }
    }
}
