//! The faults that all languages of the front share, and their words: of the bytes and the parts of a line,
//! of its operands, and of misspelt words.

use crate::grammar::{Form, OperandKind, name_of};
use crate::lexing::token::{Token, TokenKind};
use crate::near::{nearest, quotation};
use crate::word::Word;
use std::alloc::{AllocError, Global};
use std::fmt;

/// The kind of a fault of a line's parts.
#[derive(Drop)]
pub enum TextFault {
    /// A byte that may only be in quotes and comments.
    Byte(u8),
    /// A text without a closing quote.
    OpenText,
    /// A size without a closing bracket.
    OpenSize,
    /// A backslash that begins no escape.
    Escape,
    /// A size that isn't a number from 0 to 4,096.
    Size(FoundToken),
}

impl fmt::Display for TextFault {
    fn fmt<W: fmt::Write>(&self, f: &mut fmt::Formatter<W>) -> fmt::Result {
        match self {
            TextFault::Byte(byte) => {
                let byte = *byte;
                write!(
                    f,
                    "byte 0x{byte:02X}: expected tabs and the bytes 0x20 to 0x7E outside quotes and comments"
                )
            }
            TextFault::OpenText => f.write_str("this text has no closing quote"),
            TextFault::OpenSize => f.write_str("this size has no closing bracket"),
            TextFault::Escape => f.write_str(
                "expected an escape: \\n, \\t, \\r, \\0, \\\", \\\\ or \\x with two hexadecimal digits",
            ),
            TextFault::Size(found) => {
                let size = &found.quotation;
                write!(f, "'[{size}]': expected [N], with N from 0 to 4,096")
            }
        }
    }
}

/// What a byte that no line may contain is part of.
#[derive(Clone, Copy, PartialEq, Eq)]
pub enum ByteHint {
    ByteOrderMark,
    /// A text in UTF-16.
    Utf16,
    CarriageReturn,
    NoBreakSpace,
}

impl ByteHint {
    /// Returns the hint about the byte at index `at` of a line. All bytes before it are tabs or printable.
    pub fn of(line: &[u8], at: usize) -> Option<ByteHint> {
        if line.starts_with(b"\xef\xbb\xbf") {
            Some(ByteHint::ByteOrderMark)
        } else if line.starts_with(b"\xff\xfe")
            || line.starts_with(b"\xfe\xff")
            || line.contains(&0)
        {
            Some(ByteHint::Utf16)
        } else if line.get(at) == Some(&b'\r') {
            Some(ByteHint::CarriageReturn)
        } else if line.get(at..).unwrap_or(&[]).starts_with(b"\xc2\xa0") {
            Some(ByteHint::NoBreakSpace)
        } else {
            None
        }
    }

    /// Returns the words of the hint, which come after the words of a fault.
    pub fn words(self) -> &'static str {
        match self {
            ByteHint::ByteOrderMark => "; this is a byte order mark: save the text without it",
            ByteHint::Utf16 => "; this is UTF-16: save the text as UTF-8",
            ByteHint::CarriageReturn => "; this is a carriage return: a line ends with a line feed",
            ByteHint::NoBreakSpace => "; this is a no-break space: write a space",
        }
    }
}

/// A part of a line that isn't valid in its place.
#[derive(Drop)]
pub struct FoundToken {
    pub sort: TokenKind,
    /// Its first bytes.
    pub quotation: Word,
}

impl FoundToken {
    /// Returns this part.
    pub fn of(alloc: Global, token: &Token<'_>) -> Result<FoundToken, AllocError> {
        Ok(FoundToken {
            sort: token.sort,
            quotation: Word::of(alloc, quotation(token.bytes))?,
        })
    }
}

impl fmt::Display for FoundToken {
    fn fmt<W: fmt::Write>(&self, f: &mut fmt::Formatter<W>) -> fmt::Result {
        let FoundToken { sort, quotation } = self;
        match sort {
            // A word in single quotes isn't quoted again.
            TokenKind::Word if quotation.as_str().as_bytes().starts_with(b"'") => {
                write!(f, "{quotation}")
            }
            TokenKind::Word => write!(f, "'{quotation}'"),
            TokenKind::Text => f.write_str("a text in quotes"),
            TokenKind::Size => f.write_str("a size in brackets"),
            TokenKind::Equals => f.write_str("'='"),
            TokenKind::Arrow => f.write_str("'->'"),
            TokenKind::Semicolon => f.write_str("';'"),
        }
    }
}

/// The number of operands that a line has, which isn't the number of its form.
#[derive(Clone, Copy)]
pub struct OperandCount {
    pub form: Form,
    pub found: usize,
}

impl fmt::Display for OperandCount {
    fn fmt<W: fmt::Write>(&self, f: &mut fmt::Formatter<W>) -> fmt::Result {
        let OperandCount { form, found } = *self;
        let word = form.word;
        let [first, rest @ ..] = form.operands else {
            return write!(f, "{word} takes no operands, found {found}");
        };
        let first = name_of(*first);
        match form.operands.len() {
            1 => write!(f, "{word} takes 1 operand ({first}")?,
            count => write!(f, "{word} takes {count} operands ({first}")?,
        }
        for operand in rest {
            let name = name_of(*operand);
            write!(f, " {name}")?;
        }
        write!(f, "), found {found}")
    }
}

/// The name that a misspelt word was probably meant to be, if a name is near to the word.
#[derive(Drop)]
pub struct NearName(pub Option<Word>);

impl NearName {
    /// Returns the name that is nearest to a word. Among equally near names the first is taken.
    pub fn of(alloc: Global, word: &str, names: &[&str]) -> Result<NearName, AllocError> {
        match nearest(alloc, word, names)? {
            Some(near) => Ok(NearName(Some(Word::of(alloc, near)?))),
            None => Ok(NearName(None)),
        }
    }
}

impl fmt::Display for NearName {
    fn fmt<W: fmt::Write>(&self, f: &mut fmt::Formatter<W>) -> fmt::Result {
        match &self.0 {
            Some(near) => write!(f, "; did you mean '{near}'?"),
            None => Ok(()),
        }
    }
}

/// A word that isn't one of the words that are valid in its place.
pub struct UnknownWord {
    /// Its first bytes.
    pub word: Word,
    /// The valid word that is nearest to it.
    pub near: Option<&'static str>,
}

// Each place that drops one calls this. A derived drop would be repeated, and proved, at each of them.
impl Drop for UnknownWord {
    fn drop(self) {
        let UnknownWord { word: _, near: _ } = self;
    }
}

impl UnknownWord {
    /// Returns a word that isn't one of `words`.
    pub fn of(
        alloc: Global,
        word: &[u8],
        words: &[&'static str],
    ) -> Result<UnknownWord, AllocError> {
        let word = quotation(word);
        Ok(UnknownWord {
            near: nearest(alloc, word, words)?,
            word: Word::of(alloc, word)?,
        })
    }
}

/// Returns a sentence about the words that are valid for an operand of this sort.
pub fn expected_words(sort: OperandKind) -> &'static str {
    match sort {
        OperandKind::Thread => "expected a thread number from 0 to 255",
        OperandKind::Process => "expected a process number from 0 to 255",
        OperandKind::Priority => "expected a priority from 1 to 255",
        OperandKind::Flags => {
            "expected FLAGS from 0 to 255, the sum of 1 (FIXED_PRIORITY), 2 (UNBLOCK) and 4 (DISCONNECT)"
        }
        OperandKind::Channel => "expected a channel number below 2^64",
        OperandKind::Connection => "expected a connection number below 2^64",
        OperandKind::ReceiveId => "expected a receive id below 2^64",
        OperandKind::Offset => "expected an offset below 2^64",
        OperandKind::Status => "expected a status from -2^63 to 2^63 - 1",
        OperandKind::ErrorCode => "expected an error code from -2^31 to 2^31 - 1",
        OperandKind::PulseCode =>
            "expected a pulse code from 0 to 127 (the kernel refuses one below 0)",
        OperandKind::Value => "expected a value from -2^31 to 2^31 - 1",
        OperandKind::Message | OperandKind::ReplyBuffer | OperandKind::Buffer | OperandKind::Data =>
            {
                "expected bytes: pairs of hexadecimal digits (0aff), up to 4,096 equal ones (16x00), \
             or - for none"
            }
    }
}
