//! Unproved: words and layout. Recognizes frequent mistakes in a script, and finds corrections.

pub mod words;

use crate::names_fault::{NamesFault, NamesRead};
use qbase::errno;
use qbase::errno::Errno;
use qmodel::kind::LISTED;
use qscript_text::fault::LineFault;
use qscript_text::grammar::{FLAGS, Form, OperandKind, errno_of, fault_of};
use qscript_text::lexing::token::{Token, TokenKind};
use qscript_text::near::{near_call, quotation};
use qscript_text::place::fault_at;
use qscript_text::reading::bytes::MOST_REPEATS;
use qscript_text::reading::call::is;
use qscript_text::reading::number::digits;
use qscript_text::word::Word;
use std::alloc::{AllocError, Global};
use words::{BytesHint, ExtraHint, MeantCall, OperandHint, UnknownCall};

/// Returns a word in lowercase, without underscores.
fn lowercase(alloc: Global, word: &[u8]) -> Result<Vec<u8>, AllocError> {
    let letters = word.iter().filter(|byte| **byte != b'_');
    letters.map(|byte| byte.to_ascii_lowercase()).collect(alloc)
}

/// Returns the form of the call with this name, here or in QNX. The name ends before a parenthesis. Case and
/// `_` don't matter in QNX's names.
pub fn form_meant(alloc: Global, word: &[u8]) -> Result<Option<Form>, AllocError> {
    let word = word.split(|byte| *byte == b'(').next().unwrap_or(word);
    let plain = lowercase(alloc, word)?;
    for kind in &LISTED {
        let form = Form::of(*kind);
        let mut names = form.qnx_names.iter();
        if is(word, form.word) || names.any(|name| is(plain.as_slice(), name)) {
            return Ok(Some(form));
        }
    }
    Ok(None)
}

/// Returns whether a word is a call of another language that takes time.
pub fn is_clock_word(alloc: Global, word: &[u8]) -> Result<bool, AllocError> {
    let plain = lowercase(alloc, word)?;
    match plain.as_slice() {
        b"wait" | b"sleep" | b"delay" | b"timeout" | b"timertimeout" => Ok(true),
        _ => Ok(false),
    }
}

/// Returns the call that a word may be meant to name, here or in another language. The word isn't QNX's name
/// of a call.
fn call_meant(alloc: Global, word: &[u8]) -> Result<MeantCall, AllocError> {
    if is_clock_word(alloc, word)? {
        return Ok(MeantCall::NoClock);
    }
    if is(word, "expect") {
        return Ok(MeantCall::Expectation);
    }
    if is(word, "close") {
        return Ok(MeantCall::Close);
    }
    match near_call(alloc, quotation(word).as_bytes())? {
        Some(near) => Ok(MeantCall::Near(near)),
        None => Ok(MeantCall::Unknown),
    }
}

/// Returns a word that names no call, with the call that it may be meant to name.
pub fn unknown_call(alloc: Global, bytes: &[u8]) -> Result<UnknownCall, AllocError> {
    let meant = match form_meant(alloc, bytes)? {
        Some(form) => MeantCall::Other(form.word),
        None => call_meant(alloc, bytes)?,
    };
    let word = Word::of(alloc, quotation(bytes))?;
    Ok(UnknownCall { word, meant })
}

/// Returns an error if a line begins like a comment of another language.
pub fn refuse_comment(tokens: &[Token<'_>]) -> NamesRead<()> {
    match tokens {
        [first, ..] if first.sort == TokenKind::Semicolon || is_comment(first.bytes) => {
            Err(fault_at(first.place, NamesFault::Comment))
        }
        _ => Ok(()),
    }
}

/// Returns the hint about a word that isn't valid bytes, where a text in quotes is valid too.
pub fn bytes_hint(word: &[u8]) -> Option<BytesHint> {
    if let Some(count) = digits(word)
        && count >= 1
        && count <= MOST_REPEATS
    {
        return Some(BytesHint::Zeros(count as u64));
    }
    match word {
        [b'0', b'x' | b'X', ..] => Some(BytesHint::Prefix),
        [b'\'', ..] => Some(BytesHint::SingleQuotes),
        _ if word.iter().all(|byte| byte.is_ascii_hexdigit()) => None,
        [first, ..] if first.is_ascii_alphabetic() => Some(BytesHint::NoQuotes),
        _ => None,
    }
}

/// Returns whether a word begins a comment in another language.
pub fn is_comment(word: &[u8]) -> bool {
    word.starts_with(b"//")
        || word.starts_with(b"/*")
        || word.starts_with(b"--")
        || word.starts_with(b";")
}

/// Returns whether a word is a sign that only scripts with names have.
pub fn is_names_sign(word: &[u8]) -> bool {
    is(word, "=") || is(word, "->") || is(word, "=>")
}

/// Returns the hint about a superfluous word of a plain script.
pub fn extra_hint(word: &[u8]) -> Option<ExtraHint> {
    if word.starts_with(b"#") {
        Some(ExtraHint::Comment)
    } else if is_comment(word) {
        Some(ExtraHint::OtherComment)
    } else if is(word, "|") {
        Some(ExtraHint::Flags)
    } else {
        None
    }
}

/// Returns whether a text is in UTF-16, so that no line of it can be read.
pub fn is_utf_16(text: &[u8]) -> bool {
    text.starts_with(b"\xff\xfe") || text.starts_with(b"\xfe\xff") || text.get(1) == Some(&0)
}

/// Returns a correction for a word that can't be read as this operand, if one is known.
pub fn operand_hint(
    alloc: Global,
    slot: OperandKind,
    word: &[u8],
) -> Result<Option<OperandHint>, AllocError> {
    let hint = sign_hint(alloc, slot, word)?;
    if hint.is_some() {
        return Ok(hint);
    }
    match slot {
        OperandKind::Flags => Ok(flags_meant(word).map(OperandHint::Number)),
        OperandKind::ErrorCode | OperandKind::Status => {
            Ok(code_meant(word).map(OperandHint::Number))
        }
        OperandKind::Message | OperandKind::ReplyBuffer | OperandKind::Buffer | OperandKind::Data =>
            { plain_bytes_hint(alloc, word) }
        _ => Ok(None),
    }
}

/// Returns the sign after a word, as other languages have it after an operand, and the word before the sign.
fn sign_after(word: &[u8]) -> Option<(&'static str, &[u8])> {
    match word {
        [front @ .., b';'] => Some((";", front)),
        [front @ .., b','] => Some((",", front)),
        _ => None,
    }
}

/// Returns the hint about the sign after a word, if the word is valid without the sign, or is one digit of a
/// byte.
fn sign_hint(
    alloc: Global,
    slot: OperandKind,
    word: &[u8],
) -> Result<Option<OperandHint>, AllocError> {
    let Some((sign, front)) = sign_after(word) else {
        return Ok(None);
    };
    if front.is_empty() || front.len() > MOST_LETTERS {
        return Ok(None);
    }
    let zero = match (fault_of(alloc, slot, front)?, front) {
        (None, _) => "",
        (Some(LineFault::BadBytes), [digit]) if digit.is_ascii_hexdigit() => "0",
        _ => return Ok(None),
    };
    let word = Word::of(alloc, quotation(front))?;
    Ok(Some(OperandHint::Sign { sign, zero, word }))
}

/// QNX's errors with their names and numbers, as servers use them in replies. They are from the front of its
/// `errno.h`, and the timeout.
static ERROR_CODES: [(&str, i32); 24] = [
    ("EPERM", 1),
    ("ENOENT", 2),
    ("ESRCH", 3),
    ("EINTR", 4),
    ("EIO", 5),
    ("ENXIO", 6),
    ("E2BIG", 7),
    ("EBADF", 9),
    ("EAGAIN", 11),
    ("ENOMEM", 12),
    ("EACCES", 13),
    ("EFAULT", 14),
    ("EBUSY", 16),
    ("EEXIST", 17),
    ("ENODEV", 19),
    ("EINVAL", 22),
    ("ENFILE", 23),
    ("EMFILE", 24),
    ("ENOSPC", 28),
    ("EROFS", 30),
    ("EPIPE", 32),
    ("ERANGE", 34),
    ("EOK", 0),
    ("ETIMEDOUT", 260),
];

/// Returns the number of the error with this name in QNX, if the table has it.
pub fn code_meant(word: &[u8]) -> Option<i32> {
    let mut codes = ERROR_CODES.iter();
    let (_, code) = codes.find(|(name, _)| is(word, name))?;
    Some(*code)
}

/// Returns the word of the error that has this name in QNX. Case and `_` don't matter. A timeout has the
/// error of a call that an `unblock` cancelled.
pub fn error_meant(alloc: Global, word: &[u8]) -> Result<Option<&'static str>, AllocError> {
    let plain = lowercase(alloc, word)?;
    let meant = match plain.as_slice() {
        b"enomem" => Some(Errno::NoMemory),
        b"etimedout" => Some(Errno::Intr),
        [b'e', rest @ ..] => errno_of(rest),
        all => errno_of(all),
    };
    Ok(meant.map(errno::word))
}

/// Returns the number of a flag, given by its number or by its name in any of QNX's spellings.
fn flag_number(word: &[u8]) -> Option<u8> {
    let mut flags = FLAGS.iter();
    let is_it = |(name, flag): &&(&str, u8)| word.ends_with(name.as_bytes())
        || word == [b'0' + *flag].as_slice();
    flags.find(is_it).map(|(_, flag)| *flag)
}

/// Returns the sum of flags that are joined by `|`, `+` or `,`, if each of them is known.
pub fn flags_meant(word: &[u8]) -> Option<i32> {
    let mut sum = 0u8;
    for part in word.split(|byte| matches!(byte, b'|' | b'+' | b',')) {
        sum |= flag_number(part)?;
    }
    Some(i32::from(sum))
}

/// Returns whether a word has only decimal digits.
fn is_decimal(word: &[u8]) -> bool {
    !word.is_empty() && word.iter().all(|byte| byte.is_ascii_digit())
}

/// Returns a correction for a word that isn't valid bytes.
fn plain_bytes_hint(alloc: Global, word: &[u8]) -> Result<Option<OperandHint>, AllocError> {
    match word {
        [b'0', b'x' | b'X', ..] => Ok(Some(OperandHint::Prefix)),
        [b'"' | b'\'', ..] => Ok(Some(OperandHint::Quotes)),
        [b'[', count @ .., b']'] => zeros_hint(alloc, count),
        [b'0'] => Ok(Some(OperandHint::Zero)),
        [digit] if digit.is_ascii_digit() => {
            Ok(Some(OperandHint::Digit(Word::of(alloc, quotation(word))?)))
        }
        _ if is_decimal(word) => zeros_hint(alloc, word),
        _ if word.contains(&b'x') => Ok(equal_hint(word)),
        _ => letters_hint(alloc, word),
    }
}

/// Returns the hint about a number of bytes of zero, if it has at most four digits.
fn zeros_hint(alloc: Global, count: &[u8]) -> Result<Option<OperandHint>, AllocError> {
    if !is_decimal(count) || count.len() > 4 {
        return Ok(None);
    }
    let digits = Word::of(alloc, quotation(count))?;
    Ok(Some(OperandHint::Zeros(digits)))
}

/// Returns the hint about equal bytes: the byte doesn't have two digits, or there are too many bytes.
fn equal_hint(word: &[u8]) -> Option<OperandHint> {
    let digits = word.iter().position(|byte| *byte == b'x').unwrap_or(0);
    if !is_decimal(word.get(..digits).unwrap_or(&[])) {
        return None;
    }
    if word.len().saturating_sub(digits) != 3 {
        Some(OperandHint::ByteDigits)
    } else {
        Some(OperandHint::TooManyBytes)
    }
}

/// The most letters of a word that are rewritten, as bytes or without a sign.
const MOST_LETTERS: usize = 16;

/// Returns the hint about a word of letters. At least one of the letters isn't a hexadecimal digit.
fn letters_hint(alloc: Global, word: &[u8]) -> Result<Option<OperandHint>, AllocError> {
    let is_text = word.len() <= MOST_LETTERS && word.iter().all(|byte| byte.is_ascii_alphabetic());
    if !is_text || word.iter().all(|byte| byte.is_ascii_hexdigit()) {
        return Ok(None);
    }
    let letters = Word::of(alloc, quotation(word))?;
    Ok(Some(OperandHint::Letters(letters)))
}
