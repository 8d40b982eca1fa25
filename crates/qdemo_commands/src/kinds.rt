//! Unproved: words and layout. The kinds of texts, and the command that reads each.

use qscript_text::parts::Lines;
use qscript_text::reading::call::is;
use qscript_text::reading::words::next_word;
use std::fmt;

/// A kind of text.
#[derive(Clone, Copy, PartialEq, Eq)]
pub enum TextKind {
    /// A plain script.
    Plain,
    /// A script with names.
    Named,
    /// A design.
    Design,
}

impl TextKind {
    /// Returns the kind of a file, judged by the ending of its name.
    pub fn of_name(file: &str) -> Option<TextKind> {
        if file.ends_with(".design") {
            Some(TextKind::Design)
        } else if file.ends_with(".names") {
            Some(TextKind::Named)
        } else if file.ends_with(".txt") {
            Some(TextKind::Plain)
        } else {
            None
        }
    }

    /// Returns the kind of a text, judged by the form of its first line.
    fn of_text(text: &[u8]) -> Option<TextKind> {
        let line = first_line(text)?;
        let (first, rest) = next_word(line)?;
        let (second, rest) = next_word(rest)?;
        let (third, _) = next_word(rest)?;
        if is(second, "=") && is(third, "thread") {
            return Some(TextKind::Named);
        }
        if !is(first, "thread") {
            return None;
        }
        match (begins_name(second), begins_name(third)) {
            (true, true) => Some(TextKind::Design),
            (false, false) => Some(TextKind::Plain),
            _ => None,
        }
    }
}

/// Returns the first line of a text that is neither empty nor a comment.
fn first_line(text: &[u8]) -> Option<&[u8]> {
    for line in Lines(text) {
        if let Some((word, _)) = next_word(line)
            && word.first() != Some(&b'#')
        {
            return Some(line);
        }
    }
    None
}

/// Returns whether a text has a line that is neither empty nor a comment.
pub fn has_line(text: &[u8]) -> bool {
    first_line(text).is_some()
}

/// Returns whether a word begins as a name does.
fn begins_name(word: &[u8]) -> bool {
    matches!(
        word.first(),
        Some(b'a'..=b'z' | b'A'..=b'Z' | b'_')
    )
}

/// A file whose text is of another kind than the command reads.
#[derive(Clone, Copy)]
pub struct OtherKind<'a> {
    file: &'a str,
    kind: TextKind,
}

impl<'a> OtherKind<'a> {
    /// Returns the kind of a faulty text if a command that reads texts of the kind `read` can't read it. The
    /// first line decides, and then the ending of the file's name.
    pub fn of(file: &'a str, text: &[u8], read: TextKind) -> Option<OtherKind<'a>> {
        let kind = match TextKind::of_text(text) {
            Some(kind) => kind,
            None => TextKind::of_name(file)?,
        };
        // The lines of a plain script are lines of a script with names, too.
        let is_read = kind == read || (kind == TextKind::Plain && read == TextKind::Named);
        if is_read {
            return None;
        }
        Some(OtherKind { file, kind })
    }
}

impl fmt::Display for OtherKind<'_> {
    fn fmt<W: fmt::Write>(&self, f: &mut fmt::Formatter<W>) -> fmt::Result {
        let file = self.file;
        match self.kind {
            TextKind::Plain => {
                write!(f, "{file}: this is a script: 'qdemo script {file}' runs it")
            }
            TextKind::Named if file.ends_with(".names") => write!(
                f,
                "{file}: this is a script with names: 'qdemo script {file}' runs it"
            ),
            TextKind::Named => write!(
                f,
                "{file}: this is a script with names: 'qdemo script --names-in {file}' runs it"
            ),
            TextKind::Design => write!(
                f,
                "{file}: this is a design: 'qdemo explore {file}' explores it"
            ),
        }
    }
}

/// A file without a line of a script.
#[derive(Clone, Copy)]
pub struct NoLine<'a>(pub &'a str);

impl fmt::Display for NoLine<'_> {
    fn fmt<W: fmt::Write>(&self, f: &mut fmt::Formatter<W>) -> fmt::Result {
        let file = self.0;
        write!(
            f,
            "{file}: no line of a script; expected a line 'thread THREAD PROCESS PRIORITY'"
        )
    }
}
