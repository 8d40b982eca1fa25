//! Defined names, and the faults of names.

use crate::line::LineKind;
use qscript_text::place::Place;
use qscript_text::word::Word;

/// A name, and the thing that it refers to.
#[derive(Drop)]
pub struct Label {
    pub name: Word,
    pub kind: LineKind,
    /// The number of the thread or the call.
    pub number: u64,
    /// The line that defines it, counted from 1.
    pub line: u64,
}

/// The fault of a name.
#[derive(Clone, Copy, PartialEq, Eq)]
pub enum NameError {
    /// No line above defines it.
    Undefined,
    /// It refers to a thing of this kind, and a name of another kind is needed here.
    OtherKind(LineKind),
    /// This line defines it already.
    Twice(u64),
}

/// The fault of the name at a place.
#[derive(Clone, Copy, PartialEq, Eq)]
pub struct NameFault {
    pub place: Place,
    pub error: NameError,
}
