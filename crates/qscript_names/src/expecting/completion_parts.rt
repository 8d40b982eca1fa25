//! The parts of a completion, which expectations are compared with, and its words, with names in place of
//! numbers.

use crate::context::Context;
use crate::expectation::{BufferPattern, NumberPattern, ResultPattern};
use crate::scope::Scope;
use qbase::bytes::Bytes;
use qbase::ids::{ProcessNo, ThreadNo};
use qexplore_programs::machine::matching::has_ended_so;
use qmodel::call::Mark;
use qscript_text::lexing::quoted::shown_bytes;
use qscript_text::result_parts::{MOST_PARTS, ResultPart, part_at};
use std::alloc::{AllocError, Global};

/// The most numbers of a result.
const MOST_NUMBERS: usize = 7;

/// The completion of a call.
#[derive(Drop)]
pub struct ShownEnd {
    /// The number of the call that completed it, which may be its own number.
    pub event: u64,
    pub mark: Mark,
    /// The bytes of its buffer, if the call has one.
    pub buffer: Option<Bytes>,
}

impl NumberPattern {
    /// Returns the expected number, or `None` if any number matches.
    fn number(&self, scope: &Scope) -> Option<i128> {
        match self {
            NumberPattern::Any => None,
            NumberPattern::Number(number) => Some(*number),
            NumberPattern::Named(mention) => Some(i128::from(scope.number(&mention.name))),
            NumberPattern::Process(name) => Some(i128::from(scope.process_named(name))),
        }
    }
}

/// Returns the expected numbers, with `None` where any number matches. Returns `None` if one of them is
/// greater than all numbers of results.
fn expected_numbers(
    scope: &Scope,
    patterns: &[NumberPattern],
) -> Option<[Option<i64>; MOST_NUMBERS]> {
    let mut numbers = [None; MOST_NUMBERS];
    for (number, pattern) in numbers.iter_mut().zip(patterns) {
        if let Some(expected) = pattern.number(scope) {
            *number = Some(i64::try_from(expected).ok()?);
        }
    }
    Some(numbers)
}

impl ShownEnd {
    /// Returns whether the completion matches a pattern.
    pub fn fits(&self, scope: &Scope, pattern: &ResultPattern) -> bool {
        let Some(numbers) = expected_numbers(scope, pattern.numbers.as_slice()) else {
            return false;
        };
        has_ended_so(pattern.kind, &numbers, &self.mark)
            && self.head_fits(scope, pattern.head.as_slice())
            && self.buffer_fits(pattern.buffer.as_ref())
    }

    /// Returns whether the first numbers of the result match these patterns: the parts after its first word.
    fn head_fits(&self, scope: &Scope, patterns: &[NumberPattern]) -> bool {
        let mut head = patterns.iter().zip([1, 2]);
        head.all(|(pattern, place)| match pattern.number(scope) {
            Some(expected) => {
                let part = part_at(self.mark, place);
                part.and_then(ResultPart::number) == Some(expected)
            }
            None => true,
        })
    }

    /// Returns whether the buffer matches.
    fn buffer_fits(&self, pattern: Option<&BufferPattern>) -> bool {
        match (pattern, &self.buffer) {
            (None, _) | (Some(BufferPattern::Any), Some(_)) => true,
            (Some(BufferPattern::Begins(bytes)), Some(buffer)) => {
                buffer.as_slice().starts_with(bytes.as_slice())
            }
            (Some(_), None) => false,
        }
    }

    /// Returns the words of the completion, with names in place of numbers. Only the copied bytes of its
    /// buffer are shown.
    pub fn told(&self, names: Context<'_>) -> Result<String, AllocError> {
        let mut out = String::new(names.alloc);
        for at in 0..MOST_PARTS {
            let Some(part) = part_at(self.mark, at) else {
                break;
            };
            if at > 0 {
                out.push(' ')?;
            }
            self.push(names, &mut out, part)?;
        }
        Ok(out)
    }

    /// Adds the words of a part.
    fn push(
        &self,
        names: Context<'_>,
        out: &mut String,
        part: ResultPart<'_>,
    ) -> Result<(), AllocError> {
        match part {
            ResultPart::Word(word) => write!(out, "{word}"),
            ResultPart::Signed(number) => write!(out, "{number}"),
            ResultPart::Number(number) => write!(out, "{number}"),
            ResultPart::Id(id) => write!(out, "{}", names.id(id)),
            ResultPart::Thread(number) => write!(out, "{}", names.thread(ThreadNo(number))),
            ResultPart::Process(number) => { write!(out, "{}", names.process(ProcessNo(number))) }
            ResultPart::Copied(count) => self.push_bytes(names.alloc, out, count),
            ResultPart::Counted(count) if self.buffer.is_none() => write!(out, "{count}"),
            ResultPart::Counted(count) => {
                write!(out, "{count} ")?;
                self.push_bytes(names.alloc, out, count)
            }
        }
    }

    /// Adds the first `count` bytes of the buffer.
    fn push_bytes(&self, alloc: Global, out: &mut String, count: usize) -> Result<(), AllocError> {
        let buffer = self.buffer.as_ref();
        let buffer = buffer.map_or([].as_slice(), |buffer| buffer.as_slice());
        let shown = shown_bytes(alloc, buffer.get(..count).unwrap_or(buffer))?;
        out.push_str(shown.as_str())
    }
}
