//! Finds the data for the faults of names.

use crate::expectation::CallCheck;
use crate::label::NameError;
use crate::line::LineKind;
use crate::names_fault::{FaultyName, NameUsage, OtherKind};
use crate::scope::Scope;
use qscript_text::text_fault::NearName;
use qscript_text::word::Word;
use std::alloc::{AllocError, Global};

/// The definitions of all lines so far, and the calls.
#[derive(Clone, Copy)]
pub struct Context<'a> {
    pub alloc: Global,
    pub scope: &'a Scope,
    pub calls: &'a [CallCheck],
}

impl Context<'_> {
    /// Returns the word that names the call with this number.
    fn verb(&self, number: u64) -> &'static str {
        let call = self.calls.get(number.saturating_sub(1) as usize);
        call.map_or("", |call| call.kind.word())
    }

    /// Returns the fault of a name that no line above defines: a later line defines it, or a defined name is
    /// near to it.
    fn undefined(&self, name: &Word) -> Result<FaultyName, AllocError> {
        let below = self.scope.latest(name).map(|label| label.line);
        let near = match below {
            Some(_) => NearName(None),
            None => self.near(name)?,
        };
        let name = name.copied(self.alloc)?;
        Ok(FaultyName::Undefined { name, below, near })
    }

    /// Returns the defined name that is nearest to a name.
    fn near(&self, name: &Word) -> Result<NearName, AllocError> {
        let labels = self.scope.labels().iter();
        let names: Vec<&str> = labels.map(|label| label.name.as_str()).collect(self.alloc)?;
        NearName::of(self.alloc, name.as_str(), names.as_slice())
    }

    /// Returns the fault of a name of another kind than this, which is needed.
    fn other_kind(
        &self,
        name: &Word,
        usage: NameUsage,
        expected: LineKind,
    ) -> Result<FaultyName, AllocError> {
        let Some(label) = self.scope.latest(name) else {
            return self.undefined(name);
        };
        Ok(FaultyName::OtherKind(OtherKind {
            name: name.copied(self.alloc)?,
            kind: label.kind,
            made: self.verb(label.number),
            usage,
            expected,
        }))
    }

    /// Returns the fault of a name that must have this kind.
    pub fn faulty_name(
        &self,
        name: &Word,
        usage: NameUsage,
        kind: LineKind,
        error: NameError,
    ) -> Result<FaultyName, AllocError> {
        match error {
            NameError::Undefined => self.undefined(name),
            NameError::OtherKind(_) => self.other_kind(name, usage, kind),
            NameError::Twice(line) => {
                let name = name.copied(self.alloc)?;
                Ok(FaultyName::Twice { name, line })
            }
        }
    }
}
