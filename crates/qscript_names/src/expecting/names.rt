//! Checks the names in a script's expectations.

use crate::context::Context;
use crate::expectation::{
    CallCheck, Expectation, ExpectedCompletion, Extent, NumberPattern, StateCheck,
};
use crate::label::NameError;
use crate::line::{LineKind, NameMention, Operand};
use crate::names_fault::{FaultyName, NameUsage, NamesFault};
use qscript_text::place::{Fault, Place};
use qscript_text::word::Word;
use std::alloc::AllocError;

/// Checks the names in expectations, and collects their faults.
#[derive(Drop)]
pub struct NameCheck<'a> {
    context: Context<'a>,
    extent: Extent,
    pub faults: Vec<Fault<NamesFault>>,
    /// Whether a name in an expected result isn't defined yet.
    pub is_open: bool,
}

/// Returns whether a name of this kind is valid where the kind `expected` is needed. Each name but a thread's
/// name is the name of a call.
fn may_stand(kind: LineKind, expected: LineKind) -> bool {
    match expected {
        LineKind::Call => kind != LineKind::Thread,
        _ => kind == expected,
    }
}

impl<'a> NameCheck<'a> {
    /// Returns a check without faults so far.
    pub fn new(context: Context<'a>, extent: Extent) -> NameCheck<'a> {
        NameCheck {
            context,
            extent,
            faults: Vec::new(context.alloc),
            is_open: false,
        }
    }

    /// Checks a name that must have this kind.
    fn name(&mut self, place: Place, name: &Word, expected: LineKind) -> Result<(), AllocError> {
        let error = match self.context.scope.latest(name) {
            None => NameError::Undefined,
            Some(label) if may_stand(label.kind, expected) => return Ok(()),
            Some(label) => NameError::OtherKind(label.kind),
        };
        let usage = NameUsage::Expectation;
        let faulty = self.context.faulty_name(name, usage, expected, error)?;
        self.add(place, faulty)
    }

    /// Adds the fault of a name at a place.
    fn add(&mut self, place: Place, name: FaultyName) -> Result<(), AllocError> {
        self.faults.push(Fault::new(place, NamesFault::Name(name)))?;
        Ok(())
    }

    /// Checks the name of a process.
    fn process(&mut self, place: Place, name: &Word) -> Result<(), AllocError> {
        if self.context.scope.process_named(name) == 0 {
            let name = name.copied(self.context.alloc)?;
            return self.add(place, FaultyName::UndefinedProcess(name));
        }
        Ok(())
    }

    /// Checks a name in an expected result. A later line may define it.
    fn completion(&mut self, mention: &NameMention) -> Result<(), AllocError> {
        if self.extent == Extent::Front && self.context.scope.latest(&mention.name).is_none() {
            self.is_open = true;
            return Ok(());
        }
        self.name(mention.place, &mention.name, mention.expected)
    }

    /// Checks the names in an expected result.
    fn expectation(&mut self, expectation: &Expectation) -> Result<(), AllocError> {
        let ExpectedCompletion::Completed(pattern) = &expectation.completion else {
            return Ok(());
        };
        for number in &pattern.head {
            self.number(expectation.place, number)?;
        }
        for number in &pattern.numbers {
            self.number(expectation.place, number)?;
        }
        Ok(())
    }

    /// Checks the name in the pattern of a number, if it has one.
    fn number(&mut self, place: Place, pattern: &NumberPattern) -> Result<(), AllocError> {
        match pattern {
            NumberPattern::Named(mention) => self.completion(mention),
            NumberPattern::Process(name) => self.process(place, name),
            NumberPattern::Number(_) | NumberPattern::Any => Ok(()),
        }
    }

    /// Checks the names in the expectations of the line of a call.
    pub fn call(&mut self, check: &CallCheck) -> Result<(), AllocError> {
        if let Some(own) = &check.own {
            self.expectation(own)?;
        }
        for follower in &check.followers {
            self.name(follower.place, &follower.name, LineKind::Call)?;
            self.expectation(&follower.expectation)?;
        }
        Ok(())
    }

    /// Checks the names in a line with a state.
    pub fn state(&mut self, check: &StateCheck) -> Result<(), AllocError> {
        if let Operand::Name(mention) = &check.thread {
            self.name(mention.place, &mention.name, mention.expected)?;
        }
        if let Some(Operand::Name(mention)) = &check.channel {
            self.name(mention.place, &mention.name, mention.expected)?;
        }
        Ok(())
    }
}
