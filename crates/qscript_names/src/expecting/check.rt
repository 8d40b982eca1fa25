//! Compares a run with the expectations of its script, call by call.

use crate::context::Context;
use crate::difference::{Difference, FoundEnd};
use crate::expectation::{CallCheck, Expectation, ExpectedCompletion, Follower, StateCheck};
use crate::expecting::completion_parts::ShownEnd;
use crate::line::Operand;
use crate::names_fault::NamesFault;
use crate::scope::Scope;
use qbase::bytes::Bytes;
use qbase::ids::ThreadNo;
use qbase::state::ThreadState;
use qkernel::call::{Completion, Mark};
use qkernel::kernel::Kernel;
use qmodel::kind::CallKind;
use qscript_text::place::{Fault, Place};
use qscript_text::reading::operand_value::OperandValue;
use qscript_text::states::{state_among, state_channel, state_name};
use std::alloc::{AllocError, Global};
use std::mem;

/// The comparison of a run with the expectations of its script, up to the latest call.
pub struct ExpectationCheck {
    alloc: Global,
    /// The definitions of all lines, or of the lines so far.
    pub scope: Scope,
    /// The expectations of each call.
    pub calls: Vec<CallCheck>,
    /// The lines with a state. The first `compared` of them have been compared.
    pub states: Vec<StateCheck>,
    compared: usize,
    /// The completions of the calls so far. The entry of an open call is `None`.
    ends: Vec<Option<ShownEnd>>,
    /// The expected results of other calls that weren't complete at that time. An entry is the number of the
    /// call whose line has the expectation, and its index among the followers of that line.
    waiting: Vec<(u64, usize)>,
    faults: Vec<Fault<NamesFault>>,
}

// Each place that drops one calls this. A derived drop would be repeated, and proved, at each of them.
impl Drop for ExpectationCheck {
    fn drop(self) {
        let ExpectationCheck {
            alloc: _,
            scope: _,
            calls: _,
            states: _,
            compared: _,
            ends: _,
            waiting: _,
            faults: _,
        } = self;
    }
}

/// Returns the number that an operand means, or 0 if it isn't a number.
fn operand_number(scope: &Scope, operand: &Operand) -> u64 {
    match operand {
        Operand::Name(mention) => scope.number(&mention.name),
        Operand::Number(number) => *number,
        Operand::Plain(written) => match &written.value {
            OperandValue::Thread(thread) => u64::from(thread.0),
            OperandValue::Id(id) => *id,
            _ => 0,
        },
        Operand::Text(_) | Operand::Zeros(_) => 0,
    }
}

/// Returns whether a state with this name matches the expected name. `blocked` matches each state but
/// `ready`.
fn is_state(name: &str, expected: &str) -> bool {
    name == expected || expected == "blocked" && name != "ready"
}

/// The difference between a result and the expected result, if there is one.
type Mismatch = Result<Option<Fault<NamesFault>>, AllocError>;

fn difference_at(place: Place, difference: Difference) -> Mismatch {
    Ok(Some(Fault::new(place, NamesFault::Difference(difference))))
}

impl ExpectationCheck {
    /// Returns the comparison before the first call. `calls` has the expectations of each call, and `states`
    /// the lines with a state.
    pub fn new(
        alloc: Global,
        scope: Scope,
        calls: Vec<CallCheck>,
        states: Vec<StateCheck>,
    ) -> ExpectationCheck {
        ExpectationCheck {
            alloc,
            scope,
            calls,
            states,
            compared: 0,
            ends: Vec::new(alloc),
            waiting: Vec::new(alloc),
            faults: Vec::new(alloc),
        }
    }

    /// Returns the differences that were found since the last call of this function, in the order of their
    /// places.
    pub fn take_faults(&mut self) -> Result<Vec<Fault<NamesFault>>, AllocError> {
        let mut faults = mem::replace(&mut self.faults, Vec::new(self.alloc));
        faults.sort_by_key(|fault| (fault.place.line, fault.place.column))?;
        Ok(faults)
    }

    /// Returns the context for faults of names.
    pub fn context(&self) -> Context<'_> {
        Context {
            alloc: self.alloc,
            scope: &self.scope,
            calls: self.calls.as_slice(),
        }
    }

    fn tell(&mut self, difference: Option<Fault<NamesFault>>) -> Result<(), AllocError> {
        if let Some(fault) = difference {
            self.faults.push(fault)?;
        }
        Ok(())
    }

    /// Returns the expectations of the call with this number.
    pub fn at(&self, call: u64) -> Option<&CallCheck> {
        self.calls.get(call.checked_sub(1)? as usize)
    }

    /// Returns the line of the call with this number.
    fn line_of(&self, call: u64) -> u64 {
        self.at(call).map_or(0, |check| check.place.line)
    }

    /// Returns the completion of the call with this number.
    fn end_of(&self, call: u64) -> Option<&ShownEnd> {
        self.ends.get(call.checked_sub(1)? as usize)?.as_ref()
    }

    /// Compares the completions in the event of the next call, which this kernel made, and the states after
    /// it.
    pub fn follow(
        &mut self,
        kernel: &Kernel,
        completions: &[Completion],
    ) -> Result<(), AllocError> {
        self.ends.push(None)?;
        let event = self.ends.len() as u64;
        for completion in completions {
            self.note(event, completion)?;
        }
        for completion in completions {
            let difference = self.own_difference(completion.call)?;
            self.tell(difference)?;
        }
        self.compare_followers(event)?;
        self.compare_states(Some(kernel))
    }

    /// Compares the states in the lines after the calls so far. Each thread is ready if there is no kernel
    /// yet.
    pub fn compare_states(&mut self, kernel: Option<&Kernel>) -> Result<(), AllocError> {
        for _ in 0..self.states.len() {
            let Some(check) = self.next_state() else {
                break;
            };
            let difference = self.state_difference(kernel, check)?;
            self.compared = self.compared.saturating_add(1);
            self.tell(difference)?;
        }
        Ok(())
    }

    /// Returns the next line with a state, if all calls above it have been made.
    fn next_state(&self) -> Option<&StateCheck> {
        let check = self.states.get(self.compared)?;
        (check.calls <= self.ends.len() as u64).then_some(check)
    }

    /// Keeps the completion of a call.
    fn note(&mut self, event: u64, completion: &Completion) -> Result<(), AllocError> {
        let Some(check) = self.at(completion.call) else {
            return Ok(());
        };
        let buffer = match check.kind {
            CallKind::Send | CallKind::Receive | CallKind::Read => {
                Some(Bytes::copied(self.alloc, completion.buffer.as_slice())?)
            }
            _ => None,
        };
        if let Some(end) = self
            .ends
            .get_mut(completion.call.saturating_sub(1) as usize)
        {
            *end = Some(ShownEnd {
                event,
                mark: completion.mark,
                buffer,
            });
        }
        Ok(())
    }

    /// Returns the difference between the completion of a call and the expectation of its own line.
    fn own_difference(&self, call: u64) -> Mismatch {
        let (Some(check), Some(end)) = (self.at(call), self.end_of(call)) else {
            return Ok(None);
        };
        match &check.own {
            Some(own)
                if matches!(own.completion, ExpectedCompletion::Completed(_))
                    || end.event == call => { self.difference(end, own) }
            _ => self.silent_difference(call, check, end),
        }
    }

    /// Returns the difference between a completion and the expected result.
    fn difference(&self, end: &ShownEnd, expectation: &Expectation) -> Mismatch {
        if let ExpectedCompletion::Completed(pattern) = &expectation.completion
            && end.fits(&self.scope, pattern)
        {
            return Ok(None);
        }
        let expected = expectation.text.copied(self.alloc)?;
        let found = self.found(end, expectation.place.line)?;
        difference_at(
            expectation.place,
            Difference::Completion { expected, found },
        )
    }

    /// Returns the completion, and the line of the call that caused it, if that isn't this line.
    fn found(&self, end: &ShownEnd, here: u64) -> Result<FoundEnd, AllocError> {
        let line = self.line_of(end.event);
        Ok(FoundEnd {
            completion: end.told(self.context())?,
            line: (line != here).then_some(line),
        })
    }

    /// Returns the failure of a call, if no line expects it.
    fn silent_difference(&self, call: u64, check: &CallCheck, end: &ShownEnd) -> Mismatch {
        if !matches!(end.mark, Mark::Failed(_)) || self.is_followed(call, end.event) {
            return Ok(None);
        }
        let call = check.kind.word();
        let found = self.found(end, check.place.line)?;
        difference_at(check.place, Difference::Failure { call, found })
    }

    /// Returns whether the line of the call that completed this call has an expectation for it.
    fn is_followed(&self, call: u64, event: u64) -> bool {
        let Some(check) = self.at(event) else {
            return false;
        };
        let mut followers = check.followers.iter();
        followers.any(|follower| self.scope.number(&follower.name) == call)
    }

    /// Compares the results that the line of this call, or an earlier line, expects of other calls. If the
    /// other call is still open, its expected result is kept for later events.
    fn compare_followers(&mut self, event: u64) -> Result<(), AllocError> {
        let mut expectation = mem::replace(&mut self.waiting, Vec::new(self.alloc));
        let count = self.at(event).map_or(0, |check| check.followers.len());
        for place in 0..count {
            expectation.push((event, place))?;
        }
        for (line, place) in expectation {
            let Some((follower, end)) = self.follower(line, place) else {
                continue;
            };
            if let Some(end) = end {
                let difference = self.follower_difference(line, follower, end)?;
                self.tell(difference)?;
            } else if matches!(
                follower.expectation.completion,
                ExpectedCompletion::Completed(_)
            ) {
                self.waiting.push((line, place))?;
            }
        }
        Ok(())
    }

    /// Returns an expectation of a line about another call, and the completion of that call, if it is
    /// complete.
    fn follower(&self, event: u64, place: usize) -> Option<(&Follower, Option<&ShownEnd>)> {
        let follower = self.at(event)?.followers.get(place)?;
        Some((follower, self.end_of(self.scope.number(&follower.name))))
    }

    /// Returns the difference between the completion of a call and the expectation in the line of call
    /// `event`.
    fn follower_difference(&self, event: u64, follower: &Follower, end: &ShownEnd) -> Mismatch {
        if end.event == event
            || matches!(follower.expectation.completion, ExpectedCompletion::Blocked)
        {
            return self.difference(end, &follower.expectation);
        }
        let difference = Difference::Elsewhere {
            name: follower.name.copied(self.alloc)?,
            expected: follower.expectation.text.copied(self.alloc)?,
            found: self.found(end, follower.place.line)?,
        };
        difference_at(follower.place, difference)
    }

    /// Returns the difference between the present state of a thread and the state in a line.
    fn state_difference(&self, kernel: Option<&Kernel>, check: &StateCheck) -> Mismatch {
        let thread = operand_number(&self.scope, &check.thread);
        let now = match (kernel, u8::try_from(thread)) {
            (Some(kernel), Ok(thread)) => {
                state_among(kernel.blocked(self.alloc)?.as_slice(), ThreadNo(thread))
            }
            _ => ThreadState::Ready,
        };
        let channel = state_channel(now).map_or(0, |channel| channel.0);
        let expected = match &check.channel {
            Some(expected) => operand_number(&self.scope, expected),
            None => channel,
        };
        if is_state(state_name(now), check.state) && expected == channel {
            return Ok(None);
        }
        let expected = check.text.copied(self.alloc)?;
        let found = self.context().state(&now)?;
        difference_at(check.place, Difference::State { expected, found })
    }

    /// Adds a line for each of these completions of the latest call. The line has the line number of that
    /// call, the completed call and its result, with names in place of numbers.
    pub fn push_trace(
        &self,
        out: &mut String,
        completions: &[Completion],
    ) -> Result<(), AllocError> {
        let line = self.line_of(self.ends.len() as u64);
        for completion in completions {
            let (Some(check), Some(end)) = (self.at(completion.call), self.end_of(completion.call))
            else {
                continue;
            };
            let thread = self.context().thread(completion.thread);
            let verb = check.kind.word();
            let (name, equals) = match self.scope.name_of(false, completion.call) {
                Some(name) => (name.as_str(), " = "),
                None => ("", ""),
            };
            let told = end.told(self.context())?;
            write!(out, "{line}: {name}{equals}{thread} {verb} -> {told}\n")?;
        }
        Ok(())
    }

    /// Compares what remains at the end of the run: calls that are expected to complete, and haven't.
    pub fn finish(&mut self, kernel: &Kernel) -> Result<(), AllocError> {
        for call in 1..=self.ends.len() as u64 {
            let own = self.at(call).and_then(|check| check.own.as_ref());
            if let (Some(own), None) = (own, self.end_of(call)) {
                let difference = self.open_difference(kernel, call, own)?;
                self.tell(difference)?;
            }
        }
        for (event, place) in mem::replace(&mut self.waiting, Vec::new(self.alloc)) {
            if let Some((follower, _)) = self.follower(event, place) {
                let call = self.scope.number(&follower.name);
                let difference = self.open_difference(kernel, call, &follower.expectation)?;
                self.tell(difference)?;
            }
        }
        Ok(())
    }

    /// Returns the difference for a call that is expected to complete, and hasn't.
    fn open_difference(&self, kernel: &Kernel, call: u64, expectation: &Expectation) -> Mismatch {
        if matches!(expectation.completion, ExpectedCompletion::Blocked) {
            return Ok(None);
        }
        let blocked = kernel.blocked(self.alloc)?;
        let mut blocked = blocked.iter();
        let open = blocked.find(|blocked| blocked.number == call);
        let state = state_name(open.map_or(ThreadState::Ready, |open| open.state));
        let expected = expectation.text.copied(self.alloc)?;
        difference_at(expectation.place, Difference::Open { expected, state })
    }
}
