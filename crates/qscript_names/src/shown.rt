//! Unproved: words and layout. Names and line numbers, which are printed in place of numbers.

use crate::context::Context;
use crate::scope::Scope;
use qbase::ids::{ProcessNo, ThreadNo};
use qbase::state::ThreadState;
use qmodel::open_call::Blocked;
use qscript_text::states::{state_channel, state_name};
use qscript_text::word::Word;
use std::alloc::{AllocError, Global};
use std::fmt;

/// The printed form of a thread, of a process, of a call, or of a thing that a call made.
#[derive(Clone, Copy)]
pub enum ShownNames<'a> {
    /// By its name.
    Name(&'a Word),
    /// By its number, since it has no name.
    Number(u64),
    /// A call, by the number of its line.
    Line(u64),
    /// A call of a plain script, by its number.
    Call(u64),
}

impl fmt::Display for ShownNames<'_> {
    fn fmt<W: fmt::Write>(&self, f: &mut fmt::Formatter<W>) -> fmt::Result {
        match *self {
            ShownNames::Name(name) => write!(f, "{name}"),
            ShownNames::Number(number) => write!(f, "{number}"),
            ShownNames::Line(line) => write!(f, "line {line}"),
            ShownNames::Call(number) => write!(f, "call {number}"),
        }
    }
}

impl<'a> Context<'a> {
    /// Returns the context of a plain script, which has no names. `scope` is empty.
    pub fn plain(alloc: Global, scope: &'a Scope) -> Context<'a> {
        Context {
            alloc,
            scope,
            calls: &[],
        }
    }

    /// Returns whether it has no names and no lines of calls.
    pub fn is_plain(self) -> bool {
        self.calls.is_empty() && self.scope.labels().is_empty()
    }

    /// Returns the printed form of the channel, the connection, the message or the pulse with this number.
    pub fn id(self, number: u64) -> ShownNames<'a> {
        let name = self.scope.name_of(false, number);
        name.map_or(ShownNames::Number(number), ShownNames::Name)
    }

    /// Returns the printed form of a thread.
    pub fn thread(self, thread: ThreadNo) -> ShownNames<'a> {
        let number = u64::from(thread.0);
        let name = self.scope.name_of(true, number);
        name.map_or(ShownNames::Number(number), ShownNames::Name)
    }

    /// Returns the printed form of a process.
    pub fn process(self, process: ProcessNo) -> ShownNames<'a> {
        let at = usize::from(process.0).wrapping_sub(1);
        let name = self.scope.process_names().get(at);
        name.map_or(ShownNames::Number(u64::from(process.0)), ShownNames::Name)
    }

    /// Returns the printed form of a call: its line, or `call` and its number in a plain script.
    pub fn call(self, number: u64) -> ShownNames<'a> {
        let call = self.calls.get(number.wrapping_sub(1) as usize);
        call.map_or(
            ShownNames::Call(number),
            |call| ShownNames::Line(call.place.line),
        )
    }

    /// Returns the name of a state, and the channel on which a thread in it is blocked.
    pub fn state(self, state: &ThreadState) -> Result<String, AllocError> {
        let name = state_name(*state);
        match state_channel(*state) {
            Some(channel) => {
                let channel = self.id(channel.0);
                format!(in self.alloc; "{name} on {channel}")
            }
            None => String::from_str(self.alloc, name),
        }
    }

    /// Adds a line for each of these threads: its state, in the notation of a script, and the line of its
    /// call.
    pub fn push_blocked(self, out: &mut String, blocked: &[Blocked]) -> Result<(), AllocError> {
        for blocked in blocked {
            let thread = self.thread(blocked.thread);
            let state = self.state(&blocked.state)?;
            let call = self.call(blocked.number);
            write!(out, "{thread} is {state}  # {call}\n")?;
        }
        Ok(())
    }
}
