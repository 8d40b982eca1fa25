//! Unproved: words and layout. Objects of JSON, made of values. `docs/SCRIPTS.md` and `docs/EXPLORE.md` have
//! tables of their members.

pub mod calls;
pub mod completions;
pub mod events;
pub mod faults;
pub mod names;
pub mod threads;
pub mod verdicts;
pub mod violations;

use crate::json::names::RunNames;
use qbase::ids::{ProcessNo, ThreadNo};
use serde_json::{Map, Value, put};
use std::alloc::{AllocError, Global};

/// The result of adding members to an object.
pub type Added = Result<(), AllocError>;

/// The members of an object of JSON. They are printed in alphabetical order.
#[derive(Drop)]
pub struct Record {
    alloc: Global,
    members: Map<String, Value>,
}

impl Record {
    /// Returns an object without members.
    pub fn new(alloc: Global) -> Record {
        let members = Map::new(alloc);
        Record { alloc, members }
    }

    /// Returns the object.
    pub fn into_value(self) -> Value {
        Value::Object(self.members)
    }

    /// Adds a number, a truth value, a list or an object.
    pub fn set<V: Into<Value>>(&mut self, key: &str, value: V) -> Added {
        put(&mut self.members, self.alloc, key, value.into())
    }

    /// Adds a text.
    pub fn set_text(&mut self, key: &str, text: &str) -> Added {
        let text = Value::try_from_str(self.alloc, text)?;
        self.set(key, text)
    }

    /// Adds bytes: an object with their hexadecimal digits and their number.
    pub fn set_bytes(&mut self, key: &str, bytes: &[u8]) -> Added {
        let mut shown = Record::new(self.alloc);
        shown.set("hex", hex::encode(self.alloc, bytes)?)?;
        shown.set("length", bytes.len())?;
        self.set(key, shown.into_value())
    }

    /// Adds a number as a member, and its name, if it has one, as the member KEY_name.
    fn set_named(&mut self, key: &str, number: u64, name: Option<&str>) -> Added {
        self.set(key, number)?;
        let Some(name) = name else {
            return Ok(());
        };
        let key = format!(in self.alloc; "{key}_name")?;
        self.set_text(key.as_str(), name)
    }

    /// Adds a thread, with its name.
    pub fn set_thread<N: RunNames>(&mut self, key: &str, thread: ThreadNo, names: &N) -> Added {
        self.set_named(key, u64::from(thread.0), names.thread(thread))
    }

    /// Adds a process, with its name.
    pub fn set_process<N: RunNames>(&mut self, key: &str, process: ProcessNo, names: &N) -> Added {
        self.set_named(key, u64::from(process.0), names.process(process))
    }

    /// Adds a call, or the channel, the connection, the message or the pulse with the number of a call, with
    /// its name.
    pub fn set_made<N: RunNames>(&mut self, key: &str, number: u64, names: &N) -> Added {
        self.set_named(key, number, names.made_by(number))
    }

    /// Adds a call, with its name and its line.
    pub fn set_call<N: RunNames>(&mut self, key: &str, number: u64, names: &N) -> Added {
        self.set_made(key, number, names)?;
        match names.line(number) {
            Some(line) => self.set("line", line),
            None => Ok(()),
        }
    }
}

/// Returns the line of an object of these numbers.
pub fn numbers_line(alloc: Global, numbers: &[(&str, u64)]) -> Result<String, AllocError> {
    let mut record = Record::new(alloc);
    for (key, number) in numbers {
        record.set(key, *number)?;
    }
    let mut line = String::new(alloc);
    push_line(&mut line, &record.into_value())?;
    Ok(line)
}

/// Adds the line of an object to a text.
pub fn push_line(out: &mut String, value: &Value) -> Added {
    let alloc = *out.allocator();
    out.push_str(value.to_string(alloc)?.as_str())?;
    out.push('\n')
}
