//! Writes the two files of a recording.

use qdemo_commands::completion::tell_unread;
use qdemo_serve::fault::ServeFault;
use qdemo_serve::recording::{RecordStore, Recording};
use std::rt::Files;
use std::{fs, io};

/// Stores a recording in the files NAME.txt and NAME.trace, which it overwrites. Reports the first file that
/// can't be written.
#[derive(Drop)]
pub struct RecordFiles<'a, R> {
    pub rt: &'a R,
    pub name: &'a str,
}

impl<'a, R: Files + Eprint + AllocGlobal> RecordFiles<'a, R> {
    /// Writes the text into the file NAME.KIND.
    fn put(&self, kind: &str, text: &str) -> Result<(), ServeFault> {
        let name = self.name;
        let path = format!(in self.rt.alloc(); "{name}.{kind}")?;
        match fs::write(self.rt, path.as_str(), text) {
            Ok(()) => Ok(()),
            Err(error) if error.kind() == io::ErrorKind::OutOfMemory => Err(ServeFault::NoMemory),
            Err(error) => {
                tell_unread(self.rt, path.as_str(), error);
                Err(ServeFault::Record)
            }
        }
    }
}

impl<'a, R: Files + Eprint + AllocGlobal> RecordStore for RecordFiles<'a, R> {
    fn store(&mut self, recording: &Recording) -> Result<(), ServeFault> {
        self.put("txt", recording.script.as_str())?;
        self.put("trace", recording.trace.as_str())
    }
}
