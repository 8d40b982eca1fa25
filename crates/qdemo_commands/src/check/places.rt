//! Unproved: words and layout. Finds the scripts to check, and their traces.

use super::CheckRunner;
use crate::completion::tell_failed;
use crate::designs::is_design;
use crate::kinds::TextKind;
use crate::names::is_named;
use std::alloc::{AllocError, Global};
use std::rt::Files;
use std::{fs, io};

/// A script or a design to check.
#[derive(Drop)]
pub struct Example {
    /// Its name in the output.
    pub name: String,
    /// Its file.
    pub script: String,
    /// The file with its expected output: NAME.trace, or NAME.verdict for a design.
    pub trace: String,
    /// The extension of this file: `trace` or `verdict`.
    pub what: &'static str,
}

impl Example {
    /// Returns the example in a file, which is shown under this name without its `.txt`.
    fn new(alloc: Global, name: &str, script: &str) -> Result<Example, AllocError> {
        let (front, what) = match script.strip_suffix(".design") {
            Some(front) => (front, "verdict"),
            None => (script.strip_suffix(".txt").unwrap_or(script), "trace"),
        };
        Ok(Example {
            name: String::from_str(alloc, name.strip_suffix(".txt").unwrap_or(name))?,
            script: String::from_str(alloc, script)?,
            trace: format!(in alloc; "{front}.{what}")?,
            what,
        })
    }
}

impl<R: Files + Print + Eprint + AllocGlobal + Clone + Drop> CheckRunner<'_, R> {
    /// Returns the scripts in the files and folders to check, in order. The scripts of a folder are sorted by
    /// name. A path that can't be read is reported and counted. A script in the only folder, or in the
    /// current folder, is named by its file name. Any other script is named by its path.
    pub(super) fn examples(&mut self) -> io::Result<Vec<Example>> {
        let alloc = self.rt.alloc();
        let mut examples = Vec::new(alloc);
        for path in &self.run.paths {
            let path = path.as_str();
            match fs::metadata(self.rt, path) {
                Ok(metadata) if metadata.is_dir() => self.push_folder(path, &mut examples)?,
                Ok(_) if TextKind::of_name(path).is_some() => {
                    examples.push(Example::new(alloc, path, path)?)?;
                }
                Ok(_) => self.refuse_file(path),
                Err(error) => self.count_unread(path, error)?,
            }
        }
        Ok(examples)
    }

    /// Reports a file that isn't called like a script or a design, and counts it.
    fn refuse_file(&mut self, path: &str) {
        let why = "no script: expected NAME.txt, NAME.names or NAME.design";
        tell_failed(self.rt, format_args!("{path}: {why}"));
        self.tally.add("unread");
    }

    /// Adds the scripts of a folder, sorted by name.
    fn push_folder(&mut self, folder: &str, examples: &mut Vec<Example>) -> io::Result<()> {
        let alloc = self.rt.alloc();
        let names = match self.names_in(folder) {
            Ok(names) => names,
            Err(error) => return self.count_unread(folder, error),
        };
        if names.is_empty() {
            let why = format_args!("{folder}: no file NAME.txt, NAME.names or NAME.design");
            tell_failed(self.rt, why);
            self.tally.add("unread");
        }
        let is_alone = self.run.paths.len() == 1 || folder == ".";
        for name in names {
            let is_whole = is_named(name.as_str()) || is_design(name.as_str());
            let completion = if is_whole { "" } else { ".txt" };
            let file = format!(in alloc; "{name}{completion}")?;
            let script = format!(in alloc; "{folder}/{file}")?;
            let shown = if is_alone { &file } else { &script };
            examples.push(Example::new(alloc, shown.as_str(), script.as_str())?)?;
        }
        Ok(())
    }

    /// Returns the names of the scripts in a folder, sorted: without `.txt`, and with `.names` or `.design`.
    fn names_in(&self, folder: &str) -> io::Result<Vec<String>> {
        let mut names = Vec::new(self.rt.alloc());
        for entry in fs::read_dir(self.rt, folder)? {
            let entry = entry?;
            let file = entry.file_name();
            let name = file.strip_suffix(".txt").unwrap_or(file);
            if name.len() < file.len() || is_named(file) || is_design(file) {
                names.push(String::from_str(self.rt.alloc(), name)?)?;
            }
        }
        names.sort_unstable();
        Ok(names)
    }
}
