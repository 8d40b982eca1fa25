//! A script with the output that it has to print.

use qscript::fault::ScriptFault;
use qscript::script::script;
use qscript::watched::Watched;
use qscript_explain::explain;
use std::alloc::{AllocError, Global};
use std::{io, str};

/// A script, its name, and the output that it has to print.
#[derive(Drop)]
pub struct WorkedScript {
    pub name: String,
    explained: bool,
    script: String,
    expected: String,
}

impl WorkedScript {
    /// Returns the row that this line begins; `None` if it begins none.
    pub fn begun_by(alloc: Global, line: &str) -> Result<Option<WorkedScript>, AllocError> {
        let (name, explained) = match (line.strip_prefix("== "), line.strip_prefix("=? ")) {
            (Some(name), _) => (name, false),
            (None, Some(name)) => (name, true),
            (None, None) => return Ok(None),
        };
        Ok(Some(WorkedScript {
            name: String::from_str(alloc, name)?,
            explained,
            script: String::new(alloc),
            expected: String::new(alloc),
        }))
    }

    /// Adds a line of the script or of the output.
    pub fn add(&mut self, line: &str) -> io::Result<()> {
        match line.strip_prefix("> ") {
            Some(output) => add_lines(&mut self.expected, output),
            None => add_lines(&mut self.script, line),
        }
    }

    /// Returns whether this is the output that the script has to print.
    pub fn wants(&self, printed: &str) -> bool {
        self.expected.as_str() == printed
    }

    /// Returns the output of the script, or its fault.
    pub fn printed(&self, alloc: Global) -> io::Result<String> {
        let mut reader = Watched::new(self.script.as_bytes());
        let mut writer = Watched::new(Vec::new(alloc));
        match script(alloc, &mut reader, &mut writer) {
            Ok(()) => {
                let printed = writer.into_inner();
                let text = str::from_utf8(printed.as_slice()).unwrap_or("(no text)");
                Ok(String::from_str(alloc, text)?)
            }
            Err(fault) => self.faulty(alloc, fault),
        }
    }

    /// Returns a fault, with its explanation if the row has one.
    fn faulty(&self, alloc: Global, fault: ScriptFault) -> io::Result<String> {
        let mut text = format!(in alloc; "{fault}\n")?;
        if let ScriptFault::Line { number, fault } = fault
            && self.explained
            && let Some(explanation) = explain(alloc, self.script.as_bytes(), number, fault)?
        {
            let shown = explanation.text(alloc)?;
            write!(text, "{shown}\n")?;
        }
        Ok(text)
    }
}

/// Returns the first number, the last number and the repeated line of `@ FIRST LAST LINE`; `None` if the line
/// isn't of this form.
fn repeat_of(line: &str) -> Option<(u64, u64, &str)> {
    let rest = line.strip_prefix("@ ")?;
    let (first, rest) = rest.split_once(" ")?;
    let (last, line) = rest.split_once(" ")?;
    Some((first.parse().ok()?, last.parse().ok()?, line))
}

/// Adds the line, or each line that it means by repetition.
fn add_lines(text: &mut String, line: &str) -> io::Result<()> {
    let Some((first, last, repeated)) = repeat_of(line) else {
        text.push_str(line)?;
        text.push('\n')?;
        return Ok(());
    };
    for number in first..=last {
        add_numbered(text, repeated, number)?;
    }
    Ok(())
}

/// Adds the line, with this number in place of each N.
fn add_numbered(text: &mut String, line: &str, number: u64) -> io::Result<()> {
    for letter in line.chars() {
        if letter == 'N' {
            write!(text, "{number}")?;
        } else {
            text.push(letter)?;
        }
    }
    text.push('\n')?;
    Ok(())
}
