//! Unproved: words and layout. Counts the outcomes of a check.

use std::fmt;

/// The outcomes, each with its words for one script and for several scripts.
const OUTCOMES: [(&str, &str, &str); 7] = [
    ("same", "same", "same"),
    ("differs", "differs", "differ"),
    ("without", "without a trace", "without a trace"),
    (
        "without a verdict",
        "without a verdict",
        "without a verdict",
    ),
    ("written", "written", "written"),
    ("faulty", "faulty", "faulty"),
    ("unread", "unread", "unread"),
];

/// The number of scripts with each outcome, and the number of files and folders that can't be read or
/// written.
#[derive(Clone, Copy, Default, PartialEq, Eq)]
pub struct CheckCounts([usize; 7]);

/// `11 same, 1 differs, 3 without a trace`; zeros are left out.
impl fmt::Display for CheckCounts {
    fn fmt<W: fmt::Write>(&self, f: &mut fmt::Formatter<W>) -> fmt::Result {
        let mut is_first = true;
        for ((_, one, several), count) in OUTCOMES.iter().zip(&self.0) {
            let words = if *count == 1 { one } else { several };
            let comma = if is_first { "" } else { ", " };
            if *count > 0 {
                write!(f, "{comma}{count} {words}")?;
                is_first = false;
            }
        }
        Ok(())
    }
}

impl CheckCounts {
    /// Counts a script by its outcome, a design without a verdict, or a file or folder as `unread`.
    pub fn add(&mut self, outcome: &str) {
        for ((name, _, _), count) in OUTCOMES.iter().zip(&mut self.0) {
            if *name == outcome {
                *count = count.saturating_add(1);
            }
        }
    }

    /// Returns whether any script was checked.
    pub fn has_some(&self) -> bool {
        self.0.iter().take(6).any(|count| *count > 0)
    }

    /// Returns the exit status of the check.
    pub fn status(&self) -> u8 {
        let [_, differ, without, unjudged, _, faulty, unread] = self.0;
        if unread > 0 {
            return 3;
        }
        u8::from(differ > 0 || without > 0 || unjudged > 0 || faulty > 0)
    }
}
