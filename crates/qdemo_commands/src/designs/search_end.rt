//! Unproved: words and layout. Makes searches, and shows their outcomes in words and as JSON.

use crate::command::ExploreRun;
use crate::json::verdicts::{found_verdict, gave_up_verdict, nothing_verdict, random_verdict};
use qexplore::explore::{Observer, explore};
use qexplore::random::try_some;
use qexplore::verdict::Verdict;
use qexplore::violation::Counterexample;
use qexplore_design::verdict::script::ScriptStyle;
use qexplore_design::verdict::words::{DesignSource, VerdictWords, found_script};
use serde_json::Value;
use std::alloc::AllocError;

/// The exit status of a search that didn't make every interleaving.
const NOT_ALL: u8 = 4;

/// The outcome of a search.
#[derive(Drop)]
pub enum SearchEnd {
    /// It made every interleaving, or gave up.
    Searched(Verdict),
    /// A random interleaving has a violation.
    RandomFound(Counterexample),
    /// This many random interleavings, made with this seed, have none.
    RandomNothing { count: u64, seed: u64 },
}

impl SearchEnd {
    /// Returns the exit status.
    pub fn status(&self) -> u8 {
        match self {
            SearchEnd::Searched(Verdict::Found(_)) | SearchEnd::RandomFound(_) => 1,
            SearchEnd::Searched(Verdict::Nothing(_)) => 0,
            SearchEnd::Searched(Verdict::GaveUp(_)) | SearchEnd::RandomNothing { .. } => NOT_ALL,
        }
    }

    /// Returns the outcome in words. The run that shows a violation has this style.
    pub fn words(
        &self,
        source: DesignSource<'_>,
        style: ScriptStyle,
    ) -> Result<VerdictWords, AllocError> {
        match self {
            SearchEnd::Searched(Verdict::Found(found)) => {
                source.found_words(found, "a shortest run", style)
            }
            SearchEnd::Searched(Verdict::Nothing(summary)) => source.nothing_words(summary),
            SearchEnd::Searched(Verdict::GaveUp(tally)) => source.gave_up_words(*tally),
            SearchEnd::RandomFound(found) => source.found_words(found, "a run", style),
            SearchEnd::RandomNothing { count, seed } => source.chance_words(*count, *seed),
        }
    }

    /// Returns the violation, if there is one.
    pub fn found(&self) -> Option<&Counterexample> {
        match self {
            SearchEnd::Searched(Verdict::Found(found)) | SearchEnd::RandomFound(found) => Some(
                found,
            ),
            _ => None,
        }
    }

    /// Returns the run that shows a violation as a script, with names if `in_names` is set. `None` if there
    /// is no violation.
    pub fn found_script(
        &self,
        source: DesignSource<'_>,
        in_names: bool,
    ) -> Result<Option<String>, AllocError> {
        let Some(found) = self.found() else {
            return Ok(None);
        };
        let script = if in_names {
            source.found_script_with_names(found)?
        } else {
            found_script(source, found)?
        };
        Ok(Some(script))
    }

    /// Returns the outcome as an object of JSON.
    pub fn verdict(&self, source: DesignSource<'_>) -> Result<Value, AllocError> {
        match self {
            SearchEnd::Searched(Verdict::Found(found)) => found_verdict(source, found, true),
            SearchEnd::Searched(Verdict::Nothing(summary)) => nothing_verdict(source, summary),
            SearchEnd::Searched(Verdict::GaveUp(tally)) => gave_up_verdict(source, *tally),
            SearchEnd::RandomFound(found) => found_verdict(source, found, false),
            SearchEnd::RandomNothing { count, seed } => random_verdict(source, *count, *seed),
        }
    }
}

/// Explores all interleavings or makes random ones.
pub fn search<W: Observer>(
    run: &ExploreRun,
    source: DesignSource<'_>,
    progress: &mut W,
) -> Result<SearchEnd, AllocError> {
    let DesignSource { alloc, design, .. } = source;
    if let Some(count) = run.random {
        let (count, seed) = (u64::from(count), u64::from(run.seed));
        return Ok(match try_some(alloc, design, seed, count, progress)? {
            Some(found) => SearchEnd::RandomFound(found),
            None => SearchEnd::RandomNothing { count, seed },
        });
    }
    let most = run.most as usize;
    let verdict = explore(alloc, design, most, !run.no_symmetry, progress)?;
    Ok(SearchEnd::Searched(verdict))
}
