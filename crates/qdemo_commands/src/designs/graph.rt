//! Unproved: words and layout. Writes the graph of a design's states.

use crate::command::ExploreRun;
use crate::completion::{ExitResult, end_failed, end_with, put_text};
use crate::designs::search_shown;
use qexplore_design::graph::StateGraph;
use qexplore_design::verdict::script::ScriptStyle;
use qexplore_design::verdict::words::DesignSource;
use std::alloc::AllocError;
use std::process::ExitCode;
use std::rt::Files;

/// The exit status if a design has too many states for a graph.
const TOO_MANY: u8 = 4;

/// Writes the graph of a design's states into a file or on standard output. Its title is the first line of
/// the verdict. If there is a fault, the run that shows it is marked. Returns the exit status of the search.
pub fn put_graph<R: Files + Print + Eprint + AllocGlobal>(
    rt: &R,
    run: &ExploreRun,
    source: DesignSource<'_>,
) -> ExitResult {
    match graph_of(rt, run, source) {
        Ok(Some((text, status))) => {
            put_text(rt, run.output.as_deref(), text.as_str())?;
            Ok(ExitCode::from(status))
        }
        Ok(None) => Err(end_too_many(rt, source.file)),
        Err(_) => Err(end_failed(rt, "out of memory")),
    }
}

/// Ends the program, since a design has too many states.
fn end_too_many<R: Eprint>(rt: &R, file: &str) -> ExitCode {
    end_with(
        rt,
        format_args!(
            "{file}: more than 1,000 states; --dot writes at most 1,000: write fewer copies or repetitions"
        ),
        TOO_MANY,
    )
}

/// Returns the graph of a design and the exit status of the search, or `None` if it has too many states.
fn graph_of<R: Eprint + AllocGlobal>(
    rt: &R,
    run: &ExploreRun,
    source: DesignSource<'_>,
) -> Result<Option<(String, u8)>, AllocError> {
    let Some(mut graph) = StateGraph::of(source.alloc, source.design)? else {
        return Ok(None);
    };
    let ended = search_shown(rt, run, source)?;
    if let Some(found) = ended.found() {
        graph.mark(found);
    }
    let words = ended.words(source, ScriptStyle::plain(false))?;
    let text = graph.dot(source, words.headline.as_str())?;
    Ok(Some((text, ended.status())))
}
