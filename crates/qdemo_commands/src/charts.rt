//! Unproved: words and layout. Draws the run of a script, or the run that shows the fault of a design, into a
//! file or on standard output.

use crate::command::ChartRun;
use crate::completion::{ExitResult, end_failed, end_with, put_text, text_of};
use crate::designs::is_design;
use crate::designs::picture::{Drawing, design_drawing};
use crate::kinds::{OtherKind, TextKind};
use crate::names::{is_named, named_of};
use crate::remarks::{FaultSource, tell_faults};
use crate::scripts::refuse_empty;
use qscript::fault::ScriptFault;
use qscript_chart::drawing::{drawing, drawing_of};
use qscript_chart::fault::ChartFault;
use qscript_chart::view::{ChartView, Style};
use qscript_names::NamedScript;
use qscript_text::parts::call_lines;
use std::process::ExitCode;
use std::rt::Files;
use std::{fmt, fs};

/// The endings of pictures that aren't SVG.
const OTHER_PICTURES: [&str; 6] = [".png", ".jpg", ".jpeg", ".gif", ".webp", ".pdf"];

/// The reason why the arguments don't go together.
#[derive(Clone, Copy)]
enum ChartRefusal<'a> {
    /// The drawing would be written over its script.
    OverScript(&'a str),
    /// The drawing's file is called like another picture. These are its name and the name without the ending.
    OtherPicture(&'a str, &'a str),
    /// The last call to draw comes before the first.
    Backwards { from: u32, to: u32 },
    /// The first call to draw comes after the last call of the run.
    AfterEnd { from: usize, calls: usize },
}

impl fmt::Display for ChartRefusal<'_> {
    fn fmt<W: fmt::Write>(&self, f: &mut fmt::Formatter<W>) -> fmt::Result {
        match self {
            ChartRefusal::OverScript(output) => {
                write!(f, "{output}: the drawing would be written over its script")
            }
            ChartRefusal::OtherPicture(output, front) => {
                write!(f, "{output}: the drawing is SVG: name it {front}.svg")
            }
            ChartRefusal::Backwards { from, to } => {
                write!(f, "--to {to} is less than --from {from}")
            }
            ChartRefusal::AfterEnd { from, calls: 1 } => {
                write!(f, "--from {from} is after the end: the run has 1 call")
            }
            ChartRefusal::AfterEnd { from, calls } => {
                write!(
                    f,
                    "--from {from} is after the end: the run has {calls} calls"
                )
            }
        }
    }
}

/// Draws the run of a script or of a design, from a file or from standard input. A drawing is never written
/// over its script.
pub fn run_chart<R: Files + Input + Print + Eprint + AllocGlobal>(
    rt: &R,
    run: &ChartRun,
) -> ExitResult {
    let view = view_of(run);
    if let Some(why) = refusal_of(rt, run, &view) {
        return Err(end_with(rt, why, 2));
    }
    let file = run.file.as_deref();
    let text = text_of(rt, file)?;
    let text = text.as_slice();
    let source = FaultSource::new(file, text, false, run.screen.colours.errors);
    let drawn = match file {
        Some(file) if is_design(file) => design_drawing(rt, run.screen, source, &view)?,
        Some(file) if is_named(file) => named_drawing(rt, source, &view)?,
        _ if run.names_in => named_drawing(rt, source, &view)?,
        _ => plain_drawing(rt, source, &view)?,
    };
    let drawn = drawn.map_err(|fault| end_with(rt, format_args!("{fault}"), fault.status()))?;
    put_text(rt, run.output.as_deref(), drawn.as_str())?;
    Ok(ExitCode::SUCCESS)
}

/// Returns why the arguments don't go together, or `None` if they do.
fn refusal_of<'a, R: Files + AllocGlobal>(
    rt: &R,
    run: &'a ChartRun,
    view: &ChartView,
) -> Option<ChartRefusal<'a>> {
    let from = run.from;
    if let Some(to) = run.to
        && to < from
    {
        return Some(ChartRefusal::Backwards { from, to });
    }
    let output = run.output.as_deref()?;
    if let Some(file) = run.file.as_deref()
        && is_same(rt, file, output)
    {
        return Some(ChartRefusal::OverScript(output));
    }
    if view.style == Style::Svg {
        for ending in &OTHER_PICTURES {
            if let Some(front) = output.strip_suffix(*ending) {
                return Some(ChartRefusal::OtherPicture(output, front));
            }
        }
    }
    None
}

/// Ends the program if the first call to draw comes after the last of these calls.
fn refuse_after_end<R: Eprint>(rt: &R, view: &ChartView, calls: usize) -> Result<(), ExitCode> {
    let from = view.from;
    if from > 1 && from > calls {
        let why = ChartRefusal::AfterEnd { from, calls };
        return Err(end_with(rt, why, 2));
    }
    Ok(())
}

/// Draws the run of a plain script.
fn plain_drawing<R: Eprint + AllocGlobal>(
    rt: &R,
    source: FaultSource<'_>,
    view: &ChartView,
) -> Result<Drawing, ExitCode> {
    refuse_empty(rt, Some(source.file.unwrap_or("-")), Some(source.text))?;
    let drawn = drawing(rt.alloc(), source.text, view);
    match &drawn {
        Ok(_) => {
            let calls = call_lines(rt.alloc(), source.text);
            let calls = calls.map_err(|_| end_failed(rt, "out of memory"))?;
            refuse_after_end(rt, view, calls.len())?;
        }
        Err(ChartFault::Script(ScriptFault::Line { .. })) => {
            return Err(end_undrawn(rt, source));
        }
        Err(_) => {}
    }
    Ok(drawn)
}

/// Ends the program for a faulty plain script, and prints its first fault. For a text of another kind the
/// right command is named instead.
fn end_undrawn<R: Eprint + AllocGlobal>(rt: &R, source: FaultSource<'_>) -> ExitCode {
    let file = source.file.unwrap_or("-");
    if let Some(other) = OtherKind::of(file, source.text, TextKind::Plain) {
        return end_with(rt, other, 1);
    }
    tell_faults(rt, source);
    ExitCode::FAILURE
}

/// Draws the run of a script with names.
fn named_drawing<R: Eprint + AllocGlobal>(
    rt: &R,
    source: FaultSource<'_>,
    view: &ChartView,
) -> Result<Drawing, ExitCode> {
    refuse_empty(rt, Some(source.file.unwrap_or("-")), Some(source.text))?;
    let NamedScript { script, check, .. } = named_of(rt, source)?;
    refuse_after_end(rt, view, script.calls.len())?;
    Ok(drawing_of(check.context(), script, view))
}

/// Returns whether two paths lead to the same existing file.
pub fn is_same<R: Files + AllocGlobal>(rt: &R, one: &str, other: &str) -> bool {
    match (fs::canonicalize(rt, one), fs::canonicalize(rt, other)) {
        (Ok(one), Ok(other)) => one.as_path().as_str() == other.as_path().as_str(),
        _ => false,
    }
}

/// Returns the view to draw. It is text if text is requested, or if the drawing is printed on a terminal.
fn view_of(run: &ChartRun) -> ChartView {
    let is_text = run.text || (run.screen.output && run.output.is_none());
    ChartView {
        style: if is_text { Style::Text } else { Style::Svg },
        bytes: run.bytes,
        from: run.from as usize,
        to: run.to.map_or(usize::MAX, |to| to as usize),
    }
}
