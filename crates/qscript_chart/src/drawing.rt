//! Draws the run of a script.

ghost use Rattle.std.specs.Prelude.{◌≡◌, ◌≤◌, length, IfOk, IfErr};
ghost use Rattle.std.specs.List.Sorted.{IsPermutation};
ghost use Rattle.qscript.specs.Script.{CanRun};
ghost use Rattle.qscript_chart.specs.Charts.{IsChartOf, IsCharted, IsChartFault, IsUncharted};
ghost use Rattle.qscript_chart.specs.View.{drawn_count};

use crate::chart::Chart;
use crate::fault::ChartFault;
use crate::row::{ChartRow, Tone};
pub use crate::run::ThreadStates;
use crate::run::{rows_of, rows_of_trace};
use crate::svg::svg_of;
use crate::text::text_of;
use crate::view::{ChartView, Style};
use qkernel::kernel::Kernel;
use qkernel::trace::Trace;
use qscript::run::Run;
use qscript::script::roster_with_all;
use qscript::{Script, parse};
use qscript_explain::history::CallHistory;
use qscript_explain::waiting::{deadlocks, waits};
use qscript_names::context::Context;
use qscript_names::scope::Scope;
use qtables::member::Member;
use std::alloc::{AllocError, Global};
use std::mem;

/// The greatest number of calls that are drawn.
pub const MOST_CALLS: usize = 400;

/// A run that is over: its events, the states of the threads before the first event and after each event, and
/// the kernel at its end.
#[derive(Clone, Copy)]
pub struct PastRun<'a> {
    pub trace: &'a Trace,
    pub states: &'a [ThreadStates],
    pub kernel: &'a Kernel,
    /// How each of its calls is drawn.
    pub tones: &'a [Tone],
}

/// Runs the script in a text on a new kernel, and returns the drawing of the run. Fails if the script is
/// faulty, if there is no memory, or if more than 400 calls would be drawn.
#[tactic(auto, using(crate::proofs::Charting::uncharted))]
pub fn drawing(alloc: Global, text: &[u8], view: &ChartView) -> Result<String, ChartFault>
    ensures { IfErr result (IsChartFault view.now text.now) }
{
    let script = parse(alloc, text)?;
    let scope = Scope::new(alloc);
    let drawn = drawing_of(Context::plain(alloc, &scope), script, view)?;
    Ok(drawn)
}

/// Runs a script with these names on a new kernel, and returns the drawing of the run. Fails if there is no
/// memory, or if more than 400 calls would be drawn.
pub fn drawing_of(
    names: Context<'_>,
    script: Script,
    view: &ChartView,
) -> Result<String, ChartFault>
    ensures { IfErr result (IsUncharted view.now script.calls.items) }
{
    let whole = chart_of(names, script, view)?;
    Ok(drawn_part(names, whole, view)?)
}

/// Returns the drawing of a run that is over. Fails if there is no memory, or if more than 400 calls would be
/// drawn.
pub fn drawing_of_run(
    names: Context<'_>,
    run: PastRun<'_>,
    view: &ChartView,
) -> Result<String, ChartFault> {
    let PastRun {
        trace,
        states,
        kernel,
        tones,
    } = run;
    if view.span(trace.len()) > MOST_CALLS {
        return Err(ChartFault::TooManyCalls(trace.len()));
    }
    let alloc = names.alloc;
    let threads = kernel.threads().iter();
    let members = threads.map(|thread| thread.member).collect(alloc)?;
    let history = CallHistory::of(alloc, trace)?;
    let rows = rows_of_trace(names, trace, states, view.bytes)?;
    let mut whole = chart_with(alloc, kernel, &history, members, rows)?;
    whole.tones.extend_from_slice(tones)?;
    Ok(drawn_part(names, whole, view)?)
}

/// Draws the part of a chart that the view shows.
fn drawn_part(names: Context<'_>, whole: Chart, view: &ChartView) -> Result<String, AllocError> {
    let part = part_of(names.alloc, whole, view)?;
    match view.style {
        Style::Svg => svg_of(names, &part),
        Style::Text => text_of(names, &part),
    }
}

/// Runs the script in a text on a new kernel, and returns the chart of the run with all its rows. Fails if
/// the script is faulty, if there is no memory, or if more than 400 rows would be drawn.
#[tactic(auto, using(crate::proofs::Charting::uncharted))]
pub fn chart(alloc: Global, text: &[u8], view: &ChartView) -> Result<Chart, ChartFault>
    ensures ok { IfOk result (IsCharted view.now text.now) }
    ensures err { IfErr result (IsChartFault view.now text.now) }
{
    let script = parse(alloc, text)?;
    let scope = Scope::new(alloc);
    let chart = chart_of(Context::plain(alloc, &scope), script, view)?;
    Ok(chart)
}

/// Runs a script with these names on a new kernel, and returns the chart of the run with all its rows. Fails
/// if there is no memory, or if more than 400 rows would be drawn.
pub fn chart_of(names: Context<'_>, script: Script, view: &ChartView) -> Result<Chart, ChartFault>
    ensures few { IfOk result (λ _. drawn_count view.now (length script.calls.items) ≤ 400) }
    ensures chart { CanRun script.roster.items script.calls.items
        → IfOk result (IsChartOf script.roster.items script.calls.items) }
    ensures err { IfErr result (IsUncharted view.now script.calls.items) }
{
    let alloc = names.alloc;
    let calls = script.calls.len();
    if view.span(calls) > MOST_CALLS {
        return Err(ChartFault::TooManyCalls(calls));
    }
    let roster = roster_with_all(alloc, script.roster.as_slice());
    let mut run = Run::new(alloc, &roster, calls)?;
    let mut history = CallHistory::new(alloc);
    let rows = rows_of(names, &mut run, &mut history, script.calls, view.bytes)?;
    let chart = chart_with(alloc, run.kernel(), &history, script.roster, rows)?;
    Ok(chart)
}

/// Returns the chart with these threads and rows, after which the kernel and the history of calls are these.
fn chart_with(
    alloc: Global,
    kernel: &Kernel,
    history: &CallHistory,
    members: Vec<Member>,
    rows: Vec<ChartRow>,
) -> Result<Chart, AllocError>
    ensures lines { IfOk result (λ chart. IsPermutation members.items chart.lifelines.items) }
    ensures rows { IfOk result (λ chart. chart.rows ≡ rows) }
{
    let waits = waits(alloc, kernel, history, &[])?;
    let deadlocks = deadlocks(alloc, kernel, waits.as_slice(), &[])?;
    let lifelines = by_process(members)?;
    let blocked = Vec::new(alloc);
    let tones = Vec::new(alloc);
    Ok(Chart {
        lifelines,
        rows,
        before: 0,
        blocked,
        waits,
        deadlocks,
        tones,
    })
}

/// Returns the part of a chart that the view draws.
fn part_of(alloc: Global, mut part: Chart, view: &ChartView) -> Result<Chart, AllocError> {
    let to = view.to as u64;
    part.before = view.before() as u64;
    for mut row in mem::replace(&mut part.rows, Vec::new(alloc)) {
        if row.number <= to.min(part.before) {
            mem::swap(&mut part.blocked, &mut row.blocked);
        }
        let is_drawn = row.number > part.before && row.number <= to;
        if is_drawn {
            part.rows.push(row)?;
        }
    }
    Ok(part)
}

/// Sorts the threads by process, and the threads of a process by number.
fn by_process(members: Vec<Member>) -> Result<Vec<Member>, AllocError>
    ensures { IfOk result (λ sorted. IsPermutation members.items sorted.items) }
{
    let mut members = members;
    members.sort_by_key(|member| (member.process.0, member.thread.0))?;
    Ok(members)
}
