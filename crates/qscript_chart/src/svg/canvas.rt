//! The measures of a drawing, in pixels.

use crate::chart::Chart;
use crate::plan::{Side, words_side};
use qbase::ids::ThreadNo;
use qscript_names::context::Context;
use std::alloc::AllocError;

/// Half the width of a thread's head, if its numbers have one digit each.
const HEAD_HALF: usize = 68;

/// The number of letters in such a head.
const HEAD_LETTERS: usize = 20;

/// The distance between lines of words below the rows.
pub const LINE: usize = 18;

/// Half the width of a bar.
pub const BAR_HALF: usize = 7;

/// The distance between rows.
const ROW: usize = 38;

/// The y coordinate at which the bars begin.
const BARS: usize = 52;

/// The least distance between neighbouring lifelines.
const LEAST_GAP: usize = 170;

/// The width for the numbers of the calls.
const NUMBERS: usize = 40;

/// The least width of a drawing: the legend fits into it.
const LEAST_WIDTH: usize = 620;

/// A chart and the measures of its drawing.
#[derive(Drop)]
pub struct SvgCanvas<'a> {
    pub names: Context<'a>,
    pub chart: &'a Chart,
    /// Half the width of a thread's head.
    pub head_half: usize,
    /// The distance between neighbouring lifelines.
    pub gap: usize,
    left: usize,
    right: usize,
}

impl SvgCanvas<'_> {
    /// Returns the measures that a chart needs.
    pub fn of<'a>(names: Context<'a>, chart: &'a Chart) -> Result<SvgCanvas<'a>, AllocError> {
        let last = chart.lifelines.len().saturating_sub(1);
        let more = chart.longest_head(names)?.saturating_sub(HEAD_LETTERS);
        let head_half = HEAD_HALF.saturating_add(more.saturating_mul(4)); // eight pixels a letter
        let heads = head_half.saturating_mul(2).saturating_add(24);
        Ok(SvgCanvas {
            names,
            chart,
            head_half,
            gap: room_for(chart.longest_words()).max(LEAST_GAP).max(heads),
            left: room_beside(chart, head_half, 0, Side::Left).saturating_add(NUMBERS),
            right: room_beside(chart, head_half, last, Side::Right).max(LEAST_GAP),
        })
    }

    /// Returns the x coordinate of a column's lifeline.
    pub fn x(&self, column: usize) -> usize {
        self.left.saturating_add(self.gap.saturating_mul(column))
    }

    /// Returns the x coordinate of a thread's lifeline.
    pub fn x_of(&self, thread: ThreadNo) -> usize {
        self.x(self.chart.column(thread))
    }

    /// Returns the y coordinate of the call with this number. The bars begin at the y coordinate of the call
    /// before the first row.
    pub fn y(&self, number: u64) -> usize {
        let place = number.saturating_sub(self.chart.before) as usize;
        BARS.saturating_add(ROW.saturating_mul(place))
    }

    /// Returns the y coordinate at which the lifelines end.
    pub fn foot(&self) -> usize {
        let rows = self.chart.rows.len().saturating_add(1);
        BARS.saturating_add(ROW.saturating_mul(rows))
    }

    /// Returns the width of the drawing: enough for all lifelines and for the legend.
    pub fn width(&self) -> usize {
        let last = self.chart.lifelines.len().saturating_sub(1);
        self.x(last).saturating_add(self.right).max(LEAST_WIDTH)
    }

    /// Returns the y coordinate of the legend, below the lines of words.
    pub fn legend(&self) -> usize {
        let lines = LINE.saturating_mul(self.chart.deadlocks.len());
        self.foot().saturating_add(14).saturating_add(lines)
    }

    /// Returns the height of the drawing, with its legend.
    pub fn height(&self) -> usize {
        let legend = if self.chart.tones.is_empty() { 62 } else { 86 };
        self.legend().saturating_add(legend)
    }
}

/// Returns the width for this many letters, at seven pixels a letter, with a margin.
fn room_for(letters: usize) -> usize {
    letters.saturating_mul(7).saturating_add(34)
}

/// Returns the width on one side of a column's lifeline: at least half a head, and enough for the words of
/// its calls there.
fn room_beside(chart: &Chart, head_half: usize, column: usize, side: Side) -> usize {
    let mut most = head_half.saturating_add(14);
    for row in &chart.rows {
        if chart.column(row.thread) == column && words_side(chart, row) == side {
            most = most.max(room_for(row.words.len()));
        }
    }
    most
}
