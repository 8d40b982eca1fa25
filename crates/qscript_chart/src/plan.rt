//! Chooses the sides of lifelines on which words and arrows are.

use crate::arrow::Arrow;
use crate::chart::Chart;
use crate::row::ChartRow;
use qbase::ids::ThreadNo;

/// A side of a lifeline.
#[derive(Clone, Copy, PartialEq, Eq)]
pub enum Side {
    Left,
    Right,
}

/// Returns the side on which an arrow leaves its sender's lifeline. An arrow that returns to the same
/// lifeline leaves it on the right.
pub fn leaves_at(chart: &Chart, from: ThreadNo, to: ThreadNo) -> Side {
    if chart.column(to) < chart.column(from) {
        Side::Left
    } else {
        Side::Right
    }
}

/// Returns the side of the caller's lifeline on which a row's words are: on the side of the arrow that the
/// call sends, or opposite the arrow that it receives.
pub fn words_side(chart: &Chart, row: &ChartRow) -> Side {
    match row.arrows.first() {
        Some(arrow) if is_sent(row, arrow) => leaves_at(chart, arrow.from, arrow.to),
        Some(arrow)
            if arrow.to == row.thread && chart.column(arrow.from) >= chart.column(arrow.to) => {
            Side::Left
        }
        _ => Side::Right,
    }
}

/// Returns whether the row's own call sends this arrow to another thread. Then the row's words are also the
/// arrow's.
pub fn is_sent(row: &ChartRow, arrow: &Arrow) -> bool {
    arrow.from == row.thread && arrow.to != row.thread
}
