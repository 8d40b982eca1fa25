//! Draws a chart as SVG.

mod canvas;
mod fixed;

use crate::arrow::{Arrow, ArrowKind};
use crate::chart::{Chart, Drawn, head};
use crate::label::{cut_words, priority_words};
use crate::plan::{Side, is_sent, leaves_at, words_side};
use crate::row::{ChartRow, Tone};
use canvas::{BAR_HALF, LINE, SvgCanvas};
use fixed::{LEGEND, START, TONES, TONES_LEGEND};
use qbase::ids::ThreadNo;
use qbase::state::ThreadState;
use qscript_explain::waiting::Wait;
use qscript_names::context::Context;
use qscript_text::states::{state_among, state_word};
use qtables::member::Member;
use std::alloc::AllocError;

/// The coordinates of a place, x and y.
type Point = (usize, usize);

/// Returns a chart as SVG, which a browser shows by itself or within a page.
pub fn svg_of(names: Context<'_>, chart: &Chart) -> Result<String, AllocError> {
    let sheet = SvgCanvas::of(names, chart)?;
    let mut out = String::new(names.alloc);
    sheet.push_all(&mut out)?;
    Ok(out)
}

impl SvgCanvas<'_> {
    fn push_all(&self, out: &mut String) -> Drawn {
        let (width, height) = (self.width(), self.height());
        write!(
            out,
            "<svg xmlns=\"http://www.w3.org/2000/svg\" width=\"{width}\" height=\"{height}\" \
             viewBox=\"0 0 {width} {height}\" role=\"img\">\n{START}"
        )?;
        let (styles, more) = match self.chart.tones.is_empty() {
            true => ("", ""),
            false => (TONES, TONES_LEGEND),
        };
        out.push_str(styles)?;
        self.push_processes(out)?;
        self.push_guides(out)?;
        self.push_lifelines(out)?;
        for row in &self.chart.rows {
            let end = self.begin_tone(out, row.number)?;
            self.push_row(out, row)?;
            out.push_str(end)?;
        }
        self.push_pending(out)?;
        self.push_deadlocks(out)?;
        let y = self.legend();
        write!(
            out,
            "<g transform=\"translate(40,{y})\">\n{LEGEND}{more}</g>\n</svg>\n"
        )
    }

    /// Begins the tone of the call with this number, and returns the text that ends the tone.
    fn begin_tone(&self, out: &mut String, number: u64) -> Result<&'static str, AllocError> {
        let class = match self.chart.tone(number) {
            Tone::Usual => return Ok(""),
            Tone::Faulty => "faulty",
            Tone::Harmless => "harmless",
        };
        write!(out, "<g class=\"{class}\">\n")?;
        Ok("</g>\n")
    }

    /// Adds a background for the threads of each process.
    fn push_processes(&self, out: &mut String) -> Drawn {
        let lifelines = self.chart.lifelines.as_slice();
        let mut first = 0usize;
        for (column, member) in lifelines.iter().enumerate() {
            let next = column.saturating_add(1);
            let other = lifelines.get(next);
            if !other.is_some_and(|other| other.process == member.process) {
                self.push_process(out, first, column)?;
                first = next;
            }
        }
        Ok(())
    }

    fn push_process(&self, out: &mut String, first: usize, last: usize) -> Drawn {
        let room = self.head_half.saturating_add(6);
        let x = self.x(first).saturating_sub(room);
        let width = self.x(last).saturating_add(room).saturating_sub(x);
        let height = self.foot().saturating_sub(4);
        write!(
            out,
            "<rect class=\"process\" x=\"{x}\" y=\"8\" width=\"{width}\" height=\"{height}\" rx=\"8\"/>\n"
        )
    }

    /// Adds the number of each call, and a faint horizontal line for it.
    fn push_guides(&self, out: &mut String) -> Drawn {
        let right = self.width().saturating_sub(12);
        for row in &self.chart.rows {
            let y = self.y(row.number);
            push_line(out, "guide", (40, y), right)?;
            let words = format!(in self.names.alloc; "{}", row.number)?;
            push_made(out, "number", (32, y.saturating_add(4)), words)?;
        }
        Ok(())
    }

    /// Adds the head and the bars of each thread.
    fn push_lifelines(&self, out: &mut String) -> Drawn {
        for member in &self.chart.lifelines {
            self.push_head(out, member)?;
            self.push_bars(out, member.thread)?;
        }
        Ok(())
    }

    fn push_head(&self, out: &mut String, member: &Member) -> Drawn {
        let x = self.x_of(member.thread);
        let left = x.saturating_sub(self.head_half);
        let width = self.head_half.saturating_mul(2);
        let name = head(self.names, member)?;
        write!(
            out,
            "<rect class=\"head\" x=\"{left}\" y=\"14\" width=\"{width}\" height=\"38\" rx=\"4\"/>\
             <text class=\"name\" x=\"{x}\" y=\"30\">{name}</text>"
        )?;
        let words = priority_words(self.names.alloc, member.priority)?;
        push_made(out, "first", (x, 45), words)
    }

    /// Adds the bars of a thread, one for each stay in a state. The first bar begins before the first row.
    fn push_bars(&self, out: &mut String, thread: ThreadNo) -> Drawn {
        let x = self.x_of(thread).saturating_sub(BAR_HALF);
        let mut state = state_among(self.chart.blocked.as_slice(), thread);
        let mut top = self.y(self.chart.before);
        for row in &self.chart.rows {
            let next = state_among(row.blocked.as_slice(), thread);
            if next != state {
                let bottom = self.y(row.number);
                push_bar(out, state, (x, top), bottom)?;
                state = next;
                top = bottom;
            }
        }
        push_bar(out, state, (x, top), self.foot().saturating_sub(8))
    }

    /// Adds a call: its words, its arrows, the calls that it cancelled and the priorities that it changed.
    fn push_row(&self, out: &mut String, row: &ChartRow) -> Drawn {
        let y = self.y(row.number);
        let base = y.saturating_add(15);
        self.push_arrows(out, y, row)?;
        self.push_call(out, y, row)?;
        for cut in &row.cuts {
            let x = self.x_of(cut.thread);
            push_cross(out, x, y)?;
            let words = cut_words(self.names, cut)?;
            push_made(out, "cut", (x.saturating_add(14), base), words)?;
        }
        for change in &row.changes {
            let x = self.x_of(change.thread).saturating_add(14);
            let words = priority_words(self.names.alloc, change.priority)?;
            push_made(out, "change", (x, base), words)?;
        }
        Ok(())
    }

    /// Adds the arrows of a row with their words. An arrow that the row's call sends gets no words here: the
    /// row's words serve for it.
    fn push_arrows(&self, out: &mut String, y: usize, row: &ChartRow) -> Drawn {
        for (arrow, words) in row.arrows.iter().zip(row.labels.iter()) {
            self.push_arrow(out, y, row, arrow)?;
            if !is_sent(row, arrow) {
                let side = leaves_at(self.chart, arrow.from, arrow.to);
                let room = if arrow.from == arrow.to { 30 } else { 14 };
                let x = beside(self.x_of(arrow.from), side, room);
                push_words(out, side, (x, y.saturating_sub(5)), words.as_str())?;
            }
        }
        Ok(())
    }

    /// Adds a short arrow for each message that no thread has received, in the row of its send.
    fn push_pending(&self, out: &mut String) -> Drawn {
        for wait in &self.chart.waits {
            let is_drawn = self.chart.rows.iter().any(|row| row.number == wait.message);
            if !wait.is_held && is_drawn && wait.thread != wait.on {
                let end = self.begin_tone(out, wait.message)?;
                self.push_short_arrow(out, wait)?;
                out.push_str(end)?;
            }
        }
        Ok(())
    }

    /// Adds an arrow from a thread's lifeline, half the distance to the next lifeline, below the words.
    fn push_short_arrow(&self, out: &mut String, wait: &Wait) -> Drawn {
        let x = self.x_of(wait.thread);
        let side = leaves_at(self.chart, wait.thread, wait.on);
        let end = beside(x, side, self.gap.saturating_div(2));
        let base = self.y(wait.message).saturating_add(9);
        push_line(out, "message", (beside(x, side, 9), base), end)?;
        out.push('\n')
    }

    /// Adds a line of words for each deadlock, below the rows.
    fn push_deadlocks(&self, out: &mut String) -> Drawn {
        let mut y = self.foot().saturating_add(20);
        for deadlock in &self.chart.deadlocks {
            push_made(out, "cut", (40, y), deadlock.words(self.names)?)?;
            y = y.saturating_add(LINE);
        }
        Ok(())
    }

    /// Adds the caller's dot and words. The words are above the arrow that the call sends, or otherwise level
    /// with the dot.
    fn push_call(&self, out: &mut String, y: usize, row: &ChartRow) -> Drawn {
        let x = self.x_of(row.thread);
        push_circle(out, "dot", x, y)?;
        let base = if row.arrows.iter().any(|arrow| is_sent(row, arrow)) {
            y.saturating_sub(5)
        } else {
            y.saturating_add(4)
        };
        let side = words_side(self.chart, row);
        push_words(out, side, (beside(x, side, 14), base), row.words.as_str())
    }

    /// Adds an arrow between two lifelines, or back to its own lifeline. If it was sent in an earlier row, it
    /// has a ring at its tail.
    fn push_arrow(&self, out: &mut String, y: usize, row: &ChartRow, arrow: &Arrow) -> Drawn {
        let class = match arrow.what {
            ArrowKind::Message => "message",
            ArrowKind::Pulse => "pulse",
            ArrowKind::Reply(_) | ArrowKind::Error(_) => "answer",
        };
        let from = self.x_of(arrow.from);
        let to = self.x_of(arrow.to);
        if arrow.from == arrow.to {
            return push_loop(out, class, from, y);
        }
        let (start, end) = match leaves_at(self.chart, arrow.from, arrow.to) {
            Side::Right => (from.saturating_add(9), to.saturating_sub(9)),
            Side::Left => (from.saturating_sub(9), to.saturating_add(9)),
        };
        push_line(out, class, (start, y), end)?;
        if is_sent(row, arrow) {
            return Ok(());
        }
        push_circle(out, "ring", from, y)
    }
}

/// Returns the x coordinate at this distance from a lifeline, on one side of it.
fn beside(x: usize, side: Side, room: usize) -> usize {
    match side {
        Side::Right => x.saturating_add(room),
        Side::Left => x.saturating_sub(room),
    }
}

/// Adds words on a side of a lifeline: on the right they begin at the place, on the left they end there.
fn push_words(out: &mut String, side: Side, at: Point, words: &str) -> Drawn {
    match side {
        Side::Right => push_text(out, "words", at, words),
        Side::Left => push_text(out, "words left", at, words),
    }
}

/// Like `push_text`, for a string that is used only here.
fn push_made(out: &mut String, class: &str, at: Point, words: String) -> Drawn {
    push_text(out, class, at, words.as_str())
}

fn push_text(out: &mut String, class: &str, (x, y): Point, words: &str) -> Drawn {
    write!(
        out,
        "<text class=\"{class}\" x=\"{x}\" y=\"{y}\">{words}</text>\n"
    )
}

/// Adds a horizontal line.
fn push_line(out: &mut String, class: &str, (x, y): Point, end: usize) -> Drawn {
    write!(
        out,
        "<line class=\"{class}\" x1=\"{x}\" y1=\"{y}\" x2=\"{end}\" y2=\"{y}\"/>"
    )
}

fn push_circle(out: &mut String, class: &str, x: usize, y: usize) -> Drawn {
    write!(out, r#"<circle class="{class}" cx="{x}" cy="{y}" r="4"/>"#)
}

fn push_bar(out: &mut String, state: ThreadState, (x, y): Point, bottom: usize) -> Drawn {
    let class = state_word(state);
    let width = BAR_HALF.saturating_mul(2);
    let height = bottom.saturating_sub(y);
    write!(
        out,
        "<rect class=\"{class}\" x=\"{x}\" y=\"{y}\" width=\"{width}\" height=\"{height}\"/>\n"
    )
}

fn push_cross(out: &mut String, x: usize, y: usize) -> Drawn {
    let (left, right) = (x.saturating_sub(5), x.saturating_add(5));
    let (top, bottom) = (y.saturating_sub(5), y.saturating_add(5));
    write!(
        out,
        "<path class=\"cross\" d=\"M{left},{top} L{right},{bottom} M{right},{top} L{left},{bottom}\"/>"
    )
}

fn push_loop(out: &mut String, class: &str, x: usize, y: usize) -> Drawn {
    let (start, end) = (x.saturating_add(8), x.saturating_add(9));
    let far = x.saturating_add(26);
    let top = y.saturating_sub(8);
    write!(
        out,
        "<path class=\"{class}\" d=\"M{start},{top} L{far},{top} L{far},{y} L{end},{y}\"/>"
    )
}
