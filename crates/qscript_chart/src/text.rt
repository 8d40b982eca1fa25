//! Draws a chart in columns of text.

mod line;

use crate::arrow::{Arrow, ArrowKind};
use crate::chart::{Chart, Drawn, head};
use crate::label::{cut_words, priority_words};
use crate::plan::is_sent;
use crate::row::{ChartRow, Tone};
use line::TextLine;
use qbase::ids::ThreadNo;
use qbase::state::ThreadState;
use qscript_explain::waiting::Wait;
use qscript_names::context::Context;
use qscript_text::states::state_among;
use std::alloc::AllocError;

/// The place of the first lifeline in a line of text.
const MARGIN: usize = 6;

/// The least distance between neighbouring lifelines, in characters.
const LEAST_GAP: usize = 26;

const LEGEND: &str = "
|  ready            ---->  message
S  SEND-blocked     ====>  reply
R  RECEIVE-blocked  ....>  pulse
P  REPLY-blocked    o      sent or made before
";

/// A further line of the legend, for a chart with marked calls.
const TONES: &str = "!  the fault shows  ~      the fault doesn't depend on this call\n";

/// A chart, and the distance between its lifelines.
#[derive(Drop)]
struct Page<'a> {
    names: Context<'a>,
    chart: &'a Chart,
    gap: usize,
}

/// Returns a chart in columns of text.
pub fn text_of(names: Context<'_>, chart: &Chart) -> Result<String, AllocError> {
    let words = chart.longest_words().saturating_add(6);
    let heads = chart.longest_head(names)?.saturating_add(2);
    let gap = LEAST_GAP.max(words).max(heads);
    let page = Page { names, chart, gap };
    let mut out = String::new(names.alloc);
    page.push_all(&mut out)?;
    Ok(out)
}

impl Page<'_> {
    /// Returns the place of a thread's lifeline in a line of text.
    fn place_of(&self, thread: ThreadNo) -> usize {
        let column = self.chart.column(thread);
        MARGIN.saturating_add(self.gap.saturating_mul(column))
    }

    fn push_all(&self, out: &mut String) -> Drawn {
        self.push_heads(out)?;
        for row in &self.chart.rows {
            self.push_row(out, row)?;
        }
        for deadlock in &self.chart.deadlocks {
            write!(out, "{}\n", deadlock.words(self.names)?)?;
        }
        out.push_str(LEGEND)?;
        if self.chart.tones.is_empty() {
            return Ok(());
        }
        out.push_str(TONES)
    }

    /// Returns the place of words beside a thread's lifeline.
    fn beside(&self, thread: ThreadNo) -> usize {
        self.place_of(thread).saturating_add(2)
    }

    /// Adds two lines for the heads of the threads.
    fn push_heads(&self, out: &mut String) -> Drawn {
        let mut names = TextLine::new(self.names.alloc);
        let mut levels = TextLine::new(self.names.alloc);
        self.put_heads(&mut names, &mut levels)?;
        names.end(out)?;
        levels.end(out)
    }

    /// Writes the heads of the threads in one line, and their priorities in the other.
    fn put_heads(&self, names: &mut TextLine, levels: &mut TextLine) -> Drawn {
        names.put(0, "call")?;
        for member in &self.chart.lifelines {
            let place = self.place_of(member.thread);
            names.put_made(place, head(self.names, member)?)?;
            let level = priority_words(self.names.alloc, member.priority)?;
            levels.put_made(place, level)?;
        }
        Ok(())
    }

    /// Writes the states of the threads after a row, over any arrow that crosses their lifelines, and ends
    /// the line.
    fn end_line(&self, out: &mut String, mut line: TextLine, row: &ChartRow) -> Drawn {
        for member in &self.chart.lifelines {
            let state = state_among(row.blocked.as_slice(), member.thread);
            line.put(self.place_of(member.thread), state_sign(state))?;
        }
        line.end(out)
    }

    /// Adds the lines of a row: its call, the arrows that the call didn't send, and the priorities that
    /// changed.
    fn push_row(&self, out: &mut String, row: &ChartRow) -> Drawn {
        let mut first = TextLine::new(self.names.alloc);
        self.put_row(&mut first, row)?;
        self.end_line(out, first, row)?;
        self.push_arrows(out, row)?;
        self.push_changes(out, row)
    }

    /// Writes the first line of a row: its number and its tone, its call, and the calls that it cancelled.
    fn put_row(&self, line: &mut TextLine, row: &ChartRow) -> Drawn {
        let sign = tone_sign(self.chart.tone(row.number));
        line.put_made(0, format!(in self.names.alloc; "{:>4}{sign}", row.number)?)?;
        match row.arrows.first() {
            Some(arrow) if is_sent(row, arrow) => {
                self.put_arrow(line, arrow, row.words.as_str(), false)?;
            }
            _ => self.put_call(line, row)?,
        }
        for cut in &row.cuts {
            line.put_made(self.beside(cut.thread), cut_words(self.names, cut)?)?;
        }
        Ok(())
    }

    /// Writes a call that no arrow shows: its words beside the caller's lifeline, or on a short arrow if no
    /// thread has received its message.
    fn put_call(&self, line: &mut TextLine, row: &ChartRow) -> Drawn {
        let mut waits = self.chart.waits.iter();
        match waits.find(|wait| wait.message == row.number && !wait.is_held) {
            Some(wait) if wait.on != wait.thread => {
                self.put_short_arrow(line, wait, row.words.as_str())
            }
            _ => line.put(self.beside(row.thread), row.words.as_str()),
        }
    }

    /// Writes a short arrow that ends after its words.
    fn put_short_arrow(&self, line: &mut TextLine, wait: &Wait, words: &str) -> Drawn {
        let from = self.place_of(wait.thread);
        let len = words.len().saturating_add(5);
        if from < self.place_of(wait.on) {
            let end = from.saturating_add(len);
            line.fill(from.saturating_add(1), end, "-")?;
            line.put(end, ">")?;
            line.put_spaced(from.saturating_add(3), words)
        } else {
            let end = from.saturating_sub(len);
            line.fill(end, from, "-")?;
            line.put(end, "<")?;
            let room = words.len().saturating_add(2);
            line.put_spaced(from.saturating_sub(room), words)
        }
    }

    fn push_arrows(&self, out: &mut String, row: &ChartRow) -> Drawn {
        for (arrow, words) in row.arrows.iter().zip(row.labels.iter()) {
            if !is_sent(row, arrow) {
                let mut line = TextLine::new(self.names.alloc);
                self.put_arrow(&mut line, arrow, words.as_str(), true)?;
                self.end_line(out, line, row)?;
            }
        }
        Ok(())
    }

    fn push_changes(&self, out: &mut String, row: &ChartRow) -> Drawn {
        if row.changes.is_empty() {
            return Ok(());
        }
        let mut line = TextLine::new(self.names.alloc);
        for change in &row.changes {
            let words = priority_words(self.names.alloc, change.priority)?;
            line.put_made(self.beside(change.thread), words)?;
        }
        self.end_line(out, line, row)
    }

    /// Writes an arrow with its words at its tail. If `before` is set, the arrow was sent in an earlier row,
    /// and its tail is `o`.
    fn put_arrow(&self, line: &mut TextLine, arrow: &Arrow, words: &str, before: bool) -> Drawn {
        let from = self.place_of(arrow.from);
        let to = self.place_of(arrow.to);
        let shaft = shaft(arrow.what);
        let tail = if before { "o" } else { shaft };
        if from == to {
            line.put(from.saturating_add(1), "<o ")?;
            return line.put(from.saturating_add(4), words);
        }
        if from < to {
            line.fill(from.saturating_add(1), to.saturating_sub(1), shaft)?;
            line.put(from.saturating_add(1), tail)?;
            line.put(to.saturating_sub(1), ">")?;
            line.put_spaced(from.saturating_add(3), words)
        } else {
            line.fill(to.saturating_add(2), from, shaft)?;
            line.put(from.saturating_sub(1), tail)?;
            line.put(to.saturating_add(1), "<")?;
            let room = words.len().saturating_add(3);
            line.put_spaced(from.saturating_sub(room), words)
        }
    }
}

/// Returns the sign for the lifeline of a thread in this state.
fn state_sign(state: ThreadState) -> &'static str {
    match state {
        ThreadState::Ready => "|",
        ThreadState::SendBlocked(_) => "S",
        ThreadState::ReceiveBlocked(_) => "R",
        ThreadState::ReplyBlocked(_) => "P",
    }
}

/// Returns the sign after the number of a call.
fn tone_sign(tone: Tone) -> &'static str {
    match tone {
        Tone::Usual => "",
        Tone::Faulty => "!",
        Tone::Harmless => "~",
    }
}

/// Returns the sign for the shaft of an arrow.
fn shaft(what: ArrowKind) -> &'static str {
    match what {
        ArrowKind::Message => "-",
        ArrowKind::Pulse => ".",
        ArrowKind::Reply(_) | ArrowKind::Error(_) => "=",
    }
}
