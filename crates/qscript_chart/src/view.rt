//! The part of a run that is drawn, and its style.

ghost use Rattle.std.specs.Prelude.{◌≡◌, ◌-◌, ◌^◌};

/// How a chart is drawn.
#[derive(Clone, Copy, PartialEq, Eq)]
pub enum Style {
    /// As SVG, for a browser.
    Svg,
    /// In columns of text.
    Text,
}

/// The part of a run that is drawn, its style, and whether it has bytes.
#[derive(Clone, Copy, PartialEq, Eq)]
pub struct ChartView {
    pub style: Style,
    /// Whether the words have the bytes of messages and replies.
    pub bytes: bool,
    /// The number of the first call that is drawn, from 1.
    pub from: usize,
    /// The number of the last call that is drawn. A shorter run is drawn to its end.
    pub to: usize,
}

impl ChartView {
    ghost use Rattle.qscript_chart.specs.View.{drawn_count};

    /// Returns the view of the whole run, without bytes.
    pub fn whole(style: Style) -> ChartView
        ensures from { result.from ≡ 1 }
        ensures to { result.to ≡ 2 ^ 64 - 1 }
    {
        ChartView {
            style,
            bytes: false,
            from: 1,
            to: usize::MAX,
        }
    }

    /// Returns the number of calls before the part that is drawn.
    pub fn before(&self) -> usize
        ensures { result ≡ self.now.from - 1 }
    {
        self.from.saturating_sub(1)
    }

    /// Returns the number of calls that are drawn of a run with this many calls.
    pub fn span(&self, calls: usize) -> usize
        ensures { result ≡ drawn_count self.now calls }
    {
        self.to.min(calls).saturating_sub(self.before())
    }
}
