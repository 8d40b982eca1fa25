//! Unproved: words and layout. Colours of faults and outcomes on a terminal.

/// Which outputs have colours.
#[derive(Clone, Copy, Default)]
pub struct Colours {
    /// Standard output.
    pub output: bool,
    /// Standard error.
    pub errors: bool,
}

/// Which outputs are terminals, and which have colours.
#[derive(Clone, Copy, Default)]
pub struct Screen {
    pub output: bool,
    pub errors: bool,
    pub colours: Colours,
}

/// The meaning of a colour.
#[derive(Clone, Copy)]
pub enum Mood {
    Good,
    Bad,
    Unsure,
    /// Of little weight: grey.
    Faint,
}

/// Returns the escape sequences before and after a text in its colour. They are empty if the output has no
/// colours.
pub fn marks(mood: Mood, has_colours: bool) -> (&'static str, &'static str) {
    match mood {
        _ if !has_colours => ("", ""),
        Mood::Good => ("\x1b[32m", "\x1b[0m"),
        Mood::Bad => ("\x1b[31m", "\x1b[0m"),
        Mood::Unsure => ("\x1b[33m", "\x1b[0m"),
        Mood::Faint => ("\x1b[90m", "\x1b[0m"),
    }
}
