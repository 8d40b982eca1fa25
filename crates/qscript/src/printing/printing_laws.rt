//! Laws of the text of a run.

ghost use Rattle.qscript.specs.Printing.PrintingLaws.{GoesOn, HasLines};

/// The lines of a run's events don't change when the run continues.
pub fn text_goes_on()
    ensures { GoesOn }
{}

/// Each printed line ends in a newline and has no other newline. There is one line for each completion, and
/// one for each blocked thread.
pub fn text_is_lines()
    ensures { HasLines }
{}
