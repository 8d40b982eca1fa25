//! Laws about changes of a text that keep its meaning. Each law is the contract of a function with an empty
//! body.

ghost use Rattle.qscript_text.specs.Reading.TextLaws.{PassesOver, DropsReturn, DropsLastEnd};

/// A blank line or a comment changes only the numbers of the lines after it.
pub fn passes_over()
    ensures { PassesOver }
{}

/// One carriage return at the end of a line changes nothing.
pub fn drops_return()
    ensures { DropsReturn }
{}

/// The line end at the end of the last line changes nothing.
pub fn drops_last_end()
    ensures { DropsLastEnd }
{}
