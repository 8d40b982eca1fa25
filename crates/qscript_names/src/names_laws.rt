//! Laws about scripts with names. Each is the contract of a function with an empty body.

ghost use Rattle.qscript_names.specs.NamesLaws.{CallsAreReplaced, PlainTextIsRead};

/// A script has the threads and the calls of its lines, with each name replaced by its number.
pub fn calls_are_replaced()
    ensures { CallsAreReplaced }
{}

/// The plain script of these lines means the same as the lines, if the reader can have made each of them.
pub fn plain_text_is_read()
    ensures { PlainTextIsRead }
{}
