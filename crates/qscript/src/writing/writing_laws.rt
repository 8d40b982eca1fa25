//! Laws of written scripts.

ghost use Rattle.qscript.specs.Writing.WritingLaws.{ScriptsAreRead};

/// A written script means exactly the threads and calls that it was written for.
pub fn scripts_are_read()
    ensures { ScriptsAreRead }
{}
