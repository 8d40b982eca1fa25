//! Laws of numbers.

ghost use Rattle.qrules_renaming.specs.RenamingLaws.{EquivalentAgain, SameFollows};
ghost use Rattle.qrules_renaming.specs.Private.Laws.{OutcomesAreAs, RowsAreAs, StepsAreAs};

/// Let the facts after two valid histories differ only in the numbers of calls, threads and processes, and
/// let the open receives on each channel have the same order. The histories may have different lengths. Then
/// each event that may follow the first history may follow the second, with new numbers and its completions
/// again in rising thread number. The facts after it again differ only in numbers, and threads and processes
/// keep their new numbers.
/// The clauses `rows`, `outcomes` and `steps` state this for any facts, in the definitions of the proofs: for
/// a call's row, for its completions and for the facts after it.
pub fn numbers_are_names()
    ensures follows { SameFollows }
    ensures again { EquivalentAgain }
    ensures rows { RowsAreAs }
    ensures outcomes { OutcomesAreAs }
    ensures steps { StepsAreAs }
{}
