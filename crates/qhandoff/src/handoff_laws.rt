//! A law that follows from the rule of the cells. The function does nothing: its contract is the law. It is
//! proved for every state that keeps the rule, and so for every state between two steps.

ghost use Rattle.qhandoff.specs.HandoffLaws.{TakenIsABeginning};

use crate::delivered::Delivered;

/// At any time, the completions that a thread took are the first completions that were put for it. They are
/// all of them, or all except the last.
pub fn taken_is_a_beginning<T: Delivered<O>, O>()
    ensures { (origin : O) → TakenIsABeginning (T.may_be_put origin) }
{}
