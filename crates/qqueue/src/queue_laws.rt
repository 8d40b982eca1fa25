//! Laws of the order of receipt. The functions do nothing: the contract of each is a law, proved for all
//! items and all lists of items.

ghost use Rattle.qqueue.specs.Order.{JustOneComesBefore, BeforeIsTransitive, NoneBeforeItself, BestIsFirst};
ghost use Rattle.qqueue.specs.Order.{NoBestIfNoneMayBeTaken};

/// The order of receipt is a total order of items with different numbers.
pub fn order_is_total()
    ensures one { JustOneComesBefore }
    ensures chained { BeforeIsTransitive }
    ensures strict { NoneBeforeItself }
{}

/// In a list of rising numbers, the best item may be taken and comes before all other items that may be
/// taken. There is no best item exactly if no item may be taken.
pub fn best_comes_first()
    ensures first { BestIsFirst }
    ensures none { NoBestIfNoneMayBeTaken }
{}
