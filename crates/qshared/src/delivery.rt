//! The completions that are put into the cells, each with the history in which it was made.

ghost use Rattle.std.specs.Prelude.{◌≡◌};

use crate::history::Prefix;
use qhandoff::delivered::Delivered;
use qmodel::call::Completion;
use qtables::roster::Roster;
use std::snapshot::Snapshot;

/// A completion that was put into a cell, and the history up to the event that made it. The history has no
/// bytes.
#[derive(Drop)]
pub struct Delivery {
    pub(crate) completion: Completion,
    // Only contracts read it.
    pub(crate) seen: Prefix,
}

/// The kernel that the deliveries of its cells come from: its roster, and a prefix of its history. It has no
/// bytes, and only contracts read it.
#[derive(Drop)]
pub struct Origin {
    roster: Snapshot<Roster>,
    seen: Prefix,
}

impl Origin {
    /// Returns the origin with this roster, and with the history of this prefix.
    pub(crate) fn new(roster: &Roster, seen: &Prefix) -> Origin
        ensures roster { result.roster.value ≡ roster.now }
        ensures history { result.seen.name ≡ seen.now.name }
    {
        Origin {
            roster: Snapshot::of(roster),
            seen: seen.again(),
        }
    }
}

impl Delivered<Origin> for Delivery {
    ghost use Rattle.qshared.specs.Delivered.{ArePut};

    ghost may_be_put = { λ origin. ArePut origin.roster.value origin.seen.name };
}
