//! A prefix of the history of a kernel.

ghost use Rattle.std.specs.Prelude.{◌≡◌};
ghost use Rattle.qshared.specs.History.{Extends};

use crate::history;
use crate::tie::Tie;
use std::marker::{Model, PhantomData};

/// A prefix of the history of the kernel that K names, which contracts see. It has no bytes, and its
/// functions do nothing. It can be copied, and lent or sent to other threads. A port that learns it knows
/// that its next call comes after these events.
#[derive(Drop)]
pub struct ObservedPrefix<K: Tie> {
    pub(crate) beginning: history::Prefix,
    of: PhantomData<K>,
}

impl<K: Tie> Model for ObservedPrefix<K> {
    ghost use Rattle.std.specs.Prelude.{◌≡◌};
    ghost use Rattle.qmodel.specs.Trace.{Trace};

    ghost Value = { Trace };

    ghost view = { λ s. s.beginning.trace };

    ghost invariant = { λ s. s.beginning.name ≡ K.names.history };
}

impl<K: Tie> ObservedPrefix<K> {
    pub(crate) fn new(beginning: history::Prefix) -> ObservedPrefix<K>
        requires { beginning.name ≡ K.names.history }
        ensures { result ≡ beginning.trace }
    {
        ObservedPrefix {
            beginning,
            of: PhantomData,
        }
    }

    /// Returns a copy of the prefix.
    pub fn again(&self) -> ObservedPrefix<K>
        ensures { result ≡ self.now }
    {
        ObservedPrefix::new(self.beginning.again())
    }

    /// Sets this prefix to the longer of the two. Both are prefixes of one history, so the longer extends the
    /// other.
    pub fn learn(&mut self, other: &ObservedPrefix<K>)
        ensures own { Extends self.new self.old }
        ensures others { Extends self.new other.entry.now }
    {
        self.beginning.learn(&other.beginning);
    }
}
