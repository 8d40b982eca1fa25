//! The history of a kernel and its prefixes. Both exist only in proofs.

ghost use Rattle.std.specs.Prelude.{◌≡◌, [], ◌∷◌, ℕ};
ghost use denote.Sharing.{said};
ghost use Rattle.qmodel.specs.Trace.{Trace};
ghost use Rattle.qshared.specs.History.{Extends, longer, history_owns, seen_owns};

use qbase::ids::ThreadNo;
use qkernel_state::completions::Completions;
use qmodel::call::Call;
use std::marker::{Model, Send, Sync};
use std::snapshot::Snapshot;

/// The history of a kernel, which only grows. There is only one history of each name. It has no bytes, and
/// its functions do nothing.
#[derive(Drop)]
pub struct History {
    pub ghost name: { ℕ },
    pub ghost trace: { Trace },
}

impl Model for History {
    ghost also_owns = { λ h. history_owns h.name h.trace };
}

unsafe impl Send for History {}

/// A prefix of the history of the same name. It always stays a prefix, since the history only grows. It has
/// no bytes, and its functions do nothing.
#[derive(Drop)]
pub struct Prefix {
    pub ghost name: { ℕ },
    pub ghost trace: { Trace },
}

impl Model for Prefix {
    ghost also_owns = { λ s. seen_owns s.name s.trace };

    ghost also_shares = { λ s _ κ. said (seen_owns s.name s.trace) κ };
}

unsafe impl Send for Prefix {}

unsafe impl Sync for Prefix {}

impl History {
    /// Returns the history of a kernel that has made no call, and a prefix without events.
    pub fn begin() -> (History, Prefix)
        ensures name { result.0.name ≡ result.1.name }
        ensures past { result.0.trace ≡ [] }
        ensures seen { result.1.trace ≡ [] }
    {
        (History {}, Prefix {})
    }

    /// Adds an event: this call of the thread, with these completions.
    pub fn add(&mut self, _thread: &ThreadNo, _call: &Snapshot<Call>, _completions: &Completions)
        ensures name { self.new.name ≡ self.old.name }
        ensures past { self.new.trace ≡ record {
          thread = _thread.now;
          call = _call.now.value;
          completions = _completions.now.items;
        } ∷ self.old.trace }
    {}

    /// Sets the prefix to the whole history, which extends the old prefix. Both must have the same name.
    pub fn look(&mut self, seen: &mut Prefix)
        requires { self.old.name ≡ seen.old.name }
        ensures same { self.new ≡ self.old }
        ensures name { seen.new.name ≡ seen.old.name }
        ensures extends { Extends self.old.trace seen.old.trace }
        ensures seen { seen.new.trace ≡ self.old.trace }
    {}
}

impl Prefix {
    /// Returns a copy of the prefix.
    pub fn again(&self) -> Prefix
        ensures copy { result ≡ self.now }
    {
        Prefix {}
    }

    /// Sets this prefix to the longer of the two prefixes, which extends the other. Both must be of the same
    /// history.
    pub fn learn(&mut self, other: &Prefix)
        requires { self.old.name ≡ other.now.name }
        ensures name { self.new.name ≡ self.old.name }
        ensures longer { self.new.trace ≡ longer self.old.trace other.now.trace }
        ensures own { Extends self.new.trace self.old.trace }
        ensures others { Extends self.new.trace other.now.trace }
    {}
}
