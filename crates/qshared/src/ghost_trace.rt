//! A history that exists only in proofs.

ghost use Rattle.std.specs.Prelude.{◌≡◌, [], ◌∷◌};
ghost use base.Fml.{ftrue};
ghost use Rattle.qmodel.specs.Trace.{Trace};

use qbase::ids::ThreadNo;
use qkernel_state::completions::Completions;
use qmodel::call::Call;
use std::marker::Model;
use std::snapshot::Snapshot;

/// The history of a kernel. Only contracts read it: it has no bytes, and its functions do nothing.
#[derive(Drop)]
pub struct GhostTrace {
    pub ghost trace: { Trace },
}

impl Model for GhostTrace {
    ghost also_owns = { λ _. ftrue };
}

impl GhostTrace {
    /// Returns the history of a kernel that has made no call.
    pub fn none() -> GhostTrace
        ensures { result.trace ≡ [] }
    {
        GhostTrace {}
    }

    /// Returns this history with one more event: this call of the thread, with these completions.
    pub fn with(
        &self,
        _thread: &ThreadNo,
        _call: &Snapshot<Call>,
        _completions: &Completions,
    ) -> GhostTrace
        ensures { result.trace ≡ record {
          thread = _thread.now;
          call = _call.now.value;
          completions = _completions.now.items;
        } ∷ self.now.trace }
    {
        GhostTrace {}
    }
}
