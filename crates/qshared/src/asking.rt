//! The list of the calls of one thread that are events, in two halves that exist only in proofs.

ghost use Rattle.std.specs.Prelude.{◌≡◌, ◌++◌, [], ◌∷◌, ℕ, List};
ghost use Rattle.qmodel.specs.declared.call.Call.{Call as Asking};
ghost use Rattle.qshared.specs.Halves.{asked_owns, heard_owns};

use qmodel::call::Call;
use std::marker::{Model, Send};
use std::snapshot::Snapshot;

/// The half that the thread's port keeps. It has no bytes, and its functions do nothing.
#[derive(Drop)]
pub struct PortCalls {
    pub ghost name: { ℕ },
    pub ghost calls: { List Asking },
}

impl Model for PortCalls {
    ghost also_owns = { λ a. asked_owns a.name a.calls };
}

unsafe impl Send for PortCalls {}

/// The half that is kept with the history. It has no bytes, and its functions do nothing.
#[derive(Drop)]
pub struct KernelCalls {
    pub ghost name: { ℕ },
    pub ghost calls: { List Asking },
}

impl Model for KernelCalls {
    ghost also_owns = { λ h. heard_owns h.name h.calls };
}

unsafe impl Send for KernelCalls {}

/// Returns the two halves of an empty list.
pub fn halves() -> (PortCalls, KernelCalls)
    ensures name { result.0.name ≡ result.1.name }
    ensures asked { result.0.calls ≡ [] }
    ensures heard { result.1.calls ≡ [] }
{
    (PortCalls {}, KernelCalls {})
}

impl PortCalls {
    /// Adds a call to the end of the list, in both halves. They must be halves of the same list.
    pub fn ask(&mut self, heard: &mut KernelCalls, _call: &Snapshot<Call>)
        requires { self.old.name ≡ heard.old.name }
        ensures name { self.new.name ≡ self.old.name }
        ensures heard_name { heard.new.name ≡ heard.old.name }
        ensures agreed { self.old.calls ≡ heard.old.calls }
        ensures calls { self.new.calls ≡ self.old.calls ++ _call.now.value ∷ [] }
        ensures heard { heard.new.calls ≡ heard.old.calls ++ _call.now.value ∷ [] }
    {}

    /// Guarantees that the two halves are equal. They must be halves of the same list.
    pub fn agree(&mut self, heard: &mut KernelCalls)
        requires { self.old.name ≡ heard.old.name }
        ensures same { self.new ≡ self.old }
        ensures heard { heard.new ≡ heard.old }
        ensures agreed { self.old.calls ≡ heard.old.calls }
    {}
}
