//! A history that isn't kept in memory.

ghost use Rattle.std.specs.Prelude.{◌≡◌, ◌+◌, ◌<◌, ◌^◌, [], length, false, true};
ghost use Rattle.qrules.specs.Rules.{effect_of};
ghost use Rattle.qkernel_state.specs.Contents.{members_of};
ghost use Rattle.qshared.specs.Past.{is_down};

use crate::ghost_trace::GhostTrace;
use crate::log::Log;
use crate::logged_copy::LoggedCopy;
use qbase::errno::Errno;
use qkernel::completions::Completions;
use qkernel::kernel::{CALL_LIMIT, Kernel};
use qkernel::thread_ref::ThreadRef;
use qmodel::call::Call;
use std::alloc::Global;
use std::snapshot::Snapshot;

/// A history that exists only in proofs: nothing is kept, and nothing is copied. Its only limit is the
/// kernel's own: 2^40 calls, and the last is left for a Shutdown. It has no bytes.
#[derive(Drop)]
pub struct GhostHistory {
    // The kernel when it was opened. Only contracts read it, for the roster.
    kernel: Snapshot<Kernel>,
    past: GhostTrace,
    // The call that was noted and isn't an event yet, or Shutdown if there is none.
    call: Snapshot<Call>,
    ghost spare: { is_down past.trace ≡ false → length past.trace < 2 ^ 40 },
    ghost admitted: { (effect_of call.value).shuts_down ≡ false → length past.trace + 1 < 2 ^ 40 },
}

impl GhostHistory {
    /// Returns the history of a kernel that has made no call.
    pub fn new(kernel: &Kernel) -> GhostHistory
        ensures past { result.past.trace ≡ [] }
        ensures roster { members_of result.kernel.value.threads ≡ members_of kernel.now.threads }
    {
        GhostHistory {
            kernel: Snapshot::of(kernel),
            past: GhostTrace::none(),
            call: Snapshot::of(&Call::Shutdown),
        }
    }
}

impl Log for GhostHistory {
    ghost use Rattle.std.specs.Prelude.{true};
    ghost use Rattle.qkernel_state.specs.Contents.{members_of};
    ghost use Rattle.qshared.specs.Unrecorded.{admits_unrecorded, refuses_unrecorded};

    ghost roster = { λ l. members_of l.kernel.value.threads };

    ghost past = { λ l. l.past.trace };

    ghost ready = { λ _. true };

    ghost noted = { λ l. l.call.value };

    ghost refuses = { refuses_unrecorded };

    ghost admits = { admits_unrecorded };

    fn copies(_alloc: Global, _call: &Call) -> Option<LoggedCopy> {
        None
    }

    fn note(
        &mut self,
        made: u64,
        call: &Call,
        _copies: &mut Option<LoggedCopy>,
    ) -> Result<(), Errno> {
        if !matches!(call, Call::Shutdown) && made >= CALL_LIMIT - 1 {
            return Err(Errno::Exhausted);
        }
        self.call = Snapshot::of(call);
        Ok(())
    }

    fn event(&mut self, _kernel: &Kernel, seat: &ThreadRef, completions: &Completions) {
        let thread = seat.thread();
        self.past = self.past.with(&thread, &self.call, completions);
        self.call = Snapshot::of(&Call::Shutdown);
    }
}
