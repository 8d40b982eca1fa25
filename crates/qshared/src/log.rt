//! The log by which a locked kernel keeps its history.

ghost use Rattle.std.specs.Prelude.{◌≡◌, ◌∷◌, ◌<◌, ◌^◌, Bool, List, length, IfErr, IfSome, OnOk, is_some};
ghost use Rattle.std.specs.Prelude.{true, false};
ghost use Rattle.qbase.specs.declared.errno.Errno.TheVariants.{Busy};
ghost use Rattle.qtables.specs.Members.{member_at};
ghost use Rattle.qtables.specs.declared.member.Member.{Member};
ghost use Rattle.qmodel.specs.declared.call.Call.{Call};
ghost use Rattle.qrules.specs.Facts.{is_blocked};
ghost use Rattle.qrules.specs.Lawful.{facts_of, IsLawful};
ghost use Rattle.qrules.specs.Outcome.{Answers};
ghost use Rattle.qrules.specs.Trace.{Trace};
ghost use Rattle.qkernel_state.specs.Contents.{members_of};
ghost use Rattle.qkernel_state.specs.Threads.{IsSeatIn};
ghost use Rattle.qshared.specs.Past.{is_down};
ghost use Rattle.qshared.specs.Performing.{Admits, Refuses};

use crate::logged_copy::LoggedCopy;
use qbase::errno::Errno;
use qkernel::completions::Completions;
use qkernel::kernel::Kernel;
use qkernel::thread_ref::ThreadRef;
use qmodel::call::Call;
use std::alloc::Global;

/// A log by which a locked kernel keeps its history. A call is noted before it is made, and the log may
/// refuse it. After the call was made, it is an event with its completions. `RecordedHistory` keeps the
/// events in memory, and `GhostHistory` keeps none.
pub trait Log: Drop {
    /// The roster of the kernel.
    ghost roster: { Self → List Member };

    ghost past: { Self → Trace };

    /// Whether a call was noted and isn't an event yet.
    ghost ready: { Self → Bool };

    /// The call that was noted last.
    ghost noted: { Self → Call };

    /// The errors with which the log refuses to note a call.
    ghost refuses: { Refuses };

    /// The condition under which the log notes a call.
    ghost admits: { Admits };

    /// Copies a call for `note`, before the lock is taken. Returns `None` if the log needs no copy, or if
    /// the allocator refuses.
    fn copies(alloc: Global, call: &Call) -> Option<LoggedCopy>
        ensures copied { IfSome result (λ copies. copies ≡ call.now) };

    /// Notes a call before it is made; `made` calls were made before it. A log that keeps the copies takes
    /// them. If the call is refused, nothing else changes.
    fn note(&mut self, made: u64, call: &Call, copies: &mut Option<LoggedCopy>) -> Result<(), Errno>
        requires copies { IfSome copies.old (λ c. c ≡ call.now) }
        requires up { is_down (past self.old) ≡ false }
        requires made { made ≡ length (past self.old) }
        ensures same { (past self.new ≡ past self.old) × (roster self.new ≡ roster self.old) }
        ensures noted { OnOk result ((noted self.new ≡ call.now) × (ready self.new ≡ true)) }
        ensures admitted { OnOk result (admits (past self.old) call.now) }
        ensures few { OnOk result (length (past self.old) < 2 ^ 40) }
        ensures refused { IfErr result (λ e. refuses (past self.old) call.now e) }
        ensures idle { IfErr result (λ e. ¬ (e ≡ Busy)) };

    /// Adds an event: the noted call, which the thread at this index made, with these completions. The thread
    /// wasn't blocked before the call.
    fn event(&mut self, kernel: &Kernel, seat: &ThreadRef, completions: &Completions)
        requires roster { members_of kernel.now.threads ≡ roster self.old }
        requires seat { IsSeatIn kernel.now.threads seat.now }
        requires ready { ready self.old ≡ true }
        requires up { is_down (past self.old) ≡ false }
        requires lawful { IsLawful (roster self.old) (past self.old) }
        requires thread { (is_some (member_at (roster self.old) seat.now.thread) ≡ true)
            × (is_blocked (facts_of (roster self.old) (past self.old)) seat.now.thread ≡ false) }
        requires answers { Answers (facts_of (roster self.old) (past self.old)) seat.now.thread
            (noted self.old) completions.now.items }
        ensures event { past self.new ≡ record {
          thread = seat.now.thread;
          call = noted self.old;
          completions = completions.now.items;
        } ∷ past self.old }
        ensures same { roster self.new ≡ roster self.old };
}
