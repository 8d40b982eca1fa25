//! A run that is made and printed call by call.

ghost use Rattle.std.specs.Prelude.{◌≡◌, ℕ, ◌+◌, ◌⊎◌, ◌++◌, ◌∷◌, [], List, IfErr, IfOk, OnOk, is_some};
ghost use Rattle.std.specs.Prelude.{string_bytes, true};
ghost use Rattle.qtables.specs.Members.{member_at};
ghost use Rattle.qmodel.specs.declared.call.Call.{Call};
ghost use Rattle.qkernel_state.specs.Contents.{members_of};
ghost use Rattle.qkernel.specs.Kernel.{State, IsSound};
ghost use Rattle.qkernel.specs.Matching.{MatchesAt, AnswersAtTraces, DispatchError};
ghost use Rattle.qscript.specs.Running.{HasMade, IsEnded};

use crate::printing::ended_line::shows;
use crate::printing::printer::Printer;
use qbase::errno::Errno;
use qbase::ids::ThreadNo;
use qkernel::call::{Call, Completion};
use qkernel::completions::Completions;
use qkernel::kernel::Kernel;
use qtables::roster::Roster;
use std::alloc::{AllocError, Global};

/// A kernel, the printed lines of all its completions, and the completions of its latest call.
#[derive(Drop)]
pub struct Run {
    kernel: Kernel,
    printer: Printer,
    completions: Completions,
}

impl Run {
    /// Begins a run on a new kernel, and reserves memory for the lines of `calls` calls.
    pub fn new(alloc: Global, roster: &Roster, calls: usize) -> Result<Run, AllocError>
        ensures matches { IfOk result (λ run. MatchesAt roster.now run.kernel []) }
        ensures sound { IfOk result (λ run. IsSound run.kernel) }
        ensures begun { IfOk result (λ run. HasMade run.kernel [] run) }
    {
        let Ok(kernel) = Kernel::new(alloc, roster) else {
            return Err(AllocError);
        };
        let printer = Printer::new(alloc, kernel.made() + 1, calls)?;
        Ok(Run {
            kernel,
            printer,
            completions: Completions::new_in(alloc),
        })
    }

    /// Makes the next call, and prints its completions. The error is `NoThread` if the thread isn't in the
    /// roster, and `Exhausted` after 2^40 calls. Then no call is made. It is `NoMemory` if there is no memory
    /// for the text. Then the call is made, and the text must not be used afterwards.
    pub fn make(&mut self, thread: ThreadNo, call: Call) -> Result<(), Errno>
        ensures text { OnOk result ((old : State) (calls : List (ℕ × Call)) → HasMade old calls self.old
            → HasMade old (calls ++ (thread, call) ∷ []) self.new) }
        ensures event { OnOk result
            (AnswersAtTraces self.old.kernel thread call self.new.completions.items self.new.kernel) }
        ensures roster { members_of self.new.kernel.threads ≡ members_of self.old.kernel.threads }
        ensures known { OnOk result (is_some (member_at (members_of self.old.kernel.threads) thread) ≡ true) }
        ensures made { OnOk result (self.new.kernel.made ≡ self.old.kernel.made + 1) }
        ensures error { IfErr result (λ e. (e ≡ Errno.NoMemory) ⊎ DispatchError self.old.kernel thread e) }

        // If no call is made, the kernel and the text stay as they are.
        ensures unchanged { IfErr result (λ e. (e ≡ Errno.NoMemory)
            ⊎ ((self.new.kernel ≡ self.old.kernel) × (self.new.printer ≡ self.old.printer))) }
    {
        let Some(seat) = self.kernel.seat(thread) else {
            return Err(Errno::NoThread);
        };
        let shows = shows(&call);
        self.completions.clear();
        if let Err((errno, _)) = self.kernel.call_at(&seat, call, &mut self.completions) {
            return Err(errno);
        }
        let event = self.kernel.made();
        self.printer
            .push_event(event, shows, self.completions.as_slice())?;
        Ok(())
    }

    /// Returns the kernel.
    pub fn kernel(&self) -> &Kernel
        ensures { result.now ≡ self.now.kernel }
    {
        &self.kernel
    }

    /// Returns the completions of the latest call, in rising thread number.
    pub fn completions(&self) -> &[Completion]
        ensures { result.now ≡ self.now.completions.items }
    {
        self.completions.as_slice()
    }

    /// Returns the lines of all completions so far.
    pub fn text(&self) -> &str
        ensures { result.now ≡ string_bytes self.now.printer.text }
    {
        self.printer.text()
    }

    /// Returns the text of the whole run: a line for each completion, and a line for each thread that is
    /// blocked now.
    pub fn finish(self, alloc: Global) -> Result<String, AllocError>
        ensures { IfOk result (λ text. IsEnded self (string_bytes text)) }
    {
        let blocked = self.kernel.blocked(alloc)?;
        self.printer.finish(blocked.as_slice())
    }
}
