//! A simulator: one caller makes the calls of all threads to a kernel that it owns.

ghost use Rattle.std.specs.Prelude.{◌≡◌, ◌≤◌, [], Some, is_some, length, option_map, IfOk, IfErr};
ghost use Rattle.qkernel.specs.Matching.{MatchesAt};
ghost use Rattle.qkernel_state.specs.Thread.{open_in};
ghost use Rattle.balsaeuchre_calls.specs.Making.{completed_in};
ghost use Rattle.balsaeuchre_calls.specs.Simulating.{done};
ghost use Rattle.balsaeuchre_calls.specs.declared.error.CallError.TheVariants as error;

mod kept;
pub mod thread;

use crate::completed::Completed;
use crate::error::{CallError, refusal};
use arrayvec::ArrayVec;
use kept::{append, take_of, take_oldest, take_own};
use qbase::errno::Errno;
use qbase::ids::ThreadNo;
use qkernel::kernel::{CALL_LIMIT, Kernel};
use qkernel_state::completions::Completions;
use qmodel::call::{Call, Completion};
use qtables::roster::{Roster, THREAD_LIMIT};
use std::alloc::Global;
use std::marker::Model;
use thread::SimulatorThread;

/// The outcome of a call that may block its thread.
#[derive(Debug, Drop)]
pub enum Outcome<T> {
    /// The call completed in its own event, with this result.
    Done(T),
    /// The thread is blocked. Once the call completes, `Simulator::take` returns the completion.
    Blocked,
}

/// A kernel that one caller owns, who makes the calls of all its threads. Each call is an event, and may
/// complete blocked calls of other threads. Their completions are kept until `take` or `take_next` returns
/// them. Contracts see the kernel's content and the kept completions.
///
/// `thread` returns a thread, whose methods make calls. A call can be refused before it is made, and then
/// changes nothing. Its error is `NoThread` if the thread isn't in the roster, `Exhausted` at 2^40 calls, and
/// `Busy` if the completion of the thread's last call isn't taken yet. The kernel refuses a call with `Busy`
/// if its thread is blocked, and with `Down` after `shutdown`. Such a call is an event, which the kernel
/// counts.
#[derive(Drop)]
pub struct Simulator {
    alloc: Global,
    kernel: Kernel,
    // The kernel puts the completions of one event here. It is empty between calls.
    completions: Completions,
    kept: Vec<Completion>,
}

impl Model for Simulator {
    ghost use Rattle.std.specs.Prelude.{◌≡◌, []};
    ghost use Rattle.balsaeuchre_calls.specs.Simulating.{Simulation};

    ghost Value = { Simulation };

    ghost view = { λ s. record { kernel = s.kernel; kept = s.kept.items } };

    ghost invariant = { λ s. s.completions.items ≡ [] };
}

/// Returns the outcome of a call that completed in its own event with this result.
fn done<T>(came: Result<T, CallError>) -> Result<Outcome<T>, CallError>
    ensures { result ≡ done came }
{
    match came {
        Ok(value) => Ok(Outcome::Done(value)),
        Err(error) => Err(error),
    }
}

impl Simulator {
    ghost use Rattle.balsaeuchre_calls.specs.Simulating.{Simulates, at_once, unless_blocked, unmade};
    ghost use Rattle.balsaeuchre_calls.specs.Simulating.{completed_of, without, completed_after_wait, oldest};
    ghost use Rattle.balsaeuchre_calls.specs.Simulating.{later};

    /// Makes a simulator of a kernel without channels, in which all threads of the roster are ready. It
    /// allocates the kernel and room for completions; `NoMemory` is the only error.
    pub fn new(alloc: Global, roster: &Roster) -> Result<Simulator, CallError>
        ensures matches { IfOk result (λ s. MatchesAt roster.now s.kernel []) }
        ensures none { IfOk result (λ s. s.kept ≡ []) }
        ensures error { IfErr result (λ e. e ≡ error.NoMemory) }
    {
        let kernel = Kernel::new(alloc, roster)?;
        Ok(Simulator {
            alloc,
            kernel,
            completions: ArrayVec::new_in(alloc),
            kept: Vec::with_capacity(alloc, 2 * THREAD_LIMIT)?,
        })
    }

    /// Returns the kernel, for reading.
    pub fn kernel(&self) -> &Kernel
        ensures { result.now ≡ self.now.kernel }
    {
        &self.kernel
    }

    /// Returns the allocator that the buffers of calls come from.
    fn alloc(&self) -> Global {
        self.alloc
    }

    /// Returns a thread, which makes its calls. The calls of a thread that isn't in the roster are refused
    /// with `NoThread`.
    pub fn thread(&mut self, thread: ThreadNo) -> SimulatorThread<'_>
        ensures simulator { result.simulator.ghost_name ≡ self.entry.ghost_name }
        ensures now { result.simulator.now ≡ self.old }
        ensures thread { result.thread ≡ thread }
    {
        SimulatorThread {
            simulator: self,
            thread,
        }
    }

    /// Returns whether a thread is blocked in a call.
    pub fn is_blocked(&self, thread: ThreadNo) -> bool
        ensures { result ≡ is_some (open_in self.now.kernel.threads thread) }
    {
        self.kernel.is_blocked(thread)
    }

    /// Returns whether a completion is kept for a thread.
    pub fn has_ended(&self, thread: ThreadNo) -> bool
        ensures { result ≡ is_some (completed_of thread self.now.kept) }
    {
        kept::has(&self.kept, thread)
    }

    /// Takes the completion of a thread's blocked call. It is `None` if the call hasn't completed or its
    /// completion was taken. `Completed::reply` reads the result of a `msg_send` from it, `received` the
    /// result of a `msg_receive`, and `pulse` the result of a `msg_receive_pulse`.
    pub fn take(&mut self, thread: ThreadNo) -> Option<Completed>
        ensures completed { result ≡ option_map completed_after_wait (completed_of thread self.old.kept) }
        ensures rest { self.new ≡ record self.old { kept = without thread self.old.kept } }
    {
        let completion = take_of(&mut self.kept, thread)?;
        Some(Completed {
            waited: true,
            mark: completion.mark,
            buffer: completion.buffer,
        })
    }

    /// Takes the oldest completion that is kept, and returns it with its thread. The completions of one event
    /// come by rising thread number.
    pub fn take_next(&mut self) -> Option<(ThreadNo, Completed)>
        ensures completed { result ≡ oldest self.old.kept }
        ensures rest { self.new ≡ record self.old { kept = later self.old.kept } }
    {
        let completion = take_oldest(&mut self.kept)?;
        let completed = Completed {
            waited: true,
            mark: completion.mark,
            buffer: completion.buffer,
        };
        Some((completion.thread, completed))
    }

    /// Returns the error that refuses a thread's call before it is made, or `None` if the call can be made.
    fn unmade(&self, thread: ThreadNo) -> Option<Errno>
        ensures why { result ≡ unmade self.now thread }

        // An invariant of every kernel.
        ensures few { length self.now.kernel.threads ≤ 64 }
    {
        let made = self.kernel.made();
        if !self.kernel.knows(thread) {
            Some(Errno::NoThread)
        } else if made >= CALL_LIMIT {
            Some(Errno::Exhausted)
        } else if self.has_ended(thread) {
            Some(Errno::Busy)
        } else {
            None
        }
    }

    /// Makes a call that may block its thread.
    fn make(&mut self, thread: ThreadNo, call: Call) -> Result<Outcome<Completed>, CallError>
        ensures { Simulates (unless_blocked completed_in) thread call self.old self.new result }
    {
        if let Some(errno) = self.unmade(thread) {
            return Err(refusal(errno));
        }
        self.kept.reserve(THREAD_LIMIT + 1)?;
        self.kernel.step(thread, call, &mut self.completions);
        let own = take_own(&mut self.completions, thread);
        append(&mut self.kept, &mut self.completions);
        Ok(match own {
            Some(completion) => Outcome::Done(Completed {
                waited: false,
                mark: completion.mark,
                buffer: completion.buffer,
            }),
            None => Outcome::Blocked,
        })
    }

    /// Makes a call that completes in its own event. If it blocks, the error is `Unexpected`.
    fn complete(&mut self, thread: ThreadNo, call: Call) -> Result<Completed, CallError>
        ensures { Simulates (at_once completed_in) thread call self.old self.new result }
    {
        match self.make(thread, call)? {
            Outcome::Done(completed) => Ok(completed),
            Outcome::Blocked => Err(CallError::Unexpected),
        }
    }
}
