//! A kernel with the list for the completions of its events.

ghost use Rattle.std.specs.Prelude.{◌≡◌, ◌<◌, ◌^◌, ◌⊎◌, [], true, is_some, IfOk, IfErr};
ghost use Rattle.qkernel.specs.Kernel.{IsSound};
ghost use Rattle.qkernel.specs.LentCall.{call_lent};
ghost use Rattle.qkernel.specs.Matching.{AnswersAtTraces, DispatchError};
ghost use Rattle.qkernel_state.specs.Contents.{members_of};
ghost use Rattle.qkernel_state.specs.Threads.{IsSeatIn};
ghost use Rattle.qtables.specs.Members.{member_at};
ghost use Rattle.balsaeuchre_c.specs.Calling.{IsMade};
ghost use Rattle.balsaeuchre_c.specs.Requests.{IsRefusedAs, call_of};

use crate::kind::kind_of;
use crate::request::CallRequest;
use crate::spares::Spares;
use qbase::errno::Errno;
use qbase::ids::ThreadNo;
use qkernel::call::Call;
use qkernel::completions::Completions;
use qkernel::kernel::{CALL_LIMIT, Kernel};
use qkernel::lent_call::LentCall;
use qkernel::thread_ref::ThreadRef;

/// A kernel, the completions of its last event, and memory for the bytes of its next calls.
#[derive(Drop)]
pub struct Session {
    pub kernel: Kernel,
    pub completions: Completions,
    pub spares: Spares,
}

impl Session {
    /// Empties the list for the next call of a thread, and returns the thread's index. Fails with `NoThread`
    /// if the thread isn't in the roster, or with `Exhausted` if no more calls can be numbered.
    #[inline(always)]
    fn begin(&mut self, thread: ThreadNo) -> Result<ThreadRef, Errno>
        ensures seat { IfOk result (λ seat. IsSeatIn self.old.kernel.threads seat) }
        ensures thread { IfOk result (λ seat. seat.thread ≡ thread) }
        ensures known { IfOk result
            (λ seat. is_some (member_at (members_of self.old.kernel.threads) thread) ≡ true) }
        ensures limit { IfOk result (λ seat. self.old.kernel.made < 2 ^ 40) }
        ensures sound { IfOk result (λ seat. IsSound self.old.kernel) }
        ensures empty { IfOk result
            (λ seat. (self.new.kernel ≡ self.old.kernel) × (self.new.completions.items ≡ [])) }
        ensures error { IfErr result (λ errno. DispatchError self.old.kernel thread errno) }
        ensures unchanged { IfErr result (λ _. self.new ≡ self.old) }
    {
        let seat = self.kernel.seat(thread).ok_or(Errno::NoThread)?;
        if self.kernel.made() >= CALL_LIMIT {
            return Err(Errno::Exhausted);
        }
        self.spares
            .keep_all(self.kernel.alloc(), &mut self.completions);
        Ok(seat)
    }

    /// Makes a call. `Ok` is an event: its completions are in the list, by rising thread number. On an error
    /// no call is made.
    fn call(&mut self, thread: ThreadNo, call: Call) -> Result<(), Errno>
        ensures event { IfOk result
            (λ _. AnswersAtTraces self.old.kernel thread call self.new.completions.items self.new.kernel) }
        ensures known { IfOk result
            (λ _. is_some (member_at (members_of self.old.kernel.threads) thread) ≡ true) }
        ensures sound { IfOk result (λ _. IsSound self.old.kernel) }
        ensures roster { members_of self.new.kernel.threads ≡ members_of self.old.kernel.threads }
        ensures error { IfErr result (λ errno. DispatchError self.old.kernel thread errno) }
        ensures unchanged { IfErr result (λ _. self.new ≡ self.old) }
    {
        let seat = self.begin(thread)?;
        self.kernel
            .call_at(&seat, call, &mut self.completions)
            .map_err(|refused| refused.0)
    }

    /// Makes a call whose bytes are borrowed, like `call`.
    fn call_lent(&mut self, thread: ThreadNo, call: &LentCall) -> Result<(), Errno>
        ensures event { IfOk result
            (λ _. AnswersAtTraces self.old.kernel thread
            (call_lent call.now) self.new.completions.items self.new.kernel) }
        ensures known { IfOk result
            (λ _. is_some (member_at (members_of self.old.kernel.threads) thread) ≡ true) }
        ensures sound { IfOk result (λ _. IsSound self.old.kernel) }
        ensures roster { members_of self.new.kernel.threads ≡ members_of self.old.kernel.threads }
        ensures error { IfErr result (λ errno. DispatchError self.old.kernel thread errno) }
        ensures unchanged { IfErr result (λ _. self.new ≡ self.old) }
    {
        let seat = self.begin(thread)?;
        self.kernel.call_lent_at(&seat, call, &mut self.completions)
    }

    /// Makes the call of a request. A Reply and a Write borrow their bytes; the other kinds get copies of the
    /// bytes and the buffer. Fails with `Inval` if no kind has the request's number, or if the kind has a
    /// priority and the request's is 0.
    #[inline(always)]
    pub fn make(&mut self, request: &CallRequest, sent: &[u8], room: &[u8]) -> Result<(), Errno>
        ensures made { IfOk result (λ _. IsMade self.old request.now sent.now room.now self.new) }
        ensures roster { members_of self.new.kernel.threads ≡ members_of self.old.kernel.threads }
        ensures error { IfErr result (λ errno. IsRefusedAs (call_of request.now sent.now room.now) errno
            ⊎ DispatchError self.old.kernel request.now.thread errno) }
        ensures unchanged { IfErr result (λ _. self.new ≡ self.old) }
    {
        let Some(kind) = kind_of(request.kind) else {
            return Err(Errno::Inval);
        };
        let thread = ThreadNo(request.thread);
        match request.lent(kind, sent) {
            Some(call) => self.call_lent(thread, &call),
            None => {
                let alloc = self.kernel.alloc();
                let call = request.call_as(kind, alloc, &mut self.spares, sent, room)?;
                self.call(thread, call)
            }
        }
    }
}
