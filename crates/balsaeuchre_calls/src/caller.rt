//! A caller: a thread that makes calls, and waits for their completions.

ghost use Rattle.std.specs.Prelude.{◌≡◌, false, true, MatchResult};
ghost use Rattle.std.specs.Fn.{FnOnceReturnsAtMut};
ghost use Rattle.qshared.specs.Counting.{pends};
ghost use Rattle.balsaeuchre_calls.specs.Coming.{ComesOf, ComesOfBoth, ShutsDown, WaitsFor};
ghost use Rattle.balsaeuchre_calls.specs.Making.{Leads, Makes, MakesBoth, completed_in};

use crate::calls::Calls;
use crate::completed::Completed;
use crate::endpoint::Endpoint;
use crate::error::{CallError, refusal};
use qbase::bytes::Bytes;
use qbase::ids::ThreadNo;
use qmodel::call::{Call, Completion};
use qshared::called::{Called, CalledPair};
use std::alloc::Global;
use std::sync::Wait;

/// A thread that makes calls: its endpoint, the runtime by which it waits, and the allocator of its buffers.
#[derive(Drop)]
pub struct Caller<'a, E: Endpoint, R: Wait> {
    pub(crate) endpoint: E,
    pub(crate) rt: &'a R,
    pub(crate) alloc: Global,
}

/// Returns the results of a completion. `waited` says whether its call was blocked before.
#[inline(always)]
fn completed(waited: bool, completion: Completion) -> Completed
    ensures { (result.waited ≡ waited) × (result.mark ≡ completion.mark)
        × (result.buffer ≡ completion.buffer) }
{
    let Completion { mark, buffer, .. } = completion;
    Completed {
        waited,
        mark,
        buffer,
    }
}

impl<'a, E: Endpoint, R: Wait> Caller<'a, E, R> {
    /// Makes a caller with this endpoint.
    pub fn new(endpoint: E, rt: &'a R, alloc: Global) -> Caller<'a, E, R>
        ensures { result.endpoint ≡ endpoint }
    {
        Caller {
            endpoint,
            rt,
            alloc,
        }
    }

    /// Returns the endpoint, and ends the caller.
    pub fn into_endpoint(self) -> E
        ensures { result ≡ self.entry.endpoint }
    {
        let Caller { endpoint, .. } = self;
        endpoint
    }

    /// Returns the runtime, for example for a server's loop: `for _ in server.rt().forever()`.
    pub fn rt(&self) -> &'a R
        ensures { result.now ≡ self.now.rt.now }
    {
        self.rt
    }

    /// Returns the allocator that the caller's buffers come from.
    pub fn alloc(&self) -> Global {
        self.alloc
    }

    /// Returns the thread that makes the calls.
    pub fn thread(&self) -> ThreadNo {
        self.endpoint.thread()
    }

    /// Runs a thread's work, and returns its result. If the work fails, the kernel is shut down, so that no
    /// other thread stays blocked. If it succeeds, nothing else is done.
    pub fn run<T, X, F: FnOnce(&mut Caller<'a, E, R>) -> Result<T, X>>(
        &mut self,
        work: F,
    ) -> Result<T, X>
        requires { F.IsAlwaysCallable work }
        ensures { (worked : _) × FnOnceReturnsAtMut F.FnOnce work self.old result worked
            × MatchResult result
            (λ _. (E.history self.new.endpoint ≡ E.history worked.endpoint)
            × (E.seen self.new.endpoint ≡ E.seen worked.endpoint))
            (λ _. ShutsDown (λ e. E.history e) E.came E.awaited worked.endpoint
            (E.history self.new.endpoint) (E.seen self.new.endpoint)) }
    {
        let done = work(self);
        self.or_shutdown(done)
    }

    /// Shuts the kernel down if a thread's work failed, so that no other thread stays blocked, and returns
    /// the result of the work. An error of the shutdown is dropped.
    pub fn or_shutdown<T, F>(&mut self, work: Result<T, F>) -> Result<T, F>
        ensures same { result ≡ work }
        ensures made { MatchResult work
            (λ _. (E.history self.new.endpoint ≡ E.history self.old.endpoint)
            × (E.seen self.new.endpoint ≡ E.seen self.old.endpoint))
            (λ _. ShutsDown (λ e. E.history e) E.came E.awaited self.old.endpoint
            (E.history self.new.endpoint) (E.seen self.new.endpoint)) }
    {
        if work.is_err() {
            let _ = self.make(Call::Shutdown);
        }
        work
    }

    /// Returns the completion of a call with this outcome. If the call is blocked, it waits for the
    /// completion.
    #[inline(always)]
    fn completed_of(&mut self, called: Called) -> Result<Completed, CallError>
        requires { pends called false ≡ true → (E.history self.old.endpoint).pending ≡ true }
        ensures leads { Leads called (E.history self.old.endpoint) (E.history self.new.endpoint) result }
        ensures waits { WaitsFor (E.waited self.old.endpoint) called (E.history self.old.endpoint).taken
            (E.history self.new.endpoint).taken (E.seen self.old.endpoint) (E.seen self.new.endpoint) }
    {
        match called {
            Called::Done(completion) => Ok(completed(false, completion)),
            Called::Blocked => Ok(completed(true, self.endpoint.wait(self.rt))),
            Called::Refused(errno, _) => Err(refusal(errno)),
        }
    }

    /// Makes a call, and waits for its completion.
    pub(crate) fn make(&mut self, call: Call) -> Result<Completed, CallError>
        ensures makes { Makes completed_in call (E.history self.old.endpoint)
            (E.history self.new.endpoint) result }
        ensures came { ComesOf (λ e. E.history e) E.came E.awaited self.old.endpoint call
            (E.seen self.new.endpoint) (E.history self.new.endpoint) }
    {
        let called = self.endpoint.call(self.rt, call);
        self.completed_of(called)
    }

    /// Makes two calls in turn, and waits for the completion of the second. The second is made only if the
    /// first succeeded; otherwise the first's error is returned.
    pub(crate) fn make_both(&mut self, first: Call, second: Call) -> Result<Completed, CallError>
        ensures makes { MakesBoth completed_in first second (E.history self.old.endpoint)
            (E.history self.new.endpoint) result }
        ensures came { ComesOfBoth (λ e. E.history e)
            (λ e. E.seen e) E.came E.came_both E.awaited self.old.endpoint first second
            (E.seen self.new.endpoint) (E.history self.new.endpoint) }
    {
        match self.endpoint.call_both(self.rt, first, second) {
            CalledPair::Both(_, called) => self.completed_of(called),
            CalledPair::First(called, second) => {
                self.completed_of(called)?.done()?;
                self.make(second)
            }
        }
    }
}

impl<'a, E: Endpoint, R: Wait> Calls for Caller<'a, E, R> {
    ghost made = { λ before call after completed. (
        Makes completed_in call (E.history before.endpoint) (E.history after.endpoint) completed
        × ComesOf (λ e. E.history e) E.came E.awaited before.endpoint call (E.seen after.endpoint)
        (E.history after.endpoint)) };

    fn alloc(&self) -> Global {
        self.alloc
    }

    fn spare(&mut self) -> Bytes {
        match self.endpoint.spare() {
            Some(bytes) => bytes,
            None => Bytes::new(self.alloc),
        }
    }

    fn complete(&mut self, call: Call) -> Result<Completed, CallError> {
        self.make(call)
    }
}
