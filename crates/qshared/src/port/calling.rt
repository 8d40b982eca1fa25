//! The calls that a port makes.

ghost use Rattle.std.specs.Prelude.{◌≡◌, ◌+◌, ◌++◌, [], ◌∷◌, true, IfSome};
ghost use Rattle.std.specs.Prelude.{if◌then◌else◌, is_ok, IfErr};
ghost use Rattle.qshared.specs.Performing.{called_by};
ghost use Rattle.qhandoff.specs.Words.{cells_id, thread_of};
ghost use Rattle.qshared.specs.Delivered.{origin_of, taken, IsOrigin};
ghost use Rattle.qshared.specs.History.{Extends};
ghost use Rattle.qshared.specs.Collected.{collected_by};
ghost use Rattle.qshared.specs.Answered.{AtPast, IsMet, Answered};
ghost use Rattle.qshared.specs.Counting.{is_call, gives, pends, OnBusy};
ghost use Rattle.qshared.specs.TwoCalls.{AnsweredBoth, calls_in, asked_by, gives_both, pends_both};
ghost use Rattle.qshared.specs.TwoCalls.{OnBusyInBoth};

use crate::called::{Called, CalledPair, events, is_ok};
use crate::delivery::{Delivery, Origin};
use crate::lock_state::LockState;
use crate::log::Log;
use crate::observed_prefix::ObservedPrefix;
use crate::port::Port;
use crate::shared::Shared;
use crate::spinning;
use crate::tie::Tie;
use crate::turn::clear;
use qbase::bytes::Bytes;
use qbase::errno::Errno;
use qhandoff::cells::Cells;
use qmodel::call::Call;
use std::mem;
use std::sync::Wait;

/// Returns the bytes of a Reply or a Write, or `None` for another call.
fn bytes_of(call: Call) -> Option<Bytes> {
    match call {
        Call::Reply { bytes, .. } => Some(bytes),
        Call::Write { bytes, .. } => Some(bytes),
        _ => None,
    }
}

impl<K: Tie> Port<K> {
    /// Makes a call under the lock, and may wait for the lock. If the call completes in its own event, the
    /// port takes the completion.
    ///
    /// The call is refused with `Down` after a Shutdown. Otherwise it is refused with `Busy` if the
    /// completion of a blocked call isn't collected yet, and only then. Otherwise the log may refuse it,
    /// unless it is a Shutdown.
    ///
    /// A log that keeps the history refuses with `TraceFull` if one event of the limit is left, and with
    /// `NoMemory` if there was no memory for the trace. A log that keeps none refuses with `Exhausted` if one
    /// of 2^40 events is left.
    /// `endpoint.rt` of `crates/balsaeuchre_calls` calls it.
    pub fn call<L: Log, R: Wait>(&mut self, shared: &Shared<K, L>, rt: &R, call: Call) -> Called
        ensures came { AtPast K.names.roster self.old.core.thread self.old.core.asked.calls
            self.old.core.seen.trace
            (λ past. Answered K.names.roster L.refuses L.admits self.old.core.thread call result past
            self.new.core.seen.trace) }
        ensures calls { self.new.calls ≡ self.old.calls + (if is_call result then 1 else 0) }
        ensures asked { self.new.core.asked.calls ≡ self.old.core.asked.calls
            ++ (if is_call result then call ∷ [] else []) }
        ensures pending { self.new.core.turn.pending ≡ pends result self.old.core.turn.pending }
        ensures busy { OnBusy result (self.old.core.turn.pending ≡ true) }
        ensures taken { collected_by self.new ≡ collected_by self.old ++ gives result }
        ensures last { self.new.core.last.trace ≡ self.new.core.seen.trace }
        ensures same { (self.new.core.thread ≡ self.old.core.thread)
            × (thread_of self.new.core.seat ≡ thread_of self.old.core.seat) }
    {
        let mut call = call;
        self.core.prepare::<L>(&call);
        let made = {
            let mut guard = spinning::lock(&*shared.lock, shared.looks, rt);
            self.make(&shared.cells, rt, &mut **guard, &mut call)
        };
        shared.wake(self.core.turn.woken);
        clear(&mut self.core.turn.copies);
        self.core.finish_call(made, call)
    }

    /// Makes two calls without freeing the lock between them, so that no other thread's call comes between.
    /// The second is made only if the first completes in its own event with `Ok`, as a Reply, an Error or a
    /// Pulse does. Each is refused as by `call`.
    /// `endpoint.rt` of `crates/balsaeuchre_calls` makes a reply and the next receive with it.
    pub fn call_both<L: Log, R: Wait>(
        &mut self,
        shared: &Shared<K, L>,
        rt: &R,
        first: Call,
        second: Call,
    ) -> CalledPair
        ensures came { AtPast K.names.roster self.old.core.thread self.old.core.asked.calls
            self.old.core.seen.trace
            (λ past. AnsweredBoth K.names.roster L.refuses L.admits self.old.core.thread first second result
            past
            self.new.core.seen.trace) }
        ensures calls { self.new.calls ≡ self.old.calls + calls_in result }
        ensures asked { self.new.core.asked.calls ≡ self.old.core.asked.calls
            ++ asked_by first second result }
        ensures pending { self.new.core.turn.pending ≡ pends_both result self.old.core.turn.pending }
        ensures busy { OnBusyInBoth result (self.old.core.turn.pending ≡ true) }
        ensures taken { collected_by self.new ≡ collected_by self.old ++ gives_both result }
        ensures last { self.new.core.last.trace ≡ self.new.core.seen.trace }
        ensures same { (self.new.core.thread ≡ self.old.core.thread)
            × (thread_of self.new.core.seat ≡ thread_of self.old.core.seat) }
    {
        self.core.prepare::<L>(&first);
        let mut copies = L::copies(self.core.turn.alloc, &second);
        let called = {
            let mut guard = spinning::lock(&*shared.lock, shared.looks, rt);
            let locked = &mut **guard;
            let first = self.make_whole(&shared.cells, rt, locked, first);
            match first {
                Called::Done(completion) => {
                    if is_ok(completion.mark) {
                        self.core.turn.copies = copies.take();
                        let second = self.make_whole(&shared.cells, rt, locked, second);
                        CalledPair::Both(completion, second)
                    } else {
                        CalledPair::First(Called::Done(completion), second)
                    }
                }
                Called::Blocked => CalledPair::First(Called::Blocked, second),
                Called::Refused(errno, call) => {
                    let first = Called::Refused(errno, call);
                    CalledPair::First(first, second)
                }
            }
        };
        shared.wake(self.core.turn.woken);
        clear(&mut self.core.turn.copies);
        called
    }

    /// Makes a call of the thread under the lock, which the caller holds, and returns its outcome.
    fn make_whole<L: Log, R: Wait>(
        &mut self,
        cells: &Cells<Delivery, Origin>,
        rt: &R,
        locked: &mut LockState<K, L>,
        call: Call,
    ) -> Called
        requires cells { (cells_id cells.now ≡ K.names.cells) × IsOrigin K.names (origin_of cells.now) }
        requires copies { IfSome self.old.core.turn.copies (λ c. c ≡ call) }
        ensures met { IsMet K.names.roster self.old.core.thread self.old.core.asked.calls
            self.old.core.seen.trace
            locked.old.desk.traced.past }
        ensures came { Answered K.names.roster L.refuses L.admits self.old.core.thread call result
            locked.old.desk.traced.past self.new.core.seen.trace }
        ensures past { locked.new.desk.traced.past ≡ self.new.core.seen.trace }
        ensures calls { self.new.calls ≡ self.old.calls + (if is_call result then 1 else 0) }
        ensures asked { self.new.core.asked.calls ≡ self.old.core.asked.calls
            ++ (if is_call result then call ∷ [] else []) }
        ensures pending { self.new.core.turn.pending ≡ pends result self.old.core.turn.pending }
        ensures busy { OnBusy result (self.old.core.turn.pending ≡ true) }
        ensures taken { collected_by self.new ≡ collected_by self.old ++ gives result }
        ensures last { self.new.core.last.trace ≡ self.new.core.seen.trace }
        ensures same { (self.new.core.thread ≡ self.old.core.thread)
            × (thread_of self.new.core.seat ≡ thread_of self.old.core.seat) }
    {
        let mut call = call;
        let made = self.make(cells, rt, locked, &mut call);
        self.core.finish_call(made, call)
    }

    /// Makes a call of the thread under the lock, which the caller holds. A refused call stays in its place.
    /// If the call completes in its own event, its completion is in its place in the port afterwards.
    #[inline(always)]
    fn make<L: Log, R: Wait>(
        &mut self,
        cells: &Cells<Delivery, Origin>,
        rt: &R,
        locked: &mut LockState<K, L>,
        call: &mut Call,
    ) -> Result<(), Errno>
        requires cells { (cells_id cells.now ≡ K.names.cells) × IsOrigin K.names (origin_of cells.now) }
        requires copies { IfSome self.old.core.turn.copies (λ c. c ≡ call.old) }
        ensures met { IsMet K.names.roster self.old.core.thread self.old.core.asked.calls
            self.old.core.seen.trace
            locked.old.desk.traced.past }
        ensures came { Answered K.names.roster L.refuses L.admits self.old.core.thread call.old
            (called_by result self.new.core.turn.own call.old) locked.old.desk.traced.past
            self.new.core.seen.trace }
        ensures refused { IfErr result (λ e. call.new ≡ call.old) }
        ensures past { locked.new.desk.traced.past ≡ self.new.core.seen.trace }
        ensures calls { self.new.calls ≡ self.old.calls + (if is_ok result then 1 else 0) }
        ensures asked { self.new.core.asked.calls ≡ self.old.core.asked.calls
            ++ (if is_ok result then call.old ∷ [] else []) }
        ensures pending { self.new.core.turn.pending
            ≡ pends (called_by result self.new.core.turn.own call.old) self.old.core.turn.pending }
        ensures busy { OnBusy (called_by result self.new.core.turn.own call.old)
            (self.old.core.turn.pending ≡ true) }
        ensures taken { collected_by self.new
            ≡ collected_by self.old ++ gives (called_by result self.new.core.turn.own call.old) }
        ensures last { self.new.core.last.trace ≡ self.new.core.seen.trace }
        ensures same { (self.new.core.thread ≡ self.old.core.thread)
            × (thread_of self.new.core.seat ≡ thread_of self.old.core.seat) }
    {
        let made = locked.call(cells, rt, &mut self.share, &mut self.core, call);
        self.calls += events(&made);
        made
    }

    /// Returns the bytes of the last call, if it was a Reply or a Write that wasn't refused. Their memory can
    /// serve for the bytes of the next call. Returns `None` if they were returned before.
    /// `endpoint.rt` of `crates/balsaeuchre_calls` keeps them for its replies.
    pub fn spare(&mut self) -> Option<Bytes>
        ensures last { self.new.core.last ≡ self.old.core.last }
        ensures taken { collected_by self.new ≡ collected_by self.old }
        ensures pending { self.new.core.turn.pending ≡ self.old.core.turn.pending }
        ensures same { (self.new.core.thread ≡ self.old.core.thread)
            × (thread_of self.new.core.seat ≡ thread_of self.old.core.seat)
            × (self.new.calls ≡ self.old.calls)
            × (self.new.core.asked ≡ self.old.core.asked) × (self.new.core.seen ≡ self.old.core.seen) }
    {
        bytes_of(mem::replace(&mut self.core.turn.lent, Call::Shutdown))
    }

    /// Learns a prefix of the history that another port of the kernel has seen. The next call is then known
    /// to come after its events.
    pub fn learn(&mut self, other: &ObservedPrefix<K>)
        ensures own { Extends self.new.core.seen.trace self.old.core.seen.trace }
        ensures others { Extends self.new.core.seen.trace other.entry.now }
        ensures taken { collected_by self.new ≡ collected_by self.old }
        ensures same { (self.new.core.thread ≡ self.old.core.thread)
            × (self.new.core.seat ≡ self.old.core.seat)
            × (self.new.calls ≡ self.old.calls) × (self.new.core.turn.pending ≡ self.old.core.turn.pending)
            × (self.new.core.asked ≡ self.old.core.asked) × (self.new.core.last ≡ self.old.core.last) }
    {
        self.core.learn(&other.beginning);
    }
}
