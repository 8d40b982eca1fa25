//! The threads of a kernel.

ghost use Rattle.std.specs.Prelude.{option_and_then, ◌≡◌, ◌<◌, ◌≤◌, None, Some, true, is_some, length, map};
ghost use Rattle.std.specs.Prelude.{IfOk, IfSome};
ghost use Rattle.qtables.specs.Members.{member_at, IsRoster};
ghost use Rattle.qkernel_state.specs.Contents.{members_of, thread_priority};
ghost use Rattle.qmodel.specs.OpenCalls.{receive_in, send_in, thread_of};
ghost use Rattle.qkernel_state.specs.Thread.{ready_thread, open_in, seat_in, SetsOpen, SetsPriority, Wakes};
ghost use Rattle.qkernel_state.specs.Threads.{IsSeatIn, IsRecordOf};

use crate::index::IndexGuesses;
use crate::thread::Thread;
use crate::thread_ref::ThreadRef;
use qbase::ids::ThreadNo;
use qbase::priority::Priority;
use qmodel::open_call::{OpenCall, OpenReceive, OpenSend};
use qtables::member::Member;
use qtables::roster::Roster;
use std::alloc::{AllocError, Global};
use std::marker::Model;
use std::mem;

/// The threads of a roster, with the call that each is blocked in. Contracts see the records, in ascending
/// order of thread number.
///
/// `index` says where to look first for a thread, for the sender of a message and for the newest receiver of
/// a channel. Each index there is a guess: a wrong guess costs a search and changes no result.
#[derive(Drop)]
pub struct Threads {
    // Guesses of where to look first for a thread.
    pub(crate) index: IndexGuesses,
    pub(crate) records: Vec<Thread>,
}

impl Model for Threads {
    ghost use Rattle.std.specs.Prelude.{List};
    ghost use Rattle.qkernel_state.specs.declared.thread.Thread.{Thread};
    ghost use Rattle.qkernel_state.specs.Threads.{IsIndexed};

    ghost Value = { List Thread };

    ghost view = { λ t. t.records.items };

    ghost invariant = { λ t. IsIndexed t.records.items t.index };
}

/// Returns the record of a thread that isn't blocked and has its initial priority.
fn ready(member: Member) -> Thread
    ensures { result ≡ ready_thread member }
{
    Thread {
        member,
        priority: member.priority,
        open_call: None,
        key: 0,
    }
}

/// Returns the index of a thread, found by a search of all threads.
fn index_of(threads: &[Thread], thread: ThreadNo) -> Option<usize>
    ensures { result ≡ seat_in threads.now thread }
{
    threads.iter().position(|t| t.member.thread == thread)
}

impl Threads {
    /// Makes the threads of a roster, with none of them blocked. Only the records take memory.
    pub fn new(alloc: Global, roster: &Roster) -> Result<Threads, AllocError>
        ensures threads { IfOk result (λ threads. threads ≡ map ready_thread roster.now) }

        // Every roster has at most 64 threads, in ascending order of their numbers.
        ensures rising { IfOk result (λ threads. IsRoster roster.now) }
        ensures few { IfOk result (λ threads. length roster.now ≤ 64) }
    {
        let members = roster.members();
        let mut records = Vec::with_capacity(alloc, members.len())?;
        for member in members {
            records.push(ready(*member))?;
        }
        Ok(Threads {
            records,
            index: IndexGuesses::new(members),
        })
    }

    /// Returns the records of the threads, in ascending order of thread number.
    pub fn records(&self) -> &[Thread]
        ensures { result.now ≡ self.now }
    {
        &self.records
    }

    /// Returns the number and the index of the thread at an index.
    pub(crate) fn seat_at(&self, index: usize) -> ThreadRef
        requires { index < length self.now }
        ensures seat { IsSeatIn self.now result }
        ensures index { result.index ≡ index }
    {
        ThreadRef {
            thread: self.records[index].member.thread,
            index,
        }
    }

    /// Returns the index of a thread, if the first guess is right.
    fn guess(&self, thread: ThreadNo) -> Option<usize>
        ensures { IfSome result (λ index. seat_in self.now thread ≡ Some index) }
    {
        let index = self.index.thread(thread);
        if self.records.get(index)?.member.thread == thread {
            Some(index)
        } else {
            None
        }
    }

    /// Returns the index of a thread, or `None` if the thread isn't in the roster.
    pub fn seat(&self, thread: ThreadNo) -> Option<ThreadRef>
        ensures seat { IfSome result (λ seat. IsSeatIn self.now seat) }
        ensures thread { IfSome result (λ seat. seat.thread ≡ thread) }
        ensures known { is_some result ≡ is_some (member_at (members_of self.now) thread) }
    {
        let index = match self.guess(thread) {
            Some(index) => index,
            None => index_of(&self.records, thread)?,
        };
        Some(ThreadRef { thread, index })
    }

    /// Returns the record of the thread at this index.
    pub fn record(&self, seat: &ThreadRef) -> &Thread
        requires { IsSeatIn self.now seat.now }
        ensures { IsRecordOf seat.now.thread self.now result.now }
    {
        &self.records[seat.index]
    }

    /// Returns the current priority of the thread at this index.
    pub fn priority(&self, seat: &ThreadRef) -> Priority
        requires { IsSeatIn self.now seat.now }
        ensures { result ≡ thread_priority self.now seat.now.thread }
    {
        self.record(seat).priority
    }

    /// Sets the priority of the thread at this index. Does nothing if `priority` is `None`.
    pub fn set_priority(&mut self, seat: &ThreadRef, priority: Option<Priority>)
        requires { IsSeatIn self.old seat.now }
        ensures { SetsPriority seat.now.thread priority self.old self.new }
    {
        let there = &mut self.records[seat.index];
        there.priority = priority.unwrap_or(there.priority);
    }

    /// Takes the open call of the thread at this index and returns it. The thread then isn't blocked.
    #[inline(always)]
    fn take_open(&mut self, seat: &ThreadRef) -> Option<OpenCall>
        requires { IsSeatIn self.old seat.now }
        ensures had { result ≡ open_in self.old seat.now.thread }
        ensures own { IfSome result (λ call. thread_of call ≡ seat.now.thread) }
        ensures after { SetsOpen seat.now.thread None self.old self.new }
    {
        self.index.forget(seat.index);
        let there = &mut self.records[seat.index];
        mem::replace(&mut there.open_call, None)
    }

    /// Blocks the thread at this index in a call, which has to be the thread's own. `key` is the key of the
    /// call's message in the channel's queue, if the message is queued.
    #[inline(always)]
    pub fn block(&mut self, seat: &ThreadRef, call: OpenCall, key: usize)
        requires seat { IsSeatIn self.old seat.now }
        requires own { thread_of call ≡ seat.now.thread }
        ensures { SetsOpen seat.now.thread (Some call) self.old self.new }
    {
        self.index.note(seat.index, &call);
        let there = &mut self.records[seat.index];
        there.open_call = Some(call);
        there.key = key;
    }

    /// Takes the call that the thread at this index is blocked in, and returns it if it is a receive. The
    /// thread then isn't blocked. It gets this priority, or keeps its own if `priority` is `None`.
    #[inline(always)]
    pub(crate) fn wake(
        &mut self,
        seat: &ThreadRef,
        priority: Option<Priority>,
    ) -> Option<OpenReceive>
        requires { IsSeatIn self.old seat.now }
        ensures had { result ≡ option_and_then receive_in (open_in self.old seat.now.thread) }
        ensures own { IfSome result (λ receive. receive.thread ≡ seat.now.thread) }
        ensures after { Wakes seat.now.thread priority self.old self.new }
    {
        self.set_priority(seat, priority);
        self.take_open(seat)?.into_receive()
    }

    /// Takes the call that the thread at this index is blocked in, and returns it if it is a Send. The thread
    /// then isn't blocked.
    #[inline(always)]
    pub(crate) fn take_sent(&mut self, seat: &ThreadRef) -> Option<OpenSend>
        requires { IsSeatIn self.old seat.now }
        ensures had { result ≡ option_and_then send_in (open_in self.old seat.now.thread) }
        ensures own { IfSome result (λ send. send.thread ≡ seat.now.thread) }
        ensures after { SetsOpen seat.now.thread None self.old self.new }
    {
        self.take_open(seat)?.into_send()
    }
}
