//! The kernel: it makes the calls of its threads, one at a time.

ghost use Rattle.std.specs.Prelude.{◌≡◌, ◌+◌, ◌<◌, ◌≤◌, ◌^◌, ◌↔◌, [], length, None, Some, is_some, true};
ghost use Rattle.std.specs.Prelude.{false, IsTrue, if◌then◌else◌, IfOk, IfErr, IfSome, OnOk};
ghost use Rattle.qtables.specs.Members.{member_at};
ghost use Rattle.qkernel_state.specs.Thread.{open_in, blocked_count};
ghost use Rattle.qkernel_state.specs.Threads.{IsSeatIn};
ghost use Rattle.qkernel_state.specs.Contents.{members_of};

mod blocked;
mod call_context;
mod channel_create;
mod channel_destroy;
mod connect_attach;
mod connect_detach;
mod copy;
mod info;
mod lent;
mod priority_set;
mod pulse;
mod read;
mod receive;
mod reply;
mod send;
mod shutdown;
mod state;
mod unblock;

use arrayvec::ArrayVec;
use call_context::CallContext;
use qbase::bytes::Bytes;
use qbase::errno::Errno;
use qbase::ids::ThreadNo;
use qkernel_state::channel::Channel;
use qkernel_state::completions::Completions;
use qkernel_state::objects::Objects;
use qkernel_state::thread::Thread;
use qkernel_state::thread_ref::ThreadRef;
use qkernel_state::threads::Threads;
use qmodel::call::Call;
use qqueue::item::Kind;
use qtables::channels::Channels;
use qtables::connections::Connections;
use qtables::roster::Roster;
use std::alloc::Global;
use std::marker::Model;

/// The number of calls that a kernel can make.
pub const CALL_LIMIT: u64 = 1 << 40;

/// A kernel: its threads, its channels and its connections. Contracts see its content as a record of lists,
/// and describe the completions of calls by the history of events.
/// `simulator.rt` of `crates/balsaeuchre_calls` shows how one is made and used.
#[derive(Drop)]
pub struct Kernel {
    alloc: Global,
    made: u64,
    down: bool,
    objects: Objects,
}

impl Model for Kernel {
    ghost use Rattle.qkernel.specs.Kernel.{State, IsSound};

    ghost Value = { State };

    ghost view = { λ k. record {
      made = k.made;
      down = k.down;
      threads = k.objects.threads;
      channels = k.objects.channels;
      connections = k.objects.connections;
    } };

    ghost invariant = { λ k. (
        IsSound
        (record {
          made = k.made;
          down = k.down;
          threads = k.objects.threads;
          channels = k.objects.channels;
          connections = k.objects.connections;
        })) };
}

impl Kernel {
    ghost use Rattle.qkernel.specs.Private.Steps.{Steps};
    ghost use Rattle.qkernel.specs.Matching.{MatchesAt, AnswersAtTraces, DispatchError, LeavesIfRefused};
    ghost use Rattle.qkernel.specs.Kernel.{IsSound};
    ghost use Rattle.qkernel.specs.Private.Caller.{IsCallerIn, MayCall, MakesOrRefuses};

    /// Makes a kernel without channels, in which each thread of the roster is ready at its initial priority.
    /// Takes the memory for thread records and open calls here. The only error is `NoMemory`.
    /// `first_message.rt` of `crates/balsaeuchre_examples` begins with it.
    pub fn new(alloc: Global, roster: &Roster) -> Result<Kernel, Errno>
        ensures matches { IfOk result (λ kernel. MatchesAt roster.now kernel []) }
        ensures error { IfErr result (λ e. e ≡ Errno.NoMemory) }
    {
        let Ok(threads) = Threads::new(alloc, roster) else {
            return Err(Errno::NoMemory);
        };
        let objects = Objects {
            threads,
            channels: Channels::new(alloc),
            connections: Connections::new(alloc),
        };
        Ok(Kernel {
            alloc,
            made: 0,
            down: false,
            objects,
        })
    }

    /// Returns the error with which every call of the thread at this index fails: `Down` if the kernel is
    /// shut down, and otherwise `Busy` if the thread is blocked. Returns `None` if the thread may make a
    /// call.
    fn refusal(&self, seat: &ThreadRef) -> Option<Errno>
        requires { IsSeatIn self.now.threads seat.now }
        ensures { result
            ≡ (if self.now.down then Some Errno.Down else
            (if is_some (open_in self.now.threads seat.now.thread) then Some Errno.Busy else None)) }
    {
        if self.down {
            Some(Errno::Down)
        } else if self.objects.threads.record(seat).open_call.is_some() {
            Some(Errno::Busy)
        } else {
            None
        }
    }

    /// Returns the thread at this index as the caller of the next call.
    fn caller_at(&self, seat: &ThreadRef) -> CallContext
        requires limit { self.now.made < 2 ^ 40 }
        requires seat { IsSeatIn self.now.threads seat.now }
        ensures made { result.made ≡ self.now.made }
        ensures seat { result.seat ≡ seat.now }
        ensures caller { IsCallerIn self.now.threads result }
    {
        CallContext {
            made: self.made,
            seat: *seat,
            process: self.objects.threads.record(seat).member.process,
            alloc: self.alloc,
        }
    }

    /// Makes a call by its own method, after `refusal` found no error and the call was counted. On an `Err`
    /// the call fails with this error, and its completion isn't in the list yet.
    #[inline(always)]
    fn make(
        &mut self,
        caller: &CallContext,
        call: Call,
        completions: &mut Completions,
    ) -> Result<(), Errno>
        requires { MayCall self.old caller.now completions.old.items }
        ensures { MakesOrRefuses self.old caller.now call result completions.new.items self.new }
    {
        match call {
            Call::ChannelCreate(flags) => self.channel_create(caller, flags, completions),
            Call::ConnectAttach(chid) => self.connect_attach(caller, chid, completions),
            Call::Send {
                coid,
                message,
                reply_buffer,
            } => {
                self.send(caller, coid, message, reply_buffer, completions);
                Ok(())
            }
            Call::Receive { chid, buffer } => {
                self.receive(caller, chid, Kind::Any, buffer, completions);
                Ok(())
            }
            Call::Reply {
                rcvid,
                status,
                bytes,
            } => self.reply(caller, rcvid, status, bytes.as_slice(), completions),
            Call::Error { rcvid, code } => self.error(caller, rcvid, code, completions),
            Call::Read {
                rcvid,
                offset,
                buffer,
            } => {
                self.read(caller, rcvid, offset, buffer, completions);
                Ok(())
            }
            Call::Write {
                rcvid,
                offset,
                bytes,
            } => self.write(caller, rcvid, offset, bytes.as_slice(), completions),
            Call::Info(rcvid) => self.info(caller, rcvid, completions),
            Call::ReceivePulse(chid) => {
                let buffer = Bytes::new(self.alloc);
                self.receive(caller, chid, Kind::PulseOnly, buffer, completions);
                Ok(())
            }
            Call::Pulse {
                coid,
                priority,
                code,
                value,
            } => self.pulse(caller, coid, priority, code, value, completions),
            Call::PrioritySet {
                thread: target,
                priority,
            } => self.priority_set(caller, target, priority, completions),
            Call::State(target) => self.state(caller, target, completions),
            Call::ChannelDestroy(chid) => self.channel_destroy(caller, chid, completions),
            Call::Shutdown => {
                self.shutdown(caller, completions);
                Ok(())
            }
            Call::Unblock(target) => self.unblock(caller, target, completions),
            Call::ConnectDetach(coid) => self.connect_detach(caller, coid, completions),
        }
    }

    /// Counts a call of the thread at this index and makes it. The call fails if the kernel is shut down or
    /// the thread is blocked.
    fn perform(&mut self, seat: &ThreadRef, call: Call, completions: &mut Completions)
        requires limit { self.old.made < 2 ^ 40 }
        requires seat { IsSeatIn self.old.threads seat.now }
        requires none { completions.old.items ≡ [] }
        ensures sound { IsSound self.old }
        ensures steps { Steps self.old seat.now.thread call completions.new.items self.new }
    {
        let refusal = self.refusal(seat);
        let caller = self.caller_at(seat);
        self.made += 1;
        if let Some(errno) = refusal {
            return caller.refuse(completions, errno, call.into_buffer(self.alloc));
        }
        if let Err(errno) = self.make(&caller, call, completions) {
            caller.refuse(completions, errno, Bytes::new(self.alloc));
        }
    }

    /// Returns the index of a thread, or `None` if the thread isn't in the roster. With it, `call_at` makes
    /// the thread's calls without a search. It is valid as long as the kernel.
    /// The ports of the locked kernel keep the indices of their threads.
    pub fn seat(&self, thread: ThreadNo) -> Option<ThreadRef>
        ensures seat { IfSome result (λ seat. IsSeatIn self.now.threads seat) }
        ensures thread { IfSome result (λ seat. seat.thread ≡ thread) }
        ensures known { is_some result ≡ is_some (member_at (members_of self.now.threads) thread) }
    {
        self.objects.threads.seat(thread)
    }

    /// Returns the index of a thread that is in the roster.
    fn known_seat(&self, thread: ThreadNo) -> ThreadRef
        requires { is_some (member_at (members_of self.now.threads) thread) ≡ true }
        ensures seat { IsSeatIn self.now.threads result }
        ensures thread { result.thread ≡ thread }
    {
        match self.seat(thread) {
            Some(seat) => seat,
            None => unreachable!(),
        }
    }

    /// Makes one call of the thread at this index. Puts the completions of its event, in ascending order of
    /// thread number, into the list, which must be empty. An `Err` returns the call: there is no event, and
    /// nothing changes. The only error is `Exhausted`, after 2^40 calls.
    pub fn call_at(
        &mut self,
        seat: &ThreadRef,
        call: Call,
        completions: &mut Completions,
    ) -> Result<(), (Errno, Call)>
        requires seat { IsSeatIn self.old.threads seat.now }
        requires none { completions.old.items ≡ [] }
        ensures event { OnOk result
            (AnswersAtTraces self.old seat.now.thread call completions.new.items self.new) }
        ensures refused { OnOk result
            (LeavesIfRefused self.old seat.now.thread call completions.new.items self.new) }
        ensures roster { members_of self.new.threads ≡ members_of self.old.threads }
        ensures ok { OnOk result ((self.old.made < 2 ^ 40) × (self.new.made ≡ self.old.made + 1)) }

        // An event completes at most its own call and calls that were open.
        ensures room { OnOk result
            (length completions.new.items + blocked_count self.new.threads
            ≤ blocked_count self.old.threads + 1) }

        // On an error nothing changes.
        ensures unchanged { IfErr result
            (λ refused. (self.new ≡ self.old) × (refused.1 ≡ call) × (completions.new.items ≡ [])) }
        ensures error { IfErr result (λ refused. (2 ^ 40 ≤ self.old.made) × (refused.0 ≡ Errno.Exhausted)) }
    {
        if self.made >= CALL_LIMIT {
            return Err((Errno::Exhausted, call));
        }
        self.perform(seat, call, completions);
        Ok(())
    }

    /// Makes one call of a thread of the roster. Puts the completions of its event, in ascending order of
    /// thread number, into the list, which must be empty. A loop over many calls can use one list again and
    /// again; `dispatch` returns a new list for each call.
    /// `run` has such a loop.
    pub fn step(&mut self, thread: ThreadNo, call: Call, completions: &mut Completions)
        requires known { is_some (member_at (members_of self.old.threads) thread) ≡ true }
        requires limit { self.old.made < 2 ^ 40 }
        requires none { completions.old.items ≡ [] }
        ensures event { AnswersAtTraces self.old thread call completions.new.items self.new }
        ensures roster { members_of self.new.threads ≡ members_of self.old.threads }
        ensures made { self.new.made ≡ self.old.made + 1 }
        ensures refused { LeavesIfRefused self.old thread call completions.new.items self.new }

        // An event completes at most its own call and calls that were open.
        ensures room { length completions.new.items + blocked_count self.new.threads
            ≤ blocked_count self.old.threads + 1 }
    {
        let seat = self.known_seat(thread);
        self.perform(&seat, call, completions);
    }

    /// Makes one call. An `Ok` has the completions of its event, in ascending order of thread number. The
    /// event's number is one more than the last event's number. An `Err` returns the call: there is no event,
    /// and nothing changes. The error is `NoThread` if the thread isn't in the roster, and otherwise
    /// `Exhausted`, after 2^40 calls.
    /// `dispatching.rt.txt` of `tests/unproved/kernel_tests` uses it.
    pub fn dispatch(&mut self, thread: ThreadNo, call: Call) -> Result<Completions, (Errno, Call)>
        ensures event { IfOk result
            (λ completions. AnswersAtTraces self.old thread call completions.items self.new) }
        ensures refused { IfOk result
            (λ completions. LeavesIfRefused self.old thread call completions.items self.new) }
        ensures roster { members_of self.new.threads ≡ members_of self.old.threads }
        ensures ok { OnOk result ((is_some (member_at (members_of self.old.threads) thread) ≡ true)
            × (self.old.made < 2 ^ 40) × (self.new.made ≡ self.old.made + 1)) }

        // On an error nothing changes.
        ensures unchanged { IfErr result (λ refused. (self.new ≡ self.old) × (refused.1 ≡ call)) }
        ensures error { IfErr result (λ refused. DispatchError self.old thread refused.0) }
    {
        let Some(seat) = self.seat(thread) else {
            return Err((Errno::NoThread, call));
        };
        let mut completions: Completions = ArrayVec::new_in(self.alloc);
        self.call_at(&seat, call, &mut completions)?;
        Ok(completions)
    }

    /// Returns whether the thread is in the roster.
    /// `run` checks the threads of all calls with it before it makes any call.
    pub fn knows(&self, thread: ThreadNo) -> bool
        ensures { result ≡ is_some (member_at (members_of self.now.threads) thread) }
    {
        self.seat(thread).is_some()
    }

    /// Returns the number of calls that were made.
    /// It is the number of the last event.
    pub fn made(&self) -> u64
        ensures value { result ≡ self.now.made }

        // The invariant of every kernel.
        ensures sound { IsSound self.now }
    {
        self.made
    }

    /// Returns whether the kernel is shut down. Then every further call fails with `Down`.
    /// `shutdown.rt` of `crates/balsaeuchre_examples` shows a call after it.
    pub fn is_down(&self) -> bool
        ensures { result ≡ self.now.down }
    {
        self.down
    }

    /// Returns the records of the threads, in ascending order of thread number, each with the call that the
    /// thread is blocked in.
    pub fn threads(&self) -> &[Thread]
        ensures { result.now ≡ self.now.threads }
    {
        self.objects.threads.records()
    }

    /// Returns the open channels, each with its queued messages and pulses.
    pub fn channels(&self) -> &Channels<Channel>
        ensures { result.now ≡ self.now.channels }
    {
        &self.objects.channels
    }

    /// Returns the live connections.
    pub fn connections(&self) -> &Connections
        ensures { result.now ≡ self.now.connections }
    {
        &self.objects.connections
    }

    /// Returns the allocator.
    pub fn alloc(&self) -> Global {
        self.alloc
    }
}
