//! The roster: the threads that a kernel knows.

ghost use Rattle.std.specs.Prelude.{◌≡◌, ◌<◌, ◌≤◌, ◌==◌, [], length, None, Some, IfOk, IfErr, OnOk, OnErr};
ghost use Rattle.std.specs.Prelude.{MatchResult, is_some, option_map, slice_get, insert, true};
ghost use Rattle.qtables.specs.declared.member.Member.{Member};

use crate::member::Member;
use arrayvec::ArrayVec;
use qbase::errno::Errno;
use qbase::ids::{ProcessNo, ThreadNo};
use qbase::priority::Priority;
use std::alloc::Global;
use std::marker::Model;

/// The greatest number of threads in a roster, by this kernel's own choice.
pub const THREAD_LIMIT: usize = 64;

/// The threads, each with its process and the priority that it begins with. Contracts see the members in
/// rising thread number.
/// `first_message.rt` of `crates/balsaeuchre_examples` makes a roster.
#[derive(Drop)]
pub struct Roster {
    members: ArrayVec<Member, THREAD_LIMIT, Global>,
}

impl Model for Roster {
    ghost use Rattle.std.specs.Prelude.{List};
    ghost use Rattle.qtables.specs.declared.member.Member.{Member};
    ghost use Rattle.qtables.specs.Members.{IsRoster};

    ghost Value = { List Member };

    ghost view = { λ a. a.members.items };

    ghost invariant = { λ a. IsRoster a.members.items };
}

impl Roster {
    ghost use Rattle.qtables.specs.Members.{member_at, with_member, join_refusal, IsRoster};

    /// Makes an empty roster; takes no memory.
    pub fn new(alloc: Global) -> Roster
        ensures { result ≡ [] }
    {
        Roster {
            members: ArrayVec::new_in(alloc),
        }
    }

    /// Adds a thread; takes no memory. The error is `Inval` if the thread is in the roster already, and
    /// otherwise `Again` if the roster has 64 threads.
    /// `first_message.rt` of `crates/balsaeuchre_examples` adds two.
    pub fn add(
        &mut self,
        thread: ThreadNo,
        process: ProcessNo,
        priority: Priority,
    ) -> Result<(), Errno>
        ensures answer { MatchResult result
            (λ _. join_refusal self.old thread ≡ None)
            (λ e. join_refusal self.old thread ≡ Some e) }
        ensures ok { OnOk result
            (self.new ≡ with_member (record { thread = thread; process = process; priority = priority })
            self.old) }
        ensures err { OnErr result (self.new ≡ self.old) }
    {
        match self.search(thread) {
            Ok(_) => Err(Errno::Inval),
            Err(_) if self.members.is_full() => Err(Errno::Again),
            Err(place) => {
                self.members.insert(
                    place,
                    Member {
                        thread,
                        process,
                        priority,
                    },
                );
                Ok(())
            }
        }
    }

    /// Returns a thread's process and the priority that it begins with; `None` if the thread isn't in the
    /// roster.
    pub fn get(&self, thread: ThreadNo) -> Option<(ProcessNo, Priority)>
        ensures { result ≡ option_map (λ m. (m.process, m.priority)) (member_at self.now thread) }
    {
        match self.search(thread) {
            Ok(place) => {
                let member = self.members()[place];
                Some((member.process, member.priority))
            }
            Err(_) => None,
        }
    }

    /// Returns the threads, in rising number.
    pub fn members(&self) -> &[Member]
        ensures all { result.now ≡ self.now }
        ensures rising { IsRoster result.now }
        ensures fits { length result.now ≤ 64 }
    {
        self.members.as_slice()
    }

    /// Returns the number of threads, at most 64.
    pub fn len(&self) -> usize
        ensures value { result ≡ length self.now }
        ensures fits { result ≤ 64 }
    {
        self.members.len()
    }

    /// Returns whether there are no threads.
    pub fn is_empty(&self) -> bool
        ensures { result ≡ (length self.now == 0) }
    {
        self.members.is_empty()
    }

    // Returns the place of a thread; the error is the place where it would be inserted.
    fn search(&self, thread: ThreadNo) -> Result<usize, usize>
        ensures there { IfOk result (λ i.
            (i < length self.now)
            × (slice_get self.now i ≡ member_at self.now thread)
            × (is_some (member_at self.now thread) ≡ true)) }
        ensures absent { IfErr result (λ i.
            (i ≤ length self.now)
            × (member_at self.now thread ≡ None)
            × ((m : Member) → m.thread ≡ thread →
            (insert self.now i m ≡ with_member m self.now) × IsRoster (insert self.now i m))) }
    {
        self.members()
            .binary_search_by_key(&thread.0, |m| m.thread.0)
    }
}
