//! The threads of a kernel in the form that C passes.

ghost use Rattle.std.specs.Prelude.{◌≡◌, [], None, Some, MatchResult};
ghost use Rattle.balsaeuchre_c.specs.Opening.{member_of, roster_from, thread_refusal};
ghost use Rattle.qtables.specs.Members.{with_member};

use qbase::errno::Errno;
use qbase::ids::{ProcessNo, ThreadNo};
use qbase::priority::Priority;
use qtables::roster::Roster;
use std::alloc::Global;

/// A thread of the roster.
#[repr(C)]
#[derive(Clone, Copy)]
pub struct RosterThread {
    /// Its number, 0 to 255.
    pub thread: u8,
    /// Its process, 0 to 255.
    pub process: u8,
    /// The priority that it begins with, 1 to 255.
    pub priority: u8,
}

fn add(roster: &mut Roster, thread: &RosterThread) -> Result<(), Errno>
    ensures { MatchResult result
        (λ _. (thread_refusal roster.old thread.now ≡ None)
        × (roster.new ≡ with_member (member_of thread.now) roster.old))
        (λ errno. thread_refusal roster.old thread.now ≡ Some errno) }
{
    let priority = Priority::new(thread.priority).ok_or(Errno::Inval)?;
    roster.add(ThreadNo(thread.thread), ProcessNo(thread.process), priority)
}

/// Returns the roster of these threads, and allocates nothing. Fails for the first thread that can't be
/// added: with `Inval` if its priority is 0 or its number comes twice, with `Again` if it is the 65th.
pub fn roster_of(alloc: Global, threads: &[RosterThread]) -> Result<Roster, Errno>
    ensures { result ≡ roster_from [] threads.now }
{
    let mut roster = Roster::new(alloc);
    for thread in threads {
        add(&mut roster, thread)?;
    }
    Ok(roster)
}
