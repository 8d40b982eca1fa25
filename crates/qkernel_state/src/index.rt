//! Guesses of thread indices: where to look first for a thread. Each guess is checked before it is used.

ghost use Rattle.std.specs.Prelude.{◌≡◌, ◌<◌, true};
ghost use Rattle.qbase.specs.ByteSet.{has};
ghost use Rattle.qkernel_state.specs.Index.{Notes, Forgets};

use qbase::byte_set::ByteSet;
use qbase::ids::ThreadNo;
use qmodel::open_call::OpenCall;
use qtables::member::Member;

/// Guesses of a thread's index in the roster: by thread number, by the number of its Send, and as the newest
/// receiver.
#[derive(Clone, Copy, Debug)]
pub struct IndexGuesses {
    // The fields that a blocking or waking call writes come first: in memory they are next to the kernel's
    // count of calls.
    //
    // The indices of all threads that are RECEIVE-blocked, and possibly of other threads.
    pub(crate) receivers: ByteSet,
    // The number of the last call that blocked its thread.
    pub(crate) latest: u64,
    // The number of the last receive that blocked its thread, and the index of that thread.
    pub(crate) newest: u64,
    pub(crate) last: u8,
    // Whether each call that blocked its thread had a greater number than all before it. In a kernel this is
    // always true.
    pub(crate) rising: bool,
    // For each thread number, the index of that thread, if it is in the roster. The entries of small numbers
    // are next to the fields above in memory.
    threads: [u8; 256],
    // For each last byte of a Send's number, the index of the thread that last blocked in a Send with this
    // byte.
    senders: [u8; 256],
}

impl IndexGuesses {
    /// Makes the index of a roster's threads, none of them blocked.
    pub fn new(members: &[Member]) -> IndexGuesses {
        let mut threads = [0; 256];
        let mut place: u8 = 0;
        for member in members {
            threads[member.thread.0 as usize] = place;
            place = place.wrapping_add(1);
        }
        IndexGuesses {
            receivers: ByteSet::new(),
            latest: 0,
            newest: 0,
            last: 0,
            rising: true,
            threads,
            senders: [0; 256],
        }
    }

    /// Returns the index at which to look first for the thread of this number.
    pub fn thread(&self, thread: ThreadNo) -> usize {
        self.threads[thread.0 as usize] as usize
    }

    /// Returns the index at which to look first for the sender of the message of this number.
    pub fn sender(&self, number: u64) -> usize {
        self.senders[number as usize % 256] as usize
    }

    /// Records that a call blocks the thread at this index.
    #[inline(always)]
    pub fn note(&mut self, place: usize, call: &OpenCall)
        requires { place < 64 }
        ensures { Notes place call.now self.old self.new }
    {
        let number = call.number();
        self.rising = self.rising && self.latest < number;
        self.latest = number;
        match call {
            OpenCall::Send(_) => {
                self.senders[number as usize % 256] = place as u8;
            }
            OpenCall::Receive(_) => {
                self.receivers.insert(place as u8);
                self.newest = number;
                self.last = place as u8;
            }
        }
    }

    /// Records that the thread at this index is no longer blocked.
    pub fn forget(&mut self, place: usize)
        requires { place < 64 }
        ensures { Forgets place self.old self.new }
    {
        self.receivers.remove(place as u8);
    }
}
