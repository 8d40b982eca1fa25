//! What C sees of the threads and the held messages of a desk. A look isn't a call and changes nothing.

ghost use Rattle.std.specs.Prelude.{◌≡◌, ◌≤◌, length, true, IfSome};
ghost use Rattle.qkernel_state.specs.declared.thread.Thread.{Thread as Record};
ghost use Rattle.balsaeuchre_c.specs.Looking.{AreLooks, IsLook, TellsHeld};

use crate::ports::library_desk::LibraryDesk;
use crate::row::{Row, state_number};
use qbase::ids::ReceiveId;
use qbase::state::ThreadState;
use qkernel_state::thread::Thread;
use qkernel_state::thread_state::state_of;

/// The state of one thread.
#[repr(C)]
#[derive(Clone, Copy, Default)]
pub struct ThreadRow {
    /// The number of the call that the thread is blocked in, or 0. For a Send that was received, this is the
    /// receive id of its message.
    pub call: u64,
    /// The channel on which the thread is blocked, or 0.
    pub channel: u64,
    pub thread: u8,
    pub process: u8,
    /// Its current priority, 1 to 255.
    pub priority: u8,
    /// Its state, 1 to 4.
    pub state: u8,
}

/// Returns the row of a thread.
fn row_of(thread: &Thread) -> ThreadRow
    ensures { IsLook thread.now result }
{
    let (state, call) = match &thread.open_call {
        None => (ThreadState::Ready, 0),
        Some(open) => (state_of(open), open.number()),
    };
    let (number, channel) = state_number(&state);
    ThreadRow {
        call,
        channel,
        thread: thread.member.thread.0,
        process: thread.member.process.0,
        priority: thread.priority.get(),
        state: number,
    }
}

impl LibraryDesk {
    /// Writes the row of each thread, in ascending order of thread number, as far as there are rows. Returns
    /// the number of written rows.
    pub fn look(&self, rows: &mut [ThreadRow]) -> usize
        ensures { AreLooks self.now.desk.traced.kernel.threads rows.old rows.new result }
    {
        let threads = self.desk.kernel().threads();
        let count = threads.len().min(rows.len());
        for k in 0..count {
            rows[k] = row_of(&threads[k]);
        }
        count
    }

    /// Writes the data of a held message like the result of an `Info`, and returns `true`. Returns `false`,
    /// and writes nothing, if no such message is held.
    pub fn look_at_message(&self, rcvid: ReceiveId, row: &mut Row) -> bool
        ensures { TellsHeld self.now.desk.traced.kernel rcvid row.old row.new result }
    {
        match self.desk.kernel().message_info(rcvid) {
            None => false,
            Some(info) => {
                *row = Row::of_info(&info);
                true
            }
        }
    }
}
