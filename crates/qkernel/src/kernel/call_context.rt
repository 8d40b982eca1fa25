//! The caller of a call, and the completion of its call.

ghost use Rattle.std.specs.Prelude.{◌≡◌, ◌+◌, ◌<◌, ◌^◌, [], ◌∷◌, Some};

use qbase::bytes::Bytes;
use qbase::errno::Errno;
use qbase::ids::ProcessNo;
use qbase::priority::Priority;
use qkernel_state::completions::Completions;
use qkernel_state::thread_ref::ThreadRef;
use qmodel::call::{Completion, Mark};
use qqueue::item::{Item, What};
use std::alloc::Global;
use std::mem;

/// The thread that makes a call.
#[derive(Clone, Copy, Debug)]
pub(crate) struct CallContext {
    /// The number of calls that were made before its call. The call's own number is one more.
    pub(crate) made: u64,
    /// The index of the thread.
    pub(crate) seat: ThreadRef,
    /// The thread's process.
    pub(crate) process: ProcessNo,
    /// The allocator, for empty buffers.
    pub(crate) alloc: Global,
    ghost few: { made < 2 ^ 40 },
}

impl CallContext {
    /// Returns the number of the caller's call.
    pub(crate) fn number(&self) -> u64
        ensures { result ≡ self.now.made + 1 }
    {
        self.made + 1
    }

    /// Returns the completion of the caller's call, with a buffer.
    #[inline(always)]
    pub(crate) fn completion_with(&self, mark: Mark, buffer: Bytes) -> Completion
        ensures { result ≡ record {
          call = self.now.made + 1;
          thread = self.now.seat.thread;
          mark = mark;
          buffer = buffer;
        } }
    {
        Completion {
            call: self.number(),
            thread: self.seat.thread(),
            mark,
            buffer,
        }
    }

    /// Returns the completion of the caller's call, with an empty buffer.
    pub(crate) fn completion(&self, mark: Mark) -> Completion
        ensures { result ≡ record {
          call = self.now.made + 1;
          thread = self.now.seat.thread;
          mark = mark;
          buffer = [];
        } }
    {
        self.completion_with(mark, Bytes::new(self.alloc))
    }

    /// Returns the completion of the caller's call, with the result `Ok`. Its buffer is empty, but has the
    /// memory of a message. So the message is freed with the completion, and not here.
    pub(crate) fn completion_taking(&self, message: &mut Bytes) -> Completion
        ensures { result ≡ record {
          call = self.now.made + 1;
          thread = self.now.seat.thread;
          mark = Mark.Ok;
          buffer = [];
        } }
    {
        let mut memory = mem::replace(message, Bytes::new(self.alloc)).into_vec();
        memory.clear();
        self.completion_with(Mark::Ok, Bytes::from(memory))
    }

    /// Returns the message or pulse that the caller's call sends. It has the number of the call.
    pub(crate) fn item(&self, priority: Priority, what: What) -> Item
        ensures { result ≡ record { number = self.now.made + 1; priority = priority; what = what } }
    {
        Item {
            number: self.number(),
            priority,
            what,
        }
    }

    /// Completes the caller's call with an error, and returns its buffer.
    pub(crate) fn refuse(&self, completions: &mut Completions, errno: Errno, buffer: Bytes)
        requires { completions.old.items ≡ [] }
        ensures { completions.new.items ≡ record {
          call = self.now.made + 1;
          thread = self.now.seat.thread;
          mark = Mark.Failed errno;
          buffer = buffer;
        } ∷ [] }
    {
        completions.push(self.completion_with(Mark::Failed(errno), buffer));
    }
}
