//! A completion in the form that C gets: only numbers.

ghost use Rattle.std.specs.Prelude.{◌≡◌, ℕ, length, Some};
ghost use Rattle.qmodel.specs.declared.call.Completion.{Completion};
ghost use Rattle.balsaeuchre_c.specs.Rows.{mark_of, state_numbered, told_bytes};
ghost use Rattle.balsaeuchre_c.specs.Rows.{Fills, IsOf, Tells, TellsMessage};

use crate::error::errno_number;
use qbase::errno::Errno;
use qbase::ids::ReceiveId;
use qbase::priority::Priority;
use qbase::state::ThreadState;
use qkernel::call::{Completion, Info, Mark};
use qkernel::kernel::Kernel;
use qqueue::item::What;

/// Returns the number of a state, 1 to 4, and its channel, or 0 for a thread that is ready.
pub fn state_number(state: &ThreadState) -> (u8, u64)
    ensures { state_numbered result.0 result.1 ≡ Some state.now }
{
    match state {
        ThreadState::Ready => (1, 0),
        ThreadState::SendBlocked(chid) => (2, chid.0),
        ThreadState::ReceiveBlocked(chid) => (3, chid.0),
        ThreadState::ReplyBlocked(chid) => (4, chid.0),
    }
}

/// The completion of a call. `mark` says which fields are used; the others are 0.
#[repr(C)]
#[derive(Clone, Copy, Default)]
pub struct Row {
    /// The number of the completed call; the first call of a kernel is 1.
    pub call: u64,
    /// The thread that made the call.
    pub thread: u8,
    /// The number of the result's kind, 1 to 11.
    pub mark: u8,
    /// The error's number, 1 to 11.
    pub errno: u8,
    /// A priority, 1 to 255; for a message, the priority that it was received with.
    pub priority: u8,
    /// A thread's state, 1 to 4.
    pub state: u8,
    /// The content of a pulse, 1 to 4.
    pub what: u8,
    /// A pulse's code.
    pub pulse_code: i8,
    /// A process; for a message, the sender's process.
    pub process: u8,
    /// A pulse's value, or an Error's code.
    pub value: i32,
    /// The thread that sent a message.
    pub sender: u8,
    /// A channel, a connection, or the number of the call that made a pulse.
    pub id: u64,
    /// A receive id.
    pub rcvid: u64,
    /// A Reply's status.
    pub status: i64,
    /// The number of bytes that were copied.
    pub count: usize,
    /// The length of a message in bytes.
    pub srcmsglen: usize,
    /// The length of the sender's reply buffer in bytes.
    pub dstmsglen: usize,
    /// The index in `bytes` at which the buffer's bytes begin.
    pub start: usize,
    /// The number of the buffer's bytes that belong to the completion.
    pub length: usize,
    /// The number of these bytes that were written: fewer if there wasn't room.
    pub written: usize,
}

impl Row {
    /// Writes a completion without its result: the fields of the result are 0. `told_len` bytes of its buffer
    /// belong to it. They begin at `start` in C's array `bytes`, and `written` of them were written.
    #[inline(always)]
    fn begin(&mut self, completion: &Completion, start: usize, told_len: usize, written: usize)
        requires { told_len ≡ length (told_bytes completion.now) }
        ensures { IsOf self.new completion.now start written }
    {
        *self = Row {
            call: completion.call,
            thread: completion.thread.0,
            start,
            length: told_len,
            written,
            ..Row::default()
        };
    }

    #[inline(always)]
    fn set_errno(&mut self, errno: Errno)
        ensures mark { mark_of self.new ≡ Some (Mark.Failed errno) }
        ensures same { (completion : Completion) → (start written : ℕ)
            → IsOf self.old completion start written → IsOf self.new completion start written }
    {
        self.mark = 2;
        self.errno = errno_number(errno);
    }

    #[inline(always)]
    fn set_replied(&mut self, status: i64, copied: usize)
        ensures mark { mark_of self.new ≡ Some (Mark.Replied status copied) }
        ensures same { (completion : Completion) → (start written : ℕ)
            → IsOf self.old completion start written → IsOf self.new completion start written }
    {
        self.mark = 5;
        self.status = status;
        self.count = copied;
    }

    fn set_info(&mut self, info: &Info)
        ensures mark { mark_of self.new ≡ Some (Mark.Info info.now) }
        ensures same { (completion : Completion) → (start written : ℕ)
            → IsOf self.old completion start written → IsOf self.new completion start written }
    {
        self.mark = 9;
        self.process = info.process.0;
        self.sender = info.thread.0;
        self.priority = info.priority.get();
        self.id = info.connection.0;
        self.count = info.msglen;
        self.srcmsglen = info.srcmsglen;
        self.dstmsglen = info.dstmsglen;
    }

    fn set_pulse(&mut self, item: u64, priority: Priority, what: &What)
        ensures mark { mark_of self.new ≡ Some (Mark.Pulse item priority what.now) }
        ensures same { (completion : Completion) → (start written : ℕ)
            → IsOf self.old completion start written → IsOf self.new completion start written }
    {
        self.mark = 10;
        self.id = item;
        self.priority = priority.get();
        match what {
            What::Message => self.what = 1,
            What::User { code, value } => {
                self.what = 2;
                self.pulse_code = *code;
                self.value = *value;
            }
            What::Unblock(rcvid) => {
                self.what = 3;
                self.rcvid = rcvid.0;
            }
            What::Disconnect(process) => {
                self.what = 4;
                self.process = process.0;
            }
        }
    }

    fn set_state(&mut self, state: &ThreadState, priority: Priority)
        ensures mark { mark_of self.new ≡ Some (Mark.State state.now priority) }
        ensures same { (completion : Completion) → (start written : ℕ)
            → IsOf self.old completion start written → IsOf self.new completion start written }
    {
        let (number, chid) = state_number(state);
        self.mark = 11;
        self.state = number;
        self.id = chid;
        self.priority = priority.get();
    }

    /// Writes the receipt of a message, without the data of its sender.
    #[inline(always)]
    fn set_receipt(&mut self, rcvid: ReceiveId, copied: usize)
        ensures mark { mark_of self.new ≡ Some (Mark.Message rcvid copied) }
        ensures count { self.new.count ≡ copied }
        ensures same { (completion : Completion) → (start written : ℕ)
            → IsOf self.old completion start written → IsOf self.new completion start written }
    {
        self.mark = 6;
        self.rcvid = rcvid.0;
        self.count = copied;
    }

    /// Writes the receipt of a message, with the data that the kernel has for it.
    #[inline(always)]
    fn set_message(&mut self, kernel: &Kernel, rcvid: ReceiveId, copied: usize)
        ensures mark { mark_of self.new ≡ Some (Mark.Message rcvid copied) }
        ensures message { TellsMessage self.new kernel.now rcvid copied }
        ensures same { (completion : Completion) → (start written : ℕ)
            → IsOf self.old completion start written → IsOf self.new completion start written }
    {
        self.mark = 6;
        self.rcvid = rcvid.0;
        self.count = copied;
        if let Some(told) = kernel.message_info(rcvid) {
            self.process = told.process.0;
            self.sender = told.thread.0;
            self.priority = told.priority.get();
            self.id = told.connection.0;
            self.srcmsglen = told.srcmsglen;
            self.dstmsglen = told.dstmsglen;
        }
    }

    /// Writes the result of a completion. The row of a received message has no data of its sender.
    #[inline(always)]
    fn set_plain_mark(&mut self, mark: &Mark)
        ensures mark { mark_of self.new ≡ Some mark.now }
        ensures same { (completion : Completion) → (start written : ℕ)
            → IsOf self.old completion start written → IsOf self.new completion start written }
    {
        match mark {
            Mark::Ok => self.mark = 1,
            Mark::Failed(errno) => self.set_errno(*errno),
            Mark::Channel(chid) => {
                self.mark = 3;
                self.id = chid.0;
            }
            Mark::Connection(coid) => {
                self.mark = 4;
                self.id = coid.0;
            }
            Mark::Replied { status, copied } => self.set_replied(*status, *copied),
            Mark::Message { rcvid, copied } => self.set_receipt(*rcvid, *copied),
            Mark::Errored(code) => {
                self.mark = 7;
                self.value = *code;
            }
            Mark::Count(count) => {
                self.mark = 8;
                self.count = *count;
            }
            Mark::Info(info) => self.set_info(info),
            Mark::Pulse {
                item,
                priority,
                what,
            } => self.set_pulse(*item, *priority, what),
            Mark::State { state, priority } => self.set_state(state, *priority),
        }
    }

    /// Writes the result of a completion of the kernel's last event.
    #[inline(always)]
    fn set_mark(&mut self, kernel: &Kernel, mark: &Mark)
        ensures mark { mark_of self.new ≡ Some mark.now }
        ensures message { (rcvid copied : ℕ) → mark.now ≡ Mark.Message rcvid copied
            → TellsMessage self.new kernel.now rcvid copied }
        ensures same { (completion : Completion) → (start written : ℕ)
            → IsOf self.old completion start written → IsOf self.new completion start written }
    {
        match mark {
            Mark::Message { rcvid, copied } => self.set_message(kernel, *rcvid, *copied),
            other => self.set_plain_mark(other),
        }
    }

    /// Writes a completion of the kernel's last event. `told_len` bytes of its buffer belong to it. They
    /// begin at `start` in C's array `bytes`, and `written` of them were written.
    pub fn write(
        &mut self,
        kernel: &Kernel,
        completion: &Completion,
        start: usize,
        told_len: usize,
        written: usize,
    )
        requires { told_len ≡ length (told_bytes completion.now) }
        ensures { Tells self.new kernel.now completion.now start written }
    {
        self.begin(completion, start, told_len, written);
        self.set_mark(kernel, &completion.mark);
    }
    /// Writes a completion, without the data of the sender of a received message. `told_len` bytes of its
    /// buffer belong to it. They begin at `start` in C's array `bytes`, and `written` of them were written.
    pub fn write_without_sender(
        &mut self,
        completion: &Completion,
        start: usize,
        told_len: usize,
        written: usize,
    )
        requires { told_len ≡ length (told_bytes completion.now) }
        ensures of { IsOf self.new completion.now start written }
        ensures mark { mark_of self.new ≡ Some completion.now.mark }
    {
        self.begin(completion, start, told_len, written);
        self.set_plain_mark(&completion.mark);
    }

    /// Returns the row of an `Info` with this data. Its fields of a call are 0.
    pub fn of_info(info: &Info) -> Row
        ensures { mark_of result ≡ Some (Mark.Info info.now) }
    {
        let mut row = Row::default();
        row.set_info(info);
        row
    }
}
