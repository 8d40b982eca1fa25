//! The operands of calls: their sorts, and the numbers among them.

ghost use Rattle.std.specs.Prelude.{◌≡◌};
ghost use Rattle.qmodel.specs.Operands.{no_operands, number_at, of_id, of_thread};

use qbase::ids::{ProcessNo, ThreadNo};
use qbase::priority::Priority;

/// The sort of an operand.
#[derive(Clone, Copy, Debug, PartialEq, Eq)]
pub enum OperandKind {
    Thread,
    Process,
    Priority,
    Flags,
    Channel,
    Connection,
    ReceiveId,
    Offset,
    Status,
    ErrorCode,
    PulseCode,
    Value,
    Message,
    ReplyBuffer,
    Buffer,
    Data,
}

/// The numbers among a call's operands. A number that the call doesn't have is 0, and a priority that it
/// doesn't have is the lowest.
#[derive(Clone, Copy, Debug)]
pub struct Operands {
    /// A channel, a connection or a receive id.
    pub id: u64,
    pub thread: ThreadNo,
    pub process: ProcessNo,
    pub priority: Priority,
    pub flags: u8,
    pub offset: usize,
    pub status: i64,
    pub code: i32,
    pub pulse_code: i8,
    pub value: i32,
}

impl Operands {
    /// Returns the numbers of a call that has none: 0, and the lowest priority.
    pub fn none() -> Operands
        ensures { result ≡ no_operands }
    {
        Operands {
            id: 0,
            thread: ThreadNo(0),
            process: ProcessNo(0),
            priority: Priority::lowest(),
            flags: 0,
            offset: 0,
            status: 0,
            code: 0,
            pulse_code: 0,
            value: 0,
        }
    }

    /// Returns the numbers of a call that has only an id.
    pub fn of_id(id: u64) -> Operands
        ensures { result ≡ of_id id }
    {
        Operands {
            id,
            ..Operands::none()
        }
    }

    /// Returns the numbers of a call that has only a thread.
    pub fn of_thread(thread: ThreadNo) -> Operands
        ensures { result ≡ of_thread thread }
    {
        Operands {
            thread,
            ..Operands::none()
        }
    }

    /// Returns the number of an operand of this sort: the flags, the thread, or the id for any other sort.
    pub fn number(&self, sort: OperandKind) -> u64
        ensures { result ≡ number_at self.now sort }
    {
        match sort {
            OperandKind::Flags => u64::from(self.flags),
            OperandKind::Thread => u64::from(self.thread.0),
            _ => self.id,
        }
    }
}
