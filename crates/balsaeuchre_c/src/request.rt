//! A call in the form that C passes: only numbers.

ghost use Rattle.std.specs.Prelude.{◌≡◌, ℕ, List, Some, IfNone, IfSome, MatchResult, false};
ghost use Rattle.qkernel.specs.LentCall.{call_lent};
ghost use Rattle.balsaeuchre_c.specs.Requests.{borrows, call_as, IsRefusedAs, operands_as, priority_as};

use crate::spares::Spares;
use qbase::bytes::Bytes;
use qbase::errno::Errno;
use qbase::ids::{ChannelId, ConnectionId, ProcessNo, ReceiveId, ThreadNo};
use qbase::priority::Priority;
use qkernel::call::Call;
use qkernel::lent_call::LentCall;
use qmodel::kind::CallKind;
use qmodel::operands::Operands;
use std::alloc::Global;

/// A call of the kind `kind`, which reads only the fields that it needs. The call's bytes and its buffer are
/// passed separately.
#[repr(C)]
#[derive(Clone, Copy)]
pub struct CallRequest {
    /// The number of the call's kind, 1 to 17.
    pub kind: u8,
    /// The thread that makes it.
    pub thread: u8,
    /// The thread that a PrioritySet, a State or an Unblock names.
    pub target: u8,
    /// The priority of a Pulse or a PrioritySet, 1 to 255.
    pub priority: u8,
    /// The flags of a ChannelCreate.
    pub flags: u8,
    /// The code of a Pulse.
    pub pulse_code: i8,
    /// The code of an Error.
    pub code: i32,
    /// The value of a Pulse.
    pub value: i32,
    /// The channel, the connection or the receive id.
    pub id: u64,
    /// The status of a Reply.
    pub status: i64,
    /// The offset of a Read or a Write.
    pub offset: usize,
}

impl CallRequest {
    /// Returns the priority of a call of this kind. It is the lowest if the kind has no priority, and `None`
    /// if the kind has one and the field is 0.
    fn priority(&self, kind: CallKind) -> Option<Priority>
        ensures { result ≡ priority_as kind self.now }
    {
        match kind {
            CallKind::Pulse | CallKind::PrioritySet => Priority::new(self.priority),
            _ => Some(Priority::lowest()),
        }
    }

    /// Returns the operands of a call of this kind, or `None` if the kind has a priority and the field is 0.
    fn operands(&self, kind: CallKind) -> Option<Operands>
        ensures { result ≡ operands_as kind self.now }
    {
        let priority = self.priority(kind)?;
        Some(Operands {
            id: self.id,
            thread: ThreadNo(self.target),
            process: ProcessNo(0),
            priority,
            flags: self.flags,
            offset: self.offset,
            status: self.status,
            code: self.code,
            pulse_code: self.pulse_code,
            value: self.value,
        })
    }

    /// Returns the call of the request if this kind borrows its bytes, otherwise `None`.
    pub fn lent<'a>(&self, kind: CallKind, sent: &'a [u8]) -> Option<LentCall<'a>>
        ensures none { IfNone result (borrows kind ≡ false) }
        ensures some { IfSome result
            (λ call. (room : List ℕ) → call_as kind self.now sent.now room ≡ Some (call_lent call)) }
    {
        match kind {
            CallKind::Reply => Some(LentCall::Reply {
                rcvid: ReceiveId(self.id),
                status: self.status,
                bytes: sent,
            }),
            CallKind::Write => Some(LentCall::Write {
                rcvid: ReceiveId(self.id),
                offset: self.offset,
                bytes: sent,
            }),
            _ => None,
        }
    }

    /// Returns the call of a kind that isn't a Send, a Receive or a Reply, like `call_as`.
    #[inline(never)]
    fn other_call(
        &self,
        kind: CallKind,
        alloc: Global,
        sent: &[u8],
        room: &[u8],
    ) -> Result<Call, Errno>
        ensures { MatchResult result
            (λ call. call_as kind self.now sent.now room.now ≡ Some call)
            (IsRefusedAs (call_as kind self.now sent.now room.now)) }
    {
        let operands = self.operands(kind).ok_or(Errno::Inval)?;
        let bytes = Bytes::copied(alloc, sent)?;
        let buffer = Bytes::copied(alloc, room)?;
        Ok(Call::of(kind, operands, bytes, buffer))
    }

    /// Returns the call of the request, with copies of the bytes and the buffer. Fails with `Inval` if the
    /// kind has a priority and the field is 0, or with `NoMemory`.
    #[inline(always)]
    pub fn call_as(
        &self,
        kind: CallKind,
        alloc: Global,
        spares: &mut Spares,
        sent: &[u8],
        room: &[u8],
    ) -> Result<Call, Errno>
        ensures { MatchResult result
            (λ call. call_as kind self.now sent.now room.now ≡ Some call)
            (IsRefusedAs (call_as kind self.now sent.now room.now)) }
    {
        match kind {
            CallKind::Send => Ok(Call::Send {
                coid: ConnectionId(self.id),
                message: spares.copied(alloc, sent)?,
                reply_buffer: spares.copied(alloc, room)?,
            }),
            CallKind::Receive => Ok(Call::Receive {
                chid: ChannelId(self.id),
                buffer: spares.copied(alloc, room)?,
            }),
            CallKind::Reply => Ok(Call::Reply {
                rcvid: ReceiveId(self.id),
                status: self.status,
                bytes: spares.copied(alloc, sent)?,
            }),
            // The call is moved, so that the others needn't be written to memory.
            _ => Ok(self.other_call(kind, alloc, sent, room)?),
        }
    }
}
