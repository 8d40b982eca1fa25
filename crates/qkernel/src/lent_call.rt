//! Calls that borrow their bytes.

ghost use Rattle.std.specs.Prelude.{◌≡◌, IfSome};
ghost use Rattle.qkernel.specs.LentCall.{call_lent};

use qbase::ids::ReceiveId;
use qmodel::call::Call;

/// A call that borrows its bytes. It never blocks, so the kernel needn't own them. `Kernel::call_lent_at`
/// makes it, and copies the bytes only into the sender's reply buffer.
#[derive(Clone, Copy, Debug)]
pub enum LentCall<'a> {
    /// `Call::Reply` with these bytes.
    Reply {
        rcvid: ReceiveId,
        status: i64,
        bytes: &'a [u8],
    },
    /// `Call::Write` with these bytes.
    Write {
        rcvid: ReceiveId,
        offset: usize,
        bytes: &'a [u8],
    },
}

impl<'a> LentCall<'a> {
    /// Returns the call with its bytes lent, if it is a Reply or a Write.
    pub fn of(call: &'a Call) -> Option<LentCall<'a>>
        ensures { IfSome result (λ lent. call_lent lent ≡ call.now) }
    {
        match call {
            Call::Reply {
                rcvid,
                status,
                bytes,
            } => Some(LentCall::Reply {
                rcvid: *rcvid,
                status: *status,
                bytes: bytes.as_slice(),
            }),
            Call::Write {
                rcvid,
                offset,
                bytes,
            } => Some(LentCall::Write {
                rcvid: *rcvid,
                offset: *offset,
                bytes: bytes.as_slice(),
            }),
            _ => None,
        }
    }
}
