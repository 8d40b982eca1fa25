//! Writes completions for C.

ghost use Rattle.std.specs.Prelude.{◌≡◌, ◌≤◌, length, take};
ghost use Rattle.qbase.specs.Copying.{lay_over, laid_count};
ghost use Rattle.balsaeuchre_c.specs.Rows.{told_bytes, IsRowOf, TellsReceipt};
ghost use Rattle.balsaeuchre_c.specs.WriteRows.{IsTold};

use crate::row::Row;
use qbase::copying::lay;
use qkernel::call::{Completion, Mark};
use qkernel::kernel::Kernel;

/// The number of completions of an event, the number of bytes of their buffers that were written, and the
/// number of the event's call.
#[repr(C)]
#[derive(Clone, Copy)]
pub struct EventCounts {
    pub completions: usize,
    pub bytes: usize,
    /// The number of the call; the first call of a kernel is 1.
    pub call: u64,
}

/// Returns the first `count` bytes, or all if there are fewer.
fn front(bytes: &[u8], count: usize) -> &[u8]
    ensures { result.now ≡ take count bytes.now }
{
    &bytes[..count.min(bytes.len())]
}

/// Returns the part of a completion's buffer that is written for C.
fn told_front(completion: &Completion) -> &[u8]
    ensures { result.now ≡ told_bytes completion.now }
{
    let buffer = completion.buffer.as_slice();
    match completion.mark {
        Mark::Message { copied, .. } => front(buffer, copied),
        Mark::Count(copied) => front(buffer, copied),
        Mark::Pulse { .. } => &[],
        _ => buffer,
    }
}

/// Copies the bytes of a completion like `lay`. A completion often has none.
#[inline(always)]
fn lay_told(bytes: &mut [u8], start: usize, told: &[u8]) -> usize
    ensures after { bytes.new ≡ lay_over bytes.old start told.now }
    ensures count { result ≡ laid_count bytes.old start told.now }
{
    if told.is_empty() {
        return 0;
    }
    lay(bytes, start, told)
}

/// Writes the completions of a kernel's last event into the first rows. Writes the bytes of their buffers
/// into `bytes`, one after another, as far as there is room.
pub fn tell(
    kernel: &Kernel,
    completions: &[Completion],
    rows: &mut [Row],
    bytes: &mut [u8],
) -> EventCounts
    requires { length completions.now ≤ length rows.old }
    ensures { IsTold kernel.now completions.now rows.old rows.new bytes.old bytes.new result }
{
    let mut start = 0;
    for (place, completion) in completions.iter().enumerate() {
        let told = told_front(completion);
        let written = lay_told(bytes, start, told);
        rows[place].write(kernel, completion, start, told.len(), written);
        start += written;
    }
    EventCounts {
        completions: completions.len(),
        bytes: start,
        call: kernel.made(),
    }
}

/// Writes a completion of a kernel's last event into a row, and the bytes of its buffer to the beginning of
/// `bytes`, as far as there is room.
pub fn tell_one(kernel: &Kernel, completion: &Completion, row: &mut Row, bytes: &mut [u8])
    ensures row { IsRowOf completion.now bytes.old bytes.new row.new }
    ensures message { TellsReceipt row.new kernel.now completion.now }
{
    let told = told_front(completion);
    let written = lay_told(bytes, 0, told);
    row.write(kernel, completion, 0, told.len(), written);
}

/// Writes a completion like `tell_one`, without the data of the sender of a received message.
pub fn tell_without_sender(completion: &Completion, row: &mut Row, bytes: &mut [u8])
    ensures { IsRowOf completion.now bytes.old bytes.new row.new }
{
    let told = told_front(completion);
    let written = lay_told(bytes, 0, told);
    row.write_without_sender(completion, 0, told.len(), written);
}
