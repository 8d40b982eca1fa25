//! Laws of open calls.

ghost use Rattle.qrules_laws.specs.OpenCalls.{AtMostOneOpen, HeldIsOpenSend, NewestIsLast};
ghost use Rattle.qrules_laws.specs.OpenCalls.{NobodyWaitsAfterShutdown, NoneIsNewest};
ghost use Rattle.qrules_laws.specs.OpenCalls.{NothingPendingForWaiting, OpenIsUnended, OpenSendsAreRouted};
ghost use Rattle.qrules_laws.specs.OpenCalls.{ReceiveBuffersKeepLength, ReplyBuffersKeepLength};

/// A thread has at most one accepted call that may block and hasn't completed. The thread is blocked in
/// exactly this call.
#[tactic(auto, using(crate::proofs::OpenCallLaws::at_most_one_open, crate::proofs::OpenCallLaws::open_is_unended))]
pub fn one_open_call()
    ensures one { AtMostOneOpen }
    ensures same { OpenIsUnended }
{}

/// The connection of each open Send is live and leads to the channel of the Send, which is open.
#[tactic(auto, using(crate::proofs::OpenCallLaws::open_sends_are_routed))]
pub fn open_sends_are_routed()
    ensures { OpenSendsAreRouted }
{}

/// A message is held, that is, received while its Send hasn't completed, exactly if its Send is open and has
/// a receipt.
#[tactic(auto, using(crate::proofs::OpenCallLaws::held_is_open_send))]
pub fn held_is_open_send()
    ensures { HeldIsOpenSend }
{}

/// The newest receiver of an item is blocked in the receive that began last, of all open receives on the
/// item's channel that may take it. There is no newest receiver exactly if no open receive may take the item.
pub fn newest_is_last()
    ensures last { NewestIsLast }
    ensures none { NoneIsNewest }
{}

/// No item is queued on a channel while a receive that may take it is open there.
#[tactic(auto, using(crate::proofs::OpenCallLaws::nothing_pending_for_waiting))]
pub fn nothing_pending_for_waiting()
    ensures { NothingPendingForWaiting }
{}

/// The buffer of an open call is as long as the buffer that was passed in.
#[tactic(auto, using(crate::proofs::OpenCallLaws::receive_buffers_keep_length, crate::proofs::OpenCallLaws::reply_buffers_keep_length))]
pub fn buffers_keep_length()
    ensures sends { ReplyBuffersKeepLength }
    ensures receives { ReceiveBuffersKeepLength }
{}

/// After an accepted Shutdown no thread is blocked.
#[tactic(auto, using(crate::proofs::OpenCallLaws::nobody_waits_after_shutdown))]
pub fn nobody_waits_after_shutdown()
    ensures { NobodyWaitsAfterShutdown }
{}
