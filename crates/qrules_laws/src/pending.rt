//! Laws of queued items.

ghost use Rattle.qrules_laws.specs.Pending.{FirstGoesFirst, NonePendingIsHeld, OneUnblockPulse};
ghost use Rattle.qrules_laws.specs.Pending.{OthersKeepTheirOrder, PendingFollowsItsSender, PendingIsOpen};
ghost use Rattle.qrules_laws.specs.Pending.{PendingRises, PlacesFall, PulsesAreLimited, SettingMovesItsOwn};

/// The items that are queued on a channel are in rising number, and none is held. The sender of each message
/// is blocked in its Send, and has the same priority as the message.
#[tactic(auto, using(crate::proofs::PendingLaws::none_pending_is_held, crate::proofs::PendingLaws::pending_is_open, qrules::proofs::Traces::Past::Rising::pending_rises, crate::proofs::PriorityLaws::pending_follows_its_sender))]
pub fn pending_is_sent()
    ensures rising { PendingRises }
    ensures unheld { NonePendingIsHeld }
    ensures waiting { PendingIsOpen }
    ensures follows { PendingFollowsItsSender }
{}

/// No more than 1,024 pulses are queued on a channel.
#[tactic(auto, using(crate::proofs::LimitLaws::pulses_are_limited))]
pub fn pulses_are_limited()
    ensures { PulsesAreLimited }
{}

/// At most one unblock pulse is made for a message.
pub fn one_unblock_pulse()
    ensures { OneUnblockPulse }
{}

/// Of two items that are queued on a channel and keep their priorities, the first in the order of receipt is
/// received first, or is removed in another way. A ReceivePulse skips messages.
#[tactic(auto, using(crate::proofs::OrderLaws::first_goes_first))]
pub fn first_goes_first()
    ensures { FirstGoesFirst }
{}

/// The place of a queued item is the number of items before it. In an event that puts no other item before
/// it, its place falls by at least one for each item before it that is received or cancelled. So its place
/// rises only if an item of greater priority is sent to the channel, or a message's priority is set.
pub fn places_fall()
    ensures { PlacesFall }
{}

/// An accepted PrioritySet also sets the priority of its thread's queued message. It changes no other queued
/// item, and the others keep their order.
#[tactic(auto, using(crate::proofs::SettingLaws::others_keep_their_order, crate::proofs::SettingLaws::setting_moves_its_own))]
pub fn setting_moves_its_own()
    ensures moved { SettingMovesItsOwn }
    ensures others { OthersKeepTheirOrder }
{}
