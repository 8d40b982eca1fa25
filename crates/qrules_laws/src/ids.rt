//! Laws of ids: of open channels and live connections.

ghost use Rattle.qrules_laws.specs.Ids.{ChannelsAreLimited, ConnectionsAreLimited, DestroyedStaysDestroyed};
ghost use Rattle.qrules_laws.specs.Ids.{DetachedStaysDetached};

/// No more than 64 channels are open.
#[tactic(auto, using(crate::proofs::IdLaws::channels_are_limited))]
pub fn channels_are_limited()
    ensures { ChannelsAreLimited }
{}

/// No more than 1,024 connections are live.
#[tactic(auto, using(crate::proofs::IdLaws::connections_are_limited))]
pub fn connections_are_limited()
    ensures { ConnectionsAreLimited }
{}

/// A destroyed channel is never open again, and no later call returns its id. A detached connection is never
/// live again, and no later call returns its id.
pub fn destroyed_stays_destroyed()
    ensures channels { DestroyedStaysDestroyed }
    ensures connections { DetachedStaysDetached }
{}
