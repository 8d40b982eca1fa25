//! Open calls that are cancelled by an Unblock, by the end of a connection or a channel, or by a shutdown.

ghost use Rattle.std.specs.Prelude.{◌≡◌};
ghost use Rattle.qrules_worked.specs.DestroyedChannel as destroyed;
ghost use Rattle.qrules_worked.specs.Detached as detached;
ghost use Rattle.qrules_worked.specs.ShutDown as down;
ghost use Rattle.qrules_worked.specs.StaleId as stale;
ghost use Rattle.qrules_worked.specs.Unblocked as unblocked;
ghost use Rattle.qrules_worked.specs.Runs.{EndsOnlySo, EndsOnlySoWithMemory, IsLawfulRun, blocked_after};
ghost use Rattle.qrules_worked.specs.Setting.{roster};

/// A call on the id of a message whose sender was unblocked fails.
pub fn stale_id()
    ensures lawful { IsLawfulRun roster stale.events }
    ensures unblocked { EndsOnlySo roster stale.events 5 }
    ensures sent_again { EndsOnlySoWithMemory roster stale.events 6 }
    ensures stale { EndsOnlySo roster stale.events 7 }
    ensures received { EndsOnlySo roster stale.events 8 }
    ensures blocked { blocked_after roster stale.events ≡ stale.waits_for_answer }
{}

/// A thread that is blocked in a Send or a receive is unblocked.
pub fn unblocked()
    ensures lawful { IsLawfulRun roster unblocked.events }
    ensures cancelled { EndsOnlySo roster unblocked.events 4 }
    ensures not_blocked { EndsOnlySo roster unblocked.events 5 }
    ensures of_others { EndsOnlySo roster unblocked.events 6 }
    ensures of_none { EndsOnlySo roster unblocked.events 7 }
    ensures receiver_cancelled { EndsOnlySo roster unblocked.events 9 }
    ensures pulsed { EndsOnlySoWithMemory roster unblocked.events 10 }
    ensures message_gone { EndsOnlySo roster unblocked.events 11 }
{}

/// A ConnectDetach cancels the Sends over the connection whose messages haven't been received.
pub fn detached_connection()
    ensures lawful { IsLawfulRun roster detached.waiting }
    ensures cancelled { EndsOnlySo roster detached.waiting 4 }
    ensures detached_again { EndsOnlySo roster detached.waiting 5 }
    ensures sent { EndsOnlySo roster detached.waiting 6 }
    ensures message_gone { EndsOnlySo roster detached.waiting 7 }
    ensures blocked { blocked_after roster detached.waiting ≡ detached.nothing_there }
{}

/// A ConnectDetach also cancels the Sends whose messages were received, but no Send over another connection.
pub fn detached_while_held()
    ensures lawful { IsLawfulRun roster detached.held }
    ensures of_others { EndsOnlySo roster detached.held 5 }
    ensures cancelled { EndsOnlySo roster detached.held 7 }
    ensures answered { EndsOnlySo roster detached.held 8 }
    ensures over_another { EndsOnlySo roster detached.held 10 }
    ensures of_none { EndsOnlySo roster detached.held 11 }
{}

/// A ConnectDetach cancels no Send over another connection of its process to the same channel.
pub fn held_beside_another_connection()
    ensures lawful { IsLawfulRun roster detached.beside_another }
    ensures told { EndsOnlySo roster detached.beside_another 6 }
    ensures detached { EndsOnlySo roster detached.beside_another 7 }
    ensures answered { EndsOnlySo roster detached.beside_another 8 }
{}

/// An Info of a message that was sent over the older of two connections returns that connection. A
/// ConnectDetach of that connection cancels the Send.
pub fn held_beside_a_newer_connection()
    ensures lawful { IsLawfulRun roster detached.beside_a_newer }
    ensures told { EndsOnlySo roster detached.beside_a_newer 6 }
    ensures detached { EndsOnlySo roster detached.beside_a_newer 7 }
    ensures still_held { EndsOnlySo roster detached.beside_a_newer 8 }
    ensures cancelled { EndsOnlySo roster detached.beside_a_newer 9 }
    ensures answered { EndsOnlySo roster detached.beside_a_newer 10 }
{}

/// The server of a channel with the disconnect flag gets one pulse, when a process detaches its last
/// connection.
pub fn told_of_the_last_detach()
    ensures lawful { IsLawfulRun roster detached.told_once }
    ensures first { EndsOnlySo roster detached.told_once 6 }
    ensures last { EndsOnlySoWithMemory roster detached.told_once 7 }
    ensures pulse { EndsOnlySo roster detached.told_once 8 }
    ensures no_more { EndsOnlySo roster detached.told_once 9 }
    ensures blocked { blocked_after roster detached.told_once ≡ detached.no_more }
{}

/// A blocked server takes the disconnect pulse in the event of the detach.
pub fn disconnect_pulse_taken_at_once()
    ensures lawful { IsLawfulRun roster detached.taken_at_once }
    ensures first { EndsOnlySo roster detached.taken_at_once 6 }
    ensures last { EndsOnlySo roster detached.taken_at_once 9 }
    ensures message_gone { EndsOnlySo roster detached.taken_at_once 10 }
{}

/// A ChannelDestroy cancels the calls that are blocked on the channel.
pub fn destroyed_channel()
    ensures lawful { IsLawfulRun roster destroyed.events }
    ensures destroyed { EndsOnlySo roster destroyed.events 7 }
    ensures sent { EndsOnlySo roster destroyed.events 8 }
    ensures pulsed { EndsOnlySo roster destroyed.events 9 }
    ensures received { EndsOnlySo roster destroyed.events 10 }
    ensures received_pulse { EndsOnlySo roster destroyed.events 11 }
    ensures destroyed_again { EndsOnlySo roster destroyed.events 12 }
    ensures answered { EndsOnlySo roster destroyed.events 13 }
    ensures attached { EndsOnlySo roster destroyed.events 14 }
{}

/// Threads that are blocked on another channel than the destroyed one stay blocked.
pub fn other_channel_stays()
    ensures lawful { IsLawfulRun roster destroyed.others_stay }
    ensures destroyed { EndsOnlySo roster destroyed.others_stay 6 }
    ensures attached { EndsOnlySoWithMemory roster destroyed.others_stay 7 }
    ensures pulse { EndsOnlySo roster destroyed.others_stay 8 }
{}

/// A call of a blocked thread fails with `Busy`, and every call after a shutdown fails with `Down`.
pub fn busy_and_shut_down()
    ensures lawful { IsLawfulRun roster down.events }
    ensures busy { EndsOnlySo roster down.events 4 }
    ensures shut_down { EndsOnlySo roster down.events 5 }
    ensures created { EndsOnlySo roster down.events 6 }
    ensures sent { EndsOnlySo roster down.events 7 }
    ensures shut_down_again { EndsOnlySo roster down.events 8 }
{}

/// A shutdown cancels every open call.
pub fn shut_down_ends_all()
    ensures lawful { IsLawfulRun roster down.all_ended }
    ensures shut_down { EndsOnlySo roster down.all_ended 8 }
{}
