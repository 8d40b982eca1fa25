//! Runs of three processes in which no number is used for two things. Most runs are on a channel with all
//! three flags.

ghost use Rattle.std.specs.Prelude.{◌≡◌};
ghost use Rattle.qrules_worked.specs.AllFlags as flags;
ghost use Rattle.qrules_worked.specs.LastOfAProcess as last;
ghost use Rattle.qrules_worked.specs.LaterPriority as later;
ghost use Rattle.qrules_worked.specs.Overwritten as overwritten;
ghost use Rattle.qrules_worked.specs.Runs.{EndsOnlySo, EndsOnlySoWithMemory, IsLawfulRun, blocked_after};
ghost use Rattle.qrules_worked.specs.ThreeProcesses.{roster};

/// An Info of a held message and its unblock pulse have the priority that the message was received with,
/// whatever is set later.
pub fn held_with_all_flags()
    ensures lawful { IsLawfulRun roster flags.held }
    ensures received { EndsOnlySo roster flags.held 6 }
    ensures kept { EndsOnlySo roster flags.held 7 }
    ensures set_for_blocked { EndsOnlySo roster flags.held 8 }
    ensures set_for_itself { EndsOnlySo roster flags.held 9 }
    ensures told { EndsOnlySo roster flags.held 10 }
    ensures unblocked { EndsOnlySoWithMemory roster flags.held 11 }
    ensures still_blocked { EndsOnlySo roster flags.held 12 }
    ensures answered { EndsOnlySo roster flags.held 13 }
    ensures pulse { EndsOnlySo roster flags.held 14 }
    ensures kept_again { EndsOnlySo roster flags.held 15 }
    ensures set { EndsOnlySo roster flags.held 16 }
{}

/// A thread whose message isn't held is unblocked at once, even on a channel with the unblock flag.
pub fn not_held_with_all_flags()
    ensures lawful { IsLawfulRun roster flags.not_held }
    ensures sender_cut { EndsOnlySo roster flags.not_held 5 }
    ensures message_gone { EndsOnlySo roster flags.not_held 6 }
    ensures receiver_cut { EndsOnlySo roster flags.not_held 7 }
    ensures pulse_receiver_cut { EndsOnlySo roster flags.not_held 9 }
    ensures itself { EndsOnlySo roster flags.not_held 10 }
{}

/// The newest receiver takes an item, though its thread has the lesser number.
pub fn waiting_with_all_flags()
    ensures lawful { IsLawfulRun roster flags.waiting }
    ensures waits { EndsOnlySo roster flags.waiting 5 }
    ensures message { EndsOnlySo roster flags.waiting 6 }
    ensures kept { EndsOnlySo roster flags.waiting 7 }
    ensures waits_again { EndsOnlySo roster flags.waiting 8 }
    ensures pulse { EndsOnlySo roster flags.waiting 9 }
    ensures kept_again { EndsOnlySo roster flags.waiting 10 }
    ensures blocked { blocked_after roster flags.waiting ≡ flags.still_waiting }
{}

/// The server gets a pulse when a process detaches its last connection, though another process is still
/// attached.
pub fn last_connection_of_a_process()
    ensures lawful { IsLawfulRun roster last.two_processes }
    ensures first { EndsOnlySo roster last.two_processes 7 }
    ensures set { EndsOnlySo roster last.two_processes 8 }
    ensures pulsed { EndsOnlySoWithMemory roster last.two_processes 9 }
    ensures last { EndsOnlySoWithMemory roster last.two_processes 10 }
    ensures pulse_kept { EndsOnlySo roster last.two_processes 11 }
    ensures told { EndsOnlySo roster last.two_processes 12 }
    ensures message_kept { EndsOnlySo roster last.two_processes 13 }
{}

/// A connection whose channel is destroyed can still be detached.
pub fn connection_to_a_destroyed_channel()
    ensures lawful { IsLawfulRun roster last.destroyed }
    ensures destroyed { EndsOnlySo roster last.destroyed 5 }
    ensures detached { EndsOnlySo roster last.destroyed 6 }
    ensures detached_again { EndsOnlySo roster last.destroyed 7 }
    ensures others { EndsOnlySo roster last.destroyed 8 }
{}

/// A later Write copies over an earlier one, and the reply over both.
pub fn overwritten()
    ensures lawful { IsLawfulRun roster overwritten.events }
    ensures written { EndsOnlySo roster overwritten.events 6 }
    ensures written_over { EndsOnlySo roster overwritten.events 7 }
    ensures answered { EndsOnlySo roster overwritten.events 8 }
{}

/// An Error replies to a message with a negative code.
pub fn answered_with_negative_code()
    ensures lawful { IsLawfulRun roster overwritten.negative_code }
    ensures answered { EndsOnlySo roster overwritten.negative_code 7 }
{}

/// A thread has the priority that was last set for it, or that it last took with a receipt, whichever is
/// later.
pub fn later_priority()
    ensures lawful { IsLawfulRun roster later.events }
    ensures set { EndsOnlySo roster later.events 8 }
    ensures received { EndsOnlySo roster later.events 9 }
    ensures taken { EndsOnlySo roster later.events 10 }
    ensures set_again { EndsOnlySo roster later.events 11 }
    ensures told { EndsOnlySo roster later.events 12 }
    ensures pulse { EndsOnlySo roster later.events 13 }
    ensures taken_again { EndsOnlySo roster later.events 14 }
{}
