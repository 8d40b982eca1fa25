//! Messages: sending, receiving, work on held messages, and replies.

ghost use Rattle.std.specs.Prelude.{◌≡◌};
ghost use Rattle.qrules_worked.specs.AnsweredWithCode as code;
ghost use Rattle.qrules_worked.specs.CutToFit as cut;
ghost use Rattle.qrules_worked.specs.FirstRun as first;
ghost use Rattle.qrules_worked.specs.GreatestFirst as greatest;
ghost use Rattle.qrules_worked.specs.HeldMessage as held;
ghost use Rattle.qrules_worked.specs.NewestReceiver as receivers;
ghost use Rattle.qrules_worked.specs.PastTheEnd as past_the_end;
ghost use Rattle.qrules_worked.specs.WaitingReceiver as waiting;
ghost use Rattle.qrules_worked.specs.Runs.{EndsOnlySo, EndsOnlySoWithMemory, IsLawfulRun, IsUnlawfulRun};
ghost use Rattle.qrules_worked.specs.Runs.{blocked_after};
ghost use Rattle.qrules_worked.specs.Setting.{roster};
ghost use Rattle.qrules_worked.specs.ThreeProcesses as three;

/// A server creates a channel; a client attaches to it and sends; the server receives and replies.
pub fn first_run()
    ensures lawful { IsLawfulRun first.roster first.events }
    ensures created { EndsOnlySoWithMemory first.roster first.events 1 }
    ensures attached { EndsOnlySoWithMemory first.roster first.events 2 }
    ensures sent { EndsOnlySoWithMemory first.roster first.events 3 }
    ensures received { EndsOnlySo first.roster first.events 4 }
    ensures answered { EndsOnlySo first.roster first.events 5 }
    ensures left_out { IsUnlawfulRun first.roster first.one_left_out }
    ensures added { IsUnlawfulRun first.roster first.one_added }
    ensures marked { IsUnlawfulRun first.roster first.mark_changed }
    ensures given { IsUnlawfulRun first.roster first.thread_changed }
    ensures moved { IsUnlawfulRun first.roster first.one_moved }
{}

/// The message of greater priority is received first, though it was sent later.
pub fn greatest_priority_first()
    ensures lawful { IsLawfulRun roster greatest.events }
    ensures first { EndsOnlySo roster greatest.events 6 }
    ensures second { EndsOnlySo roster greatest.events 7 }
    ensures left_out { IsUnlawfulRun roster greatest.one_left_out }
    ensures added { IsUnlawfulRun roster greatest.one_added }
    ensures marked { IsUnlawfulRun roster greatest.mark_changed }
    ensures given { IsUnlawfulRun roster greatest.thread_changed }
    ensures moved { IsUnlawfulRun roster greatest.one_moved }
{}

/// Among messages of equal priority, the message that was sent first is received first.
pub fn first_among_equals()
    ensures lawful { IsLawfulRun roster greatest.ties }
    ensures first { EndsOnlySo roster greatest.ties 7 }
    ensures second { EndsOnlySo roster greatest.ties 8 }
    ensures third { EndsOnlySo roster greatest.ties 9 }
    ensures blocked { blocked_after roster greatest.ties ≡ greatest.all_wait }
{}

/// A blocked server takes a message when it is sent, into the front of its buffer.
pub fn waiting_receiver_takes_at_once()
    ensures lawful { IsLawfulRun roster waiting.events }
    ensures waits { EndsOnlySo roster waiting.events 3 }
    ensures taken { EndsOnlySo roster waiting.events 4 }
    ensures answered { EndsOnlySo roster waiting.events 5 }
{}

/// The newest receiver takes a message.
pub fn newest_receiver_takes()
    ensures lawful { IsLawfulRun roster receivers.newest }
    ensures waits { EndsOnlySo roster receivers.newest 4 }
    ensures taken { EndsOnlySo roster receivers.newest 5 }
    ensures blocked { blocked_after roster receivers.newest ≡ receivers.still_waiting }
{}

/// A message that doesn't fit into its receiver's buffer is truncated, and so is a Write past the end of the
/// reply buffer.
pub fn cut_to_fit()
    ensures lawful { IsLawfulRun roster cut.events }
    ensures received { EndsOnlySo roster cut.events 4 }
    ensures written { EndsOnlySo roster cut.events 5 }
    ensures answered { EndsOnlySo roster cut.events 6 }
{}

/// A reply that doesn't fit into the sender's buffer is truncated.
pub fn reply_cut_to_fit()
    ensures lawful { IsLawfulRun roster cut.reply_cut }
    ensures received { EndsOnlySo roster cut.reply_cut 4 }
    ensures answered { EndsOnlySo roster cut.reply_cut 5 }
{}

/// Info, Read and Write are allowed on a held message until the reply.
pub fn held_message()
    ensures lawful { IsLawfulRun roster held.events }
    ensures received { EndsOnlySo roster held.events 4 }
    ensures told { EndsOnlySo roster held.events 5 }
    ensures read { EndsOnlySo roster held.events 6 }
    ensures written { EndsOnlySo roster held.events 7 }
    ensures answered { EndsOnlySo roster held.events 8 }
    ensures told_no_more { EndsOnlySo roster held.events 9 }
{}

/// A Read or a Write with an offset at or past the end copies nothing, and isn't an error.
pub fn past_the_end()
    ensures lawful { IsLawfulRun three.roster past_the_end.events }
    ensures read_at_the_end { EndsOnlySo three.roster past_the_end.events 6 }
    ensures read_past_the_end { EndsOnlySo three.roster past_the_end.events 7 }
    ensures read_far_past { EndsOnlySo three.roster past_the_end.events 8 }
    ensures written_at_the_end { EndsOnlySo three.roster past_the_end.events 9 }
    ensures written_past_the_end { EndsOnlySo three.roster past_the_end.events 10 }
    ensures written_far_past { EndsOnlySo three.roster past_the_end.events 11 }
    ensures told { EndsOnlySo three.roster past_the_end.events 12 }
    ensures answered { EndsOnlySo three.roster past_the_end.events 13 }
{}

/// An offset past the end copies nothing. An Error replies to a message with a code and no bytes.
pub fn answered_with_code()
    ensures lawful { IsLawfulRun roster code.events }
    ensures written_past_the_end { EndsOnlySo roster code.events 5 }
    ensures read_past_the_end { EndsOnlySo roster code.events 6 }
    ensures written { EndsOnlySo roster code.events 7 }
    ensures answered { EndsOnlySo roster code.events 8 }
    ensures answered_with_zero { EndsOnlySo roster code.events 11 }
{}
