//! Calls that fail, with the first error that applies.

ghost use Rattle.std.specs.Prelude.{◌≡◌, [], ◌∷◌, pos, negsuc};
ghost use Rattle.qbase.specs.declared.errno.Errno.TheVariants.{Again, Inval, Srch};
ghost use Rattle.qrules.specs.Outcome.{Answers};
ghost use Rattle.qmodel.specs.declared.call.Call.TheVariants.{ChannelCreate, ConnectAttach, ConnectDetach};
ghost use Rattle.qmodel.specs.declared.call.Call.TheVariants.{Pulse, Unblock};
ghost use Rattle.qmodel.specs.declared.call.Mark.TheVariants as mark;
ghost use Rattle.qrules_worked.specs.Counted as counted;
ghost use Rattle.qrules_worked.specs.Limits.{IsRefusedWith, facts_after};
ghost use Rattle.qrules_worked.specs.Limits as limits;
ghost use Rattle.qrules_worked.specs.OthersMessages as others;
ghost use Rattle.qrules_worked.specs.Refusals as refusals;
ghost use Rattle.qrules_worked.specs.RefusedPulses as refused_pulses;
ghost use Rattle.qrules_worked.specs.Runs.{EndsOnlySo, EndsOnlySoWithMemory, IsLawfulRun, ended, flags_of};
ghost use Rattle.qrules_worked.specs.Setting.{roster};
ghost use Rattle.qrules_worked.specs.ThreeProcesses as three;

/// Calls that fail, and get their buffers back.
pub fn refusals()
    ensures lawful { IsLawfulRun roster refusals.events }
    ensures received { EndsOnlySo roster refusals.events 3 }
    ensures sent { EndsOnlySo roster refusals.events 4 }
    ensures attached { EndsOnlySo roster refusals.events 5 }
    ensures created { EndsOnlySo roster refusals.events 6 }
    ensures answered { EndsOnlySo roster refusals.events 7 }
    ensures accepted { EndsOnlySoWithMemory roster refusals.events 8 }
    ensures busy { EndsOnlySo roster refusals.events 9 }
    ensures answered_too_early { EndsOnlySo roster refusals.events 10 }
    ensures not_created { EndsOnlySo roster refusals.events 11 }
    ensures still_pending { EndsOnlySo roster refusals.events 12 }
{}

/// A call on a message that isn't held, or that another process holds, fails.
pub fn others_messages()
    ensures lawful { IsLawfulRun roster others.events }
    ensures read_too_early { EndsOnlySo roster others.events 4 }
    ensures replied_by_others { EndsOnlySo roster others.events 6 }
    ensures answered_by_others { EndsOnlySo roster others.events 7 }
    ensures read_by_others { EndsOnlySo roster others.events 8 }
    ensures written_by_others { EndsOnlySo roster others.events 9 }
    ensures told_to_others { EndsOnlySo roster others.events 10 }
    ensures replied_by_fellow { EndsOnlySo roster others.events 11 }
    ensures answered_late { EndsOnlySo roster others.events 12 }
    ensures written_late { EndsOnlySo roster others.events 13 }
{}

/// Pulses that fail, and calls that fail on another process's channel.
pub fn refused_pulses()
    ensures lawful { IsLawfulRun roster refused_pulses.events }
    ensures negative { EndsOnlySo roster refused_pulses.events 3 }
    ensures others_connection { EndsOnlySo roster refused_pulses.events 4 }
    ensures least_code { EndsOnlySo roster refused_pulses.events 5 }
    ensures others_channel { EndsOnlySo roster refused_pulses.events 6 }
    ensures destroyed_by_others { EndsOnlySo roster refused_pulses.events 7 }
    ensures none_destroyed { EndsOnlySo roster refused_pulses.events 8 }
    ensures waits { EndsOnlySo roster refused_pulses.events 9 }
{}

/// The limits count only channels that are open, connections that are live and pulses that are queued.
pub fn counted()
    ensures lawful { IsLawfulRun three.roster counted.events }
    ensures channels { counted.facts.open_channels ≡ 2 }
    ensures connections { counted.facts.live_connections ≡ 4 }
    ensures pulses { counted.pulses_on 1 ≡ 2 }
    ensures pulses_elsewhere { counted.pulses_on 4 ≡ 1 }
    ensures pulses_nowhere { counted.pulses_on 8 ≡ 0 }
{}

/// The results of ChannelCreate and ConnectAttach at the limits of channels and connections, and just below
/// them.
pub fn limits()
    ensures channels { IsLawfulRun roster limits.channels }
    ensures no_more_channels { IsRefusedWith (facts_after limits.channels) 1
        (ChannelCreate (flags_of 0)) Again }
    ensures no_flags { IsRefusedWith (facts_after limits.channels) 1 (ChannelCreate (flags_of 8)) Inval }
    ensures one_destroyed { Answers (facts_after limits.one_destroyed) 1 (ChannelCreate (flags_of 0))
        (ended 67 1 (mark.Channel 67) [] ∷ []) }
    ensures connections { Answers (limits.with_connections 1023) 2 (ConnectAttach 1)
        (ended 3 2 (mark.Connection 3) [] ∷ []) }
    ensures no_more_connections { IsRefusedWith (limits.with_connections 1024) 2 (ConnectAttach 1) Again }
    ensures no_channel { IsRefusedWith (limits.with_connections 1024) 2 (ConnectAttach 9) Srch }
{}

/// The results of calls that send a pulse at the limit of pulses, and just below it.
pub fn limit_of_pulses()
    ensures pulses { Answers (limits.with_pulses 1023) 2 (Pulse 2 1 (pos 0) (pos 0))
        (ended 3 2 mark.Ok [] ∷ []) }
    ensures messages_apart { Answers (limits.with_messages_and_pulses 1023) 2 (Pulse 2 1 (pos 0) (pos 0))
        (ended 3 2 mark.Ok [] ∷ []) }
    ensures no_more_pulses { IsRefusedWith (limits.with_pulses 1024) 2 (Pulse 2 1 (pos 0) (pos 0)) Again }
    ensures no_code { IsRefusedWith (limits.with_pulses 1024) 2 (Pulse 2 1 (negsuc 0) (pos 0)) Inval }
    ensures unblock_pulses { Answers (limits.held_with_pulses 1023) 3 (Unblock 2)
        (ended 7 3 mark.Ok [] ∷ []) }
    ensures no_more_unblock_pulses { IsRefusedWith (limits.held_with_pulses 1024) 3 (Unblock 2) Again }
    ensures others_thread { IsRefusedWith (limits.held_with_pulses 1024) 1 (Unblock 2) Srch }
    ensures not_blocked { Answers (limits.held_with_pulses 1024) 3 (Unblock 3) (ended 7 3 mark.Ok [] ∷ []) }
    ensures disconnect_pulses { Answers (limits.last_with_pulses 1023) 2 (ConnectDetach 5)
        (ended 7 2 mark.Ok [] ∷ []) }
    ensures no_more_disconnect_pulses { IsRefusedWith (limits.last_with_pulses 1024) 2
        (ConnectDetach 5) Again }
    ensures others_connection { IsRefusedWith (limits.last_with_pulses 1024) 1 (ConnectDetach 5) Inval }
    ensures not_the_last { Answers (limits.twice_with_pulses 1024) 2 (ConnectDetach 4)
        (ended 6 2 mark.Ok [] ∷ []) }
{}
