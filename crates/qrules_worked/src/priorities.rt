//! Priorities and states: a server takes the priority of an item that it receives, and State returns a
//! thread's state.

ghost use Rattle.std.specs.Prelude.{◌≡◌};
ghost use Rattle.qrules_worked.specs.PriorityGiven as given;
ghost use Rattle.qrules_worked.specs.PriorityTaken as taken;
ghost use Rattle.qrules_worked.specs.ThreadsStates as states;
ghost use Rattle.qrules_worked.specs.Runs.{EndsOnlySo, EndsOnlySoWithMemory, IsLawfulRun, blocked_after};
ghost use Rattle.qrules_worked.specs.Setting.{roster};

/// A server takes the priority of a message that it receives, and sends with this priority.
pub fn priority_carried_on()
    ensures lawful { IsLawfulRun roster taken.carried_on }
    ensures set { EndsOnlySo roster taken.carried_on 3 }
    ensures received { EndsOnlySo roster taken.carried_on 5 }
    ensures taken { EndsOnlySo roster taken.carried_on 6 }
    ensures created { EndsOnlySoWithMemory roster taken.carried_on 7 }
    ensures attached { EndsOnlySoWithMemory roster taken.carried_on 8 }
    ensures sent_on { EndsOnlySoWithMemory roster taken.carried_on 9 }
    ensures told { EndsOnlySo roster taken.carried_on 11 }
    ensures blocked { blocked_after roster taken.carried_on ≡ taken.both_wait }
{}

/// A server keeps its priority if it receives from a channel with the flag for fixed priorities.
pub fn priority_left()
    ensures lawful { IsLawfulRun roster taken.fixed }
    ensures created { EndsOnlySoWithMemory roster taken.fixed 3 }
    ensures received { EndsOnlySo roster taken.fixed 6 }
    ensures kept { EndsOnlySo roster taken.fixed 7 }
{}

/// A blocked server takes the priority of a pulse, and loses it when its priority is set.
pub fn priority_given()
    ensures lawful { IsLawfulRun roster given.events }
    ensures pulsed { EndsOnlySo roster given.events 4 }
    ensures taken { EndsOnlySo roster given.events 5 }
    ensures set { EndsOnlySo roster given.events 6 }
    ensures told { EndsOnlySo roster given.events 7 }
    ensures told_to_others { EndsOnlySo roster given.events 8 }
    ensures set_by_others { EndsOnlySo roster given.events 9 }
    ensures set_for_none { EndsOnlySo roster given.events 10 }
    ensures told_of_none { EndsOnlySo roster given.events 11 }
    ensures not_set { EndsOnlySo roster given.events 12 }
    ensures fellow { EndsOnlySo roster given.events 13 }
{}

/// State returns the state of a thread: RECEIVE-blocked, REPLY-blocked, SEND-blocked or ready.
pub fn threads_states()
    ensures lawful { IsLawfulRun roster states.events }
    ensures receives { EndsOnlySo roster states.events 4 }
    ensures taken { EndsOnlySo roster states.events 5 }
    ensures waits_for_answer { EndsOnlySo roster states.events 6 }
    ensures waits_for_receipt { EndsOnlySo roster states.events 8 }
    ensures answered { EndsOnlySo roster states.events 9 }
    ensures ready { EndsOnlySo roster states.events 10 }
{}
