//! Queued messages that move when the priority of their sender is set.

ghost use Rattle.qrules_worked.specs.MovedMessage as moved;
ghost use Rattle.qrules_worked.specs.Runs.{EndsOnlySo, IsLawfulRun};
ghost use Rattle.qrules_worked.specs.Setting.{roster};

/// A message that is raised over another is received before it, with its new priority.
pub fn raised_over_another()
    ensures lawful { IsLawfulRun roster moved.raised }
    ensures set { EndsOnlySo roster moved.raised 6 }
    ensures waits { EndsOnlySo roster moved.raised 7 }
    ensures first { EndsOnlySo roster moved.raised 8 }
    ensures taken { EndsOnlySo roster moved.raised 9 }
    ensures told { EndsOnlySo roster moved.raised 10 }
    ensures second { EndsOnlySo roster moved.raised 11 }
{}

/// A message that is lowered below another is received after it.
pub fn lowered_beneath_another()
    ensures lawful { IsLawfulRun roster moved.lowered }
    ensures set { EndsOnlySo roster moved.lowered 6 }
    ensures first { EndsOnlySo roster moved.lowered 7 }
    ensures second { EndsOnlySo roster moved.lowered 8 }
    ensures taken { EndsOnlySo roster moved.lowered 9 }
{}

/// A message has the last of two priorities that are set one after the other.
pub fn set_twice()
    ensures lawful { IsLawfulRun roster moved.set_twice }
    ensures again { EndsOnlySo roster moved.set_twice 7 }
    ensures first { EndsOnlySo roster moved.set_twice 8 }
    ensures second { EndsOnlySo roster moved.set_twice 9 }
    ensures taken { EndsOnlySo roster moved.set_twice 10 }
{}

/// A message that is raised comes between the messages of its new priority that were sent before and after
/// it.
pub fn raised_between_two()
    ensures lawful { IsLawfulRun roster moved.between }
    ensures first { EndsOnlySo roster moved.between 8 }
    ensures second { EndsOnlySo roster moved.between 9 }
    ensures third { EndsOnlySo roster moved.between 10 }
{}

/// A message whose priority is set to the same value stays in its place.
pub fn set_to_the_same()
    ensures lawful { IsLawfulRun roster moved.set_the_same }
    ensures first { EndsOnlySo roster moved.set_the_same 8 }
    ensures second { EndsOnlySo roster moved.set_the_same 9 }
{}

/// A held message keeps the priority of its receipt, and its unblock pulse has the same priority.
pub fn held_stays()
    ensures lawful { IsLawfulRun roster moved.held_stays }
    ensures set { EndsOnlySo roster moved.held_stays 7 }
    ensures told { EndsOnlySo roster moved.held_stays 8 }
    ensures pulse { EndsOnlySo roster moved.held_stays 10 }
    ensures level { EndsOnlySo roster moved.held_stays 11 }
{}

/// A thread's pulse keeps the priority that it was sent with.
pub fn pulse_stays()
    ensures lawful { IsLawfulRun roster moved.pulse_stays }
    ensures first { EndsOnlySo roster moved.pulse_stays 6 }
    ensures second { EndsOnlySo roster moved.pulse_stays 7 }
    ensures taken { EndsOnlySo roster moved.pulse_stays 8 }
{}

/// A message has the priority that its thread has when it sends, whatever was set before that.
pub fn set_before_it_is_sent()
    ensures lawful { IsLawfulRun roster moved.set_before }
    ensures first { EndsOnlySo roster moved.set_before 9 }
    ensures second { EndsOnlySo roster moved.set_before 10 }
    ensures taken { EndsOnlySo roster moved.set_before 11 }
{}

/// A call that fails moves no message.
pub fn set_refused()
    ensures lawful { IsLawfulRun roster moved.set_refused }
    ensures busy { EndsOnlySo roster moved.set_refused 6 }
    ensures refused { EndsOnlySo roster moved.set_refused 7 }
    ensures first { EndsOnlySo roster moved.set_refused 8 }
    ensures second { EndsOnlySo roster moved.set_refused 9 }
    ensures taken { EndsOnlySo roster moved.set_refused 10 }
{}
