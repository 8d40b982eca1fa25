//! Pulses that are received in one order with messages, or by a ReceivePulse.

ghost use Rattle.std.specs.Prelude.{◌≡◌};
ghost use Rattle.qrules_worked.specs.FirstRun as first;
ghost use Rattle.qrules_worked.specs.NewestReceiver as receivers;
ghost use Rattle.qrules_worked.specs.OneOrder as order;
ghost use Rattle.qrules_worked.specs.PulsesAlone as pulses_alone;
ghost use Rattle.qrules_worked.specs.UnblockPulse as unblock_pulse;
ghost use Rattle.qrules_worked.specs.Runs.{EndsOnlySo, EndsOnlySoWithMemory, IsLawfulRun, blocked_after};
ghost use Rattle.qrules_worked.specs.Setting.{roster};

/// A pulse is received before a later message of the same priority.
pub fn pulse_before_message()
    ensures lawful { IsLawfulRun roster order.pulse_first }
    ensures pulsed { EndsOnlySoWithMemory roster order.pulse_first 3 }
    ensures set { EndsOnlySo roster order.pulse_first 4 }
    ensures pulse { EndsOnlySo roster order.pulse_first 6 }
    ensures message { EndsOnlySo roster order.pulse_first 7 }
{}

/// A message is received before a later pulse of the same priority.
pub fn message_before_pulse()
    ensures lawful { IsLawfulRun roster order.message_first }
    ensures message { EndsOnlySo roster order.message_first 5 }
    ensures pulse { EndsOnlySo roster order.message_first 6 }
    ensures blocked { blocked_after roster order.message_first ≡ order.waits_for_answer }
{}

/// A pulse of greater priority is received before a message, and a pulse of lesser priority after it.
pub fn greater_pulse_first()
    ensures lawful { IsLawfulRun roster order.greater_first }
    ensures greater { EndsOnlySo roster order.greater_first 6 }
    ensures message { EndsOnlySo roster order.greater_first 7 }
    ensures lesser { EndsOnlySo roster order.greater_first 8 }
{}

/// A ReceivePulse takes no message.
pub fn pulses_alone()
    ensures lawful { IsLawfulRun roster pulses_alone.events }
    ensures pulse { EndsOnlySo roster pulses_alone.events 5 }
    ensures waits { EndsOnlySo roster pulses_alone.events 6 }
    ensures message { EndsOnlySo roster pulses_alone.events 7 }
    ensures blocked { blocked_after roster pulses_alone.events ≡ pulses_alone.still_waiting }
{}

/// A message skips a thread that is blocked in a ReceivePulse.
pub fn passed_over_by_message()
    ensures lawful { IsLawfulRun roster receivers.passed_over }
    ensures waits { EndsOnlySo roster receivers.passed_over 4 }
    ensures message { EndsOnlySo roster receivers.passed_over 5 }
    ensures pulse { EndsOnlySo roster receivers.passed_over 6 }
{}

/// An unblock pulse is sent once, and the client stays blocked until the reply.
pub fn unblock_pulse_once()
    ensures lawful { IsLawfulRun roster unblock_pulse.once }
    ensures first { EndsOnlySoWithMemory roster unblock_pulse.once 7 }
    ensures second { EndsOnlySo roster unblock_pulse.once 8 }
    ensures pulse { EndsOnlySo roster unblock_pulse.once 9 }
    ensures waits { EndsOnlySo roster unblock_pulse.once 10 }
    ensures third { EndsOnlySo roster unblock_pulse.once 11 }
    ensures answered { EndsOnlySo roster unblock_pulse.once 12 }
    ensures blocked { blocked_after roster unblock_pulse.once ≡ unblock_pulse.still_waiting }
{}

/// A blocked server takes an unblock pulse at once, and gets no second one.
pub fn unblock_pulse_taken_at_once()
    ensures lawful { IsLawfulRun roster unblock_pulse.taken_at_once }
    ensures first { EndsOnlySo roster unblock_pulse.taken_at_once 8 }
    ensures second { EndsOnlySo roster unblock_pulse.taken_at_once 10 }
{}
