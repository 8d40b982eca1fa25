//! Runs that break one of the properties of valid histories. Each contract says that the property doesn't
//! hold for them.

ghost use Rattle.std.specs.Prelude.{[]};
ghost use Rattle.qrules.specs.Properties.{AnsweredToSender, BestFirst, CopiedExactly, ReceivedOnce};
ghost use Rattle.qrules.specs.Properties.{SentOrder, ShutForGood};
ghost use Rattle.qrules.specs.Lawful.{IsLawful, HadMemory};
ghost use Rattle.qrules_worked.specs.Broken.Answered as answered;
ghost use Rattle.qrules_worked.specs.Broken.Copied as copied;
ghost use Rattle.qrules_worked.specs.Broken.Held.{held, run_of, sent};
ghost use Rattle.qrules_worked.specs.Broken.Received as received;
ghost use Rattle.qrules_worked.specs.Broken.Shut as shut;
ghost use Rattle.qrules_worked.specs.Broken.Taken as taken;
ghost use Rattle.qrules_worked.specs.FirstRun as first;
ghost use Rattle.qrules_worked.specs.Runs.{refused_at, with_completions};
ghost use Rattle.qrules_worked.specs.ThreeProcesses.{roster};

/// These runs break the property that no item is received twice or too early, and no call completes twice.
pub fn received_once()
    ensures message_twice { ReceivedOnce roster received.message_twice → ⊥ }
    ensures pulse_twice { ReceivedOnce roster received.pulse_twice → ⊥ }
    ensures early { ReceivedOnce roster received.early → ⊥ }
    ensures ended_twice { ReceivedOnce roster received.ended_twice → ⊥ }
{}

/// These runs break the property that a message gets one reply, by a call that names it and may reply to it,
/// and that its sender gets this reply.
pub fn answered_to_sender()
    ensures to_another_thread { AnsweredToSender roster answered.to_another_thread → ⊥ }
    ensures by_another_process { AnsweredToSender roster answered.by_another_process → ⊥ }
    ensures by_nothing { AnsweredToSender roster answered.by_nothing → ⊥ }
    ensures by_no_code { AnsweredToSender roster answered.by_no_code → ⊥ }
    ensures twice { AnsweredToSender roster answered.twice → ⊥ }
    ensures though_refused { AnsweredToSender roster answered.though_refused → ⊥ }
    ensures unreceived { AnsweredToSender roster answered.unreceived → ⊥ }
    ensures another_too { AnsweredToSender roster answered.another_too → ⊥ }
    ensures by_a_receive { AnsweredToSender roster answered.by_a_receive → ⊥ }
    ensures code_to_another_thread { AnsweredToSender roster answered.code_to_another_thread → ⊥ }
    ensures code_by_another_process { AnsweredToSender roster answered.code_by_another_process → ⊥ }
    ensures after_the_end { AnsweredToSender roster answered.after_the_end → ⊥ }
{}

/// These runs break the property that every byte and every count is exactly as the copying requires.
pub fn copied_exactly()
    ensures message_byte { CopiedExactly copied.message_byte → ⊥ }
    ensures message_rest { CopiedExactly copied.message_rest → ⊥ }
    ensures message_count { CopiedExactly copied.message_count → ⊥ }
    ensures pulse_buffer { CopiedExactly copied.pulse_buffer → ⊥ }
    ensures reply_byte { CopiedExactly copied.reply_byte → ⊥ }
    ensures reply_count { CopiedExactly copied.reply_count → ⊥ }
    ensures reply_status { CopiedExactly copied.reply_status → ⊥ }
    ensures write_lost { CopiedExactly copied.write_lost → ⊥ }
    ensures write_count { CopiedExactly copied.write_count → ⊥ }
    ensures read_byte { CopiedExactly copied.read_byte → ⊥ }
    ensures read_count { CopiedExactly copied.read_count → ⊥ }
    ensures code_buffer { CopiedExactly copied.code_buffer → ⊥ }
    ensures failed_buffer { CopiedExactly copied.failed_buffer → ⊥ }
    ensures buffer_from_nothing { CopiedExactly copied.buffer_from_nothing → ⊥ }
    ensures channel_buffer { CopiedExactly copied.channel_buffer → ⊥ }
    ensures connection_buffer { CopiedExactly copied.connection_buffer → ⊥ }
    ensures info_buffer { CopiedExactly copied.info_buffer → ⊥ }
    ensures state_buffer { CopiedExactly copied.state_buffer → ⊥ }
    ensures write_buffer { CopiedExactly copied.write_buffer → ⊥ }
    ensures counted_nothing { CopiedExactly copied.counted_nothing → ⊥ }
{}

/// These runs break the property that no receipt takes an item of lesser priority, a later item of equal
/// priority, or an item that it may not take.
pub fn best_first()
    ensures lesser { BestFirst roster taken.lesser → ⊥ }
    ensures later { BestFirst roster taken.later → ⊥ }
    ensures by_a_pulse_receive { BestFirst roster taken.by_a_pulse_receive → ⊥ }
    ensures on_another_channel { BestFirst roster taken.on_another_channel → ⊥ }
    ensures raised_passed_over { BestFirst roster taken.raised_passed_over → ⊥ }
{}

/// These runs break the property that the later of two items of equal priority over one connection isn't
/// received first.
pub fn sent_order()
    ensures overtaken { SentOrder roster taken.overtaken → ⊥ }
    ensures overtaken_by_a_pulse { SentOrder roster taken.overtaken_by_a_pulse → ⊥ }
    ensures overtaken_when_raised { SentOrder roster taken.overtaken_when_raised → ⊥ }
    ensures overtaken_when_lowered { SentOrder roster taken.overtaken_when_lowered → ⊥ }
{}

/// These runs break the property that nothing is received from a destroyed channel, and no thread stays
/// blocked on it.
pub fn shut_for_good()
    ensures received { ShutForGood roster shut.received → ⊥ }
    ensures send_left { ShutForGood roster shut.send_left → ⊥ }
    ensures held_left { ShutForGood roster shut.held_left → ⊥ }
    ensures receiver_left { ShutForGood roster shut.receiver_left → ⊥ }
    ensures detached_left { ShutForGood roster shut.detached_left → ⊥ }
{}

/// A run in which a call failed with `NoMemory` doesn't meet `HadMemory`; the first run does.
pub fn had_memory()
    ensures had { HadMemory first.events }
    ensures had_none { HadMemory (with_completions 3 (refused_at 3 first.events) first.events) → ⊥ }
{}

/// The first events of the broken runs are valid.
pub fn lawful_so_far()
    ensures attached { IsLawful roster (run_of []) }
    ensures sent { IsLawful roster (sent []) }
    ensures held { IsLawful roster (held []) }
{}

/// Each of these runs breaks one property, and meets the five others.
pub fn one_property_broken()
    ensures ended_twice_answered { AnsweredToSender roster received.ended_twice }
    ensures ended_twice_copied { CopiedExactly received.ended_twice }
    ensures ended_twice_best { BestFirst roster received.ended_twice }
    ensures ended_twice_order { SentOrder roster received.ended_twice }
    ensures ended_twice_shut { ShutForGood roster received.ended_twice }
    ensures answered_received { ReceivedOnce roster answered.to_another_thread }
    ensures answered_copied { CopiedExactly answered.to_another_thread }
    ensures answered_best { BestFirst roster answered.to_another_thread }
    ensures answered_order { SentOrder roster answered.to_another_thread }
    ensures answered_shut { ShutForGood roster answered.to_another_thread }
    ensures copied_received { ReceivedOnce roster copied.message_byte }
    ensures copied_answered { AnsweredToSender roster copied.message_byte }
    ensures copied_best { BestFirst roster copied.message_byte }
    ensures copied_order { SentOrder roster copied.message_byte }
    ensures copied_shut { ShutForGood roster copied.message_byte }
    ensures best_received { ReceivedOnce roster taken.lesser }
    ensures best_answered { AnsweredToSender roster taken.lesser }
    ensures best_copied { CopiedExactly taken.lesser }
    ensures best_order { SentOrder roster taken.lesser }
    ensures best_shut { ShutForGood roster taken.lesser }
    ensures shut_received { ReceivedOnce roster shut.send_left }
    ensures shut_answered { AnsweredToSender roster shut.send_left }
    ensures shut_copied { CopiedExactly shut.send_left }
    ensures shut_best { BestFirst roster shut.send_left }
    ensures shut_order { SentOrder roster shut.send_left }
{}
