//! Valid runs in which every buffer and every count is exactly as the copying requires.

ghost use Rattle.std.specs.Prelude.{[]};
ghost use Rattle.qrules.specs.Properties.{CopiedExactly};
ghost use Rattle.qrules.specs.Trace.{followed_by};
ghost use Rattle.qrules_worked.specs.AnsweredWithCode as code;
ghost use Rattle.qrules_worked.specs.HeldMessage as held;
ghost use Rattle.qrules_worked.specs.Overwritten as overwritten;
ghost use Rattle.qrules_worked.specs.PastTheEnd as past_the_end;
ghost use Rattle.qrules_worked.specs.UnblockPulse as unblock_pulse;

/// A receipt of a pulse leaves the buffer as it was. A receipt of a message, a Read, a Write and a reply copy
/// as many bytes as they count.
pub fn copied_exactly()
    ensures pulse { CopiedExactly (followed_by [] unblock_pulse.taken_at_once) }
    ensures held { CopiedExactly (followed_by [] held.events) }
    ensures overwritten { CopiedExactly (followed_by [] overwritten.events) }
    ensures past_the_end { CopiedExactly (followed_by [] past_the_end.events) }
    ensures code { CopiedExactly (followed_by [] code.events) }
{}
