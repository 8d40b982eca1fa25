//! Laws of the completions of one event.

ghost use Rattle.qrules_laws.specs.Completions.{BlockedUnlessEnded, CallerGetsItsOwn, CompletionsAreApart};
ghost use Rattle.qrules_laws.specs.Completions.{CompletionsGoToBlocked, CompletionsKeepLength};
ghost use Rattle.qrules_laws.specs.Completions.{CompletionsNameOwnCalls, CompletionsRiseByThread};
ghost use Rattle.qrules_laws.specs.Completions.{EndsOrWaits, NothingFromDestroyed, OnlyRefusedWhenDown};
ghost use Rattle.qrules_laws.specs.Completions.{ReceivedWasSent, RefusedChangesNothing};

/// Each completion goes to the thread that made the completed call.
#[tactic(auto, using(qrules::proofs::Traces::TraceLaws::Completion::completions_name_own_calls))]
pub fn completions_name_own_calls()
    ensures { CompletionsNameOwnCalls }
{}

/// The completions of one event are in rising thread number.
#[tactic(auto, using(crate::proofs::CompletionLaws::completions_rise_by_thread))]
pub fn completions_rise_by_thread()
    ensures { CompletionsRiseByThread }
{}

/// The completions of one event go to different threads of the roster: to the caller, or to threads that were
/// blocked.
#[tactic(auto, using(qrules::proofs::Traces::TraceLaws::Blocked::completions_are_apart, crate::proofs::CompletionLaws::completions_go_to_blocked))]
pub fn completions_go_to_blocked()
    ensures apart { CompletionsAreApart }
    ensures blocked { CompletionsGoToBlocked }
{}

/// After an event of a thread that wasn't blocked, a thread is blocked exactly if it was blocked before or
/// made the call, and got no completion in the event.
#[tactic(auto, using(qrules::proofs::Traces::TraceLaws::Blocked::blocked_unless_ended))]
pub fn blocked_unless_ended()
    ensures { BlockedUnlessEnded }
{}

/// Either a call completes in its own event, or its thread is blocked in it afterwards. The caller gets a
/// completion exactly if its call completes in its own event.
#[tactic(auto, using(qrules::proofs::Traces::TraceLaws::Blocked::caller_gets_its_own, crate::proofs::CompletionLaws::ends_or_waits))]
pub fn ends_or_waits()
    ensures waits { EndsOrWaits }
    ensures gets { CallerGetsItsOwn }
{}

/// The buffer of each completion is as long as the buffer that its thread passed in.
#[tactic(auto, using(crate::proofs::CompletionLaws::completions_keep_length))]
pub fn completions_keep_length()
    ensures { CompletionsKeepLength }
{}

/// A received item was made in the same event or earlier, for the channel on which it is received. If it was
/// sent over a connection, the connection leads to that channel.
#[tactic(auto, using(crate::proofs::CompletionLaws::received_was_sent))]
pub fn received_was_sent()
    ensures { ReceivedWasSent }
{}

/// Nothing is received from a channel once it is destroyed, in the event that destroys it or later.
#[tactic(auto, using(crate::proofs::CompletionLaws::nothing_from_destroyed))]
pub fn nothing_from_destroyed()
    ensures { NothingFromDestroyed }
{}

/// A call that fails changes only the number of calls.
#[tactic(auto, using(crate::proofs::CompletionLaws::refused_changes_nothing))]
pub fn refused_changes_nothing()
    ensures { RefusedChangesNothing }
{}

/// After an accepted Shutdown every call fails with `Down`, gets its buffer back, and completes no other
/// call.
pub fn only_refused_when_down()
    ensures { OnlyRefusedWhenDown }
{}
