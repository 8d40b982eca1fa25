//! The laws of a thread's knowledge about its completed calls.

ghost use Rattle.balsaeuchre.specs.Completing.{AwaitedAreSeen, CompletionsAreSeen, CompletionsInRealTime};

use qshared::log::Log;

/// If a call of a port's caller completed, the prefix of the history that the caller has then seen has the
/// event that completed it. The completion belongs to this call. This holds whether the call waited or not,
/// and also if a completion is polled.
pub fn completions_are_seen<L: Log>()
    ensures called { CompletionsAreSeen L.refuses L.admits }
    ensures polled { AwaitedAreSeen }
{}

/// A thread may have seen that a call completed, or learned it from another thread. Then each history that
/// its port meets under the lock has the event that completed the call, with the same number. So this event
/// comes before the port's next call.
pub fn completions_in_real_time()
    ensures { CompletionsInRealTime }
{}
