//! Laws of a shared kernel. The functions do nothing: their contracts are the laws.

ghost use Rattle.qshared.specs.HistoryLaws.{InRealTime, IsBeginning, TakenIsDue};

/// A thread's cell gets the completions of its calls that come in other threads' events. At any time, the
/// completions that the thread took out are a prefix of the completions that the history had for the cell
/// when the lock was last free. At most one is missing.
pub fn taken_is_due()
    ensures { TakenIsDue }
{}

/// A port may have seen an event, or learned of it from another port. Then each history that it meets under
/// the lock has this event, with the same number. So the event comes before the port's next call.
pub fn in_real_time()
    ensures { InRealTime }
{}

/// A prefix of the history that was seen is the first events of the trace that is returned at the end.
pub fn is_beginning()
    ensures { IsBeginning }
{}
