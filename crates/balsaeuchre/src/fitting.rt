//! The law that each call completes with a result of its own kind.

ghost use Rattle.balsaeuchre.specs.Fitting.{CompletionsFit, FittingIsExpected, NeverUnexpected};

/// In every valid history each call completes with a failure or a result of its kind, so
/// `CallError::Unexpected` is never read from a completion.
pub fn results_fit_calls()
    ensures fit { CompletionsFit }
    ensures expected { FittingIsExpected }
    ensures never { NeverUnexpected }
{}
