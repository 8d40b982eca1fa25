//! The calls of a thread to a shared kernel, under QNX Neutrino's names.
//!
//! A thread makes a `Caller` from its `Port` and the shared kernel. Each method of the caller waits until its
//! call completes, and returns the result or a `CallError`. The trait `Calls` has the calls that never block.

pub use balsaeuchre_calls::Result;
pub use balsaeuchre_calls::alarms::Alarms;
pub use balsaeuchre_calls::caller::Caller;
pub use balsaeuchre_calls::calls::Calls;
pub use balsaeuchre_calls::endpoint::{Endpoint, KernelPort, LastOutcome};
pub use balsaeuchre_calls::error::CallError;
pub use balsaeuchre_calls::opening::{PortCaller, callers, close, two_callers};
pub use balsaeuchre_calls::results::{Pulse, Received, Reply, Request, ThreadStatus};
