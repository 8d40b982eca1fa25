//! The calls of many threads to a kernel, made in one thread: for a simulator or a test.
//!
//! A `Simulator` is made from a roster, and `Simulator::thread` returns one of its threads, which makes calls
//! like a `Caller`. A send or a receive that blocks returns `Outcome::Blocked`. `Simulator::take` returns the
//! completion of a blocked call once there is one.

pub use balsaeuchre_calls::completed::Completed;
pub use balsaeuchre_calls::simulator::thread::SimulatorThread;
pub use balsaeuchre_calls::simulator::{Outcome, Simulator};
