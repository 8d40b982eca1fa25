//! Tests for which the machine code of the proved build matters: cells between threads, wake-ups, and a
//! kernel of 64 threads that makes every call. All other tests are in `tests/unproved`.
#![tactic(auto)]

#[cfg(test)]
mod by_many;
#[cfg(test)]
mod cells;
#[cfg(test)]
mod client;
#[cfg(test)]
mod making;
#[cfg(test)]
mod rerun;
#[cfg(test)]
mod server;
#[cfg(test)]
mod waking;
