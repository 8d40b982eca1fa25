//! Shows the progress of a run on one line, which is rewritten twice a second.

use std::alloc::{AllocError, Global};
use std::rt::Clock;
use std::sync::atomic::{AtomicU64, Ordering};
use std::sync::{Condvar, Mutex, Wait};
use std::time::{Duration, Instant};

/// The time between two lines, in milliseconds.
const PERIOD: u64 = 500;

/// The progress of the clients, which raise it. The main thread reads it.
#[derive(Drop)]
pub struct Progress {
    rounds: AtomicU64,
    ended: Mutex<u64>,
    changed: Condvar,
}

impl Progress {
    /// Returns the progress before the first round.
    pub fn new() -> Progress {
        Progress {
            rounds: AtomicU64::new(0),
            ended: Mutex::new(0),
            changed: Condvar::new(),
        }
    }

    /// Counts one more round.
    pub fn round(&self) {
        self.rounds.fetch_add(1, Ordering::SeqCst);
    }

    /// Counts one more client that has ended, and wakes the main thread.
    pub fn end<R: Wait>(&self, rt: &R) {
        let mut ended = self.ended.lock(rt);
        *ended = ended.saturating_add(1);
        drop(ended);
        self.changed.notify_one();
    }

    /// Returns the number of finished rounds.
    pub fn rounds(&self) -> u64 {
        self.rounds.load(Ordering::SeqCst)
    }

    /// Waits until a client ends, at most for this time, and returns whether `clients` clients have ended.
    pub fn wait<R: Wait + Clock>(&self, rt: &R, clients: u64, most: Duration) -> bool {
        let ended = self.ended.lock(rt);
        if *ended >= clients {
            return true;
        }
        let (ended, _) = self.changed.wait_timeout(rt, ended, most);
        *ended >= clients
    }
}

/// Shows the progress of a run of `rounds` rounds on standard error, until `clients` clients have ended.
/// Ignores failed writes, and removes the line at the end.
pub fn show<R: Wait + Clock + Eprint>(
    rt: &R,
    alloc: Global,
    progress: &Progress,
    clients: u64,
    rounds: u64,
) {
    let Ok(start) = Instant::now(rt) else {
        return;
    };
    let period = Duration::from_millis(PERIOD);
    let mut next = period;
    for _ in rt.forever() {
        let Ok(taken) = start.elapsed(rt) else {
            break;
        };
        if taken >= next {
            next = next.saturating_add(period);
            if let Ok(line) = line_of(alloc, progress.rounds(), rounds, taken) {
                let _ = eprint!(rt; "\r{line}");
            }
        }
        if progress.wait(rt, clients, next.saturating_sub(taken)) {
            break;
        }
    }
    if next > period {
        let _ = eprint!(rt; "\r{:60}\r", "");
    }
}

/// Returns the line for a run in which `done` of `rounds` rounds are finished.
pub fn line_of(
    alloc: Global,
    done: u64,
    rounds: u64,
    taken: Duration,
) -> Result<String, AllocError> {
    let thousandths = taken.as_millis().max(1);
    let rate = u128::from(done) * 1_000 / thousandths;
    format!(in alloc; "{done:>5} of {rounds} rounds, {rate:>7} a second")
}
