//! Takes a lock, and spins for it before sleeping.

use crossbeam_utils::Backoff;
use std::sync::{Mutex, MutexGuard, Wait};

/// The number of times that a thread tries the lock before it sleeps. It pauses between two tries, each time
/// twice as long as before, up to 64 pause instructions. All tries take 20 to 300 microseconds, in which many
/// calls can be made under the lock.
///
/// The thread never yields its core: on a busy machine a process that computes would keep the core for
/// milliseconds.
const LOOKS: u32 = 80;

/// Takes the lock, and waits for it if another thread holds it. Spins before it sleeps if `looks` is true,
/// and otherwise sleeps at once.
#[inline(always)]
pub(crate) fn lock<'a, T: Drop, R: Wait>(
    mutex: &'a Mutex<T>,
    looks: bool,
    rt: &R,
) -> MutexGuard<'a, T> {
    let backoff = Backoff::new();
    let most = if looks { LOOKS } else { 0 };
    for _ in 0..most {
        if let Some(guard) = mutex.try_lock() {
            return guard;
        }
        backoff.spin();
    }
    mutex.lock(rt)
}
