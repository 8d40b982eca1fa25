//! The wake-up of a port's thread.

use crossbeam_utils::CachePadded;
use crossbeam_utils::sync::Unparker;
use std::sync::atomic::{AtomicBool, Ordering};

/// Wakes the thread of one port if it sleeps. Otherwise this costs only a load of a flag.
#[derive(Drop)]
pub(crate) struct Waker {
    unparker: Unparker,
    // Whether the thread sleeps or is about to sleep. It looks for its completion once more before it sleeps.
    asleep: CachePadded<AtomicBool>,
}

impl Waker {
    pub(crate) fn new(unparker: Unparker) -> Waker {
        Waker {
            unparker,
            asleep: CachePadded::new(AtomicBool::new(false)),
        }
    }

    /// Sets whether the thread sleeps or is about to sleep. It is set before the thread's last look at its
    /// cell. So a thread that puts a completion after that look finds it set.
    pub(crate) fn set_asleep(&self, asleep: bool) {
        self.asleep.store(asleep, Ordering::SeqCst);
    }

    /// Wakes the thread if it sleeps or is about to sleep. It is called after the thread's completion was
    /// put.
    pub(crate) fn wake(&self) {
        if self.asleep.load(Ordering::SeqCst) {
            self.unparker.unpark();
        }
    }
}
