//! Alarms: the times until which the calls of a process's threads may wait.

ghost use Rattle.std.specs.Prelude.{◌≡◌, ◌⊎◌, IfErr};
ghost use Rattle.balsaeuchre_calls.specs.declared.error.CallError.TheVariants as error;

use crate::error::CallError;
use qbase::ids::ThreadNo;
use std::alloc::Global;
use std::sync::{Condvar, Mutex, MutexGuard, Wait};
use std::time::{Clock, Duration, Instant};

/// The time at which the timekeeper ends a thread's call.
#[derive(Clone, Copy)]
pub(crate) struct Alarm {
    pub thread: ThreadNo,
    pub at: Instant,
    /// Whether the timekeeper has made its `unblock`, which cancels the call or sends its server a pulse.
    pub rang: bool,
}

/// The alarms that are set, and whether they are closed.
#[derive(Drop)]
pub(crate) struct AlarmList {
    pub alarms: Vec<Alarm>,
    pub closed: bool,
}

/// The alarms of a process: at most one for each of its threads, set while the thread makes a call with a
/// time limit. The process's timekeeper rings them.
#[derive(Drop)]
pub struct Alarms {
    list: Mutex<AlarmList>,
    changed: Condvar,
}

impl Alarms {
    /// Makes the alarms of a process; none is set.
    pub fn new(alloc: Global) -> Alarms {
        Alarms {
            list: Mutex::new(AlarmList {
                alarms: Vec::new(alloc),
                closed: false,
            }),
            changed: Condvar::new(),
        }
    }

    /// Closes the alarms: the timekeeper returns, and no alarm rings after that.
    pub fn close<R: Wait>(&self, rt: &R) {
        self.list.lock(rt).closed = true;
        self.changed.notify_all();
    }

    /// Sets the alarm of a thread to ring after this time. Fails with `NoClock` if the clock can't be read,
    /// or the time is later than the clock can count.
    pub(crate) fn set<R: Wait + Clock>(
        &self,
        rt: &R,
        thread: ThreadNo,
        time: Duration,
    ) -> Result<(), CallError>
        ensures { IfErr result (λ e. (e ≡ error.NoClock) ⊎ (e ≡ error.NoMemory)) }
    {
        let now = Instant::now(rt).or(Err(CallError::NoClock))?;
        let at = now.checked_add(time).ok_or(CallError::NoClock)?;
        let alarm = Alarm {
            thread,
            at,
            rang: false,
        };
        self.list.lock(rt).alarms.push(alarm)?;
        self.changed.notify_all();
        Ok(())
    }

    /// Clears the alarm of a thread. Returns whether it rang, or `false` if none is set.
    pub(crate) fn clear<R: Wait>(&self, rt: &R, thread: ThreadNo) -> bool {
        let mut list = self.list.lock(rt);
        let place = list.alarms.iter().position(|alarm| alarm.thread == thread);
        match place {
            Some(place) => list.alarms.swap_remove(place).rang,
            None => false,
        }
    }

    /// Locks the list: no other thread can read or change it until the guard is dropped.
    pub(crate) fn lock<'a, R: Wait>(&'a self, rt: &R) -> MutexGuard<'a, AlarmList> {
        self.list.lock(rt)
    }

    /// Waits until the list may have changed, at most for this time if one is given.
    pub(crate) fn wait<'a, R: Wait + Clock>(
        &self,
        rt: &R,
        list: MutexGuard<'a, AlarmList>,
        time: Option<Duration>,
    ) -> MutexGuard<'a, AlarmList> {
        match time {
            Some(time) => self.changed.wait_timeout(rt, list, time).0,
            None => self.changed.wait(rt, list),
        }
    }
}
