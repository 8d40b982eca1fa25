//! The timekeeper of a process: a thread that ends calls whose time is over.

use crate::alarms::{Alarm, Alarms};
use crate::caller::Caller;
use crate::calls::Calls;
use crate::endpoint::Endpoint;
use crate::error::CallError;
use qbase::errno::Errno;
use qbase::state::ThreadState;
use std::sync::Wait;
use std::time::{Clock, Duration, Instant};

/// The timekeeper tries again after this time, in milliseconds, if a call whose time is over isn't blocked
/// yet, or if no pulse can be sent to its server.
const RETRY_MILLIS: u64 = 1;

impl<'a, E: Endpoint, R: Wait + Clock> Caller<'a, E, R> {
    /// Makes an `unblock` for each call of the process whose time is over, until the alarms are closed or the
    /// kernel is shut down. It needs a thread of its own, while the process's other threads make calls with a
    /// time limit.
    pub fn keep_time(&mut self, alarms: &Alarms) -> Result<(), CallError> {
        let rt = self.rt;
        let mut list = alarms.lock(rt);
        for _ in rt.forever() {
            if list.closed {
                return Ok(());
            }
            let mut next = None;
            for alarm in &mut list.alarms {
                match self.ring(alarm) {
                    Ok(left) => next = sooner(next, left),
                    Err(CallError::Refused(Errno::Down)) => return Ok(()),
                    Err(error) => return Err(error),
                }
            }
            list = alarms.wait(rt, list, next);
        }
        unreachable!()
    }

    /// Rings an alarm if its time has come. Returns how long to wait before the next look at it, or `None` if
    /// it has rung.
    fn ring(&mut self, alarm: &mut Alarm) -> Result<Option<Duration>, CallError> {
        if alarm.rang {
            return Ok(None);
        }
        let now = Instant::now(self.rt).or(Err(CallError::NoClock))?;
        let left = alarm.at.saturating_duration_since(now);
        if !left.is_zero() {
            return Ok(Some(left));
        }
        let again = Ok(Some(Duration::from_millis(RETRY_MILLIS)));
        if self.state(alarm.thread)?.state == ThreadState::Ready {
            return again;
        }
        match self.unblock(alarm.thread) {
            Ok(()) => {
                alarm.rang = true;
                Ok(None)
            }
            Err(CallError::Refused(Errno::Again) | CallError::NoMemory) => again,
            Err(error) => Err(error),
        }
    }
}

/// Returns the shorter of two times. A missing one counts as longer.
fn sooner(one: Option<Duration>, other: Option<Duration>) -> Option<Duration> {
    match (one, other) {
        (Some(one), Some(other)) => Some(one.min(other)),
        (one, None) => one,
        (None, other) => other,
    }
}
