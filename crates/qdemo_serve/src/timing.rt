//! The times of a demonstration and of its round trips.

use crate::fault::WorkerFault;
use crate::timed::nanoseconds_of;
use std::alloc::{AllocError, Global};
use std::rt::Clock;
use std::time::Instant;

/// The times of a demonstration, in nanoseconds.
#[derive(Clone, Copy, PartialEq, Eq)]
pub struct Timing {
    /// From before the first worker is started until all have ended.
    pub run: u64,
    /// The number of timed round trips.
    pub trips: u64,
    /// The shortest round trip.
    pub least: u64,
    /// The median: at least half of the round trips took at most this time.
    pub median: u64,
    /// The 99th percentile: at least 99 % of the round trips took at most this time.
    pub ninety_ninth: u64,
}

impl Timing {
    /// Returns the times of a run that took `run` nanoseconds, with round trips of these nanoseconds.
    pub fn of(run: u64, mut trips: Vec<u64>) -> Timing {
        let trips = trips.as_mut_slice();
        trips.sort_unstable();
        Timing {
            run,
            trips: trips.len() as u64,
            least: share(trips, 0),
            median: share(trips, 50),
            ninety_ninth: share(trips, 99),
        }
    }

    /// Returns the number of round trips per second.
    pub fn rate(&self) -> u64 {
        let run = u128::from(self.run.max(1));
        let rate = u128::from(self.trips) * 1_000_000_000 / run;
        u64::try_from(rate).unwrap_or(u64::MAX)
    }
}

/// Returns the time that this share of the round trips, in %, took at most, or 0 if there is none. The times
/// must rise.
fn share(trips: &[u64], hundredths: usize) -> u64 {
    let many = trips.len().saturating_mul(hundredths).div_ceil(100);
    trips.get(many.saturating_sub(1)).copied().unwrap_or(0)
}

/// Returns the time now, if the run is timed.
pub fn start_of<C: Clock>(clock: &C, time: bool) -> Result<Option<Instant>, WorkerFault> {
    if !time {
        return Ok(None);
    }
    let start = Instant::now(clock).map_err(|_| WorkerFault::Unexpected)?;
    Ok(Some(start))
}

/// Returns the times of a run that has just ended, if it is timed.
pub fn timing_of<C: Clock>(
    clock: &C,
    start: Option<Instant>,
    trips: Vec<u64>,
) -> Result<Option<Timing>, WorkerFault> {
    let Some(start) = start else {
        return Ok(None);
    };
    let taken = start.elapsed(clock).map_err(|_| WorkerFault::Unexpected)?;
    Ok(Some(Timing::of(nanoseconds_of(taken), trips)))
}

/// Returns the five lines of `--time`, with their units.
pub fn timing_text_of(alloc: Global, timing: &Timing) -> Result<String, AllocError> {
    let (seconds, rest) = (timing.run / 1_000_000_000, timing.run % 1_000_000_000);
    let micros = rest / 1_000;
    let rate = timing.rate();
    let Timing {
        least,
        median,
        ninety_ninth,
        ..
    } = *timing;
    let mut text = format!(in alloc;
        "seconds {seconds}.{micros:06}\nrate {rate} round trips a second\n"
    )?;
    write!(
        text,
        "least {least} ns\nmedian {median} ns\nninety-ninth {ninety_ninth} ns\n"
    )?;
    Ok(text)
}
