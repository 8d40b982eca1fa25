//! An endpoint that times how long a client waits, and counts its rounds.

use crate::fault::WorkerFault;
use crate::progress::Progress;
use crate::work_counts::WorkCounts;
use balsaeuchre_calls::endpoint::Endpoint;
use balsaeuchre_calls::error::CallError;
use qbase::bytes::Bytes;
use qbase::ids::ThreadNo;
use qmodel::call::{Call, Completion};
use qshared::called::{Called, CalledPair};
use std::alloc::Global;
use std::rt::Clock;
use std::sync::Wait;
use std::time::{Duration, Instant};

/// The data of a call that a stopwatch keeps.
#[derive(Clone, Copy, Debug, Default, PartialEq, Eq, Drop)]
struct LatestCall {
    /// Whether the call is a Send.
    sends: bool,
    /// The time just before it, if it is timed and its completion isn't collected yet.
    start: Option<Instant>,
}

/// The times of a thread's round trips, by a clock, and their count. A round trip begins when a Send is
/// called, and ends when its completion is collected.
#[derive(Drop)]
pub struct Stopwatch<'c, C> {
    clock: &'c C,
    /// Whether round trips are timed.
    on: bool,
    progress: &'c Progress,
    /// The latest call that was made.
    latest: LatestCall,
    /// The nanoseconds of each round trip.
    trips: Vec<u64>,
    /// An error if there was no memory for a round trip, or the clock couldn't be read.
    all: Result<WorkCounts, WorkerFault>,
}

impl<'c, C: Clock> Stopwatch<'c, C> {
    /// Returns a stopwatch without times. It takes times only if it is `on`, and counts rounds in any case.
    pub fn new(clock: &'c C, alloc: Global, on: bool, progress: &'c Progress) -> Stopwatch<'c, C> {
        Stopwatch {
            clock,
            on,
            progress,
            latest: LatestCall::default(),
            trips: Vec::new(alloc),
            all: Ok(WorkCounts::default()),
        }
    }

    /// Returns the data of the next call. If it is a timed Send, its time begins here.
    fn begin(&mut self, call: &Call) -> LatestCall {
        let sends = matches!(call, Call::Send { .. });
        if !self.on || !sends {
            return LatestCall { sends, start: None };
        }
        match Instant::now(self.clock) {
            Ok(start) => LatestCall {
                sends,
                start: Some(start),
            },
            Err(_) => {
                self.all = Err(WorkerFault::Unexpected);
                LatestCall { sends, start: None }
            }
        }
    }

    /// Notes the outcome of a call. A refused call isn't made, so the call before it stays the latest.
    fn note_outcome(&mut self, made: LatestCall, called: &Called) {
        match called {
            Called::Refused(_, _) => {}
            Called::Blocked => self.latest = made,
            Called::Done(_) => {
                self.latest = made;
                self.note_completion();
            }
        }
    }

    /// Notes that a completion was collected.
    fn note_completion(&mut self) {
        if let Some(start) = self.latest.start.take() {
            match start.elapsed(self.clock) {
                Ok(taken) => {
                    if self.trips.push(nanoseconds_of(taken)).is_err() {
                        self.all = Err(WorkerFault::Call(CallError::NoMemory));
                    }
                }
                Err(_) => self.all = Err(WorkerFault::Unexpected),
            }
        }
        if self.latest.sends {
            self.progress.round();
        }
    }

    /// Returns an error if a round trip wasn't timed.
    pub fn all(&self) -> Result<WorkCounts, WorkerFault> {
        self.all
    }

    /// Returns the nanoseconds of each round trip.
    pub fn into_trips(self) -> Vec<u64> {
        let Stopwatch { trips, .. } = self;
        trips
    }
}

/// Returns the nanoseconds of a duration, at most 2^64 - 1.
pub fn nanoseconds_of(duration: Duration) -> u64 {
    u64::try_from(duration.as_nanos()).unwrap_or(u64::MAX)
}

/// An endpoint that forwards calls, times each Send, and counts a round for each Send whose completion was
/// collected. If a call is made before the completion of the one before it is collected, only the later one
/// is timed.
#[derive(Drop)]
pub struct Timed<'c, E, C> {
    pub inner: E,
    pub stopwatch: Stopwatch<'c, C>,
}

impl<'c, E: Endpoint, C: Clock> Endpoint for Timed<'c, E, C> {
    ghost history = { λ t. E.history t.inner };

    ghost seen = { λ t. E.seen t.inner };

    ghost came = { λ t. E.came t.inner };

    ghost came_both = { λ t. E.came_both t.inner };

    ghost waited = { λ t. E.waited t.inner };

    ghost awaited = { λ t. E.awaited t.inner };

    fn thread(&self) -> ThreadNo {
        self.inner.thread()
    }

    fn call<R: Wait>(&mut self, rt: &R, call: Call) -> Called {
        let made = self.stopwatch.begin(&call);
        let called = self.inner.call(rt, call);
        self.stopwatch.note_outcome(made, &called);
        called
    }

    fn call_both<R: Wait>(&mut self, rt: &R, first: Call, second: Call) -> CalledPair {
        let sends = matches!(first, Call::Send { .. });
        let made = self.stopwatch.begin(&second);
        let both = self.inner.call_both(rt, first, second);
        match &both {
            CalledPair::Both(_, called) => self.stopwatch.note_outcome(made, called),
            CalledPair::First(called, _) => self
                .stopwatch
                .note_outcome(LatestCall { sends, start: None }, called),
        }
        both
    }

    fn spare(&mut self) -> Option<Bytes> {
        self.inner.spare()
    }

    fn poll(&mut self) -> Option<Completion> {
        let completion = self.inner.poll()?;
        self.stopwatch.note_completion();
        Some(completion)
    }

    fn wait<R: Wait>(&mut self, rt: &R) -> Completion {
        let completion = self.inner.wait(rt);
        self.stopwatch.note_completion();
        completion
    }
}
