//! The texts that a demonstration prints.

use crate::fault::ServeFault;
use crate::timing::Timing;
use crate::work_counts::WorkCounts;
use qscript::watched::Watched;
use std::alloc::{AllocError, Global};
use std::io::Write;

/// The work of all workers, the number of events of the kernel's history, and the times, if they were taken.
#[derive(Clone, Copy, PartialEq, Eq)]
pub struct Totals {
    pub tally: WorkCounts,
    pub events: usize,
    pub timing: Option<Timing>,
}

/// Returns the five lines of results.
pub fn text_of(alloc: Global, totals: &Totals) -> Result<String, AllocError> {
    let WorkCounts {
        sent,
        answered,
        pulses,
        sum,
    } = totals.tally;
    let events = totals.events;
    format!(in alloc;
        "sent {sent}\nanswered {answered}\npulses {pulses}\nsum {sum}\nevents {events}\n"
    )
}

/// Writes all the bytes. A write of no bytes is an error, since repeating it would never end.
pub fn write_all<W: Write>(writer: &mut Watched<W>, bytes: &[u8]) -> Result<(), ServeFault> {
    let mut at = 0;
    'writing: while at < bytes.len() {
        let count = match writer.write(&bytes[at..]) {
            Ok(count) => count,
            Err(_) => return Err(ServeFault::Write),
        };
        if count == 0 {
            return Err(ServeFault::Write);
        }
        at += count;
    }
    Ok(())
}
