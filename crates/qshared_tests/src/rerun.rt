//! The calls of a report's history, made again by one thread.

use qkernel::call::Completion;
use qkernel::kernel::Kernel;
use qkernel::run::run;
use qkernel::trace::Trace;
use qtables::roster::Roster;
use std::alloc::Global;
use std::process::Abort;

/// Asserts that two completions are the same.
fn are_same(rt: &impl Abort, one: &Completion, other: &Completion) {
    assert!(rt; one.call == other.call && one.thread == other.thread);
    assert!(rt; one.mark == other.mark, "the call {}", one.call);
    assert!(rt;
        one.buffer.as_slice() == other.buffer.as_slice(),
        "the call {}",
        one.call
    );
}

/// Asserts that two lists have the same completions, in the same order.
fn have_same(rt: &impl Abort, ones: &[Completion], others: &[Completion]) {
    assert!(rt; ones.len() == others.len());
    for (one, other) in ones.iter().zip(others) {
        are_same(rt, one, other);
    }
}

/// Asserts that one thread that makes the calls of a history in their order gets the same completions, call
/// by call.
pub fn could_be_made_by_one(rt: &impl Abort, alloc: Global, roster: &Roster, trace: &Trace) {
    let mut calls = Vec::with_capacity(alloc, trace.len()).expect(rt, "room");
    for k in 0..trace.len() {
        let call = trace.call(k).copied(alloc).expect(rt, "a copy");
        assert!(rt; calls.push((trace.thread(k), call)).is_ok());
    }
    let mut kernel = Kernel::new(alloc, roster).expect(rt, "a kernel");
    let again = run(&mut kernel, calls).expect(rt, "a run");
    assert!(rt; again.len() == trace.len());
    for k in 0..trace.len() {
        have_same(rt, trace.completions(k), again.completions(k));
    }
}
