//! The callers of the examples that run three threads.

use balsaeuchre::calls::{CallError, Caller, PortCaller, Result};
use balsaeuchre::shared::{Log, Port, Shared, Tie};
use std::alloc::Global;
use std::sync::Wait;

/// Three callers, by rising thread number.
pub type Three<'a, 'p, K, L, R> = (
    PortCaller<'a, 'p, K, L, R>,
    PortCaller<'a, 'p, K, L, R>,
    PortCaller<'a, 'p, K, L, R>,
);

/// Makes the callers of a kernel of three threads. The error is `Unexpected` if there are fewer ports.
pub fn three_callers<'a, 'p, K: Tie, L: Log, R: Wait>(
    mut ports: Vec<Port<K>>,
    shared: &'p Shared<K, L>,
    rt: &'a R,
    alloc: Global,
) -> Result<Three<'a, 'p, K, L, R>> {
    let third = ports.pop().ok_or(CallError::Unexpected)?;
    let second = ports.pop().ok_or(CallError::Unexpected)?;
    let first = ports.pop().ok_or(CallError::Unexpected)?;
    Ok((
        Caller::of(first, shared, rt, alloc),
        Caller::of(second, shared, rt, alloc),
        Caller::of(third, shared, rt, alloc),
    ))
}
