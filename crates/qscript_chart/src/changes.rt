//! The threads whose priority a call changed.

ghost use Rattle.std.specs.Prelude.{◌≡◌, map, IfOk};
ghost use Rattle.std.specs.List.{filter_map};
ghost use Rattle.qscript_chart.specs.Changes.{change_since, level_of, priority_in};

use qbase::ids::ThreadNo;
use qbase::priority::Priority;
use qkernel::kernel::Kernel;
use std::alloc::{AllocError, Global};

/// A thread and its priority.
#[derive(Clone, Copy, PartialEq, Eq)]
pub struct Level {
    pub thread: ThreadNo,
    pub priority: Priority,
}

/// Returns the priorities of a kernel's threads, by rising thread number.
pub fn levels_of(alloc: Global, kernel: &Kernel) -> Result<Vec<Level>, AllocError>
    ensures { IfOk result (λ levels. levels.items ≡ map level_of kernel.now.threads) }
{
    let mut levels = Vec::new(alloc);
    for thread in kernel.threads() {
        levels.push(Level {
            thread: thread.member.thread,
            priority: thread.priority,
        })?;
    }
    Ok(levels)
}

/// Returns the priority of a thread, or 0 if the thread isn't in the list.
fn priority_in(levels: &[Level], thread: ThreadNo) -> u8
    ensures { result ≡ priority_in levels.now thread }
{
    match levels.iter().find(|level| level.thread == thread) {
        Some(level) => level.priority.get(),
        None => 0,
    }
}

/// Returns the priority of a thread, if it differs from the thread's priority before.
fn change_since(before: &[Level], level: Level) -> Option<Level>
    ensures { result ≡ change_since before.now level }
{
    if priority_in(before, level.thread) == level.priority.get() {
        None
    } else {
        Some(level)
    }
}

/// Returns the priorities that differ from the threads' priorities before.
pub fn changes_since(
    alloc: Global,
    before: &[Level],
    after: &[Level],
) -> Result<Vec<Level>, AllocError>
    ensures { IfOk result (λ changes. changes.items ≡ filter_map (change_since before.now) after.now) }
{
    after
        .iter()
        .filter_map(|level| change_since(before, *level))
        .collect(alloc)
}
