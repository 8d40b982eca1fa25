//! Unproved: words and layout. Prints the state of each thread.

use qkernel::kernel::Kernel;
use qkernel::open_call::Blocked;
use qmodel::call::Mark;
use qscript::printing::marks::push_mark;
use qscript_names::context::Context;
use qscript_text::states::state_among;
use qtables::member::Member;
use std::alloc::AllocError;

/// Returns a line for each of these threads of a kernel, in their order. Without names it is
/// `THREAD state STATE CHANNEL PRIORITY` or `THREAD state ready PRIORITY`, as the call `state` prints it.
/// After a shutdown the priority is `-`. With names it is `THREAD is STATE on CHANNEL  # priority PRIORITY`,
/// as a script with names has it.
pub fn states_of(
    names: Context<'_>,
    kernel: &Kernel,
    members: &[Member],
) -> Result<String, AllocError> {
    let blocked = kernel.blocked(names.alloc)?;
    let mut lines = String::new(names.alloc);
    for member in members {
        push_state(&mut lines, names, kernel, blocked.as_slice(), member)?;
    }
    Ok(lines)
}

/// Adds the line of a thread, if the kernel has it.
fn push_state(
    lines: &mut String,
    names: Context<'_>,
    kernel: &Kernel,
    blocked: &[Blocked],
    member: &Member,
) -> Result<(), AllocError> {
    let mut threads = kernel.threads().iter();
    let Some(thread) = threads.find(|thread| thread.member.thread == member.thread) else {
        return Ok(());
    };
    let (shown, priority) = (names.thread(member.thread), thread.priority);
    let state = state_among(blocked, member.thread);
    write!(lines, "{shown}")?;
    match (names.is_plain(), kernel.is_down()) {
        (true, true) => lines.push_str(" state ready -"),
        (true, false) => push_mark(lines, Mark::State { state, priority }),
        (false, true) => lines.push_str(" is ready"),
        (false, false) => {
            let (state, level) = (names.state(&state)?, priority.get());
            write!(lines, " is {state}  # priority {level}")
        }
    }?;
    lines.push('\n')
}
