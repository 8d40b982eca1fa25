//! Unproved: words and layout. Says in words why a call failed.

mod rules;

use crate::history::{CallHistory, PastCall};
use qbase::errno::{Errno, word};
use qbase::ids::ThreadNo;
use qkernel::kernel::Kernel;
use qmodel::call::{Completion, Mark};
use qmodel::kind::CallKind;
use qmodel::operands::OperandKind;
use qscript_names::context::Context;
use qscript_names::shown::ShownNames;
use rules::RefusedCall;
use std::alloc::AllocError;

/// Returns the failures among the completions of the latest call's event, in their order. Each is the number
/// of its call, and the words `NUMBER CALL OPERAND: fail ERROR: WHY`. The kernel must be as it is after this
/// history.
pub fn refusals(
    names: Context<'_>,
    kernel: &Kernel,
    history: &CallHistory,
    completions: &[Completion],
) -> Result<Vec<(u64, String)>, AllocError> {
    let mut refusals = Vec::new(names.alloc);
    for completion in completions {
        if let Mark::Failed(errno) = completion.mark
            && let Some(past) = history.call(completion.call)
        {
            let mut words = head_words(names, completion.call, &past, errno)?;
            let why = why_words(names, kernel, history, completion.call, errno)?;
            write!(words, ": {why}")?;
            refusals.push((completion.call, words))?;
        }
    }
    Ok(refusals)
}

/// Returns why the call with this number failed in the event of the latest call.
fn why_words(
    names: Context<'_>,
    kernel: &Kernel,
    history: &CallHistory,
    number: u64,
    errno: Errno,
) -> Result<String, AllocError> {
    let made = history.made();
    let Some(call) = history.call(made) else {
        return Ok(String::new(names.alloc));
    };
    if number != made {
        return cut_words(names, made, &call);
    }
    let refused = RefusedCall {
        names,
        kernel,
        blocked: kernel.blocked(names.alloc)?,
        history,
        call,
    };
    refused.rule(errno)
}

/// Returns how the first operand of a call of this kind is shown: as a thread, an id or flags.
pub fn operand_shown(names: Context<'_>, kind: CallKind, operand: u64) -> ShownNames<'_> {
    match (kind.form().operands.first(), u8::try_from(operand)) {
        (Some(OperandKind::Flags), _) => ShownNames::Number(operand),
        (Some(OperandKind::Thread), Ok(thread)) => names.thread(ThreadNo(thread)),
        _ => names.id(operand),
    }
}

/// Returns `NUMBER CALL OPERAND: fail ERROR`, or `THREAD CALL OPERAND: fail ERROR` with names.
fn head_words(
    names: Context<'_>,
    number: u64,
    past: &PastCall,
    errno: Errno,
) -> Result<String, AllocError> {
    let (name, error) = (past.kind.word(), word(errno));
    let first = if names.is_plain() {
        ShownNames::Number(number)
    } else {
        names.thread(past.thread)
    };
    if past.kind == CallKind::Shutdown {
        return format!(in names.alloc; "{first} {name}: fail {error}");
    }
    let operand = operand_shown(names, past.kind, past.operand);
    format!(in names.alloc; "{first} {name} {operand}: fail {error}")
}

/// Returns which call cancelled another, and how.
fn cut_words(names: Context<'_>, number: u64, past: &PastCall) -> Result<String, AllocError> {
    let call = names.call(number);
    let operand = operand_shown(names, past.kind, past.operand);
    let did = match past.kind {
        CallKind::ChannelDestroy => "destroyed channel",
        CallKind::ConnectDetach => "detached connection",
        CallKind::Unblock => "unblocked thread",
        _ => return format!(in names.alloc; "cancelled by {call}, which shut the kernel down"),
    };
    format!(in names.alloc; "cancelled by {call}, which {did} {operand}")
}
