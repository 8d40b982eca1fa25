//! Prints the lines of an event: one for each of its completions.

ghost use Rattle.std.specs.Prelude.{◌≡◌, ◌++◌, ◌∷◌, [], if◌then◌else◌, OnOk, string_bytes};
ghost use Rattle.std.specs.List.{flat_map};
ghost use Rattle.qscript.specs.Printing.Words.{words_with_spaces};
ghost use Rattle.qscript.specs.Printing.Printed.{shows_buffer, ended_text};
ghost use Rattle.qscript.specs.Printing.Buffer.{buffer_word};
ghost use Rattle.qscript.specs.Printing.Printer.{shows_at};

use crate::printing::buffer::push_buffer;
use crate::printing::marks::push_mark;
use qkernel::call::{Call, Completion};
use std::alloc::AllocError;

/// Returns whether the call's buffer is printed when the call completes: for Send, Receive and Read.
pub fn shows(call: &Call) -> bool
    ensures { result ≡ shows_buffer call.now }
{
    matches!(
        call,
        Call::Send { .. } | Call::Receive { .. } | Call::Read { .. }
    )
}

/// Returns whether the buffer of the call with this number is printed. `shown` has an entry for each call
/// from number `first` on; the buffer of any other call isn't printed.
fn is_shown(first: u64, shown: &[bool], number: u64) -> bool
    ensures { result ≡ shows_at first shown.now number }
{
    if number < first {
        return false;
    }
    match shown.get((number - first) as usize) {
        Some(shows) => *shows,
        None => false,
    }
}

fn push_ended_buffer(
    out: &mut String,
    completion: &Completion,
    shows: bool,
) -> Result<(), AllocError>
    ensures { OnOk result (string_bytes out.new ≡ string_bytes out.old ++ words_with_spaces
        (if shows then buffer_word completion.now.buffer ∷ [] else [])) }
{
    if shows {
        return push_buffer(out, completion.buffer.as_slice());
    }
    Ok(())
}

/// Adds `EVENT CALL THREAD RESULT`, the call's buffer if it is printed, and a newline.
fn push_completion(
    out: &mut String,
    event: u64,
    completion: &Completion,
    shows: bool,
) -> Result<(), AllocError>
    ensures { OnOk result (string_bytes out.new ≡ string_bytes out.old
        ++ ended_text event completion.now shows) }
{
    let call = completion.call;
    let thread = completion.thread.0;
    write!(out, "{event} {call} {thread}")?;
    push_mark(out, completion.mark)?;
    push_ended_buffer(out, completion, shows)?;
    write!(out, "\n")
}

/// Adds the lines of the event with this number. `shown` has an entry for each call from number `first` on:
/// whether its buffer is printed.
pub fn push_completions(
    out: &mut String,
    first: u64,
    shown: &[bool],
    event: u64,
    completions: &[Completion],
) -> Result<(), AllocError>
    ensures { OnOk result (string_bytes out.new ≡ string_bytes out.old ++ flat_map
        (λ e. ended_text event e (shows_at first shown.now e.call)) completions.now) }
{
    'completions: for completion in completions {
        let shows = is_shown(first, shown, completion.call);
        push_completion(out, event, completion, shows)?;
    }
    Ok(())
}
