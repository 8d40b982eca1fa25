//! Prints the line of a thread that is blocked at the end of the run.

ghost use Rattle.std.specs.Prelude.{◌≡◌, [], ◌∷◌, ◌++◌, OnOk, decimal, string_bytes};
ghost use Rattle.qscript.specs.Printing.Words.{words_with_spaces};
ghost use Rattle.qscript.specs.Printing.OpenLine.{open_text};
ghost use Rattle.qscript_text.specs.ResultParts.{state_words};

use qbase::state::ThreadState;
use qkernel::open_call::Blocked;
use std::alloc::AllocError;

/// Adds a space and `NAME NUMBER`.
fn number(out: &mut String, name: &str, number: u64) -> Result<(), AllocError>
    ensures { OnOk result (string_bytes out.new ≡ string_bytes out.old ++ words_with_spaces
        (name.now ∷ decimal number ∷ [])) }
{
    write!(out, " {name} {number}")
}

/// Adds the word of the state and its channel, each after a space.
fn push_state(out: &mut String, state: ThreadState) -> Result<(), AllocError>
    ensures { OnOk result (string_bytes out.new ≡ string_bytes out.old ++ words_with_spaces
        (state_words state)) }
{
    match state {
        ThreadState::Ready => write!(out, " ready"),
        ThreadState::SendBlocked(chid) => number(out, "send", chid.0),
        ThreadState::ReceiveBlocked(chid) => number(out, "receive", chid.0),
        ThreadState::ReplyBlocked(chid) => number(out, "reply", chid.0),
    }
}

/// Adds `open NUMBER THREAD STATE CHANNEL` and a newline.
pub fn push_open(out: &mut String, blocked: Blocked) -> Result<(), AllocError>
    ensures { OnOk result (string_bytes out.new ≡ string_bytes out.old ++ open_text blocked) }
{
    let number = blocked.number;
    let thread = blocked.thread.0;
    write!(out, "open {number} {thread}")?;
    push_state(out, blocked.state)?;
    write!(out, "\n")
}
