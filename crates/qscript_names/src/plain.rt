//! Writes the plain lines of a script with names.

ghost use Rattle.std.specs.Prelude.{◌≡◌, ◌<◌, ◌^◌, ◌++◌, length, OnOk, string_bytes};
ghost use Rattle.qscript_names.specs.Plain.{bytes_word, zeros_word, word_of, words_of, line_text};

use crate::line::{CallLine, NamedLine, Operand, ThreadLine};
use crate::scope::Scope;
use std::alloc::{AllocError, Global};

/// Adds the word for these bytes.
fn push_bytes(alloc: Global, out: &mut String, bytes: &[u8]) -> Result<(), AllocError>
    ensures { OnOk result (string_bytes out.new ≡ string_bytes out.old ++ bytes_word bytes.now) }
{
    if bytes.is_empty() {
        return out.push_str("-");
    }
    out.push_str(hex::encode(alloc, bytes)?.as_str())
}

/// Adds the word for `count` bytes of zero.
fn push_zeros(out: &mut String, count: u64) -> Result<(), AllocError>
    ensures { OnOk result (string_bytes out.new ≡ string_bytes out.old ++ zeros_word count) }
{
    if count == 0 {
        return out.push_str("-");
    }
    write!(out, "{count}x00")
}

/// Adds the word of an operand.
fn push_operand(
    alloc: Global,
    out: &mut String,
    scope: &Scope,
    operand: &Operand,
) -> Result<(), AllocError>
    ensures { OnOk result (string_bytes out.new ≡ string_bytes out.old
        ++ word_of scope.now.labels operand.now) }
{
    match operand {
        Operand::Name(mention) => {
            let number = scope.number(&mention.name);
            write!(out, "{number}")
        }
        Operand::Number(number) => {
            let number = *number;
            write!(out, "{number}")
        }
        Operand::Plain(written) => out.push_str(written.word.as_str()),
        Operand::Text(bytes) => push_bytes(alloc, out, bytes.as_slice()),
        Operand::Zeros(count) => push_zeros(out, *count),
    }
}

/// Adds the words of these operands, each after a space.
pub fn push_operands(
    alloc: Global,
    out: &mut String,
    scope: &Scope,
    operands: &[Operand],
) -> Result<(), AllocError>
    ensures { OnOk result (string_bytes out.new ≡ string_bytes out.old
        ++ words_of scope.now.labels operands.now) }
{
    'operands: for operand in operands {
        out.push_str(" ")?;
        push_operand(alloc, out, scope, operand)?;
    }
    Ok(())
}

/// Adds the plain line of a call.
fn push_call(
    alloc: Global,
    out: &mut String,
    scope: &Scope,
    call: &CallLine,
) -> Result<(), AllocError>
    ensures { OnOk result (string_bytes out.new ≡ string_bytes out.old ++ line_text scope.now
        (NamedLine.Call call.now)) }
{
    push_operand(alloc, out, scope, &call.caller)?;
    out.push_str(" ")?;
    out.push_str(call.kind.word())?;
    push_operands(alloc, out, scope, call.operands.as_slice())
}

/// Adds the plain line of a thread.
fn push_thread(out: &mut String, scope: &Scope, line: &ThreadLine) -> Result<(), AllocError>
    requires threads { scope.now.threads < 2 ^ 63 }
    requires processes { length scope.now.processes < 2 ^ 63 }
    ensures { OnOk result (string_bytes out.new ≡ string_bytes out.old ++ line_text scope.now
        (NamedLine.Thread line.now)) }
{
    let thread = scope.thread(line);
    let process = scope.process(&line.process);
    let priority = line.priority.word.as_str();
    write!(out, "thread {thread} {process} {priority}")
}

/// Adds the plain line of a line. The state of a thread becomes a comment.
pub fn push_line(
    alloc: Global,
    out: &mut String,
    scope: &Scope,
    line: &NamedLine,
) -> Result<(), AllocError>
    requires threads { scope.now.threads < 2 ^ 63 }
    requires processes { length scope.now.processes < 2 ^ 63 }
    ensures { OnOk result (string_bytes out.new ≡ string_bytes out.old ++ line_text scope.now line.now) }
{
    match line {
        NamedLine::Aside(text) => out.push_str(text.as_str()),
        NamedLine::State(text) => {
            out.push_str("# ")?;
            out.push_str(text.as_str())
        }
        NamedLine::Thread(thread) => push_thread(out, scope, thread),
        NamedLine::Call(call) => push_call(alloc, out, scope, call),
    }
}
