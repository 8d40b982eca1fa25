//! Replaces the names of a line by their numbers, and finds the faults of the names.

ghost use Rattle.std.specs.Prelude.{◌≡◌, ◌<◌, ◌^◌, length};
ghost use Rattle.qscript_text.specs.Reading.Forms.{no_values};
ghost use Rattle.qscript_text.specs.Reading.Steps.{Gives};
ghost use Rattle.qscript_names.specs.Names.{latest};
ghost use Rattle.qscript_names.specs.Resolution.{with_operand, values_in, call_of, call_content};
ghost use Rattle.qscript_names.specs.Resolution.{member_content, content_of, content_within};
ghost use Rattle.qscript_names.specs.NameFaults.{error_of, operand_fault, operands_fault, definition_fault};
ghost use Rattle.qscript_names.specs.NameFaults.{line_fault};

use crate::label::{NameError, NameFault};
use crate::line::{CallLine, Definition, NameMention, NamedLine, Operand, ThreadLine};
use crate::scope::{Scope, is_same_kind};
use qbase::bytes::Bytes;
use qbase::ids::{ProcessNo, ThreadNo};
use qmodel::call::Call;
use qmodel::kind::CallKind;
use qmodel::operands::OperandKind;
use qscript_text::fault::{LineFault, ParseError};
use qscript_text::reading::forms::Values;
use qscript_text::reading::line::{MOST_BYTES, ScriptLine};
use qscript_text::reading::number::small_number;
use qscript_text::reading::script::place;
use qtables::member::Member;
use std::alloc::Global;

/// Returns the values with an operand of this sort. A name is replaced by its number.
fn with_operand(
    alloc: Global,
    scope: &Scope,
    values: Values,
    sort: OperandKind,
    operand: &Operand,
) -> Result<Values, ParseError>
    ensures { Gives result (with_operand scope.now.labels sort operand.now values) }
{
    match operand {
        Operand::Name(mention) => Ok(values.with_number(sort, scope.number(&mention.name))?),
        Operand::Number(number) => Ok(values.with_number(sort, *number)?),
        Operand::Plain(written) => Ok(values.with(written.value.copied(alloc)?)),
        Operand::Text(bytes) => {
            Ok(values.with_bytes(sort, Bytes::copied(alloc, bytes.as_slice())?))
        }
        Operand::Zeros(count) => {
            Ok(values.with_bytes(sort, Bytes::filled(alloc, 0, *count as usize)?))
        }
    }
}

/// Returns the values of operands of these sorts.
fn values_in(
    alloc: Global,
    scope: &Scope,
    sorts: &[OperandKind],
    operands: &[Operand],
) -> Result<Values, ParseError>
    ensures { Gives result (values_in scope.now.labels sorts.now operands.now no_values) }
{
    let mut values = Values::none(alloc);
    let mut rest = operands;
    'sorts: for sort in sorts {
        let [operand, behind @ ..] = rest else {
            return Err(ParseError::Fault(LineFault::WordCount));
        };
        values = with_operand(alloc, scope, values, *sort, operand)?;
        rest = behind;
    }
    if !rest.is_empty() {
        return Err(ParseError::Fault(LineFault::WordCount));
    }
    Ok(values)
}

/// Returns the call of this kind with these operands.
pub fn call_of(
    alloc: Global,
    scope: &Scope,
    kind: CallKind,
    operands: &[Operand],
) -> Result<Call, ParseError>
    ensures { Gives result (call_of scope.now.labels kind operands.now) }
{
    let values = values_in(alloc, scope, kind.form().operands, operands)?;
    Ok(Call::of(kind, values.numbers, values.bytes, values.buffer))
}

/// Returns the content of the line of a call.
#[tactic(auto, unfolding(crate::specs::Resolution::call_content))]
fn call_content(alloc: Global, scope: &Scope, line: &CallLine) -> Result<ScriptLine, ParseError>
    ensures { Gives result (call_content scope.now.labels line.now) }
{
    let none = Values::none(alloc);
    let caller = with_operand(alloc, scope, none, OperandKind::Thread, &line.caller)?;
    let call = call_of(alloc, scope, line.kind, line.operands.as_slice())?;
    Ok(ScriptLine::Call(caller.numbers.thread, call))
}

/// Returns the content of the line of a thread.
#[tactic(auto, unfolding(crate::specs::Resolution::member_content))]
fn member_content(scope: &Scope, line: &ThreadLine) -> Result<ScriptLine, LineFault>
    requires threads { scope.now.threads < 2 ^ 63 }
    requires processes { length scope.now.processes < 2 ^ 63 }
    ensures { result ≡ member_content scope.now line.now }
{
    let thread = small_number(scope.thread(line))?;
    let process = small_number(scope.process(&line.process))?;
    Ok(ScriptLine::Roster(Member {
        thread: ThreadNo(thread),
        process: ProcessNo(process),
        priority: line.priority.value,
    }))
}

/// Returns the content of a line, as a line of a plain script has it. `is_late` says whether calls are above
/// it.
fn content_of(
    alloc: Global,
    is_late: bool,
    scope: &Scope,
    line: &NamedLine,
) -> Result<ScriptLine, ParseError>
    requires threads { scope.now.threads < 2 ^ 63 }
    requires processes { length scope.now.processes < 2 ^ 63 }
    ensures { Gives result (content_of is_late scope.now line.now) }
{
    match line {
        NamedLine::Aside(_) | NamedLine::State(_) => Ok(ScriptLine::Blank),
        NamedLine::Thread(_) if is_late => Err(ParseError::Fault(LineFault::LateThread)),
        NamedLine::Thread(thread) => Ok(member_content(scope, thread)?),
        NamedLine::Call(call) => call_content(alloc, scope, call),
    }
}

/// Returns the content of a line after this roster; `is_late` says whether calls are above it. Its plain line
/// has `len` bytes, at most 4,096.
#[tactic(auto, unfolding(crate::specs::Resolution::content_within))]
pub fn content_within(
    alloc: Global,
    roster: &[Member],
    is_late: bool,
    scope: &Scope,
    line: &NamedLine,
    len: usize,
) -> Result<ScriptLine, ParseError>
    requires threads { scope.now.threads < 2 ^ 63 }
    requires processes { length scope.now.processes < 2 ^ 63 }
    ensures { Gives result (content_within len scope.now line.now roster.now is_late) }
{
    if len > MOST_BYTES {
        return Err(ParseError::Fault(LineFault::LongLine));
    }
    let content = content_of(alloc, is_late, scope, line)?;
    let placed = place(roster, content)?;
    Ok(placed)
}

/// Returns the fault of a name where a line uses it.
fn error_in(scope: &Scope, mention: &NameMention) -> Option<NameError>
    ensures { result ≡ error_of mention.now.expected (latest mention.now.name scope.now.labels) }
{
    match scope.latest(&mention.name) {
        None => Some(NameError::Undefined),
        Some(label) if is_same_kind(label.kind, mention.expected) => None,
        Some(label) => Some(NameError::OtherKind(label.kind)),
    }
}

fn fault_of_operand(scope: &Scope, operand: &Operand) -> Option<NameFault>
    ensures { result ≡ operand_fault scope.now.labels operand.now }
{
    let Operand::Name(mention) = operand else {
        return None;
    };
    let error = error_in(scope, mention)?;
    Some(NameFault {
        place: mention.place,
        error,
    })
}

/// Returns the first fault of these operands.
fn fault_of_operands(scope: &Scope, operands: &[Operand]) -> Option<NameFault>
    ensures { result ≡ operands_fault scope.now.labels operands.now }
{
    'operands: for operand in operands {
        if let Some(fault) = fault_of_operand(scope, operand) {
            return Some(fault);
        }
    }
    None
}

/// Returns the fault of a line's definition.
fn fault_of_definition(scope: &Scope, definition: &Option<Definition>) -> Option<NameFault>
    ensures { result ≡ definition_fault scope.now.labels definition.now }
{
    let Some(definition) = definition else {
        return None;
    };
    match scope.latest(&definition.name) {
        None => None,
        Some(label) => Some(NameFault {
            place: definition.place,
            error: NameError::Twice(label.line),
        }),
    }
}

/// Returns the first fault of the names of a line.
pub fn fault_of_line(scope: &Scope, line: &NamedLine) -> Option<NameFault>
    ensures { result ≡ line_fault scope.now.labels line.now }
{
    match line {
        NamedLine::Aside(_) | NamedLine::State(_) => None,
        NamedLine::Thread(thread) => fault_of_definition(scope, &thread.definition),
        NamedLine::Call(call) => fault_of_call(scope, call),
    }
}

/// Returns the first fault of a call's line.
fn fault_of_call(scope: &Scope, call: &CallLine) -> Option<NameFault>
    ensures { result ≡ line_fault scope.now.labels (NamedLine.Call call.now) }
{
    if let Some(fault) = fault_of_definition(scope, &call.definition) {
        return Some(fault);
    }
    if let Some(fault) = fault_of_operand(scope, &call.caller) {
        return Some(fault);
    }
    fault_of_operands(scope, call.operands.as_slice())
}
