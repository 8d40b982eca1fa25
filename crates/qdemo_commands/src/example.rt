//! One example: a script, and the trace that it should print.

ghost use Rattle.std.specs.Prelude.{◌≡◌, IfOk};
ghost use Rattle.qscript.specs.Script.{Runs};

use qscript::fault::ScriptFault;
use qscript::script::script;
use qscript::watched::Watched;
use std::alloc::Global;

/// The outcome of an example.
#[derive(Drop)]
pub enum ExampleOutcome {
    /// The script printed its trace.
    Same,
    /// The script printed these bytes.
    Differs(Vec<u8>),
    /// The script has no run, because of this fault.
    Fault(ScriptFault),
}

/// Returns the output of a script: the text of a valid run of it.
pub fn printed(alloc: Global, input: &[u8]) -> Result<Vec<u8>, ScriptFault>
    ensures { IfOk result (λ text. Runs input.now text.items) }
{
    let mut reader = Watched::new(input);
    let mut writer = Watched::new(Vec::new(alloc));
    script(alloc, &mut reader, &mut writer)?;
    Ok(writer.into_inner())
}

/// Runs a script, and compares its output with its trace. If they are the same, the trace is the text of a
/// valid run of the script.
pub fn outcome_of(alloc: Global, input: &[u8], trace: &[u8]) -> ExampleOutcome
    ensures same { result ≡ ExampleOutcome.Same → Runs input.now trace.now }
{
    let printed = match printed(alloc, input) {
        Ok(printed) => printed,
        Err(fault) => return ExampleOutcome::Fault(fault),
    };
    if printed.as_slice() == trace {
        return ExampleOutcome::Same;
    }
    ExampleOutcome::Differs(printed)
}
