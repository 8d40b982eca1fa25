//! Runs a script, from a reader to a writer.

ghost use Rattle.std.specs.Prelude.{◌≡◌, ℕ, ◌+◌, ◌≤◌, ◌^◌, [], length, IfOk, IfErr, OnOk, IsErrOf, false};
ghost use Rattle.std.specs.Prelude.{string_bytes};
ghost use Rattle.qkernel.specs.Run.{AllKnown};
ghost use Rattle.qkernel_state.specs.Contents.{members_of};
ghost use Rattle.qscript.specs.Running.{HasMade};
ghost use Rattle.qscript.specs.Enrolled.{roster_with, AllJoin};
ghost use Rattle.qscript.specs.Script.{CanRun, IsTextOfRun, IsRun, IsFaulty, IsCut};
ghost use Rattle.qscript.specs.Transfer.{FailsWithin, IsOverfull};
ghost use Rattle.qscript_text.specs.declared.fault.LineFault.{LineFault};

use crate::run::Run;
use crate::transfer::{read_all, write_all};
use crate::watched::Watched;
use qbase::ids::ThreadNo;
use qkernel::call::Call;
use qscript_text::fault::ScriptFault;
use qscript_text::reading::script::{Script, parse};
use qtables::member::Member;
use qtables::roster::Roster;
use std::alloc::{AllocError, Global};
use std::io::{Read, Write};

/// Returns the roster of these threads. A repeated thread is left out, and so are the threads after the 64th.
#[tactic(auto, using(crate::proofs::Joining::joins_at, crate::proofs::Joining::enrolled_next))]
pub fn roster_with_all(alloc: Global, members: &[Member]) -> Roster
    ensures { AllJoin [] members.now → result ≡ roster_with [] members.now }
{
    let mut roster = Roster::new(alloc);
    'joining: for member in members {
        let _ = roster.add(member.thread, member.process, member.priority);
    }
    roster
}

/// Makes the calls in order, and prints the completions of each call at once.
fn make_calls(run: &mut Run, calls: Vec<(ThreadNo, Call)>) -> Result<(), AllocError>
    requires known { AllKnown (members_of run.old.kernel.threads) calls.items }
    requires limit { run.old.kernel.made + length calls.items ≤ 2 ^ 40 }
    requires begun { HasMade run.old.kernel [] run.old }
    ensures { OnOk result (HasMade run.old.kernel calls.items run.new) }
{
    'calls: for (thread, call) in calls {
        if run.make(thread, call).is_err() {
            return Err(AllocError);
        }
    }
    Ok(())
}

/// Returns the text of the run of a script on a new kernel.
fn run_text(alloc: Global, script: Script) -> Result<String, ScriptFault>
    requires { CanRun script.roster.items script.calls.items }
    ensures ok { IfOk result
        (λ text. IsTextOfRun script.roster.items script.calls.items (string_bytes text)) }
    ensures err { IfErr result (λ e. e ≡ ScriptFault.NoMemory) }
{
    let roster = roster_with_all(alloc, script.roster.as_slice());
    let mut run = Run::new(alloc, &roster, script.calls.len())?;
    make_calls(&mut run, script.calls)?;
    let text = run.finish(alloc)?;
    Ok(text)
}

/// Reads a script to its end, makes its calls on a new kernel, and writes their completions and the threads
/// that are blocked at the end. Nothing is written before the whole text is complete. If the reader fails and
/// the text is too long, the error that occurred first is returned.
pub fn script<R: Read, W: Write>(
    alloc: Global,
    reader: &mut Watched<R>,
    writer: &mut Watched<W>,
) -> Result<(), ScriptFault>
    requires reader { reader.old.faulted ≡ false }
    requires writer { writer.old.faulted ≡ false }
    ensures ok { OnOk result (IsRun (R.remaining reader.old.inner) (R.remaining reader.new.inner)
        (W.contents writer.old.inner) (W.contents writer.new.inner)) }
    ensures read { IsErrOf result ScriptFault.Read →
        FailsWithin (R.remaining reader.old.inner) (R.remaining reader.new.inner)
        reader.new.faulted × (writer.new ≡ writer.old) }
    ensures too_long { IsErrOf result ScriptFault.TooLong →
        IsOverfull (R.remaining reader.old.inner) (R.remaining reader.new.inner)
        reader.new.faulted × (writer.new ≡ writer.old) }
    ensures line { (n : ℕ) (f : LineFault) → IsErrOf result (ScriptFault.Line n f) →
        IsFaulty (R.remaining reader.old.inner) (R.remaining reader.new.inner) n f
        × (writer.new ≡ writer.old) }
    ensures memory { IsErrOf result ScriptFault.NoMemory → writer.new ≡ writer.old }
    ensures write { IsErrOf result ScriptFault.Write →
        IsCut (R.remaining reader.old.inner) (R.remaining reader.new.inner)
        (W.contents writer.old.inner) (W.contents writer.new.inner) writer.new.faulted }
{
    let text = read_all(alloc, reader)?;
    let script = parse(alloc, text.as_slice())?;
    drop(text);
    let printed = run_text(alloc, script)?;
    write_all(writer, printed.as_bytes())
}
