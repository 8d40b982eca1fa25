//! Records the kernel's calls as a script that can be run again.

ghost use Rattle.std.specs.Prelude.{◌≡◌, ◌<◌, ◌⊎◌, length, IfOk, IfErr, string_bytes};
ghost use Rattle.qscript_text.specs.TextLimit.{most_text};
ghost use Rattle.qscript.specs.Writing.Text.{script_text};
ghost use Rattle.qdemo_serve.specs.Recording.{Records};

use crate::fault::ServeFault;
use qkernel::trace::Trace;
use qscript::MOST_TEXT;
use qscript::printing::text_of;
use qscript::writing::script_of;
use qtables::member::Member;
use std::alloc::Global;

/// A run as a script, and the trace that the script prints.
#[derive(Drop)]
pub struct Recording {
    /// The script: the roster and the calls, in the order in which the kernel made them.
    pub script: String,
    /// The printed run: how each call completed.
    pub trace: String,
}

/// A place for recordings.
pub trait RecordStore {
    /// Stores a recording.
    fn store(&mut self, recording: &Recording) -> Result<(), ServeFault>;
}

/// A store that ignores recordings, for a run that isn't recorded.
#[derive(Drop)]
pub struct Forget;

impl RecordStore for Forget {
    fn store(&mut self, _recording: &Recording) -> Result<(), ServeFault> {
        Ok(())
    }
}

/// Returns the recording of a run of these threads, after which no thread is blocked.
pub fn recording_of(alloc: Global, roster: &[Member], run: &Trace) -> Result<Recording, ServeFault>
    requires { run.now.first ≡ 1 }
    ensures ok { IfOk result
        (λ r. Records roster.now run.now (string_bytes r.script) (string_bytes r.trace)) }
    ensures err { IfErr result
        (λ e. (e ≡ ServeFault.NoMemory)
        ⊎ ((e ≡ ServeFault.LongRecord) × (most_text < length (script_text roster.now run.now.events)))) }
{
    let script = script_of(alloc, roster, run)?;
    if script.len() > MOST_TEXT {
        return Err(ServeFault::LongRecord);
    }
    let _many = run.len();
    let trace = text_of(alloc, run, &[])?;
    Ok(Recording { script, trace })
}
