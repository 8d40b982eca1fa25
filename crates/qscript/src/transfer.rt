//! Reads a reader to its end, and writes all bytes to a writer.

ghost use Rattle.std.specs.Prelude.{◌≡◌, IfOk, IfErr, OnOk, false};
ghost use Rattle.std.specs.Io.KnownBytes.{Appends};
ghost use Rattle.qscript.specs.Transfer.{IsReading, IsReadFault, IsWriteFault};

use crate::watched::Watched;
use qscript_text::fault::ScriptFault;
use qscript_text::reading::script::MOST_TEXT;
use std::alloc::Global;
use std::io::{Read, Write};

/// The most bytes of one read.
const CHUNK: usize = 4096;

/// Reads to the end. Reading stops with an error once the reader fails, or once it has given more bytes than
/// a script may have.
pub fn read_all<R: Read>(alloc: Global, reader: &mut Watched<R>) -> Result<Vec<u8>, ScriptFault>
    requires { reader.old.faulted ≡ false }
    ensures ok { IfOk result
        (λ text. IsReading (R.remaining reader.old.inner) (R.remaining reader.new.inner) text.items) }
    ensures err { IfErr result
        (λ e. IsReadFault e (R.remaining reader.old.inner)
        (R.remaining reader.new.inner) reader.new.faulted) }
{
    let mut text = Vec::new(alloc);
    let mut chunk = [0u8; CHUNK];
    'reading: while text.len() <= MOST_TEXT {
        let count = match reader.read(&mut chunk) {
            Ok(count) => count,
            Err(_) => return Err(ScriptFault::Read),
        };
        if count == 0 {
            return Ok(text);
        }
        text.extend_from_slice(&chunk[..count])?;
    }
    Err(ScriptFault::TooLong)
}

/// Writes all the bytes. A write that takes none of them is an error, since it could be repeated without end.
pub fn write_all<W: Write>(writer: &mut Watched<W>, bytes: &[u8]) -> Result<(), ScriptFault>
    requires { writer.old.faulted ≡ false }
    ensures ok { OnOk result (Appends (W.contents writer.old.inner) (W.contents writer.new.inner) bytes.now) }
    ensures err { IfErr result
        (λ e. IsWriteFault e (W.contents writer.old.inner)
        (W.contents writer.new.inner) writer.new.faulted bytes.now) }
{
    let mut at = 0;
    'writing: while at < bytes.len() {
        let count = match writer.write(&bytes[at..]) {
            Ok(count) => count,
            Err(_) => return Err(ScriptFault::Write),
        };
        if count == 0 {
            return Err(ScriptFault::Write);
        }
        at += count;
    }
    Ok(())
}
