//! Wraps readers and writers, and remembers whether one failed.

ghost use Rattle.std.specs.Prelude.{◌≡◌, ◌||◌, is_err, false};
ghost use Rattle.std.specs.Io.{ReadsAtMost, WritesAtMost};
ghost use Rattle.std.specs.Io.KnownBytes.{ReadConsumes, WriteAppends, Keeps};
ghost use Rattle.qscript.specs.Watched.{fails_to_write};

use std::io;
use std::io::{Read, Write};

/// A reader or a writer that remembers whether one of its reads or writes failed. A write that takes none of
/// some bytes counts as failed. Each read, write and flush is passed on unchanged. A flush that fails returns
/// its error, but isn't remembered.
#[derive(Drop)]
pub struct Watched<T> {
    inner: T,
    faulted: bool,
}

impl<T> Watched<T> {
    /// Wraps a reader or a writer that hasn't failed.
    pub fn new(inner: T) -> Self
        ensures inner { result.inner ≡ inner }
        ensures faulted { result.faulted ≡ false }
    {
        Watched {
            inner,
            faulted: false,
        }
    }

    /// Returns whether one of its reads or writes has failed so far. A later success doesn't clear this.
    pub fn faulted(&self) -> bool
        ensures { result ≡ self.now.faulted }
    {
        self.faulted
    }

    /// Returns the inner reader or writer.
    pub fn into_inner(self) -> T
        ensures { result ≡ self.inner }
    {
        self.inner
    }
}

impl<R: Read> Read for Watched<R> {
    ghost remaining = { λ w. R.remaining w.inner };

    fn read(&mut self, buf: &mut [u8]) -> io::Result<usize>
        ensures bound { ReadsAtMost result buf.new }
        ensures bytes { ReadConsumes (R.remaining self.old.inner)
            (R.remaining self.new.inner) result buf.new }
        ensures faulted { self.new.faulted ≡ (self.old.faulted || is_err result) }
    {
        let result = self.inner.read(buf);
        if result.is_err() {
            self.faulted = true;
        }
        result
    }
}

impl<W: Write> Write for Watched<W> {
    ghost contents = { λ w. W.contents w.inner };

    fn write(&mut self, buf: &[u8]) -> io::Result<usize>
        ensures bound { WritesAtMost result buf.now }
        ensures bytes { WriteAppends (W.contents self.old.inner)
            (W.contents self.new.inner) result buf.now }
        ensures faulted { self.new.faulted ≡ (self.old.faulted || fails_to_write result buf.now) }
    {
        let result = self.inner.write(buf);
        match &result {
            Ok(0) if buf.is_empty() => {}
            Ok(0) => self.faulted = true,
            Ok(_) => {}
            Err(_) => self.faulted = true,
        }
        result
    }

    fn flush(&mut self) -> io::Result<()>
        ensures bytes { Keeps (W.contents self.old.inner) (W.contents self.new.inner) }
        ensures faulted { self.new.faulted ≡ self.old.faulted }
    {
        self.inner.flush()
    }
}
