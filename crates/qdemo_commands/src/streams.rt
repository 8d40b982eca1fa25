//! Unproved: words and layout. A reader and a writer that remember the system's errors.

use std::alloc::Global;
use std::io;
use std::io::{Read, Write};

/// A reader that remembers the error of the last failed read. If `keeps` is set, it also keeps the bytes. If
/// memory for them runs out, it keeps nothing.
#[derive(Drop)]
pub struct KeptReader<R> {
    inner: R,
    error: Option<io::Error>,
    kept: Option<Vec<u8>>,
}

impl<R> KeptReader<R> {
    /// Returns a reader that wraps this reader, and keeps the bytes if `keeps` is set.
    pub fn new(alloc: Global, inner: R, keeps: bool) -> Self {
        KeptReader {
            inner,
            error: None,
            kept: if keeps { Some(Vec::new(alloc)) } else { None },
        }
    }

    /// Returns the error of the last failed read.
    pub fn error(&self) -> Option<io::Error> {
        self.error
    }

    /// Returns the bytes so far, if they are kept.
    pub fn text(&self) -> Option<&[u8]> {
        self.kept.as_ref().map(|kept| kept.as_slice())
    }

    /// Appends bytes to the kept bytes.
    fn keep(&mut self, bytes: &[u8]) {
        if let Some(kept) = &mut self.kept
            && kept.extend_from_slice(bytes).is_err()
        {
            self.kept = None;
        }
    }
}

impl<R: Read> Read for KeptReader<R> {
    fn read(&mut self, buf: &mut [u8]) -> io::Result<usize> {
        let result = self.inner.read(buf);
        match &result {
            Ok(count) => self.keep(&buf[..*count]),
            Err(error) => self.error = Some(*error),
        }
        result
    }
}

/// A writer that remembers whether a write failed because nobody reads the output.
#[derive(Drop)]
pub struct Outlet<W> {
    inner: W,
    closed: bool,
}

impl<W> Outlet<W> {
    /// Returns a writer that wraps this writer.
    pub fn new(inner: W) -> Self {
        Outlet {
            inner,
            closed: false,
        }
    }

    /// Returns whether a write failed because nobody reads the output.
    pub fn is_closed(&self) -> bool {
        self.closed
    }
}

impl<W: Write> Write for Outlet<W> {
    fn write(&mut self, buf: &[u8]) -> io::Result<usize> {
        let result = self.inner.write(buf);
        if let Err(error) = &result {
            self.closed = self.closed || error.kind() == io::ErrorKind::BrokenPipe;
        }
        result
    }

    fn flush(&mut self) -> io::Result<()> {
        self.inner.flush()
    }
}
