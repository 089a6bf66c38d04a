//! A writer that fails at one call.
ghost use Rattle.std.specs.Prelude.{◌≡◌, ◌≤◌, true, IfOk, IsErr};
ghost use Rattle.std.specs.Io.KnownBytes.{Keeps};
ghost use Rattle.csi_stores.specs.Public.Counting.{one_more};
ghost use Rattle.csi_stores.specs.Public.Writing.{TakesBytes};
ghost use Rattle.csi_stores.specs.Public.FailingCalls.{is_due, passing_after_call};

use crate::failing::counting::falls;
use std::io;
use std::io::{ErrorKind, Write};

/// A writer over another one, which is given so many bytes a call at most, none of some where that is 0, and isn't called in the
/// call that fails. What is written is what the other one has. This profile's own.
#[derive(Drop)]
pub struct FailingWriter<W> {
    inner: W,
    most: usize,
    write: Option<u64>,
    flush: Option<u64>,
    flushes: u64,
}

impl<W> FailingWriter<W> {
    /// Writes at most so many bytes a call, fails at one write after so many that pass, or at none, and at one flush likewise. It
    /// takes no memory.
    pub fn new(inner: W, most: usize, write: Option<u64>, flush: Option<u64>) -> FailingWriter<W>
        ensures { result ≡ record { inner = inner; most = most; write = write; flush = flush; flushes = 0 } }
    {
        FailingWriter {
            inner,
            most,
            write,
            flush,
            flushes: 0,
        }
    }

    /// How often it was flushed so far, up to 2^64 - 1. It takes no memory.
    pub fn flushes(&self) -> u64
        ensures { result ≡ self.now.flushes }
    {
        self.flushes
    }

    /// The writer under it. It takes no memory.
    pub fn into_inner(self) -> W
        ensures { result ≡ self.inner }
    {
        let FailingWriter {
            inner,
            most: _,
            write: _,
            flush: _,
            flushes: _,
        } = self;
        inner
    }
}

impl<W: Write> Write for FailingWriter<W> {
    ghost contents = { λ writer. W.contents writer.inner };

    fn write(&mut self, buf: &[u8]) -> io::Result<usize>
        ensures takes { TakesBytes (W.contents self.old.inner) (W.contents self.new.inner) result buf.now }
        ensures few { IfOk result (λ count. count ≤ self.old.most) }
        ensures fails { is_due self.old.write ≡ true → IsErr result × (self.new.inner ≡ self.old.inner) }
        ensures next { self.new ≡ record self.old { inner = self.new.inner; write = passing_after_call self.old.write } }
    {
        if falls(&mut self.write) {
            return Err(io::Error::from(ErrorKind::Other));
        }
        let most = self.most.min(buf.len());
        self.inner.write(&buf[..most])
    }

    fn flush(&mut self) -> io::Result<()>
        ensures bytes { Keeps (W.contents self.old.inner) (W.contents self.new.inner) }
        ensures fails { is_due self.old.flush ≡ true → IsErr result × (self.new.inner ≡ self.old.inner) }
        ensures next { self.new ≡ record self.old { inner = self.new.inner; flush = passing_after_call self.old.flush; flushes = one_more self.old.flushes } }
    {
        self.flushes = self.flushes.saturating_add(1);
        if falls(&mut self.flush) {
            return Err(io::Error::from(ErrorKind::Other));
        }
        self.inner.flush()
    }
}
