//! Readers and writers whose failures are counted.
ghost use Rattle.std.specs.Prelude.{◌≡◌, OnOk};
ghost use Rattle.std.specs.Io.KnownBytes.{Keeps, Appends, Consumes};
ghost use Rattle.csi_stores.specs.Public.Counting.{is_error, is_write_fault, CountsCall, ReadsCounted};
ghost use Rattle.csi_stores.specs.Public.Writing.{TakesBytes};

use std::io;
use std::io::{Read, Write};

/// A reader or a writer, and a count of its calls that failed: that were answered with an error, or wrote no byte of some.
/// Each call is passed on once, with its whole buffer, and its answer is handed back as it is, the error too: that is tested,
/// since contracts of a `Read` or `Write` can't name what one call answers. The count ends at 2^64 - 1. This profile's own.
#[derive(Debug, Drop)]
pub struct Counted<T> {
    inner: T,
    faults: u64,
}

impl<T> Counted<T> {
    /// Nothing failed yet. It takes no memory.
    pub fn new(inner: T) -> Counted<T>
        ensures inner { result.inner ≡ inner }
        ensures faults { result.faults ≡ 0 }
    {
        Counted { inner, faults: 0 }
    }

    /// The reader or writer. It takes no memory.
    pub fn into_inner(self) -> T
        ensures { result ≡ self.inner }
    {
        let Counted { inner, faults: _ } = self;
        inner
    }

    /// How many calls failed, up to 2^64 - 1. It takes no memory.
    pub fn faults(&self) -> u64
        ensures { result ≡ self.now.faults }
    {
        self.faults
    }

    // Counts a call that failed.
    fn count(&mut self, fault: bool)
        ensures { CountsCall (self.new.inner ≡ self.old.inner) fault self.old.faults self.new.faults }
    {
        if fault && self.faults < u64::MAX {
            self.faults += 1;
        }
    }
}

impl<R: Read> Read for Counted<R> {
    ghost remaining = { λ counted. R.remaining counted.inner };

    fn read(&mut self, buf: &mut [u8]) -> io::Result<usize>
        ensures { ReadsCounted (R.remaining self.old.inner) (R.remaining self.new.inner) self.old.faults self.new.faults result buf.new }
    {
        let result = self.inner.read(buf);
        self.count(result.is_err());
        result
    }

    fn read_exact(&mut self, buf: &mut [u8]) -> io::Result<()>
        ensures { CountsCall (OnOk result (Consumes (R.remaining self.old.inner) (R.remaining self.new.inner) buf.new))
            (is_error result) self.old.faults self.new.faults }
    {
        let result = self.inner.read_exact(buf);
        self.count(result.is_err());
        result
    }
}

impl<W: Write> Write for Counted<W> {
    ghost contents = { λ counted. W.contents counted.inner };

    fn write(&mut self, buf: &[u8]) -> io::Result<usize>
        ensures { CountsCall (TakesBytes (W.contents self.old.inner) (W.contents self.new.inner) result buf.now)
            (is_write_fault buf.now result) self.old.faults self.new.faults }
    {
        let result = self.inner.write(buf);
        let fault = match &result {
            Ok(n) => *n == 0 && !buf.is_empty(),
            Err(_) => true,
        };
        self.count(fault);
        result
    }

    fn flush(&mut self) -> io::Result<()>
        ensures { CountsCall (Keeps (W.contents self.old.inner) (W.contents self.new.inner)) (is_error result) self.old.faults self.new.faults }
    {
        let result = self.inner.flush();
        self.count(result.is_err());
        result
    }

    fn write_all(&mut self, buf: &[u8]) -> io::Result<()>
        ensures { CountsCall (OnOk result (Appends (W.contents self.old.inner) (W.contents self.new.inner) buf.now))
            (is_error result) self.old.faults self.new.faults }
    {
        let result = self.inner.write_all(buf);
        self.count(result.is_err());
        result
    }
}
