//! A reader that fails at one call.
ghost use Rattle.std.specs.Prelude.{◌≡◌, ◌≤◌, true, max, IfOk, IfErr, IsErr};
ghost use Rattle.std.specs.Io.{ReadsAtMost};
ghost use Rattle.std.specs.Io.KnownBytes.{ReadConsumes};
ghost use Rattle.std.specs.IoError.{error_kind};
ghost use Rattle.csi_stores.specs.Public.Counting.{one_more};
ghost use Rattle.csi_stores.specs.Public.FailingCalls.{is_due, passing_after_call};

use crate::failing::counting::falls;
use std::io;
use std::io::{ErrorKind, Read};

/// A reader over another one, which is asked for so many bytes a call at most, and for one at least, and isn't asked in the call
/// that fails. What is left to be read is what the other one has left. This profile's own.
#[derive(Drop)]
pub struct FailingReader<R> {
    inner: R,
    most: usize,
    passing: Option<u64>,
    calls: u64,
}

impl<R> FailingReader<R> {
    /// Reads at most so many bytes a call, and fails at one call after so many that pass, or at none. It takes no memory.
    pub fn new(inner: R, most: usize, passing: Option<u64>) -> FailingReader<R>
        ensures { result ≡ record { inner = inner; most = most; passing = passing; calls = 0 } }
    {
        FailingReader {
            inner,
            most,
            passing,
            calls: 0,
        }
    }

    /// How often it was asked so far, up to 2^64 - 1. It takes no memory.
    pub fn calls(&self) -> u64
        ensures { result ≡ self.now.calls }
    {
        self.calls
    }

    /// The reader under it. It takes no memory.
    pub fn into_inner(self) -> R
        ensures { result ≡ self.inner }
    {
        let FailingReader {
            inner,
            most: _,
            passing: _,
            calls: _,
        } = self;
        inner
    }
}

impl<R: Read> Read for FailingReader<R> {
    ghost remaining = { λ reader. R.remaining reader.inner };

    fn read(&mut self, buf: &mut [u8]) -> io::Result<usize>
        ensures bound { ReadsAtMost result buf.new }
        ensures bytes { ReadConsumes (R.remaining self.old.inner) (R.remaining self.new.inner) result buf.new }
        ensures few { IfOk result (λ count. count ≤ max 1 self.old.most) }
        ensures fails { is_due self.old.passing ≡ true → IsErr result × (self.new.inner ≡ self.old.inner) }
        ensures next { self.new ≡ record self.old { inner = self.new.inner; passing = passing_after_call self.old.passing; calls = one_more self.old.calls } }
    {
        self.calls = self.calls.saturating_add(1);
        if falls(&mut self.passing) {
            return Err(io::Error::from(ErrorKind::Other));
        }
        let most = self.most.max(1).min(buf.len());
        self.inner.read(&mut buf[..most])
    }
}
