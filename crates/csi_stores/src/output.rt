//! Bytes, written.
ghost use Rattle.std.specs.Prelude.{◌≡◌, ◌≤◌, OnOk, OnErr};
ghost use Rattle.std.specs.Io.KnownBytes.{Appends};
ghost use Rattle.csi_stores.specs.Public.Counting.{HasRisen};
ghost use Rattle.csi_stores.specs.Public.Writing.{WritesFront};

use crate::counted::Counted;
use std::io::Write;
use thiserror::Error;

/// The writer answered an error, or took no byte.
#[derive(Clone, Copy, Debug, PartialEq, Eq, Error)]
#[error("the output can't be written")]
pub struct WriteFailed;

/// Writes all bytes, in as many calls as the writer wants, and flushes. It fails exactly where the writer does, which is counted; then
/// some front of the bytes was written, or all. This profile's own.
pub fn write_out<W: Write>(writer: &mut Counted<W>, bytes: &[u8]) -> Result<(), WriteFailed>
    ensures ok { OnOk result (Appends (W.contents writer.old.inner) (W.contents writer.new.inner) bytes.now) }
    ensures err { OnErr result (WritesFront (W.contents writer.old.inner) (W.contents writer.new.inner) bytes.now) }
    ensures risen { OnErr result (HasRisen writer.old.faults writer.new.faults) }
    ensures faults { writer.old.faults ≤ writer.new.faults }
    ensures quiet { OnOk result (writer.new.faults ≡ writer.old.faults) }
{
    let mut rest = bytes;
    while !rest.is_empty() {
        match writer.write(rest) {
            Ok(0) => return Err(WriteFailed),
            Ok(n) => rest = rest.split_at(n).1,
            Err(_) => return Err(WriteFailed),
        }
    }
    match writer.flush() {
        Ok(()) => Ok(()),
        Err(_) => Err(WriteFailed),
    }
}
