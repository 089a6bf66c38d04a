//! What was read of a store, or of bytes.
ghost use Rattle.std.specs.Prelude.{◌≡◌, ◌↔◌, IsTrue};
ghost use Rattle.csi_records.specs.Public.Spelling.{present};

use crate::version::{PRESENT, RecordVersion};

/// A record that was read, and the version in which it was stored. This profile's own.
#[derive(Drop)]
pub struct Stored<T> {
    pub kept: T,
    pub version: RecordVersion,
}

/// Whether this is the version in which records are written. It takes no memory. This profile's own.
pub fn is_present(version: RecordVersion) -> bool
    ensures { IsTrue result ↔ (version ≡ present) }
{
    version == PRESENT
}
