//! How a frame is carried: written as bytes that are read again.
ghost use Rattle.std.specs.Prelude.{◌≡◌, OnOk};
ghost use Rattle.csi_frames.specs.Public.Decoding.{no_memory};
ghost use Rattle.csi_frames.specs.Public.Spelling.{Spells};

use csi_frames::{FrameFault, encode};
use csi_types::{Frame, NoMemory};

/// Out of memory: bytes that spell a frame have no other fault.
pub(crate) fn memory_of(_fault: &FrameFault) -> NoMemory
    requires { _fault.now ≡ no_memory }
{
    NoMemory
}

/// Writes the frame as bytes, in place of those that were there. An `Err` is an allocation that was refused.
pub(crate) fn write(frame: &Frame, bytes: &mut Vec<u8>) -> Result<(), NoMemory>
    ensures { OnOk result (Spells frame.now bytes.new.items) }
{
    bytes.clear();
    encode(frame, bytes)
}
