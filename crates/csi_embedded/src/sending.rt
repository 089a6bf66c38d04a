//! The frame that an orchestrator's caller has to send.
ghost use Rattle.std.specs.Prelude.{◌≡◌, ◌≤◌, ◌+◌, [], Some, length, take, vec_len, vec_capacity};
ghost use Rattle.csi_frames.specs.Public.Spelling.{Spells};
ghost use Rattle.csi_embedded.specs.Public.Asking.{GivesFrame, EndsRefused};

use crate::copying::copy;
use crate::ending::CallEnding;
use crate::limits::frame_law;
use csi_frames::encode;
use csi_orchestrator::OrchFault;
use csi_types::Frame;

// The bytes of the frame, for which there is room.
fn spelled(sent: &Frame, bytes: Vec<u8>) -> Vec<u8>
    requires empty { bytes.items ≡ [] }
    requires spare { vec_len bytes + 1284 ≤ vec_capacity bytes }
    ensures spells { Spells sent.now result.items }
    ensures few { length result.items ≤ 1284 }
{
    let mut bytes = bytes;
    frame_law(sent);
    encode(sent, &mut bytes).unwrap();
    bytes
}

/// Copies the bytes of the frame, for which there is room, and says how many there are. It takes no memory.
pub(crate) fn give(sent: &Frame, bytes: Vec<u8>, frame: &mut [u8], written: &mut usize)
    requires empty { bytes.items ≡ [] }
    requires spare { vec_len bytes + 1284 ≤ vec_capacity bytes }
    requires room { 1284 ≤ length frame.old }
    ensures { GivesFrame (Some sent.now) written.new (take written.new frame.new) }
{
    let bytes = spelled(sent, bytes);
    copy(&bytes, frame, written).unwrap();
}

/// How a call ends that the orchestrator refused, and the refusal's number. It takes no memory.
pub(crate) fn refuse(why: OrchFault, fault: &mut u32) -> CallEnding
    ensures { EndsRefused why fault.new result }
{
    match why {
        OrchFault::NoMemory => CallEnding::NoMemory,
        why => {
            *fault = why.number() as u32;
            CallEnding::Refused
        }
    }
}
