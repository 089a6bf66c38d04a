//! A stream that is there whole.
ghost use Rattle.std.specs.Prelude.{◌≡◌, ℕ, List, []};
ghost use Rattle.csi_types.specs.Model.Frame.{Frame};
ghost use Rattle.csi_frames.specs.Public.Stream.{FramesOf};
ghost use Rattle.csi_streams.specs.Private.Handling.{HandlesWhole, slice_fault};

use crate::answers::SliceFault;
use crate::frames::{Frames, FramesFault};
use crate::giving::Appending;
use crate::handler::Handler;
use csi_types::NoMemory;
use std::alloc::Global;

// Why the frames of a slice weren't handled to their end.
fn fault_of(fault: FramesFault<NoMemory>) -> SliceFault
    ensures { result ≡ slice_fault fault }
{
    match fault {
        FramesFault::Frame(kind, place) => SliceFault::Frame(kind, place),
        FramesFault::NoMemory => SliceFault::NoMemory,
        FramesFault::Handler(NoMemory) => SliceFault::NoMemory,
    }
}

/// Handles the frames of `input`, and gives their count.
pub(crate) fn handle_slice<H: Handler>(
    alloc: Global,
    handler: H,
    input: &[u8],
    out: &mut Vec<u8>,
) -> Result<u64, SliceFault>
    requires handled { H.has_handled handler [] }
    requires gave { H.gives [] [] }
    ensures { (frames : List Frame) (rest : List ℕ) → FramesOf input.now frames rest → HandlesWhole H.gives frames rest out.old.items out.new.items result }
{
    let mut frames = Frames::new(alloc, Appending { alloc, handler });
    match frames.read_slice(&mut (), out, input) {
        Ok(()) => Ok(frames.count()),
        Err(fault) => Err(fault_of(fault)),
    }
}
