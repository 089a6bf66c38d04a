//! What is done with the frames of a stream.
ghost use Rattle.std.specs.Prelude.{◌≡◌, ℕ, List, length, OnOk, OnErr};
ghost use Rattle.std.specs.List.{flat_map};
ghost use Rattle.csi_types.specs.Model.Frame.{Frame};
ghost use Rattle.csi_frames.specs.Public.Spelling.{spelling};
ghost use Rattle.csi_frames.specs.Public.Lent.{lent_frame};
ghost use Rattle.csi_streams.specs.Private.Handling.{Handles};

use csi_frames::FrameRef;
use csi_types::NoMemory;
use std::alloc::Global;

/// What is done with the frames of a stream, one after another: bytes are given for each.
pub(crate) trait Handler: Drop {
    /// It handled these frames since it was new.
    ghost has_handled: { Self → List Frame → Type 0 };

    /// These bytes are given for these frames.
    ghost gives: { List Frame → List ℕ → Type 0 };

    /// Handles the next frame, whose first byte is in this place of the stream, and appends what is given for it. An `Err` appends
    /// nothing.
    fn handle(
        &mut self,
        alloc: Global,
        place: u64,
        frame: &FrameRef<'_>,
        out: &mut Vec<u8>,
    ) -> Result<(), NoMemory>
        ensures ok { (frames : List Frame) → has_handled self.old frames → place ≡ length (flat_map spelling frames) →
            OnOk result (Handles has_handled gives frames (lent_frame frame.now) self.new out.old.items out.new.items) }
        ensures err { OnErr result (out.new.items ≡ out.old.items) };
}
