//! A frame that is lent.
ghost use Rattle.std.specs.Prelude.{◌≡◌, Ok, length};
ghost use Rattle.csi_frames.specs.Public.Borrowed.{lent_borrowed_frame};
ghost use Rattle.csi_frames.specs.Public.Bytes.{AreBytes};
ghost use Rattle.csi_frames.specs.Public.Reading.{first_frame};
ghost use Rattle.csi_frames.specs.Public.Spelling.{spelling};

use crate::borrowed::{BodyRef, BorrowedFrame, PartyRef};
use crate::owned;
use csi_types::{CallRef, Frame, NoMemory, Number, Party};
use std::alloc::Global;

/// A frame whose texts are slices of the bytes that it was read from. A contract sees the frame that it stands for, by its
/// parts, which are within their limits. This profile's own.
#[derive(Drop)]
pub struct FrameRef<'a> {
    pub(crate) frame: BorrowedFrame<'a>,
    // What it stands for is what its spelling is read as.
    ghost spelled: { AreBytes (spelling (lent_borrowed_frame frame)) },
    ghost read: { first_frame (spelling (lent_borrowed_frame frame)) ≡ Ok (lent_borrowed_frame frame, length (spelling (lent_borrowed_frame frame))) },
}

impl<'a> FrameRef<'a> {
    ghost use Rattle.std.specs.Prelude.{◌≡◌, ◌↔◌, IfOk, IsOk, IsTrue, IfSome, option_map};
    ghost use Rattle.csi_types.specs.Public.Lent.{lent_call, HasFitTexts};
    ghost use Rattle.csi_types.specs.Public.Limits.{IsFrame};
    ghost use Rattle.csi_frames.specs.Public.Borrowed.{lent_borrowed_frame};
    ghost use Rattle.csi_frames.specs.Public.Bytes.{AreBytes};
    ghost use Rattle.csi_frames.specs.Public.Lent.{lent_frame, call_of};
    ghost use Rattle.csi_frames.specs.Public.Spelling.{spelling};
    ghost use Rattle.csi_frames.specs.Public.Texts.{IsTextless};

    /// The frame with texts of its own. It is refused only where a copy of one of its texts, or of its capabilities, was: a
    /// frame whose texts are all empty or absent takes no memory.
    pub fn to_frame(&self, alloc: Global) -> Result<Frame, NoMemory>
        ensures value { IfOk result (λ frame. frame ≡ lent_frame self.now) }
        ensures limits { IsFrame (lent_frame self.now) }
        ensures textless { IsTextless (lent_frame self.now) → IsOk result }
    {
        owned::frame(alloc, &self.frame)
    }

    /// The number of the call. It takes no memory.
    #[inline]
    pub fn number(&self) -> Number
        ensures { result ≡ (lent_frame self.now).number }
    {
        self.frame.number
    }

    /// Whether a call is for this plugin, or a reply from it. It takes no memory.
    #[inline]
    pub fn is_for(&self, party: &Party) -> bool
        ensures { IsTrue result ↔ ((lent_frame self.now).party ≡ party.now) }
    {
        match self.frame.party {
            PartyRef::Controller => matches!(party, Party::Controller),
            PartyRef::Node(id) => match party {
                Party::Controller => false,
                Party::Node(own) => id == own.as_str(),
            },
        }
    }

    /// The call, whose texts lie in the bytes that the frame was read from and are within their limits. `None` for a reply. It
    /// takes no memory.
    #[inline(always)]
    pub fn call(&self) -> Option<&CallRef<'a>>
        ensures value { option_map (λ call. lent_call call.now) result ≡ call_of (lent_frame self.now) }
        ensures texts { IfSome result (λ call. HasFitTexts (lent_call call.now)) }
        ensures limits { IsFrame (lent_frame self.now) }
    {
        match &self.frame.body {
            BodyRef::Call(call) => Some(call),
            BodyRef::Reply(..) => None,
        }
    }
}
