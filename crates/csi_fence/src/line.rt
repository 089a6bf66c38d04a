//! What a line of a table answers.
ghost use Rattle.std.specs.Prelude.{◌≡◌};
ghost use Rattle.csi_fence.specs.Public.Line.{told_by, GivesCopy};

use crate::fault::CoreFault;
use csi_types::{Detail, Reply, Status, VolumeId};
use std::alloc::Global;

/// What a line of a table answers (this profile's own).
#[derive(Clone, Copy)]
pub enum Line<'a> {
    /// A status other than `Ok`, with its detail of at most 255 bytes, and nothing changes.
    Refused(Status, &'a str),
    /// What the call asks holds already, of the volume of this id, where the reply has one.
    Met(Option<VolumeId>),
    /// The call's change is made.
    Done,
}

/// A detail of this text. An empty one takes no memory, and no bytes are copied for it.
#[inline(always)]
pub(crate) fn detail_of(alloc: Global, text: &str) -> Result<Detail, CoreFault>
    ensures { GivesCopy text.now text.now result }
{
    if text.is_empty() {
        return Ok(Detail::try_new(alloc, "").unwrap());
    }
    match Detail::try_new(alloc, text) {
        Ok(detail) => Ok(detail),
        Err(_) => Err(CoreFault::NoMemory),
    }
}

impl Line<'_> {
    /// Whether the call's change is to be made.
    pub fn is_done(&self) -> bool
        ensures { result ≡ (told_by self.now).is_done }
    {
        matches!(self, Line::Done)
    }

    /// As a reply. Without a detail it takes no memory.
    pub fn reply(&self, alloc: Global) -> Result<Reply, CoreFault>
        ensures { GivesCopy (told_by self.now).reply.detail (told_by self.now).reply result }
    {
        let (status, id, text) = match self {
            Line::Refused(status, text) => (*status, None, *text),
            Line::Met(id) => (Status::Ok, *id, ""),
            Line::Done => (Status::Ok, None, ""),
        };
        match detail_of(alloc, text) {
            Ok(detail) => Ok(Reply { status, id, detail }),
            Err(fault) => Err(fault),
        }
    }
}
