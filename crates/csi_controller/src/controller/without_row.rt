//! What a call is answered whose volume the controller doesn't have.
ghost use Rattle.std.specs.Prelude.{◌≡◌, []};
ghost use Rattle.csi_types.specs.Public.Lent.{lent_call};
ghost use Rattle.csi_fence.specs.Public.Line.{told_by};
ghost use Rattle.csi_controller.specs.Public.Core.{IsUndoing};
ghost use Rattle.csi_controller.specs.Public.Nowhere.{reply_nowhere};

use csi_fence::Line;
use csi_types::{CallRef, Status};

/// What a call of an id is answered that no volume has: a DeleteVolume and a ControllerUnpublishVolume that it is done, a
/// ControllerPublishVolume that there is no such volume.
pub fn line_without_row(call: &CallRef<'_>) -> Line<'static>
    ensures reply { (told_by result).reply ≡ reply_nowhere (lent_call call.now) }
    ensures undone { IsUndoing (lent_call call.now) → (told_by result).reply.detail ≡ [] }
{
    match call {
        CallRef::DeleteVolume { .. } => Line::Met(None),
        CallRef::ControllerUnpublishVolume { .. } => Line::Met(None),
        _ => Line::Refused(Status::NotFound, "volume"),
    }
}
