//! The rules of one row of a record.
ghost use Rattle.std.specs.Prelude.{◌≡◌};
ghost use Rattle.csi_types.specs.Public.Call.{is_node_kind as is_own_kind};
ghost use Rattle.csi_node.specs.Model.OneRow.{node_row_shown};
ghost use Rattle.csi_node.specs.Private.SoundRow.{has_own_reply as is_own_reply, fits_mode as is_fit_for};
ghost use Rattle.csi_node.specs.Private.SoundRow.{are_fit as is_each_fit, has_fit_targets as are_fit_targets, is_sound_row as is_sound};

use crate::row::{NodeRow, NodeTarget};
use crate::row_table::{MAX_TARGETS, find_target, is_absolute};
use csi_types::{Capability, Kind, allows_one_target};

// Whether calls of this kind are for a node.
fn is_node_kind(kind: Kind) -> bool
    ensures { result ≡ is_own_kind kind }
{
    matches!(
        kind,
        Kind::NodeStageVolume
            | Kind::NodeUnstageVolume
            | Kind::NodePublishVolume
            | Kind::NodeUnpublishVolume
    )
}

// Whether the kept reply is one that a node gives.
fn has_own_reply(row: &NodeRow) -> bool
    ensures { result ≡ is_own_reply (node_row_shown row.now) }
{
    is_node_kind(row.kind) && !row.reply.id.is_some()
}

// Whether a volume that is staged so may have so many targets, as far as its mode says.
fn fits_mode(staged: &Option<Capability>, count: usize) -> bool
    ensures { result ≡ is_fit_for staged.now count }
{
    match staged {
        None => count == 0,
        Some(capability) => !allows_one_target(capability.mode) || count <= 1,
    }
}

// Whether each is a path from the root, and there once.
fn are_fit(targets: &[NodeTarget]) -> bool
    ensures { result ≡ is_each_fit targets.now }
{
    for (place, there) in targets.iter().enumerate() {
        let target = there.target.as_str();
        if !is_absolute(target) {
            return false;
        }
        if find_target(&targets[place + 1..], target).is_some() {
            return false;
        }
    }
    true
}

// Whether the volume may have these targets, staged as it is.
fn has_fit_targets(row: &NodeRow) -> bool
    ensures { result ≡ are_fit_targets (node_row_shown row.now) }
{
    let targets = row.targets.as_slice();
    targets.len() <= MAX_TARGETS && fits_mode(&row.staged, targets.len()) && are_fit(targets)
}

/// Whether a record may have this row, whichever rows are before it.
pub(crate) fn is_sound_row(row: &NodeRow) -> bool
    ensures { result ≡ is_sound (node_row_shown row.now) }
{
    has_own_reply(row) && has_fit_targets(row)
}
