//! The node's table, for the row of a call's volume.
ghost use Rattle.std.specs.Prelude.{◌≡◌, Some, option_copied, codes, if◌then◌else◌};
ghost use Rattle.csi_types.specs.Public.Lent.{lent_capability, lent_call};
ghost use Rattle.csi_types.specs.declared.status.Status.TheVariants.{AlreadyExists};
ghost use Rattle.csi_fence.specs.Public.Line.{told_by};
ghost use Rattle.csi_node.specs.Model.OneRow.{node_row_shown};
ghost use Rattle.csi_node.specs.Public.OneRow.{state_shown, target_among, published_by, IsSoundRow};
ghost use Rattle.csi_node.specs.Private.OneRow.{target_of_row, publish_by_row};
ghost use Rattle.csi_node.specs.Public.Plan.{told_in, told_at};
ghost use Rattle.csi_node.specs.Model.State.{volume_of, published_at, PublishedVolume};
ghost use Rattle.csi_node.specs.Model.Table.{stage, unstage, refused, met, publish, publish_new, unpublish, begins_with_slash};

use crate::row::{NodeRow, NodeTarget};
use csi_fence::Line;
use csi_types::{
    CallRef, Capability, CapabilityRef, Status, allows_one_target, same_capability, same_way,
};

/// The most targets that a volume has on a node.
pub(crate) const MAX_TARGETS: usize = 16;

/// Whether the target is a path from the root.
pub(crate) fn is_absolute(target: &str) -> bool
    ensures { result ≡ begins_with_slash target.now }
{
    target.as_bytes().first() == Some(&b'/')
}

/// The first of these that is this target, if one is.
pub(crate) fn find_target<'a>(targets: &'a [NodeTarget], target: &str) -> Option<&'a NodeTarget>
    ensures { option_copied result ≡ target_among targets.now target.now }
{
    for there in targets {
        if there.target.as_str() == target {
            return Some(there);
        }
    }
    None
}

// NodeStageVolume.
fn stage_line(row: &NodeRow, capability: &CapabilityRef<'_>) -> Line<'static>
    ensures { told_by result ≡ told_in (stage (record { volume = row.now.id; capability = lent_capability capability.now }) row.now.staged) }
{
    match &row.staged {
        None => Line::Done,
        Some(staged) => {
            if same_capability(staged.lend(), *capability) {
                return Line::Met(None);
            }
            Line::Refused(Status::AlreadyExists, "staged otherwise")
        }
    }
}

// NodeUnstageVolume.
fn unstage_line(row: &NodeRow) -> Line<'_>
    requires rules { IsSoundRow (node_row_shown row.now) }
    ensures { told_by result ≡ told_in (unstage row.now.id (published_by row.now.id row.now.staged row.now.targets.items)) }
{
    match row.targets.first() {
        None => Line::Done,
        Some(first) => Line::Refused(Status::FailedPrecondition, first.target.as_str()),
    }
}

// NodePublishVolume at a target where the volume isn't published, in the capability in which it is staged.
fn publish_new_line<'a>(row: &'a NodeRow, capability: &CapabilityRef<'_>) -> Line<'a>
    ensures { (published : PublishedVolume) (staged : Capability) → published.capability ≡ lent_capability capability.now →
        told_by result ≡ told_in (publish_new published (published_by row.now.id (Some staged) row.now.targets.items)) }
{
    match row.targets.first() {
        None => Line::Done,
        Some(first) => {
            if allows_one_target(capability.mode) {
                return Line::Refused(Status::FailedPrecondition, first.target.as_str());
            }
            if row.targets.len() >= MAX_TARGETS {
                return Line::Refused(Status::ResourceExhausted, "targets");
            }
            Line::Done
        }
    }
}

// NodePublishVolume at a target where the volume is published, by whether it is so in the same way.
fn published_line(is_same: bool) -> Line<'static>
    ensures { told_by result ≡ told_in (if is_same then met else refused AlreadyExists (codes "published otherwise")) }
{
    if is_same {
        return Line::Met(None);
    }
    Line::Refused(Status::AlreadyExists, "published otherwise")
}

// NodePublishVolume at an absolute target, of a volume that is staged so.
fn publish_staged_line<'a>(
    row: &'a NodeRow,
    staged: &Capability,
    target: &str,
    capability: &CapabilityRef<'_>,
    readonly: bool,
) -> Line<'a>
    ensures { let published : PublishedVolume = record {
      volume = row.now.id;
      target = target.now;
      capability = lent_capability capability.now;
      readonly = readonly;
    } in
        told_by result ≡ told_in (publish_by_row (node_row_shown row.now) staged.now published (target_of_row (node_row_shown row.now) target.now)) }
{
    match find_target(row.targets.as_slice(), target) {
        Some(there) => {
            let is_same = same_way(staged.lend(), there.readonly, *capability, readonly);
            published_line(is_same)
        }
        None => {
            if !same_capability(staged.lend(), *capability) {
                return Line::Refused(Status::FailedPrecondition, "staged otherwise");
            }
            publish_new_line(row, capability)
        }
    }
}

// NodePublishVolume.
fn publish_line<'a>(
    row: &'a NodeRow,
    target: &str,
    capability: &CapabilityRef<'_>,
    readonly: bool,
) -> Line<'a>
    ensures { let published : PublishedVolume = record {
      volume = row.now.id;
      target = target.now;
      capability = lent_capability capability.now;
      readonly = readonly;
    } in
        told_by result ≡ told_in (publish (state_shown (node_row_shown row.now)) published) }
{
    if !is_absolute(target) {
        return Line::Refused(Status::InvalidArgument, "target");
    }
    match &row.staged {
        None => Line::Refused(Status::FailedPrecondition, "not staged"),
        Some(staged) => publish_staged_line(row, staged, target, capability, readonly),
    }
}

// NodeUnpublishVolume.
fn unpublish_line(row: &NodeRow, target: &str) -> Line<'static>
    requires rules { IsSoundRow (node_row_shown row.now) }
    ensures { told_by result ≡ told_in (unpublish row.now.id target.now (published_at row.now.id target.now (state_shown (node_row_shown row.now)))) }
{
    match find_target(row.targets.as_slice(), target) {
        None => Line::Met(None),
        Some(_) => Line::Done,
    }
}

/// What the table answers to a call of the row's volume.
pub(crate) fn line<'a>(row: &'a NodeRow, call: &CallRef<'_>) -> Line<'a>
    requires volume { volume_of (lent_call call.now) ≡ Some row.now.id }
    requires rules { IsSoundRow (node_row_shown row.now) }
    ensures { told_by result ≡ told_at (node_row_shown row.now) (lent_call call.now) }
{
    match call {
        CallRef::NodeStageVolume { capability, .. } => stage_line(row, capability),
        CallRef::NodeUnstageVolume { .. } => unstage_line(row),
        CallRef::NodePublishVolume {
            target,
            capability,
            readonly,
            ..
        } => publish_line(row, target, capability, *readonly),
        CallRef::NodeUnpublishVolume { target, .. } => unpublish_line(row, target),
        _ => Line::Refused(Status::Unimplemented, ""),
    }
}
