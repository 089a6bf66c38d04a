//! What a call changes in the row of its volume.
ghost use Rattle.std.specs.Prelude.{◌≡◌, [], ◌∷◌, ◌++◌, Some, None, filter, not, OnOk, OnErr};
ghost use Rattle.csi_types.specs.Public.Lent.{lent_capability, lent_call};
ghost use Rattle.csi_types.specs.Model.Same.{same_text};
ghost use Rattle.csi_node.specs.Model.OneRow.{node_row_shown};
ghost use Rattle.csi_node.specs.Public.OneRow.{row_changed};

use crate::row::{NodeRow, NodeTarget};
use csi_fence::CoreFault;
use csi_types::{CallRef, CapabilityRef, Target};
use std::alloc::Global;

// The volume is staged with this capability. An `Err` changes nothing.
fn stage(row: &mut NodeRow, alloc: Global, capability: &CapabilityRef<'_>) -> Result<(), CoreFault>
    ensures ok { OnOk result (node_row_shown row.new ≡ record (node_row_shown row.old) { staged = Some (lent_capability capability.now) }) }
    ensures err { OnErr result (node_row_shown row.new ≡ node_row_shown row.old) }
{
    match capability.to_capability(alloc) {
        Ok(capability) => {
            row.staged = Some(capability);
            Ok(())
        }
        Err(_) => Err(CoreFault::NoMemory),
    }
}

// The volume is published at this target too. An `Err` changes nothing.
fn publish(row: &mut NodeRow, alloc: Global, target: &str, readonly: bool) -> Result<(), CoreFault>
    ensures ok { OnOk result (node_row_shown row.new ≡ record (node_row_shown row.old) {
      targets = row.old.targets.items ++ (record { target = target.now; readonly = readonly }) ∷ [];
    }) }
    ensures err { OnErr result (node_row_shown row.new ≡ node_row_shown row.old) }
{
    let Ok(target) = Target::try_new(alloc, target) else {
        return Err(CoreFault::NoMemory);
    };
    row.targets.push(NodeTarget { target, readonly })?;
    Ok(())
}

// The volume isn't published at this target.
fn unpublish(row: &mut NodeRow, target: &str)
    ensures { node_row_shown row.new ≡ record (node_row_shown row.old) {
      targets = filter (λ there. not (same_text there.target target.now)) row.old.targets.items;
    } }
{
    row.targets.retain(|there| there.target.as_str() != target);
}

/// Makes the call's change to the row. An `Err` changes nothing.
pub(crate) fn change(row: &mut NodeRow, alloc: Global, call: &CallRef<'_>) -> Result<(), CoreFault>
    ensures ok { OnOk result (node_row_shown row.new ≡ row_changed (node_row_shown row.old) (lent_call call.now)) }
    ensures err { OnErr result (node_row_shown row.new ≡ node_row_shown row.old) }
{
    match call {
        CallRef::NodeStageVolume { capability, .. } => stage(row, alloc, capability),
        CallRef::NodeUnstageVolume { .. } => {
            row.staged = None;
            Ok(())
        }
        CallRef::NodePublishVolume {
            target,
            readonly,
            ..
        } => publish(row, alloc, target, *readonly),
        CallRef::NodeUnpublishVolume { target, .. } => {
            unpublish(row, target);
            Ok(())
        }
        _ => Ok(()),
    }
}
