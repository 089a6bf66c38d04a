//! What is staged and published on a node, as lists.
ghost use Rattle.std.specs.Prelude.{◌≡◌, ◌++◌, map, Some, IfOk, OnOk};
ghost use Rattle.std.specs.List.{flat_map};
ghost use Rattle.csi_node.specs.Model.OneRow.{node_row_shown};
ghost use Rattle.csi_node.specs.Public.OneRow.{state_shown, published_so};
ghost use Rattle.csi_node.specs.Public.Views.{staged_shown, published_shown};

use crate::entries::{Published, Staged, published_at};
use crate::row::{NodeRow, NodeTarget};
use csi_fence::CoreFault;
use csi_types::{Capability, VolumeId};
use std::alloc::Global;

// Puts what the row has staged at the end.
fn push_staged(list: &mut Vec<Staged>, row: &NodeRow) -> Result<(), CoreFault>
    ensures { OnOk result (map staged_shown list.new.items ≡ map staged_shown list.old.items ++ (state_shown (node_row_shown row.now)).staged) }
{
    if let Some(capability) = &row.staged {
        let capability = capability.clone()?;
        list.push(Staged {
            id: row.id,
            capability,
        })?;
    }
    Ok(())
}

/// What rows have staged, in their order.
pub(crate) fn staged_in(alloc: Global, rows: &[NodeRow]) -> Result<Vec<Staged>, CoreFault>
    ensures { IfOk result (λ list. map staged_shown list.items ≡ flat_map (λ row. (state_shown (node_row_shown row)).staged) rows.now) }
{
    let mut list = Vec::new(alloc);
    for row in rows {
        push_staged(&mut list, row)?;
    }
    Ok(list)
}

// Puts a volume at its targets at the end.
fn push_targets(
    list: &mut Vec<Published>,
    id: VolumeId,
    capability: &Capability,
    targets: &[NodeTarget],
) -> Result<(), CoreFault>
    ensures { OnOk result (map published_shown list.new.items ≡ map published_shown list.old.items ++ map (published_so id capability.now) targets.now) }
{
    for target in targets {
        let published = published_at(id, &target.target, capability, target.readonly)?;
        list.push(published)?;
    }
    Ok(())
}

// Puts what the row has published at the end.
fn push_published(list: &mut Vec<Published>, row: &NodeRow) -> Result<(), CoreFault>
    ensures { OnOk result (map published_shown list.new.items ≡ map published_shown list.old.items ++ (state_shown (node_row_shown row.now)).published) }
{
    match &row.staged {
        None => Ok(()),
        Some(capability) => push_targets(list, row.id, capability, row.targets.as_slice()),
    }
}

/// What rows have published, in their order.
pub(crate) fn published_in(alloc: Global, rows: &[NodeRow]) -> Result<Vec<Published>, CoreFault>
    ensures { IfOk result (λ list. map published_shown list.items ≡ flat_map (λ row. (state_shown (node_row_shown row)).published) rows.now) }
{
    let mut list = Vec::new(alloc);
    for row in rows {
        push_published(&mut list, row)?;
    }
    Ok(list)
}
