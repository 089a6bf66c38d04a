//! The entries of a recovered row: one for each of the volume's holdings.
ghost use Rattle.std.specs.Prelude.{◌≡◌, [], ◌∷◌, map, Some, IfOk};
ghost use Rattle.std.specs.Option.{option_copied};
ghost use Rattle.csi_orchestrator.specs.Public.Shown.{node_entry_shown};
ghost use Rattle.csi_recovery.specs.Public.Recovered.{root as root_text};
ghost use Rattle.csi_recovery.specs.Private.Walks.{entry_so, entry_from, entry_with as entry_of_targets, published_there, undone_there};

use crate::finding::targets_at;
use csi_controller::{ControllerRow, NodeHolding};
use csi_node::{NodeRecord, NodeTarget};
use csi_orchestrator::{Known, NodeEntry, TargetEntry};
use csi_types::{NoMemory, Target};
use std::alloc::Global;

/// The root, where nothing is published.
pub(crate) fn root(alloc: Global) -> Result<Target, NoMemory>
    ensures { IfOk result (λ target. target ≡ root_text) }
{
    match Target::try_new(alloc, "/") {
        Ok(target) => Ok(target),
        Err(_) => Err(NoMemory),
    }
}

// The targets at which the volume is published.
fn published_at(alloc: Global, targets: &[NodeTarget]) -> Result<Vec<TargetEntry>, NoMemory>
    ensures { IfOk result (λ made. made.items ≡ map published_there targets.now) }
{
    let mut made = Vec::with_capacity(alloc, targets.len())?;
    for there in targets {
        let target = there.target.clone()?;
        made.push(TargetEntry {
            target,
            published: Known::Yes,
        })?;
    }
    Ok(made)
}

// The target of the stop that undoes what may be staged.
fn undone_at(alloc: Global) -> Result<Vec<TargetEntry>, NoMemory>
    ensures { IfOk result (λ made. made.items ≡ undone_there ∷ []) }
{
    let target = root(alloc)?;
    let mut made = Vec::with_capacity(alloc, 1)?;
    made.push(TargetEntry {
        target,
        published: Known::No,
    })?;
    Ok(made)
}

// The entry of a holding, of which this is known.
fn entry(
    held: &NodeHolding,
    staged: Known,
    target_entries: Vec<TargetEntry>,
) -> Result<NodeEntry, NoMemory>
    ensures { IfOk result (λ made. node_entry_shown made ≡ entry_so held.now staged target_entries.items) }
{
    let node = held.node.clone()?;
    let capability = held.capability.clone()?;
    Ok(NodeEntry {
        node,
        capability,
        readonly: held.readonly,
        attached: Known::Yes,
        staged,
        target_entries,
    })
}

// The entry of a holding of a volume that is staged at its node.
fn staged_entry(
    alloc: Global,
    held: &NodeHolding,
    targets: &[NodeTarget],
) -> Result<NodeEntry, NoMemory>
    ensures { IfOk result (λ made. node_entry_shown made ≡ entry_of_targets held.now (Some targets.now)) }
{
    if targets.is_empty() {
        let target_entries = undone_at(alloc)?;
        entry(held, Known::Maybe, target_entries)
    } else {
        let target_entries = published_at(alloc, targets)?;
        entry(held, Known::Yes, target_entries)
    }
}

// The entry of a holding, by the targets of the volume there, if it is staged.
fn entry_with(
    alloc: Global,
    held: &NodeHolding,
    targets: Option<&[NodeTarget]>,
) -> Result<NodeEntry, NoMemory>
    ensures { IfOk result (λ made. node_entry_shown made ≡ entry_of_targets held.now (option_copied targets.entry)) }
{
    match targets {
        Some(targets) => staged_entry(alloc, held, targets),
        None => entry(held, Known::No, Vec::new(alloc)),
    }
}

/// The entries of the volume's holdings, in their order.
pub(crate) fn entries(
    alloc: Global,
    given: &[NodeRecord],
    volume: &ControllerRow,
) -> Result<Vec<NodeEntry>, NoMemory>
    ensures { IfOk result (λ made. map node_entry_shown made.items ≡ map (entry_from given.now volume.now.id) volume.now.holdings.items) }
{
    let mut made = Vec::with_capacity(alloc, volume.holdings.len())?;
    for held in &volume.holdings {
        let targets = targets_at(given, &held.node, volume.id);
        let entry = entry_with(alloc, held, targets)?;
        made.push(entry)?;
    }
    Ok(made)
}
