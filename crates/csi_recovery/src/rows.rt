//! The rows of a recovered orchestrator: one for each live volume.
ghost use Rattle.std.specs.Prelude.{◌≡◌, filter, find, map, IfOk};
ghost use Rattle.std.specs.Option.{option_copied};
ghost use Rattle.csi_orchestrator.specs.Public.Shown.{node_entry_shown, row_shown};
ghost use Rattle.csi_recovery.specs.Public.Recovered.{is_maybe, undoing, tries_for as tries_of_goal};
ghost use Rattle.csi_recovery.specs.Private.Walks.{row_from};

use crate::entries::{entries, root};
use csi_controller::ControllerRow;
use csi_node::NodeRecord;
use csi_orchestrator::{Arguments, Goal, Known, NodeEntry, Row};
use csi_types::{CapabilityList, NoMemory};
use std::alloc::Global;

/// The same capabilities again.
pub(crate) fn copied_capabilities(list: &CapabilityList) -> Result<CapabilityList, NoMemory>
    ensures { IfOk result (λ copy. copy ≡ list.now) }
{
    let copy = list.clone()?;
    Ok(copy)
}

// The first entry of which it isn't known whether the volume is staged there.
fn unsure(entries: &[NodeEntry]) -> Option<&NodeEntry>
    ensures { option_copied result ≡ find (λ entry. is_maybe entry.staged) entries.now }
{
    entries
        .iter()
        .find(|entry| matches!(entry.staged, Known::Maybe))
}

// The goal that undoes what may be staged, if anything is to be undone.
fn goal(alloc: Global, entries: &[NodeEntry]) -> Result<Option<Goal>, NoMemory>
    ensures { IfOk result (λ goal. goal ≡ undoing (find (λ entry. is_maybe entry.staged) (map node_entry_shown entries.now))) }
{
    match unsure(entries) {
        Some(entry) => {
            let node = entry.node.clone()?;
            let target = root(alloc)?;
            Ok(Some(Goal::Stop { node, target }))
        }
        None => Ok(None),
    }
}

// How often such a goal counts as tried.
fn tries_for(goal: &Option<Goal>) -> u64
    ensures { result ≡ tries_of_goal goal.now }
{
    match goal {
        Some(_) => 1,
        None => 0,
    }
}

// The row of a live volume.
fn row(alloc: Global, given: &[NodeRecord], volume: &ControllerRow) -> Result<Row, NoMemory>
    ensures { IfOk result (λ made. row_shown made ≡ row_from given.now volume.now) }
{
    let node_entries = entries(alloc, given, volume)?;
    let goal = goal(alloc, node_entries.as_slice())?;
    let name = volume.name.clone()?;
    let capabilities = copied_capabilities(&volume.capabilities)?;
    let tries = tries_for(&goal);
    Ok(Row {
        name,
        arguments: Arguments {
            required: volume.capacity,
            limit: 0,
            capabilities,
        },
        id: Some(volume.id),
        exists: Known::Yes,
        goal,
        open_call: None,
        tries,
        node_entries,
    })
}

/// The rows of the live volumes, in their order.
pub(crate) fn rows(
    alloc: Global,
    given: &[NodeRecord],
    volumes: &[ControllerRow],
) -> Result<Vec<Row>, NoMemory>
    ensures { IfOk result (λ made. map row_shown made.items ≡ map (row_from given.now) (filter (λ volume. volume.live) volumes.now)) }
{
    let mut made = Vec::with_capacity(alloc, volumes.len())?;
    for volume in volumes {
        if volume.live {
            let one = row(alloc, given, volume)?;
            made.push(one)?;
        }
    }
    Ok(made)
}
