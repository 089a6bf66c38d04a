//! Everything that holds, by what is listed.
ghost use Rattle.std.specs.Prelude.{◌≡◌, ◌++◌, ◌↔◌, true, IfOk, OnOk};
ghost use Rattle.std.specs.List.{flat_map};
ghost use Rattle.csi_types.specs.Model.Members.{IsAmong};
ghost use Rattle.csi_controller.specs.Public.Core.{AreRisingRows};
ghost use Rattle.csi_orchestrator.specs.declared.thing.Thing.{Thing as ThingParts};
ghost use Rattle.csi_world.specs.Model.World.{World};
ghost use Rattle.csi_world.specs.Model.Safe.{is_true_in};
ghost use Rattle.csi_world.specs.Private.Listed.{AreRowsApart, IsListed, things_of, staged_thing, published_thing, things_at, things_listed};

use super::halving::find_row;
use super::lists::NodeLists;
use csi_controller::ControllerRow;
use csi_node::{Published, Staged};
use csi_orchestrator::Thing;
use csi_types::{NoMemory, NodeId};
use std::alloc::Global;

// Adds what holds of the row's volume at the controller.
fn add_row(things: &mut Vec<Thing>, row: &ControllerRow) -> Result<(), NoMemory>
    ensures { OnOk result (things.new.items ≡ things.old.items ++ things_of row.now) }
{
    if row.live {
        let name = row.name.clone()?;
        things.push(Thing::Exists { name })?;
    }
    for held in &row.holdings {
        let name = row.name.clone()?;
        let node = held.node.clone()?;
        things.push(Thing::Attached { name, node })?;
    }
    Ok(())
}

// The same for each of these rows.
fn add_rows(things: &mut Vec<Thing>, rows: &[ControllerRow]) -> Result<(), NoMemory>
    ensures { OnOk result (things.new.items ≡ things.old.items ++ flat_map things_of rows.now) }
{
    for row in rows {
        add_row(things, row)?;
    }
    Ok(())
}

// Adds that the volume is staged at the node, where the controller has it.
fn add_staged(
    things: &mut Vec<Thing>,
    rows: &[ControllerRow],
    node: &NodeId,
    entry: &Staged,
) -> Result<(), NoMemory>
    requires { AreRisingRows rows.now }
    ensures { OnOk result (things.new.items ≡ things.old.items ++ staged_thing rows.now node.now entry.now) }
{
    if let Some(row) = find_row(rows, entry.id) {
        let name = row.name.clone()?;
        let node = node.clone()?;
        things.push(Thing::Staged { name, node })?;
    }
    Ok(())
}

// The same for each that is staged.
fn add_all_staged(
    things: &mut Vec<Thing>,
    rows: &[ControllerRow],
    node: &NodeId,
    list: &[Staged],
) -> Result<(), NoMemory>
    requires { AreRisingRows rows.now }
    ensures { OnOk result (things.new.items ≡ things.old.items ++ flat_map (staged_thing rows.now node.now) list.now) }
{
    for entry in list {
        add_staged(things, rows, node, entry)?;
    }
    Ok(())
}

// Adds that the volume is published at the node, where the controller has it.
fn add_published(
    things: &mut Vec<Thing>,
    rows: &[ControllerRow],
    node: &NodeId,
    entry: &Published,
) -> Result<(), NoMemory>
    requires { AreRisingRows rows.now }
    ensures { OnOk result (things.new.items ≡ things.old.items ++ published_thing rows.now node.now entry.now) }
{
    if let Some(row) = find_row(rows, entry.id) {
        let name = row.name.clone()?;
        let node = node.clone()?;
        let target = entry.target.clone()?;
        things.push(Thing::Published { name, node, target })?;
    }
    Ok(())
}

// The same for each that is published.
fn add_all_published(
    things: &mut Vec<Thing>,
    rows: &[ControllerRow],
    node: &NodeId,
    list: &[Published],
) -> Result<(), NoMemory>
    requires { AreRisingRows rows.now }
    ensures { OnOk result (things.new.items ≡ things.old.items ++ flat_map (published_thing rows.now node.now) list.now) }
{
    for entry in list {
        add_published(things, rows, node, entry)?;
    }
    Ok(())
}

// Adds what each of these nodes has.
fn add_nodes(
    things: &mut Vec<Thing>,
    rows: &[ControllerRow],
    nodes: &[NodeLists],
) -> Result<(), NoMemory>
    requires { AreRisingRows rows.now }
    ensures { OnOk result (things.new.items ≡ things.old.items ++ flat_map (things_at rows.now) nodes.now) }
{
    for node in nodes {
        add_all_staged(things, rows, &node.id, &node.staged)?;
        add_all_published(things, rows, &node.id, &node.published)?;
    }
    Ok(())
}

// Everything that holds, row by row and node by node.
fn gathered(
    alloc: Global,
    rows: &[ControllerRow],
    nodes: &[NodeLists],
) -> Result<Vec<Thing>, NoMemory>
    requires { AreRisingRows rows.now }
    ensures { IfOk result (λ things. things.items ≡ things_listed rows.now nodes.now) }
{
    let mut things = Vec::new(alloc);
    add_rows(&mut things, rows)?;
    add_nodes(&mut things, rows, nodes)?;
    Ok(things)
}

/// Everything that holds in the worlds of which this is the list, in no order.
pub(crate) fn list_things(
    alloc: Global,
    rows: &[ControllerRow],
    nodes: &[NodeLists],
) -> Result<Vec<Thing>, NoMemory>
    requires { AreRowsApart rows.now }
    ensures { (world : World) → IsListed (record { rows = rows.now; nodes = nodes.now }) world →
        IfOk result (λ things. (thing : ThingParts) → IsAmong thing things.items ↔ (is_true_in world thing ≡ true)) }
{
    gathered(alloc, rows, nodes)
}
