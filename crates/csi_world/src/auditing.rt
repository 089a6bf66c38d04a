//! The audit of a system's parts.
ghost use Rattle.std.specs.Prelude.{map, IfOk};
ghost use Rattle.csi_orchestrator.specs.Model.Shown.{orchestrator_view};
ghost use Rattle.csi_world.specs.Model.World.{World as Shown};
ghost use Rattle.csi_world.specs.Public.Audited.{ArePlugins, Finds};
ghost use Rattle.csi_world.specs.Private.Listed.{AreDistinctTexts, AreRowsApart, IsListed, ArePluginsSafe};

mod gathering;
mod halving;
mod lists;
mod marks;
mod safety;
mod staging;
mod things;

use crate::violation::Violation;
use crate::world::World;
use csi_controller::{Controller, ControllerRow};
use csi_node::Node;
use csi_orchestrator::Orchestrator;
use csi_types::NoMemory;
use gathering::list_plugins;
use lists::NodeLists;
use marks::is_marked_right;
use safety::plugins_are_safe;
use staging::is_staged_where_attached;
use std::alloc::Global;

// What is wrong by what is listed, where the plugins keep what their own contracts keep.
fn audit_lists(
    alloc: Global,
    rows: &[ControllerRow],
    nodes: &[NodeLists],
    orchestrator: &Orchestrator,
) -> Result<Option<Violation>, NoMemory>
    requires { AreRowsApart rows.now }
    ensures { (world : Shown) → IsListed (record { rows = rows.now; nodes = nodes.now }) world → ArePluginsSafe world →
        IfOk result (Finds (orchestrator_view orchestrator.now).marks world) }
{
    if !is_staged_where_attached(rows, nodes) {
        return Ok(Some(Violation::StagedUnattached));
    }
    if is_marked_right(alloc, orchestrator, rows, nodes)? {
        Ok(None)
    } else {
        Ok(Some(Violation::RecordedWrong))
    }
}

/// The first clause of safety that fails, if one does, in every world that the plugins show, where what is recorded is what the
/// orchestrator knows. The plugins' own contracts keep all clauses but `StagedUnattached` and `RecordedWrong`, so that it
/// finds no other (CSI's spec.md, "Volume Lifecycle"). An `Err` is an allocation that was refused.
pub(crate) fn audit_parts(
    alloc: Global,
    controller: &Controller,
    nodes: &[Node],
    orchestrator: &Orchestrator,
) -> Result<Option<Violation>, NoMemory>
    requires { AreDistinctTexts (map (λ node. node.id) nodes.now) }
    ensures { (world : Shown) → ArePlugins controller.now nodes.now world → IfOk result (Finds (orchestrator_view orchestrator.now).marks world) }
{
    plugins_are_safe(controller, nodes);
    let lists = list_plugins(alloc, controller, nodes)?;
    audit_lists(alloc, controller.all_rows(), &lists, orchestrator)
}

/// The first clause of safety that fails in this world, by what its plugins show and what its orchestrator knows, or `None`
/// exactly where all five hold (`Violation` names them, in the order in which they are tried). It answers for the world
/// that it is given and no other: a `World` carries no promise of safety in its type. `safety_law` makes that promise, for
/// the worlds that events lead to. An `Err` is an allocation that was refused. This profile's own.
pub fn audit(alloc: Global, world: &World) -> Result<Option<Violation>, NoMemory>
    ensures { (shown : Shown) → ArePlugins (world.now).controller (world.now).nodes shown →
        IfOk result (Finds (orchestrator_view (world.now).orchestrator).marks shown) }
{
    world.nodes_law();
    audit_parts(
        alloc,
        world.controller(),
        world.nodes(),
        world.orchestrator(),
    )
}
