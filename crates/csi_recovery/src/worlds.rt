//! The orchestrator of a simulated world, made of what its plugins keep.
ghost use Rattle.std.specs.Prelude.{◌≡◌, List, Some, IfOk, IfErr};
ghost use Rattle.std.specs.List.{list_any};
ghost use Rattle.csi_types.specs.Model.Same.{same_text};
ghost use Rattle.csi_controller.specs.Model.Core.{Shows as ControllerShows};
ghost use Rattle.csi_controller.specs.Model.State.{ControllerState};
ghost use Rattle.csi_world.specs.Model.Simulated.{ShowsWorld};
ghost use Rattle.csi_world.specs.Model.World.{World as Shown};
ghost use Rattle.csi_world.specs.Public.Given.{AreThose};
ghost use Rattle.csi_recovery.specs.Private.Worlds.{IsCopyOf};
ghost use Rattle.csi_recovery.specs.Public.Judged.{IsKeptOf};
ghost use Rattle.csi_recovery.specs.Public.Worlds.{told_as, Recovering};

use crate::fault::RecoveryFault;
use crate::opening::opened;
use csi_controller::{Controller, ControllerRecord};
use csi_node::{Node, NodeRecord};
use csi_types::{NoMemory, NodeId};
use csi_world::{RecoveryRefusal, World};
use std::alloc::Global;

// The record of a controller.
fn controller_record(controller: &Controller) -> Result<ControllerRecord, NoMemory>
    ensures { (state : ControllerState) → ControllerShows controller.now state → IfOk result (λ kept. IsKeptOf kept state) }
{
    match controller.record() {
        Ok(kept) => Ok(kept),
        Err(_) => Err(NoMemory),
    }
}

// The record of a node.
fn node_record(node: &Node) -> Result<NodeRecord, NoMemory>
    ensures { IfOk result (IsCopyOf node.now) }
{
    match node.record() {
        Ok(kept) => Ok(kept),
        Err(_) => Err(NoMemory),
    }
}

// The same ids again.
fn copied_ids(alloc: Global, nodes: &[NodeId]) -> Result<Vec<NodeId>, NoMemory>
    ensures { IfOk result (λ ids. ids.items ≡ nodes.now) }
{
    let mut ids = Vec::new(alloc);
    for node in nodes {
        let id = node.clone()?;
        ids.push(id)?;
    }
    Ok(ids)
}

// Whether the node is one of these.
fn is_given(given: &[NodeId], id: &NodeId) -> bool
    ensures { result ≡ list_any (same_text id.now) given.now }
{
    given.iter().any(|node| *id == *node)
}

// The records of those of the nodes that are given, in their order.
fn given_records(
    alloc: Global,
    nodes: &[Node],
    given: &[NodeId],
) -> Result<Vec<NodeRecord>, NoMemory>
    ensures { IfOk result (λ kept. AreThose IsCopyOf given.now nodes.now kept.items) }
{
    let mut kept = Vec::new(alloc);
    for node in nodes {
        if is_given(given, node.id()) {
            let record = node_record(node)?;
            kept.push(record)?;
        }
    }
    Ok(kept)
}

// Why nothing is recovered, as an outcome tells it.
fn refusal_of(fault: RecoveryFault) -> Result<RecoveryRefusal, NoMemory>
    ensures told { IfOk result (λ why. told_as fault ≡ Some why) }
{
    match fault {
        RecoveryFault::SameNode(_) => Ok(RecoveryRefusal::SameNode),
        RecoveryFault::NotLater => Ok(RecoveryRefusal::NotLater),
        RecoveryFault::Disagrees(_) => Ok(RecoveryRefusal::Disagrees),
        RecoveryFault::BadNodes => Ok(RecoveryRefusal::BadNodes),
        RecoveryFault::BadRow(_) => Ok(RecoveryRefusal::BadRow),
        RecoveryFault::NoMemory => Err(NoMemory),
    }
}

/// The world whose orchestrator's store was lost, once an orchestrator with this list of nodes was made of what the controller and the nodes
/// whose stores are given keep, in this session (`recovered`). Each frame that was ever sent may come still; the plugins' sessions are
/// raised, and the nodes that aren't given are no more. It is logged. Nothing but the log changes where it is refused: with `NotLater`
/// where the session isn't later than that of the lost orchestrator's last call, as the operator promises it, and else as `recovered`
/// is. An `Err` is an allocation that was refused. This profile's own.
pub fn recover_world(
    alloc: Global,
    world: World,
    nodes: &[NodeId],
    session: u64,
    given: &[NodeId],
) -> Result<World, NoMemory>
    ensures { (shown : Shown) → ShowsWorld world shown →
        IfOk result (Recovering (record { nodes = nodes.now; session = session; given = given.now }) world shown) }
{
    let last = world.orchestrator().session();
    if session <= last {
        return world.unrecovered(RecoveryRefusal::NotLater);
    }
    let listed = copied_ids(alloc, nodes)?;
    let again = copied_ids(alloc, nodes)?;
    let controller = controller_record(world.controller())?;
    let known = given_records(alloc, world.nodes(), given)?;
    match opened(alloc, listed, again, session, &controller, &known) {
        Ok(orchestrator) => world.recovered(session, given, orchestrator),
        Err(fault) => world.unrecovered(refusal_of(fault)?),
    }
}
