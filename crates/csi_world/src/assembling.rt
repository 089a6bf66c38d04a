//! Worlds that are made of their parts.
ghost use Rattle.std.specs.Prelude.{◌≡◌, ◌↔◌, IfOk, OnOk, true, false, Err};
ghost use Rattle.std.specs.List.{list_any};
ghost use Rattle.csi_types.specs.Model.Same.{same_text};
ghost use Rattle.csi_world.specs.Public.Assembled.{assembled};
ghost use Rattle.csi_world.specs.Public.Simulating.{has_same_id};
ghost use Rattle.csi_world.specs.declared.assembling.AssembleFault.TheVariants.{OtherNodes};

use crate::plugins::controller_of_record;
use crate::system::System;
use crate::world::World;
use csi_controller::{Controller, ControllerRecord};
use csi_node::{Node, NodeRecord};
use csi_orchestrator::Orchestrator;
use csi_types::{Config, NoMemory, NodeId};
use std::alloc::Global;
use thiserror::Error;

/// Why a world can't be made of its parts (this profile's own).
#[derive(Clone, Copy, Debug, PartialEq, Eq, Error)]
pub enum AssembleFault {
    /// Two of the node records are of one node.
    #[error("two node records are of one node")]
    OtherNodes = 1,
    /// An allocation was refused.
    #[error("out of memory")]
    NoMemory = 2,
}

// Whether one of the records is of this node.
fn has_record(id: &NodeId, kept: &[NodeRecord]) -> bool
    ensures { result ≡ list_any (λ one. same_text id.now one.id) kept.now }
{
    kept.iter().any(|one| *id == *one.id())
}

// Whether two of the records are of one node.
fn has_same_node(kept: &[NodeRecord]) -> bool
    ensures { result ≡ has_same_id kept.now }
{
    for (place, one) in kept.iter().enumerate() {
        if has_record(one.id(), &kept[place + 1..]) {
            return true;
        }
    }
    false
}

// The nodes of these records, no two of which may be of one node.
fn nodes_of_records(alloc: Global, kept: Vec<NodeRecord>) -> Result<Vec<Node>, AssembleFault>
    ensures ok { IfOk result (λ made. made.items ≡ kept.items) }
    ensures apart { OnOk result (has_same_id kept.items ≡ false) }
    ensures other { (result ≡ Err OtherNodes) ↔ (has_same_id kept.items ≡ true) }
{
    if has_same_node(&kept) {
        return Err(AssembleFault::OtherNodes);
    }
    let mut made = Vec::new(alloc);
    for one in kept {
        if made.push(Node::from_record(alloc, one).unwrap()).is_err() {
            return Err(AssembleFault::NoMemory);
        }
    }
    Ok(made)
}

// The plugins of these records.
fn plugins_of_records(
    alloc: Global,
    config: &Config,
    controller: ControllerRecord,
    nodes: Vec<NodeRecord>,
) -> Result<(Controller, Vec<Node>), AssembleFault>
    ensures controller { IfOk result (λ made. made.0 ≡ record {
      config = config.now;
      next_id = controller.next_id;
      session = controller.session;
      rows = controller.rows;
    }) }
    ensures nodes { IfOk result (λ made. made.1.items ≡ nodes.items) }
    ensures apart { OnOk result (has_same_id nodes.items ≡ false) }
    ensures other { (result ≡ Err OtherNodes) ↔ (has_same_id nodes.items ≡ true) }
{
    match nodes_of_records(alloc, nodes) {
        Ok(nodes) => match controller_of_record(alloc, config, controller) {
            Ok(controller) => Ok((controller, nodes)),
            Err(NoMemory) => Err(AssembleFault::NoMemory),
        },
        Err(fault) => Err(fault),
    }
}

impl World {
    /// The world of these parts, in which no frame was sent and no event came: the controller and the nodes are those of the
    /// records, and the orchestrator is the one that is given. It may be any orchestrator, so that the world need not be one
    /// to which events lead, nor a safe one: `audit` tells. The nodes are those that are there, whichever the configuration and the
    /// orchestrator's list have. It is refused with `OtherNodes` exactly where two of the node records are of one node, and else
    /// with `NoMemory` where an allocation was refused. This profile's own.
    pub fn assemble(
        alloc: Global,
        config: Config,
        controller: ControllerRecord,
        nodes: Vec<NodeRecord>,
        orchestrator: Orchestrator,
    ) -> Result<World, AssembleFault>
        ensures ok { IfOk result (λ world. world ≡ assembled config controller nodes.items orchestrator) }
        ensures other { (result ≡ Err OtherNodes) ↔ (has_same_id nodes.items ≡ true) }
    {
        match plugins_of_records(alloc, &config, controller, nodes) {
            Ok((controller, nodes)) => Ok(World::of(System {
                alloc,
                config,
                frames: Vec::new(alloc),
                outcomes: Vec::new(alloc),
                controller,
                nodes,
                orchestrator,
            })),
            Err(fault) => Err(fault),
        }
    }
}
