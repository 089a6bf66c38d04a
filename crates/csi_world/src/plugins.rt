//! The plugins of a world: what they do with a frame, and how they restart.
ghost use Rattle.std.specs.Prelude.{◌≡◌, find, map, position, IfOk};
ghost use Rattle.std.specs.Option.{option_copied};
ghost use Rattle.csi_types.specs.Model.Same.{same_text};
ghost use Rattle.csi_world.specs.Model.World.{node_id};
ghost use Rattle.csi_world.specs.Private.Simulating.{ControllerReplies, NodeReplies, IsSameController, IsSameNode, new_node_parts};

use crate::outcomes::Outcome;
use crate::sending::answered;
use csi_controller::{Controller, ControllerRecord};
use csi_node::Node;
use csi_types::{Config, Frame, NoMemory, NodeId, NodeSlots};
use std::alloc::Global;

/// A copy of a configuration.
pub(crate) fn copied_config(config: &Config) -> Result<Config, NoMemory>
    ensures { IfOk result (λ copy. copy ≡ config.now) }
{
    Ok(config.clone()?)
}

/// The ids of these nodes, in order.
pub(crate) fn ids_of(alloc: Global, nodes: &[NodeSlots]) -> Result<Vec<NodeId>, NoMemory>
    ensures { IfOk result (λ ids. ids.items ≡ map node_id nodes.now) }
{
    let mut ids = Vec::new(alloc);
    for node in nodes {
        let id = node.id.clone()?;
        ids.push(id)?;
    }
    Ok(ids)
}

/// A copy of these ids.
pub(crate) fn copied_ids(alloc: Global, nodes: &[NodeId]) -> Result<Vec<NodeId>, NoMemory>
    ensures { IfOk result (λ ids. ids.items ≡ nodes.now) }
{
    let mut ids = Vec::new(alloc);
    for node in nodes {
        let id = node.clone()?;
        ids.push(id)?;
    }
    Ok(ids)
}

/// Nodes that answered nothing and heard of no session, one for each, in order.
pub(crate) fn new_nodes(alloc: Global, slots: &[NodeSlots]) -> Result<Vec<Node>, NoMemory>
    ensures { IfOk result (λ nodes. nodes.items ≡ map (new_node_parts 0) (map node_id slots.now)) }
{
    let mut nodes = Vec::new(alloc);
    for one in slots {
        let id = one.id.clone()?;
        nodes.push(Node::new(alloc, id, 0))?;
    }
    Ok(nodes)
}

/// Where the node of this id is.
pub(crate) fn place_of(nodes: &[Node], id: &NodeId) -> Option<usize>
    ensures { result ≡ position (λ node. same_text node.id id.now) nodes.now }
{
    for (place, node) in nodes.iter().enumerate() {
        if *node.id() == *id {
            return Some(place);
        }
    }
    None
}

/// The node of this id.
pub(crate) fn node_with_id<'a>(nodes: &'a [Node], id: &NodeId) -> Option<&'a Node>
    ensures { option_copied result ≡ find (λ node. same_text node.id id.now) nodes.now }
{
    match place_of(nodes, id) {
        Some(place) => Some(&nodes[place]),
        None => None,
    }
}

/// Lets the controller answer a frame, and sends its reply, if there is one.
pub(crate) fn step_controller(
    controller: &mut Controller,
    frames: &mut Vec<Frame>,
    frame: &Frame,
) -> Result<Outcome, NoMemory>
    ensures { IfOk result (ControllerReplies controller.old controller.new frames.old.items frames.new.items frame.now) }
{
    match controller.step(frame) {
        Ok(reply) => answered(frames, reply),
        Err(_) => Err(NoMemory),
    }
}

/// Lets a node answer a frame, and sends its reply, if there is one.
pub(crate) fn step_node(
    node: &mut Node,
    frames: &mut Vec<Frame>,
    frame: &Frame,
) -> Result<Outcome, NoMemory>
    ensures replies { IfOk result (NodeReplies node.old node.new frames.old.items frames.new.items frame.now) }
    ensures id { node.new.id ≡ node.old.id }
{
    match node.step(frame) {
        Ok(reply) => answered(frames, reply),
        Err(_) => Err(NoMemory),
    }
}

/// The controller of this record, under a copy of the configuration.
pub(crate) fn controller_of_record(
    alloc: Global,
    config: &Config,
    kept: ControllerRecord,
) -> Result<Controller, NoMemory>
    ensures { IfOk result (λ made. made ≡ record { config = config.now; next_id = kept.next_id; session = kept.session; rows = kept.rows }) }
{
    let own = copied_config(config)?;
    Ok(Controller::from_record(alloc, own, kept).unwrap())
}

/// The controller that has the record of this one, under a copy of the configuration.
pub(crate) fn restarted_controller(
    alloc: Global,
    controller: &Controller,
    config: &Config,
) -> Result<Controller, NoMemory>
    ensures { IfOk result (IsSameController config.now controller.now) }
{
    match controller.record() {
        Ok(kept) => controller_of_record(alloc, config, kept),
        Err(_) => Err(NoMemory),
    }
}

/// The node that has the record of this one.
pub(crate) fn restarted_node(alloc: Global, node: &Node) -> Result<Node, NoMemory>
    ensures { IfOk result (IsSameNode node.now) }
{
    match node.record() {
        Ok(kept) => Ok(Node::from_record(alloc, kept).unwrap()),
        Err(_) => Err(NoMemory),
    }
}
