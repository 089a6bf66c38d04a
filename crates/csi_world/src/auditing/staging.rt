//! Whether what is staged is attached.
ghost use Rattle.std.specs.Prelude.{◌≡◌, ◌==◌, ◌↔◌, IsTrue};
ghost use Rattle.std.specs.List.{list_any, list_all};
ghost use Rattle.csi_controller.specs.Public.Core.{AreRisingRows};
ghost use Rattle.csi_world.specs.Model.World.{World};
ghost use Rattle.csi_world.specs.Model.Safe.{IsStagedWhereAttached};
ghost use Rattle.csi_world.specs.Private.Listed.{IsListed, is_held_as as is_held_so, is_staged_right, is_node_attached};

use super::halving::find_row;
use super::lists::NodeLists;
use csi_controller::{ControllerRow, NodeHolding};
use csi_node::Staged;
use csi_types::{Capability, NodeId, same_capability};

// Whether the holding is at this node, with this capability.
fn is_held_as(node: &NodeId, capability: &Capability, held: &NodeHolding) -> bool
    ensures { result ≡ is_held_so node.now capability.now held.now }
{
    held.node == *node && same_capability(held.capability.lend(), capability.lend())
}

// Whether the row's volume is held so.
fn is_held_in(node: &NodeId, capability: &Capability, holdings: &[NodeHolding]) -> bool
    ensures { result ≡ list_any (is_held_so node.now capability.now) holdings.now }
{
    for held in holdings {
        if is_held_as(node, capability, held) {
            return true;
        }
    }
    false
}

// Whether the staged volume is attached at the node, with its capability.
fn is_attached_as(node: &NodeId, staged: &Staged, rows: &[ControllerRow]) -> bool
    requires { AreRisingRows rows.now }
    ensures { result ≡ is_staged_right rows.now node.now staged.now }
{
    match find_row(rows, staged.id) {
        Some(row) => is_held_in(node, &staged.capability, &row.holdings),
        None => false,
    }
}

// Whether all that is staged at the node is attached so.
fn is_attached_at(node: &NodeLists, rows: &[ControllerRow]) -> bool
    requires { AreRisingRows rows.now }
    ensures { result ≡ is_node_attached rows.now node.now }
{
    for staged in &node.staged {
        if !is_attached_as(&node.id, staged, rows) {
            return false;
        }
    }
    true
}

// The same at each node.
fn are_attached(nodes: &[NodeLists], rows: &[ControllerRow]) -> bool
    requires { AreRisingRows rows.now }
    ensures { result ≡ list_all (is_node_attached rows.now) nodes.now }
{
    for node in nodes {
        if !is_attached_at(node, rows) {
            return false;
        }
    }
    true
}

/// Whether what is staged at a node is attached there, with the same capability, in every world of which this is the list.
/// It takes no memory.
pub(crate) fn is_staged_where_attached(rows: &[ControllerRow], nodes: &[NodeLists]) -> bool
    requires { AreRisingRows rows.now }
    ensures { (world : World) → IsListed (record { rows = rows.now; nodes = nodes.now }) world → IsTrue result ↔ IsStagedWhereAttached world }
{
    are_attached(nodes, rows)
}
