//! How an audit reads the plugins.
ghost use Rattle.std.specs.Prelude.{map, IfOk};
ghost use Rattle.csi_world.specs.Model.World.{World};
ghost use Rattle.csi_world.specs.Public.Audited.{ArePlugins};
ghost use Rattle.csi_world.specs.Private.Listed.{node_listed, AreDistinctTexts, IsListed, IsListOf};

use super::lists::NodeLists;
use csi_controller::Controller;
use csi_node::Node;
use csi_types::NoMemory;
use std::alloc::Global;

// The node's lists.
fn list_node(node: &Node) -> Result<NodeLists, NoMemory>
    ensures { IfOk result (λ lists. IsListOf node.now (node_listed lists)) }
{
    let id = node.id().clone()?;
    let Ok(staged) = node.staged() else {
        return Err(NoMemory);
    };
    let Ok(published) = node.published() else {
        return Err(NoMemory);
    };
    Ok(NodeLists {
        id,
        staged,
        published,
    })
}

/// What the nodes' readers give. With the controller's rows it is the list of every world that the plugins show.
pub(crate) fn list_plugins(
    alloc: Global,
    controller: &Controller,
    nodes: &[Node],
) -> Result<Vec<NodeLists>, NoMemory>
    requires { AreDistinctTexts (map (λ node. node.id) nodes.now) }
    ensures { (world : World) → ArePlugins controller.now nodes.now world →
        IfOk result (λ lists. IsListed (record { rows = controller.now.rows; nodes = lists.items }) world) }
{
    let _rows = controller.all_rows();
    let mut lists = Vec::new(alloc);
    for node in nodes {
        let listed = list_node(node)?;
        lists.push(listed)?;
    }
    Ok(lists)
}
