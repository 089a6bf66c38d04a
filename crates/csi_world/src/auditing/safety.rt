//! What the plugins' own contracts keep.
ghost use Rattle.csi_world.specs.Model.World.{World};
ghost use Rattle.csi_world.specs.Public.Audited.{ArePlugins};
ghost use Rattle.csi_world.specs.Private.Listed.{ArePluginsSafe};

use csi_controller::{Controller, exclusive_law};
use csi_node::{Node, publishing_law};

/// Nothing that runs: in every world that the plugins show, two holdings of one volume are apart, what is published is
/// staged, and what is attached wasn't deleted.
pub(crate) fn plugins_are_safe(controller: &Controller, nodes: &[Node])
    ensures { (world : World) → ArePlugins controller.now nodes.now world → ArePluginsSafe world }
{
    exclusive_law(controller);
    for node in nodes {
        publishing_law(node);
    }
}
