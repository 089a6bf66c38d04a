//! The nodes of a record: at most 64, all different.
ghost use Rattle.std.specs.Prelude.{◌≡◌, true, false};
ghost use Rattle.csi_orchestrator.specs.Public.Record.{AreNodesFit};
ghost use Rattle.csi_orchestrator.specs.Private.Judging.{are_nodes_apart as are_apart};

use crate::decision::MAX_NODES;
use crate::sharing::has_node;
use csi_types::NodeId;

// Whether each node is another one than all behind it.
fn are_nodes_apart(nodes: &[NodeId]) -> bool
    ensures { result ≡ are_apart nodes.now }
{
    for (place, node) in nodes.iter().enumerate() {
        if has_node(&nodes[place + 1..], node) {
            return false;
        }
    }
    true
}

/// Whether a record may have these nodes: at most 64, all different (this profile's own). They are compared where they are few.
pub fn are_nodes_fit(nodes: &[NodeId]) -> bool
    ensures fit { result ≡ true → AreNodesFit nodes.now }
    ensures unfit { result ≡ false → AreNodesFit nodes.now → ⊥ }
{
    nodes.len() <= MAX_NODES && are_nodes_apart(nodes)
}
