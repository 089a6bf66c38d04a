//! What a call changes in the row of its volume.
ghost use Rattle.std.specs.Prelude.{◌≡◌, not, filter, IfOk};
ghost use Rattle.csi_types.specs.Model.Same.{same_text};
ghost use Rattle.csi_controller.specs.Private.OneRow.{held_so};

use crate::row::NodeHolding;
use csi_fence::CoreFault;
use csi_types::{NodeId, NodeUse};
use std::alloc::Global;

/// A use of the volume at a node, as its row holds it.
pub fn held(alloc: Global, wanted: NodeUse) -> Result<NodeHolding, CoreFault>
    ensures { IfOk result (λ held. held ≡ held_so wanted.entry) }
{
    let readonly = wanted.readonly;
    let Ok(node) = NodeId::try_new(alloc, wanted.node) else {
        return Err(CoreFault::NoMemory);
    };
    match wanted.capability.to_capability(alloc) {
        Ok(capability) => Ok(NodeHolding {
            node,
            capability,
            readonly,
        }),
        Err(_) => Err(CoreFault::NoMemory),
    }
}

/// Takes out what is held at the node. The others keep their order.
pub fn take_out(holdings: &mut Vec<NodeHolding>, node: &str)
    ensures { holdings.new.items ≡ filter (λ held. not (same_text held.node node.now)) holdings.old.items }
{
    holdings.retain(|held| held.node.as_str() != node);
}
