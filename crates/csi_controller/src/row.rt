//! A controller's rows, as its record has them.
ghost use Rattle.std.specs.Prelude.{◌≡◌, IfOk};
ghost use Rattle.csi_controller.specs.Public.Core.{IsSameRow};

use csi_types::{Capability, CapabilityList, Kind, Name, NodeId, Number, Reply, VolumeId};
use std::alloc::AllocError;

/// Where a volume is held, and how.
#[derive(Debug, PartialEq, Eq, Drop)]
pub struct NodeHolding {
    pub node: NodeId,
    pub capability: Capability,
    pub readonly: bool,
}

/// A volume that the controller made, where it is held, and the latest call that was let through for it with
/// the reply that was given.
#[derive(Debug, PartialEq, Eq, Drop)]
pub struct ControllerRow {
    pub id: VolumeId,
    /// Whether it wasn't deleted since.
    pub live: bool,
    pub name: Name,
    /// In bytes.
    pub capacity: u64,
    pub capabilities: CapabilityList,
    /// In the order in which the volume was published at the nodes.
    pub holdings: Vec<NodeHolding>,
    pub last: Number,
    pub kind: Kind,
    pub reply: Reply,
}

impl Clone for NodeHolding {
    ghost is_clone = { λ held copy. copy ≡ held };

    fn clone(&self) -> Result<NodeHolding, AllocError> {
        let node = self.node.clone()?;
        let capability = self.capability.clone()?;
        Ok(NodeHolding {
            node,
            capability,
            readonly: self.readonly,
        })
    }
}

// The same capabilities again.
fn copied_capabilities(list: &CapabilityList) -> Result<CapabilityList, AllocError>
    ensures { IfOk result (λ copy. copy ≡ list.now) }
{
    list.clone()
}

// The same holdings again.
fn copied_holdings(holdings: &Vec<NodeHolding>) -> Result<Vec<NodeHolding>, AllocError>
    ensures { IfOk result (λ copy. copy.items ≡ holdings.now.items) }
{
    holdings.clone()
}

impl Clone for ControllerRow {
    ghost is_clone = { IsSameRow };

    fn clone(&self) -> Result<ControllerRow, AllocError> {
        let name = self.name.clone()?;
        let capabilities = copied_capabilities(&self.capabilities)?;
        let holdings = copied_holdings(&self.holdings)?;
        let reply = self.reply.clone()?;
        Ok(ControllerRow {
            id: self.id,
            live: self.live,
            name,
            capacity: self.capacity,
            capabilities,
            holdings,
            last: self.last,
            kind: self.kind,
            reply,
        })
    }
}
