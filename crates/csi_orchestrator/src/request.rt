//! What a caller asks of a volume.
use csi_types::{Capability, CapabilityList, NodeId, Target};

/// What a volume is to be created with, in bytes.
#[derive(Drop)]
pub struct Arguments {
    pub required: u64,
    /// 0 for none.
    pub limit: u64,
    pub capabilities: CapabilityList,
}

/// Where and how a volume is to be used.
#[derive(Drop)]
pub struct Usage {
    pub node: NodeId,
    pub target: Target,
    pub capability: Capability,
    pub readonly: bool,
}
