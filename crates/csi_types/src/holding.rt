//! Holdings: which volume is published at which node, and how.
ghost use Rattle.std.specs.Prelude.{◌≡◌, ◌↔◌, IsTrue};
ghost use Rattle.csi_types.specs.Public.Holding.{CanHoldBoth};
ghost use Rattle.csi_types.specs.Model.Holding.{is_compatible};

use crate::capability::Capability;
use crate::node_use::same_way;
use crate::sharing::can_share;
use crate::text::NodeId;
use crate::volume_id::VolumeId;

/// A volume that is published at a node by the controller, and how (CSI's spec.md,
/// "ControllerPublishVolume").
#[derive(Clone, Debug, PartialEq, Eq, Drop)]
pub struct Holding {
    pub volume: VolumeId,
    pub node: NodeId,
    pub capability: Capability,
    pub readonly: bool,
}

// Whether the two can be held together, as the test says.
fn are_compatible(first: &Holding, second: &Holding) -> bool
    ensures { result ≡ is_compatible first.now second.now }
{
    let (own, other) = (first.capability.lend(), second.capability.lend());
    if first.node == second.node {
        return first.volume == second.volume
            && same_way(own, first.readonly, other, second.readonly);
    }
    can_share(own.mode, first.readonly, other.mode, second.readonly)
}

/// Whether the two can be held together: they are the same holding, or are at different nodes, both in
/// modes for several nodes, and don't both write where one of the modes has a single writer. It takes no
/// memory.
pub fn can_hold_both(first: &Holding, second: &Holding) -> bool
    ensures relation { IsTrue result ↔ CanHoldBoth first.now second.now }
    ensures test { result ≡ is_compatible first.now second.now }
{
    are_compatible(first, second)
}
