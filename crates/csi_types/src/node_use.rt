//! Uses of a volume at nodes, lent, and which two of them can be held together.
ghost use Rattle.std.specs.Prelude.{◌≡◌, ◌↔◌, ◌&&◌, ℕ, IsTrue};
ghost use Rattle.csi_types.specs.Public.Holding.{CanHoldBoth};
ghost use Rattle.csi_types.specs.Model.Holding.{is_compatible};
ghost use Rattle.csi_types.specs.Public.Lent.{lent_capability};
ghost use Rattle.csi_types.specs.Public.NodeUse.{holding_of};
ghost use Rattle.csi_types.specs.Model.Same.{same_capability as is_same_capability, same_flag};

use crate::capability::same_capability;
use crate::lent::CapabilityRef;
use crate::sharing::can_share;

/// How a volume is used at a node: what a `Holding` says beside its volume, lent (CSI's spec.md,
/// "ControllerPublishVolume").
#[derive(Clone, Copy)]
pub struct NodeUse<'a> {
    pub node: &'a str,
    pub capability: CapabilityRef<'a>,
    pub readonly: bool,
}

// Whether both are set, or neither is.
fn same_readonly(a: bool, b: bool) -> bool
    ensures { result ≡ same_flag a b }
{
    a == b
}

/// Whether the two ways to publish a volume are one: the same capability, and both readonly or neither
/// (CSI's spec.md, "ControllerPublishVolume" and "NodePublishVolume"). It takes no memory.
pub fn same_way(
    capability: CapabilityRef,
    readonly: bool,
    other: CapabilityRef,
    other_readonly: bool,
) -> bool
    ensures { result ≡ (is_same_capability (lent_capability capability.entry) (lent_capability other.entry) && same_flag readonly other_readonly) }
{
    same_capability(capability, other) && same_readonly(readonly, other_readonly)
}

// Whether the two can be held together, as the test says.
fn are_compatible(first: NodeUse, second: NodeUse) -> bool
    ensures { (id : ℕ) → result ≡ is_compatible (holding_of id first.entry) (holding_of id second.entry) }
{
    let (capability, other) = (first.capability, second.capability);
    if first.node == second.node {
        return same_way(capability, first.readonly, other, second.readonly);
    }
    can_share(capability.mode, first.readonly, other.mode, second.readonly)
}

/// Whether a volume can be used in both ways at once: they are the same use, or are at different nodes,
/// both in modes for several nodes, and don't both write where one of the modes has a single writer. It
/// is what `can_hold_both` says of the holdings of one volume. It takes no memory.
pub fn can_use_both(first: NodeUse, second: NodeUse) -> bool
    ensures relation { (id : ℕ) → IsTrue result ↔ CanHoldBoth (holding_of id first.entry) (holding_of id second.entry) }
    ensures test { (id : ℕ) → result ≡ is_compatible (holding_of id first.entry) (holding_of id second.entry) }
{
    are_compatible(first, second)
}
