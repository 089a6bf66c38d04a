//! Where the volume of a row is held, and how.
ghost use Rattle.std.specs.Prelude.{◌≡◌, ℕ, not};
ghost use Rattle.std.specs.List.{find, list_any};
ghost use Rattle.std.specs.Option.{option_copied};
ghost use Rattle.csi_types.specs.Model.Holding.{same_holding, is_compatible};
ghost use Rattle.csi_types.specs.Model.Same.{same_text};
ghost use Rattle.csi_controller.specs.Public.Core.{volume_holding};
ghost use Rattle.csi_controller.specs.Private.OneRow.{held_so};

use crate::row::{ControllerRow, NodeHolding};
use csi_types::{NodeUse, can_use_both, same_way};

/// The most nodes at which a volume is held.
pub const MAX_HOLDINGS: usize = 64;

/// Whether the volume is held so: at this node, with this capability and flag.
pub fn is_held_so(held: &NodeHolding, wanted: NodeUse) -> bool
    ensures { (id : ℕ) → result ≡ same_holding (volume_holding id held.now) (volume_holding id (held_so wanted.entry)) }
{
    held.node.as_str() == wanted.node
        && same_way(
            held.capability.lend(),
            held.readonly,
            wanted.capability,
            wanted.readonly,
        )
}

/// A holding of the row, lent.
pub fn use_of(held: &NodeHolding) -> NodeUse<'_>
    ensures { held_so result ≡ held.now }
{
    NodeUse {
        node: held.node.as_str(),
        capability: held.capability.lend(),
        readonly: held.readonly,
    }
}

/// How the volume is held at the node, if it is.
pub fn held_at<'a>(row: &'a ControllerRow, node: &str) -> Option<&'a NodeHolding>
    ensures { option_copied result ≡ find (λ held. same_text held.node node.now) row.now.holdings.items }
{
    row.holdings.iter().find(|held| held.node.as_str() == node)
}

/// Whether the volume is held at the node.
pub fn is_held_at(row: &ControllerRow, node: &str) -> bool
    ensures { result ≡ list_any (λ held. same_text held.node node.now) row.now.holdings.items }
{
    held_at(row, node).is_some()
}

/// The first holding that can't be held with this one.
pub fn excluding<'a>(row: &'a ControllerRow, wanted: NodeUse) -> Option<&'a NodeHolding>
    ensures { option_copied result ≡ find (λ other. not (is_compatible (volume_holding row.now.id (held_so wanted.entry))
        (volume_holding row.now.id other))) row.now.holdings.items }
{
    row.holdings
        .iter()
        .find(|held| !can_use_both(wanted, use_of(held)))
}
