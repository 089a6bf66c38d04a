//! Whether a node's record agrees with the controller's.
ghost use Rattle.std.specs.Prelude.{◌≡◌, true, false, List, MatchOption, IfNone};
ghost use Rattle.std.specs.List.{AllByRecursion, list_all};
ghost use Rattle.std.specs.Option.{option_copied};
ghost use Rattle.csi_controller.specs.Model.State.{ControllerState};
ghost use Rattle.csi_controller.specs.Public.Core.{AreRisingRows};
ghost use Rattle.csi_node.specs.Model.Record.{parts};
ghost use Rattle.csi_node.specs.Public.Record.{AreSoundRows};
ghost use Rattle.csi_recovery.specs.Public.Recovered.{GivenNode, Agree};
ghost use Rattle.csi_recovery.specs.Public.Judged.{IsKeptOf, IsGiven, AreGiven, DoAgree, IsFirst};
ghost use Rattle.csi_recovery.specs.Private.Walks.{has_flag as is_flagged, fits_holding as is_held_so, fits_row as is_fit};

use crate::finding::held_at;
use csi_controller::{ControllerRecord, ControllerRow, NodeHolding};
use csi_node::{NodeRecord, NodeRow, NodeTarget};
use csi_types::{Capability, NodeId, same_capability};

// Whether the target has this flag.
fn has_flag(readonly: bool, there: &NodeTarget) -> bool
    ensures { result ≡ is_flagged readonly there.now }
{
    there.readonly == readonly
}

// Whether each target has it.
fn have_flag(readonly: bool, targets: &[NodeTarget]) -> bool
    ensures { result ≡ list_all (is_flagged readonly) targets.now }
{
    for there in targets {
        if !has_flag(readonly, there) {
            return false;
        }
    }
    true
}

// Whether what is staged in this capability and published at these targets goes with how it is held.
fn fits_holding(capability: &Capability, targets: &[NodeTarget], held: Option<&NodeHolding>) -> bool
    ensures { result ≡ is_held_so capability.now targets.now (option_copied held.entry) }
{
    match held {
        Some(held) => {
            same_capability(held.capability.lend(), capability.lend())
                && have_flag(held.readonly, targets)
        }
        None => false,
    }
}

// Whether a row of this node goes with the controller's rows.
fn fits_row(rows: &[ControllerRow], node: &NodeId, row: &NodeRow) -> bool
    requires { AreRisingRows rows.now }
    ensures { result ≡ is_fit rows.now node.now row.now }
{
    match &row.staged {
        Some(capability) => fits_holding(
            capability,
            row.targets.as_slice(),
            held_at(rows, row.id, node),
        ),
        None => true,
    }
}

// Whether each row of the node does.
fn fits(rows: &[ControllerRow], node: &NodeId, own: &[NodeRow]) -> bool
    requires { AreRisingRows rows.now }
    ensures { result ≡ list_all (is_fit rows.now node.now) own.now }
{
    for row in own {
        if !fits_row(rows, node, row) {
            return false;
        }
    }
    true
}

// Whether the node's record agrees with the controller's.
fn agrees(controller: &ControllerRecord, kept: &NodeRecord) -> bool
    ensures yes { (state : ControllerState) (node : GivenNode) → IsKeptOf controller.now state → IsGiven kept.now node → result ≡ true → Agree state node }
    ensures no { (state : ControllerState) (node : GivenNode) → IsKeptOf controller.now state → IsGiven kept.now node → result ≡ false → Agree state node → ⊥ }
    ensures rules { AreSoundRows (parts kept.now.rows) }
{
    fits(controller.rows(), kept.id(), kept.rows())
}

/// The place, counted from 1, of the first node's record that disagrees with the controller's.
pub(crate) fn first_disagreeing(controller: &ControllerRecord, given: &[NodeRecord]) -> Option<u64>
    ensures agree { (state : ControllerState) (known : List GivenNode) → IsKeptOf controller.now state → AreGiven given.now known →
        MatchOption result (DoAgree state known) (IsFirst (DoAgree state) known) }
    ensures rules { IfNone result (AllByRecursion (λ kept. AreSoundRows (parts kept.rows)) given.now) }
{
    for (index, kept) in given.iter().enumerate() {
        let place = index as u64 + 1;
        if !agrees(controller, kept) {
            return Some(place);
        }
    }
    None
}
