//! Whether an orchestrator may be made of these records, as far as its rows don't say it.
ghost use Rattle.std.specs.Prelude.{◌≡◌, ◌&&◌, List, nat_lt, MatchOption, IfNone};
ghost use Rattle.std.specs.List.{AllByRecursion, list_all, list_any};
ghost use Rattle.csi_types.specs.Model.Same.{same_text};
ghost use Rattle.csi_controller.specs.Model.State.{ControllerState};
ghost use Rattle.csi_node.specs.Model.Record.{parts};
ghost use Rattle.csi_node.specs.Public.Record.{AreSoundRows};
ghost use Rattle.csi_recovery.specs.Public.Recovered.{GivenNode};
ghost use Rattle.csi_recovery.specs.Public.Rebuilding.{AreLike, IsUnlike};
ghost use Rattle.csi_recovery.specs.Public.Judged.{IsKeptOf, AreGiven, HaveDistinctNodes, IsFirst, AreFit, IsUnfit};

use crate::agreeing::first_disagreeing;
use crate::fault::RecoveryFault;
use csi_controller::ControllerRecord;
use csi_node::NodeRecord;
use csi_types::NodeId;

// Whether one of these records is of the node.
fn has_record(given: &[NodeRecord], node: &NodeId) -> bool
    ensures { result ≡ list_any (λ kept. same_text kept.id node.now) given.now }
{
    given.iter().any(|kept| kept.id().as_str() == node.as_str())
}

// The place, counted from 1, of the first record that is of the node of an earlier one. They are compared where they are few.
fn first_same(given: &[NodeRecord]) -> Option<u64>
    ensures { (known : List GivenNode) → AreGiven given.now known → MatchOption result (HaveDistinctNodes known) (IsFirst HaveDistinctNodes known) }
{
    for (index, kept) in given.iter().enumerate() {
        let place = index as u64 + 1;
        if has_record(&given[..index], kept.id()) {
            return Some(place);
        }
    }
    None
}

// Whether the session is later than that of each of these.
fn is_after_each(session: u64, given: &[NodeRecord]) -> bool
    ensures { result ≡ list_all (λ kept. nat_lt kept.session session) given.now }
{
    for kept in given {
        if kept.session() >= session {
            return false;
        }
    }
    true
}

// Whether the session is later than all that were heard of.
fn is_after(session: u64, controller: &ControllerRecord, given: &[NodeRecord]) -> bool
    ensures { result ≡ (nat_lt controller.now.session session && list_all (λ kept. nat_lt kept.session session) given.now) }
{
    controller.session() < session && is_after_each(session, given)
}

/// Why nothing is made of these records in this session, if they are unfit for it. It takes no memory.
pub(crate) fn first_unfit(
    session: u64,
    controller: &ControllerRecord,
    given: &[NodeRecord],
) -> Option<RecoveryFault>
    ensures fit { (state : ControllerState) (known : List GivenNode) → IsKeptOf controller.now state → AreGiven given.now known →
        MatchOption result (AreFit session state known) (IsUnfit session state known) }
    ensures rules { IfNone result (AllByRecursion (λ kept. AreSoundRows (parts kept.rows)) given.now) }
{
    if let Some(place) = first_same(given) {
        return Some(RecoveryFault::SameNode(place));
    }
    if !is_after(session, controller, given) {
        return Some(RecoveryFault::NotLater);
    }
    match first_disagreeing(controller, given) {
        Some(place) => Some(RecoveryFault::Disagrees(place)),
        None => None,
    }
}

/// Why these nodes' records don't go with this controller's, which was made of an orchestrator's, if they don't: the first of these that holds.
/// `SameNode` tells the first record that is of the node of an earlier one; `NotLater` that a node heard of a session that isn't before the
/// controller's, so that the orchestrator's record is an older one; `Disagrees` the first node at which a volume is staged that isn't held there in
/// that capability, or is published with another flag. It takes no memory. This profile's own.
pub fn first_unlike(controller: &ControllerRecord, given: &[NodeRecord]) -> Option<RecoveryFault>
    ensures { (state : ControllerState) (known : List GivenNode) → IsKeptOf controller.now state → AreGiven given.now known →
        MatchOption result (AreLike state known) (IsUnlike state known) }
{
    if let Some(place) = first_same(given) {
        return Some(RecoveryFault::SameNode(place));
    }
    if !is_after_each(controller.session(), given) {
        return Some(RecoveryFault::NotLater);
    }
    match first_disagreeing(controller, given) {
        Some(place) => Some(RecoveryFault::Disagrees(place)),
        None => None,
    }
}
