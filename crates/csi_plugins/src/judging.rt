//! Whether an orchestrator is recovered of records, and how a process ends where none is.
ghost use Rattle.std.specs.Prelude.{◌≡◌, is_some, length, IfOk, IfErr};
ghost use Rattle.std.specs.List.{list_any};
ghost use Rattle.csi_types.specs.Model.Same.{same_text};
ghost use Rattle.csi_plugins.specs.Public.Recovering.{is_left_out as left_out, leave_out_used as leave_out, IsRecovered, AreRefused};
ghost use Rattle.csi_plugins.specs.Private.Recovering.{EndsByRow, EndsByFault};

use csi_controller::ControllerRecord;
use csi_node::NodeRecord;
use csi_orchestrator::OrchestratorRecord;
use csi_recovery::{RecoveryFault, recovered, recovery_session};
use csi_streams::Ending;
use csi_types::{NodeId, VolumeId};
use std::alloc::Global;

// Whether something is staged at the node.
fn is_used(kept: &NodeRecord) -> bool
    ensures { result ≡ list_any (λ row. is_some row.staged) kept.now.rows }
{
    kept.rows().iter().any(|row| row.staged.is_some())
}

// Whether the node is one of these.
fn is_listed(nodes: &[NodeId], node: &NodeId) -> bool
    ensures { result ≡ list_any (λ other. same_text other node.now) nodes.now }
{
    nodes.iter().any(|other| other.as_str() == node.as_str())
}

// Whether something is staged at the node of this record, which isn't among these.
fn is_left_out(nodes: &[NodeId], kept: &NodeRecord) -> bool
    ensures { result ≡ left_out nodes.now kept.now }
{
    is_used(kept) && !is_listed(nodes, kept.id())
}

// Whether these leave out a node at which something is staged.
fn leave_out_used(nodes: &[NodeId], given: &[NodeRecord]) -> bool
    ensures { result ≡ leave_out nodes.now given.now }
{
    given.iter().any(|kept| is_left_out(nodes, kept))
}

// The live volume of this place, counted from 1 by rising id.
fn live_volume(controller: &ControllerRecord, place: u64) -> Option<VolumeId> {
    let mut left = place;
    for row in controller.rows() {
        if row.live {
            if left <= 1 {
                return Some(row.id);
            }
            left -= 1;
        }
    }
    None
}

// Whether the volume is staged at the node and published nowhere.
fn is_unsure(kept: &NodeRecord, id: VolumeId) -> bool {
    kept.rows().iter().any(|row| row.id == id && row.staged.is_some() && row.targets.is_empty())
}

// The place among the words of the second of these stores that has the volume staged and published nowhere; the last one's, if there are fewer.
fn second_unsure(given: &[NodeRecord], id: VolumeId) -> u64 {
    let mut is_first = true;
    for (index, kept) in given.iter().enumerate() {
        if is_unsure(kept, id) {
            if !is_first {
                return index as u64 + 2;
            }
            is_first = false;
        }
    }
    given.len() as u64 + 1
}

// The ending where the live volume of this place can have no row.
fn ending_of_row(
    place: u64,
    leaves_out: bool,
    controller: &ControllerRecord,
    given: &[NodeRecord],
) -> Ending
    ensures { EndsByRow leaves_out result }
{
    if leaves_out {
        return Ending::NodeInUse;
    }
    match live_volume(controller, place) {
        Some(id) => Ending::StoresDisagree(second_unsure(given, id)),
        None => Ending::StoresDisagree(1),
    }
}

// The ending where the records are refused so.
fn ending_of_recovery(
    fault: RecoveryFault,
    leaves_out: bool,
    controller: &ControllerRecord,
    given: &[NodeRecord],
) -> Ending
    ensures { EndsByFault leaves_out (length given.now) fault result }
{
    let count = given.len() as u64;
    match fault {
        RecoveryFault::SameNode(place) => Ending::StoresDisagree(place.min(count) + 1),
        RecoveryFault::NotLater => Ending::NumbersSpent,
        RecoveryFault::Disagrees(place) => Ending::StoresDisagree(place.min(count) + 1),
        RecoveryFault::BadNodes => Ending::ConfigRefused,
        RecoveryFault::BadRow(place) => ending_of_row(place, leaves_out, controller, given),
        RecoveryFault::NoMemory => Ending::Memory,
    }
}

/// The orchestrator's record, in the session of the recovery.
pub(crate) fn judged(
    alloc: Global,
    nodes: Vec<NodeId>,
    known: u64,
    controller: &ControllerRecord,
    given: &[NodeRecord],
) -> Result<OrchestratorRecord, Ending>
    ensures made { IfOk result (λ made. IsRecovered nodes.items known made.session controller.now given.now made) }
    ensures refused { IfErr result (AreRefused nodes.items known controller.now given.now) }
{
    let Some(session) = recovery_session(known, controller, given) else {
        return Err(Ending::NumbersSpent);
    };
    let leaves_out = leave_out_used(&nodes, given);
    match recovered(alloc, nodes, session, controller, given) {
        Ok(made) => Ok(made),
        Err(fault) => Err(ending_of_recovery(fault, leaves_out, controller, given)),
    }
}
