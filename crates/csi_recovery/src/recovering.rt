//! An orchestrator's record, made of what its plugins keep.
ghost use Rattle.std.specs.Prelude.{◌≡◌, List, IfOk, IfErr, OnOk};
ghost use Rattle.std.specs.List.{AllByRecursion};
ghost use Rattle.csi_controller.specs.Model.State.{ControllerState};
ghost use Rattle.csi_orchestrator.specs.Public.Record.{AreNodesFit};
ghost use Rattle.csi_recovery.specs.Public.Recovered.{GivenNode, recovered as recovered_parts, recovered_rows, MayRecover};
ghost use Rattle.csi_recovery.specs.declared.fault.RecoveryFault.{RecoveryFault as Fault};
ghost use Rattle.csi_recovery.specs.Public.Judged.{IsKeptOf, AreGiven, AreFit, IsFreeRow, record_of, IsRecoveryRefusal};

use crate::fault::{RecoveryFault, fault_of};
use crate::judging::first_unfit;
use crate::rows::rows;
use csi_controller::ControllerRecord;
use csi_node::NodeRecord;
use csi_orchestrator::OrchestratorRecord;
use csi_types::{NoMemory, NodeId};
use std::alloc::Global;

/// As `recovered`, but in the record stands this session, by which what is opened from it begins the one behind that.
pub(crate) fn record_in(
    alloc: Global,
    nodes: Vec<NodeId>,
    session: u64,
    before: u64,
    controller: &ControllerRecord,
    given: &[NodeRecord],
) -> Result<OrchestratorRecord, RecoveryFault>
    ensures value { (state : ControllerState) (known : List GivenNode) → IsKeptOf controller.now state → AreGiven given.now known →
        IfOk result (λ made. made ≡ record_of (recovered_parts nodes.items before state known)) }
    ensures nodes { OnOk result (AreNodesFit nodes.items) }
    ensures may { (state : ControllerState) (known : List GivenNode) → IsKeptOf controller.now state → AreGiven given.now known →
        OnOk result (MayRecover nodes.items session state known) }
    ensures rows { (state : ControllerState) (known : List GivenNode) → IsKeptOf controller.now state → AreGiven given.now known →
        OnOk result (AllByRecursion (IsFreeRow nodes.items) (recovered_rows state known)) }
    ensures refused { (state : ControllerState) (known : List GivenNode) → IsKeptOf controller.now state → AreGiven given.now known →
        IfErr result (IsRecoveryRefusal nodes.items session state known) }
    ensures accepted { (state : ControllerState) (known : List GivenNode) → IsKeptOf controller.now state → AreGiven given.now known →
        AreNodesFit nodes.items → MayRecover nodes.items session state known → IfErr result (λ fault. fault ≡ Fault.NoMemory) }
    ensures free { (state : ControllerState) (known : List GivenNode) → IsKeptOf controller.now state → AreGiven given.now known →
        AreNodesFit nodes.items → AreFit session state known → AllByRecursion (IsFreeRow nodes.items) (recovered_rows state known) →
        IfErr result (λ fault. fault ≡ Fault.NoMemory) }
{
    if let Some(fault) = first_unfit(session, controller, given) {
        return Err(fault);
    }
    match rows(alloc, given, controller.rows()) {
        Ok(rows) => match OrchestratorRecord::try_new(alloc, nodes, before, rows) {
            Ok(made) => Ok(made),
            Err(fault) => Err(fault_of(fault)),
        },
        Err(NoMemory) => Err(RecoveryFault::NoMemory),
    }
}

/// The record of the orchestrator with this list of nodes and this session, made of the controller's record and of those of the nodes whose
/// stores are given, after its own store was lost (this profile's own). A node without a record here is lost. Each live volume has a row, by
/// rising id: it is made, with the capacity that it has and no limit, and has an entry for each of its holdings. At a node that is given it is
/// staged and published as there; where it is staged and published nowhere it may be staged, and its stop, at the target `/`, is wanted.
///
/// It is refused, and the first of these that holds is told: with `SameNode` at the first record that is of the node of an earlier one; with
/// `NotLater` where the session isn't later than the controller's and each node's; with `Disagrees` at the first node at which a volume is
/// staged that isn't attached there in that capability, or is published with another flag than it is attached with; with `BadNodes` for more
/// than 64 nodes or one that stands there twice; with `BadRow` at the first live volume, counted by rising id, that is staged at a node that
/// isn't among these, or staged and published nowhere at two nodes. It is refused with `NoMemory` where an allocation was, once the records
/// were judged. The plugins stay as they are: they are raised to this session before an orchestrator is opened from the record
/// (`Controller::raise`, `Node::raise`).
pub fn recovered(
    alloc: Global,
    nodes: Vec<NodeId>,
    session: u64,
    controller: &ControllerRecord,
    given: &[NodeRecord],
) -> Result<OrchestratorRecord, RecoveryFault>
    ensures value { (state : ControllerState) (known : List GivenNode) → IsKeptOf controller.now state → AreGiven given.now known →
        IfOk result (λ made. made ≡ record_of (recovered_parts nodes.items session state known)) }
    ensures nodes { OnOk result (AreNodesFit nodes.items) }
    ensures may { (state : ControllerState) (known : List GivenNode) → IsKeptOf controller.now state → AreGiven given.now known →
        OnOk result (MayRecover nodes.items session state known) }
    ensures rows { (state : ControllerState) (known : List GivenNode) → IsKeptOf controller.now state → AreGiven given.now known →
        OnOk result (AllByRecursion (IsFreeRow nodes.items) (recovered_rows state known)) }
    ensures refused { (state : ControllerState) (known : List GivenNode) → IsKeptOf controller.now state → AreGiven given.now known →
        IfErr result (IsRecoveryRefusal nodes.items session state known) }
    ensures accepted { (state : ControllerState) (known : List GivenNode) → IsKeptOf controller.now state → AreGiven given.now known →
        AreNodesFit nodes.items → MayRecover nodes.items session state known → IfErr result (λ fault. fault ≡ Fault.NoMemory) }
    ensures free { (state : ControllerState) (known : List GivenNode) → IsKeptOf controller.now state → AreGiven given.now known →
        AreNodesFit nodes.items → AreFit session state known → AllByRecursion (IsFreeRow nodes.items) (recovered_rows state known) →
        IfErr result (λ fault. fault ≡ Fault.NoMemory) }
{
    record_in(alloc, nodes, session, session, controller, given)
}
