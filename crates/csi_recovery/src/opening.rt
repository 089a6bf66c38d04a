//! The orchestrator itself, as its record's first session has it.
ghost use Rattle.std.specs.Prelude.{◌≡◌, ◌≤◌, ◌+◌, List, IfOk, IfErr, OnOk};
ghost use Rattle.csi_controller.specs.Model.State.{ControllerState};
ghost use Rattle.csi_recovery.specs.Public.Recovered.{GivenNode, recovered as recovered_parts, MayRecover};
ghost use Rattle.csi_recovery.specs.Public.Judged.{IsKeptOf, AreGiven};
ghost use Rattle.csi_recovery.specs.Public.Worlds.{MayRefuse};

use crate::fault::RecoveryFault;
use crate::recovering::record_in;
use csi_controller::ControllerRecord;
use csi_node::NodeRecord;
use csi_orchestrator::Orchestrator;
use csi_types::NodeId;
use std::alloc::Global;

// The session before this one, if there is one.
fn before(session: u64) -> u64
    ensures { 1 ≤ session → result + 1 ≡ session }
{
    session.saturating_sub(1)
}

/// The orchestrator that `recovered` makes a record of, before its first call in this session, with these nodes, which are handed over
/// twice. It is refused as there, and with `NoMemory` at any time.
pub(crate) fn opened(
    alloc: Global,
    nodes: Vec<NodeId>,
    again: Vec<NodeId>,
    session: u64,
    controller: &ControllerRecord,
    given: &[NodeRecord],
) -> Result<Orchestrator, RecoveryFault>
    requires { again.items ≡ nodes.items }
    ensures value { (state : ControllerState) (known : List GivenNode) → IsKeptOf controller.now state → AreGiven given.now known →
        IfOk result (λ made. made ≡ recovered_parts nodes.items session state known) }
    ensures may { (state : ControllerState) (known : List GivenNode) → IsKeptOf controller.now state → AreGiven given.now known →
        OnOk result (MayRecover nodes.items session state known) }
    ensures refused { (state : ControllerState) (known : List GivenNode) → IsKeptOf controller.now state → AreGiven given.now known →
        IfErr result (MayRefuse nodes.items session state known) }
{
    match record_in(alloc, nodes, session, before(session), controller, given) {
        Ok(kept) => match Orchestrator::from_record(alloc, kept, again) {
            Ok(made) => Ok(made),
            // It isn't refused: each of its nodes is listed, and a session is left.
            Err(_) => Err(RecoveryFault::NoMemory),
        },
        Err(fault) => Err(fault),
    }
}
