//! An orchestrator that is made of what the plugins of handles keep, and the session of a recovery.
ghost use Rattle.std.specs.Prelude.{◌≡◌, IfOk, IfErr};
ghost use Rattle.csi_embedded.specs.Public.Making.{EndsDone};
ghost use Rattle.csi_embedded.specs.Public.Raising.{RaisesOne};
ghost use Rattle.csi_embedded.specs.Public.Recovering.{had_by, is_controller, is_node, TellsSession, IsRecovered, IsNotRecovered};
ghost use Rattle.csi_embedded.specs.Private.Recovering.{IsControllerRecord, IsNodeRecord, HasRecord, HasNoRecord, HaveRecords, HaveNoRecords};
ghost use Rattle.csi_embedded.specs.Private.Recovering.{IsMadeOf, IsUnmadeOf, EndsUnrecovered, IsOpenedNew, IsNotOpenedNew};

use crate::embedded::Embedded;
use crate::ending::CallEnding;
use crate::handle::Handle;
use crate::orchestrator_making::{embedded, nodes_of};
use csi_controller::ControllerRecord;
use csi_node::NodeRecord;
use csi_orchestrator::OrchestratorRecord;
use csi_recovery::{RecoveryFault, recovered, recovery_session};
use csi_service::{OrchestratorService, OrchestratorUnopened};
use csi_types::NodeId;
use std::alloc::Global;

/// Raises the session in a plugin.
pub(crate) fn raise(embedded: &mut Embedded, session: u64) -> CallEnding
    ensures { RaisesOne session embedded.old embedded.new result }
{
    if embedded.is_orchestrator() {
        return CallEnding::OtherKind;
    }
    match embedded.raise(session) {
        Ok(()) => CallEnding::Done,
        Err(_) => CallEnding::NoMemory,
    }
}

// The record of the controller that the handle has.
fn controller_record(alloc: Global, handle: &mut Handle) -> Result<ControllerRecord, CallEnding>
    ensures kept { IfOk result (HasRecord IsControllerRecord handle.old.held.embedded) }
    ensures none { IfErr result (HasNoRecord is_controller handle.old.held.embedded) }
    ensures same { handle.new.held.embedded ≡ handle.old.held.embedded }
{
    match handle.take(alloc) {
        Some(embedded) => {
            let kept = embedded.plugin.controller_record();
            *handle = Handle::of(embedded);
            kept
        }
        None => Err(CallEnding::Empty),
    }
}

// The record of the node that the handle has.
fn node_record(alloc: Global, handle: &mut Handle) -> Result<NodeRecord, CallEnding>
    ensures kept { IfOk result (HasRecord IsNodeRecord handle.old.held.embedded) }
    ensures none { IfErr result (HasNoRecord is_node handle.old.held.embedded) }
    ensures same { handle.new.held.embedded ≡ handle.old.held.embedded }
{
    match handle.take(alloc) {
        Some(embedded) => {
            let kept = embedded.plugin.node_record();
            *handle = Handle::of(embedded);
            kept
        }
        None => Err(CallEnding::Empty),
    }
}

// The records of the nodes that the handles have.
fn node_records(alloc: Global, nodes: &mut [Handle]) -> Result<Vec<NodeRecord>, CallEnding>
    ensures kept { IfOk result (λ given. HaveRecords (had_by nodes.old) given.items) }
    ensures none { IfErr result (HaveNoRecords (had_by nodes.old)) }
    ensures same { had_by nodes.new ≡ had_by nodes.old }
{
    let mut given = Vec::new(alloc);
    for index in 0..nodes.len() {
        let kept = node_record(alloc, &mut nodes[index])?;
        match given.push(kept) {
            Ok(()) => {}
            Err(_) => return Err(CallEnding::NoMemory),
        }
    }
    Ok(given)
}

/// The session in which an orchestrator is recovered of what the handles have, if one is left: above all that was heard of, and this one.
pub(crate) fn session_above(
    alloc: Global,
    known: u64,
    controller: &mut Handle,
    nodes: &mut [Handle],
    session: &mut u64,
) -> CallEnding
    ensures told { TellsSession known controller.old.held.embedded (had_by nodes.old) session.new result }
    ensures controller { controller.new.held.embedded ≡ controller.old.held.embedded }
    ensures nodes { had_by nodes.new ≡ had_by nodes.old }
{
    let kept = match controller_record(alloc, controller) {
        Ok(kept) => kept,
        Err(ending) => return ending,
    };
    let given = match node_records(alloc, nodes) {
        Ok(given) => given,
        Err(ending) => return ending,
    };
    match recovery_session(known, &kept, &given) {
        Some(above) => {
            *session = above;
            CallEnding::Done
        }
        None => CallEnding::Refused,
    }
}

// How a call ends for which nothing was recovered, and the place that it tells.
fn refuse(fault: RecoveryFault, place: &mut u64) -> CallEnding
    ensures { EndsUnrecovered fault place.new result }
{
    match fault {
        RecoveryFault::SameNode(at) => {
            *place = at;
            CallEnding::SameNode
        }
        RecoveryFault::NotLater => CallEnding::NotLater,
        RecoveryFault::Disagrees(at) => {
            *place = at;
            CallEnding::Disagrees
        }
        RecoveryFault::BadNodes => CallEnding::BadName,
        RecoveryFault::BadRow(at) => {
            *place = at;
            CallEnding::BadRow
        }
        RecoveryFault::NoMemory => CallEnding::NoMemory,
    }
}

// The orchestrator of a record that no store has yet, with these nodes.
fn opened_new(
    alloc: Global,
    kept: OrchestratorRecord,
    nodes: Vec<NodeId>,
) -> Result<Embedded, CallEnding>
    ensures made { IfOk result (IsOpenedNew kept nodes.items) }
    ensures refused { IfErr result (IsNotOpenedNew kept nodes.items) }
{
    let service = match OrchestratorService::from_new_record(alloc, kept, nodes) {
        Ok(service) => service,
        Err(OrchestratorUnopened::BadNodes) => return Err(CallEnding::BadName),
        Err(_) => return Err(CallEnding::Refused),
    };
    match embedded(alloc, service) {
        Ok(made) => Ok(made),
        Err(_) => Err(CallEnding::NoMemory),
    }
}

// The orchestrator that is recovered of the records, with these nodes, which are handed over twice.
fn of_records(
    alloc: Global,
    nodes: Vec<NodeId>,
    again: Vec<NodeId>,
    session: u64,
    controller: &ControllerRecord,
    given: &[NodeRecord],
    place: &mut u64,
) -> Result<Embedded, CallEnding>
    requires { again.items ≡ nodes.items }
    ensures made { IfOk result (IsMadeOf nodes.items session controller.now given.now) }
    ensures refused { IfErr result (IsUnmadeOf nodes.items session controller.now given.now place.new) }
{
    match recovered(alloc, nodes, session, controller, given) {
        Ok(kept) => opened_new(alloc, kept, again),
        Err(fault) => Err(refuse(fault, place)),
    }
}

/// The orchestrator of the configuration's nodes that is recovered of what the handles have, in the session after this one. The store has to
/// be given its whole record. The handles stay as they are.
pub(crate) fn recovered_orchestrator(
    alloc: Global,
    config: &[u8],
    session: u64,
    controller: &mut Handle,
    nodes: &mut [Handle],
    place: &mut u64,
) -> Result<(Embedded, CallEnding), CallEnding>
    ensures made { IfOk result (λ made. IsRecovered config.now session controller.old.held.embedded (had_by nodes.old) made.0 × EndsDone made.1) }
    ensures refused { IfErr result (IsNotRecovered config.now session controller.old.held.embedded (had_by nodes.old) place.new) }
    ensures controller { controller.new.held.embedded ≡ controller.old.held.embedded }
    ensures nodes { had_by nodes.new ≡ had_by nodes.old }
{
    let listed = nodes_of(alloc, config)?;
    let again = nodes_of(alloc, config)?;
    let kept = controller_record(alloc, controller)?;
    let given = node_records(alloc, nodes)?;
    match of_records(alloc, listed, again, session, &kept, &given, place) {
        Ok(made) => Ok((made, CallEnding::Done)),
        Err(ending) => Err(ending),
    }
}
