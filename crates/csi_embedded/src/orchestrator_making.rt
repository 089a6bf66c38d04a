//! Orchestrators that are made: a new one, and that of a record.
ghost use Rattle.std.specs.Prelude.{◌≡◌, IfOk, IfErr};
ghost use Rattle.csi_service.specs.Public.OrchestratorServices.{orchestrator_service_changes};
ghost use Rattle.csi_embedded.specs.Public.Calls.{told_changes};
ghost use Rattle.csi_embedded.specs.Public.Making.{EndsDone};
ghost use Rattle.csi_embedded.specs.Public.OrchestratorMaking.{AreNodesOf, node_ids, IsNewOrchestrator, IsReadOrchestrator, IsOrchestratorRecord};
ghost use Rattle.csi_embedded.specs.Public.OrchestratorMaking.{IsReopened, IsNoNodes, IsNoOrchestrator, IsNoReadOrchestrator};
ghost use Rattle.csi_embedded.specs.Public.OrchestratorMaking.{IsRecordIfAny, IsOpenedOrchestrator, IsNotOpened};
ghost use Rattle.csi_embedded.specs.Private.OrchestratorMaking.{IsNoRecord, IsNotReopened};

use crate::embedded::Embedded;
use crate::ending::CallEnding;
use crate::making::{config_of, ending_of};
use crate::plugin::HeldPlugin;
use csi_orchestrator::{OrchRecordFault, OrchestratorRecord};
use csi_records::{Stored, read_record};
use csi_service::{OrchestratorService, OrchestratorUnopened};
use csi_types::{NoMemory, NodeId, NodeSlots};
use std::alloc::Global;

// The ids of these nodes, in order.
fn ids_of(alloc: Global, nodes: &[NodeSlots]) -> Result<Vec<NodeId>, NoMemory>
    ensures { IfOk result (λ ids. ids.items ≡ node_ids nodes.now) }
{
    let mut ids = Vec::new(alloc);
    for node in nodes {
        let id = node.id.clone()?;
        ids.push(id)?;
    }
    Ok(ids)
}

/// The nodes of the configuration that these bytes say.
pub(crate) fn nodes_of(alloc: Global, config: &[u8]) -> Result<Vec<NodeId>, CallEnding>
    ensures made { IfOk result (λ ids. AreNodesOf config.now ids.items) }
    ensures refused { IfErr result (IsNoNodes config.now) }
{
    let config = match config_of(alloc, config) {
        Ok(config) => config,
        Err(ending) => return Err(ending),
    };
    match ids_of(alloc, config.nodes()) {
        Ok(ids) => Ok(ids),
        Err(_) => Err(CallEnding::NoMemory),
    }
}

/// The orchestrator, of which the store has to be given what its opening changed.
pub(crate) fn embedded(alloc: Global, service: OrchestratorService) -> Result<Embedded, NoMemory>
    ensures plugin { IfOk result (λ made. made.plugin ≡ HeldPlugin.Orchestrator service) }
    ensures told { IfOk result (λ made. told_changes made ≡ orchestrator_service_changes service) }
{
    let changed = service.parts()?;
    Ok(Embedded::new(alloc, HeldPlugin::Orchestrator(service), changed))
}

/// The orchestrator of the configuration's nodes that did nothing, in session 1. The store has to be given its record.
pub(crate) fn new_orchestrator(
    alloc: Global,
    config: &[u8],
) -> Result<(Embedded, CallEnding), CallEnding>
    ensures made { IfOk result (λ made. IsNewOrchestrator config.now made.0 × EndsDone made.1) }
    ensures refused { IfErr result (IsNoOrchestrator config.now) }
{
    let nodes = match nodes_of(alloc, config) {
        Ok(nodes) => nodes,
        Err(ending) => return Err(ending),
    };
    let service = match OrchestratorService::new(alloc, nodes) {
        Ok(service) => service,
        Err(OrchRecordFault::NoMemory) => return Err(CallEnding::NoMemory),
        Err(_) => return Err(CallEnding::BadName),
    };
    match embedded(alloc, service) {
        Ok(made) => Ok((made, CallEnding::Done)),
        Err(_) => Err(CallEnding::NoMemory),
    }
}

// The orchestrator's record whose bytes these are.
fn record_of(alloc: Global, bytes: &[u8]) -> Result<OrchestratorRecord, CallEnding>
    ensures read { IfOk result (IsOrchestratorRecord bytes.now) }
    ensures refused { IfErr result (IsNoRecord bytes.now) }
{
    match read_record::<OrchestratorRecord>(alloc, bytes) {
        Ok(Stored { kept, .. }) => Ok(kept),
        Err(stop) => Err(ending_of(stop)),
    }
}

// The same, or the record before the first session, where there are no bytes.
fn record_if_any(alloc: Global, bytes: &[u8]) -> Result<OrchestratorRecord, CallEnding>
    ensures read { IfOk result (IsRecordIfAny bytes.now) }
    ensures refused { IfErr result (IsNoRecord bytes.now) }
{
    if !bytes.is_empty() {
        return record_of(alloc, bytes);
    }
    match OrchestratorRecord::try_new(alloc, Vec::new(alloc), 0, Vec::new(alloc)) {
        Ok(new) => Ok(new),
        Err(_) => Err(CallEnding::NoMemory),
    }
}

// The orchestrator of a record, after a restart with these nodes.
fn reopened(
    alloc: Global,
    kept: OrchestratorRecord,
    nodes: Vec<NodeId>,
) -> Result<Embedded, CallEnding>
    ensures made { IfOk result (IsReopened kept nodes.items) }
    ensures refused { IfErr result (IsNotReopened kept nodes.items) }
{
    let service = match OrchestratorService::from_record(alloc, kept, nodes) {
        Ok(service) => service,
        Err(OrchestratorUnopened::BadNodes) => return Err(CallEnding::BadName),
        Err(OrchestratorUnopened::NodeInUse) => return Err(CallEnding::NodeInUse),
        Err(_) => return Err(CallEnding::Refused),
    };
    match embedded(alloc, service) {
        Ok(made) => Ok(made),
        Err(_) => Err(CallEnding::NoMemory),
    }
}

/// The orchestrator of a record's bytes, after a restart with the configuration's nodes: in the next session, without the names that are
/// forgotten. The store has to be given what that changed.
pub(crate) fn read_orchestrator(
    alloc: Global,
    config: &[u8],
    bytes: &[u8],
) -> Result<(Embedded, CallEnding), CallEnding>
    ensures made { IfOk result (λ made. IsReadOrchestrator config.now bytes.now made.0 × EndsDone made.1) }
    ensures refused { IfErr result (IsNoReadOrchestrator config.now bytes.now) }
{
    let nodes = nodes_of(alloc, config)?;
    let kept = record_of(alloc, bytes)?;
    match reopened(alloc, kept, nodes) {
        Ok(made) => Ok((made, CallEnding::Done)),
        Err(ending) => Err(ending),
    }
}

/// The orchestrator of a record's bytes, or a new one where there are none, after a restart with the configuration's nodes: in the next session,
/// or in this one, where that is later. The store has to be given what that changed.
pub(crate) fn open_orchestrator(
    alloc: Global,
    config: &[u8],
    bytes: &[u8],
    session: u64,
) -> Result<(Embedded, CallEnding), CallEnding>
    ensures made { IfOk result (λ made. IsOpenedOrchestrator config.now bytes.now session made.0 × EndsDone made.1) }
    ensures refused { IfErr result (IsNotOpened config.now bytes.now session) }
{
    let nodes = nodes_of(alloc, config)?;
    let mut kept = record_if_any(alloc, bytes)?;
    kept.raise(session.saturating_sub(1));
    match reopened(alloc, kept, nodes) {
        Ok(made) => Ok((made, CallEnding::Done)),
        Err(ending) => Err(ending),
    }
}
