//! An orchestrator, made of the parts of a store.
ghost use Rattle.std.specs.Prelude.{◌≡◌, ◌-◌, ◌<◌, ◌^◌, IfOk, IfErr, map};
ghost use Rattle.csi_orchestrator.specs.Public.Record.{AreNodesFit};
ghost use Rattle.csi_orchestrator.specs.Public.Restored.{AreRestorable};
ghost use Rattle.csi_stores.specs.Public.Part.{part_change};
ghost use Rattle.csi_service.specs.Private.OrchestratorOpening.{IsBegun};

use crate::opening::Opens;
use crate::orchestrator_service::OrchestratorService;
use csi_orchestrator::{OrchFault, OrchestratorRecord, are_nodes_fit};
use csi_records::{Record, RecordStop, Stored};
use csi_stores::Part;
use csi_types::NodeId;
use std::alloc::Global;

/// What an orchestrator is opened with: its nodes, and the session that begins, where that is later than the next one.
#[derive(Drop)]
pub(crate) struct AskedOrchestrator {
    pub nodes: Vec<NodeId>,
    pub least: u64,
}

/// An orchestrator, or why none is made of parts that are a record, or of none.
#[derive(Drop)]
pub(crate) enum OrchestratorMade {
    /// It is in the next session.
    Opened(OrchestratorService),
    /// No orchestrator that is served has the nodes that are asked for.
    BadNodes,
    /// The record's session is the last one.
    NumbersSpent,
    /// A volume may be attached at a node of the record that isn't asked for.
    NodeInUse,
}

// The orchestrator of a record, in its next session, with these nodes; and what is to be committed.
fn begun(
    alloc: Global,
    kept: OrchestratorRecord,
    nodes: Vec<NodeId>,
) -> Result<(OrchestratorMade, Vec<Part>), RecordStop>
    requires { AreNodesFit nodes.items }
    ensures made { IfOk result (λ made. IsBegun kept nodes.items made.0 (map part_change made.1.items)) }
    ensures memory { IfErr result (λ stop. stop ≡ RecordStop.NoMemory) }
    ensures rows { AreRestorable kept.nodes kept.rows }
{
    let _rows = kept.rows();
    match OrchestratorService::of_record(alloc, kept, nodes) {
        Ok(mut service) => {
            service.record_law();
            let changed = service.take_parts()?;
            Ok((OrchestratorMade::Opened(service), changed))
        }
        Err(OrchFault::NodeInUse) => Ok((OrchestratorMade::NodeInUse, Vec::new(alloc))),
        Err(_) => Ok((OrchestratorMade::NumbersSpent, Vec::new(alloc))),
    }
}

// The session before this one, 0 before 0.
fn session_before(session: u64) -> u64
    ensures value { result ≡ session - 1 }
    ensures word { session < 2 ^ 64 }
{
    session.saturating_sub(1)
}

impl Opens for OrchestratorMade {
    ghost use Rattle.csi_service.specs.Private.OrchestratorOpening.{orchestrator_opening, IsNewlyMade};

    type Asked = AskedOrchestrator;

    ghost opening = { λ asked. orchestrator_opening asked.least asked.nodes.items };

    ghost is_new = { λ asked. IsNewlyMade asked.nodes.items };

    fn made(
        alloc: Global,
        asked: AskedOrchestrator,
        parts: &[Part],
    ) -> Result<(OrchestratorMade, Vec<Part>), RecordStop> {
        let AskedOrchestrator { nodes, least } = asked;
        let before = session_before(least);
        if !are_nodes_fit(nodes.as_slice()) {
            return Ok((OrchestratorMade::BadNodes, Vec::new(alloc)));
        }
        if parts.is_empty() {
            let none = Vec::new(alloc);
            return match OrchestratorRecord::try_new(alloc, none, before, Vec::new(alloc)) {
                Ok(new) => begun(alloc, new, nodes),
                Err(_) => Err(RecordStop::NoMemory),
            };
        }
        match OrchestratorRecord::of_parts(alloc, parts) {
            Ok(Stored { mut kept, .. }) => {
                kept.raise(before);
                begun(alloc, kept, nodes)
            }
            Err(stop) => Err(stop),
        }
    }
}
