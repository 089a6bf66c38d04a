//! What is to be done for a recovery, made before anything is changed.
ghost use Rattle.std.specs.Prelude.{◌≡◌, map, IfOk, IfErr, length, string_bytes};
ghost use Rattle.csi_stores.specs.Public.Part.{part_change};
ghost use Rattle.csi_service.specs.Public.Opening.{controller_records};
ghost use Rattle.csi_service.specs.Public.Renewed.{any_node_records};
ghost use Rattle.csi_plugins.specs.Public.Recovering.{IsRaisedNode, IsRaisedController, AreRefused};
ghost use Rattle.csi_plugins.specs.Private.Recovering.{changes_of, LeadsOn, AreMade, IsToldSo, IsPlanned};

use crate::given::GivenNodes;
use crate::judging::judged;
use csi_controller::ControllerRecord;
use csi_node::NodeRecord;
use csi_orchestrator::OrchestratorRecord;
use csi_records::Record;
use csi_reports::recovery_line;
use csi_service::{ControllerService, NodeService, Part, Renewed, parts_raising};
use csi_streams::Ending;
use csi_types::{Config, NoMemory, NodeId};
use std::alloc::Global;

/// What each store is to be given, and the line that tells it then.
#[derive(Drop)]
pub(crate) struct Plan {
    pub nodes: Vec<Vec<Part>>,
    pub controller: Vec<Part>,
    pub new: Vec<Part>,
    pub line: String,
}

// A configuration that gives nothing: a controller's record says nothing of one.
fn any_config(alloc: Global) -> Result<Config, NoMemory> {
    match Config::try_new(alloc, 1, Vec::new(alloc)) {
        Ok(config) => Ok(config),
        Err(_) => Err(NoMemory),
    }
}

// What raises the session in the controller's store.
fn controller_raising(
    alloc: Global,
    read: Renewed<ControllerRecord>,
    session: u64,
) -> Result<Vec<Part>, NoMemory>
    ensures { IfOk result (λ changes. LeadsOn controller_records (IsRaisedController session) read.kept (changes_of read.renewal) (changes_of changes)) }
{
    let Renewed { kept, renewal } = read;
    let config = any_config(alloc)?;
    let service = ControllerService::from_record(alloc, config, kept)?;
    parts_raising(service, renewal, session)
}

// What raises it in a node's.
fn node_raising(
    alloc: Global,
    kept: NodeRecord,
    renewal: Vec<Part>,
    session: u64,
) -> Result<Vec<Part>, NoMemory>
    ensures { IfOk result (λ changes. LeadsOn any_node_records (IsRaisedNode session) kept (changes_of renewal) (changes_of changes)) }
{
    let service = NodeService::from_record(alloc, kept)?;
    parts_raising(service, renewal, session)
}

// What raises it in the nodes', store by store.
fn nodes_raising(alloc: Global, given: GivenNodes, session: u64) -> Result<Vec<Vec<Part>>, NoMemory>
    requires { length given.renewals.items ≡ length given.kept.items }
    ensures { IfOk result (λ changes. AreMade session given.kept.items (map changes_of given.renewals.items) (map changes_of changes.items)) }
{
    let GivenNodes { kept, renewals } = given;
    let mut changes = Vec::with_capacity(alloc, kept.len())?;
    let mut left = renewals.into_iter();
    for record in kept {
        if let Some(renewal) = left.next() {
            let parts = node_raising(alloc, record, renewal, session)?;
            changes.push(parts)?;
        }
    }
    Ok(changes)
}

// The line that tells what is recovered.
fn line_of(
    alloc: Global,
    made: &OrchestratorRecord,
    given: &[NodeRecord],
) -> Result<String, NoMemory>
    ensures { IfOk result (λ text. IsToldSo (map (λ kept. kept.id) given.now) made.now (string_bytes text)) }
{
    let mut line = recovery_line(alloc, made, given)?;
    line.push_str("\n")?;
    Ok(line)
}

/// What is to be done where these records were read.
pub(crate) fn planned(
    alloc: Global,
    nodes: Vec<NodeId>,
    known: u64,
    controller: Renewed<ControllerRecord>,
    given: GivenNodes,
) -> Result<Plan, Ending>
    requires { length given.renewals.items ≡ length given.kept.items }
    ensures planned { IfOk result (λ plan. IsPlanned nodes.items known controller.kept (changes_of controller.renewal) given.kept.items (map changes_of given.renewals.items)
        (map changes_of plan.nodes.items) (changes_of plan.controller) (changes_of plan.new) (string_bytes plan.line)) }
    ensures refused { IfErr result (AreRefused nodes.items known controller.kept given.kept.items) }
{
    let made = judged(alloc, nodes, known, &controller.kept, &given.kept)?;
    let session = made.session();
    let new = made.to_parts(alloc)?;
    let line = line_of(alloc, &made, &given.kept)?;
    drop(made);
    let nodes = nodes_raising(alloc, given, session)?;
    let controller = controller_raising(alloc, controller, session)?;
    Ok(Plan {
        nodes,
        controller,
        new,
        line,
    })
}
