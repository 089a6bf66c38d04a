//! The nodes that an orchestrator is asked for.
ghost use Rattle.std.specs.Prelude.{◌≡◌, Ok, IfOk, IfErr};
ghost use Rattle.csi_json.specs.Public.Configs.{text_config};
ghost use Rattle.csi_orchestration.specs.Public.Nodes.{AreNodesOfConfig, HasNoNodes, node_ids};

use csi_json::{ScheduleFault, read_config};
use csi_streams::Ending;
use csi_types::{Config, NoMemory, NodeId, NodeSlots};
use std::alloc::Global;

// The ids of a configuration's nodes, in order.
fn ids_of(alloc: Global, nodes: &[NodeSlots]) -> Result<Vec<NodeId>, NoMemory>
    ensures { IfOk result (λ ids. ids.items ≡ node_ids nodes.now) }
{
    let mut ids = Vec::new(alloc);
    for node in nodes {
        let id = node.id.clone()?;
        ids.push(id)?;
    }
    Ok(ids)
}

// The configuration that these bytes say.
fn config_in(alloc: Global, input: &[u8]) -> Result<Config, Ending>
    ensures read { IfOk result (λ config. text_config input.now ≡ Ok config) }
    ensures refused { IfErr result (HasNoNodes input.now) }
{
    let Ok(text) = str::from_utf8(input) else {
        return Err(Ending::NotUtf8);
    };
    match read_config(alloc, text) {
        Ok(config) => Ok(config),
        Err(ScheduleFault::NoMemory) => Err(Ending::Memory),
        Err(_) => Err(Ending::ConfigRefused),
    }
}

/// The ids of the nodes of the configuration that these bytes say, in the format of a schedule's `config`, in order; its greatest capacity
/// and the nodes' slots say nothing to an orchestrator. `NotUtf8` where the bytes are no UTF-8, `ConfigRefused` where they are and say no
/// configuration, and `Memory` where an allocation was refused. This profile's own.
pub fn asked_nodes(alloc: Global, input: &[u8]) -> Result<Vec<NodeId>, Ending>
    ensures nodes { IfOk result (λ ids. AreNodesOfConfig input.now ids.items) }
    ensures refused { IfErr result (HasNoNodes input.now) }
{
    let config = config_in(alloc, input)?;
    Ok(ids_of(alloc, config.nodes())?)
}
