//! What happens in a run.
use crate::capability::{Capability, CapabilityList};
use crate::config::Config;
use crate::node_list::NodeList;
use crate::text::{Name, NodeId, Target};

/// Something that happens.
#[derive(Drop)]
pub enum Event {
    /// The orchestrator is asked to create a volume, with a capacity range in bytes.
    Create {
        name: Name,
        required: u64,
        limit: u64,
        capabilities: CapabilityList,
    },
    /// It is asked to publish a volume at a target of a node.
    Use {
        name: Name,
        node: NodeId,
        target: Target,
        capability: Capability,
        readonly: bool,
    },
    /// It is asked to undo that.
    Stop {
        name: Name,
        node: NodeId,
        target: Target,
    },
    /// It is asked to delete a volume.
    Delete(Name),
    /// The open call of a volume timed out.
    Timeout(Name),
    /// The frame of this number is delivered. Frames are numbered from 1, in the order in which they were
    /// sent, and can be delivered again and again.
    Deliver(u64),
    /// The orchestrator restarts, and keeps its value and its list of nodes.
    RestartOrchestrator,
    /// It restarts with this list of nodes.
    RestartOrchestratorWith(NodeList),
    /// The controller restarts, from its record.
    RestartController,
    /// It restarts from its record, with this configuration.
    RestartControllerWith(Config),
    /// A node restarts, from its record.
    RestartNode(NodeId),
    /// A node joins, with a new store, and is told the orchestrator's present session.
    Join(NodeId),
    /// A node is lost. The operator promises: the machine is off for good, and its store never comes back; an emptied store is a lost node.
    Lose(NodeId),
    /// A volume is brought to rest, as far as deliveries do that: its name times out, and then the frames that are sent from there on are
    /// delivered, the oldest first and at most twelve, until nothing is wanted of it.
    Settle(Name),
}
