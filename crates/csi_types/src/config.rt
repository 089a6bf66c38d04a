//! A controller's configuration.
ghost use Rattle.std.specs.Prelude.{◌≡◌, ◌↔◌, IsOk, IfOk, IfErr, IsErrOf, Some, None};
ghost use Rattle.csi_types.specs.Public.Config.{config_fault, config_fault_number, has_same_node as node_repeated, has_bad_slots as slots_exceeded};
ghost use Rattle.csi_types.specs.Model.Config.{has_node as node_listed};

use crate::text::NodeId;
use std::alloc::Global;
use std::marker::Model;
use thiserror::Error;

/// A node at which volumes can be published, and how many it takes at once (this profile's own).
#[derive(Clone, Debug, PartialEq, Eq, Drop)]
pub struct NodeSlots {
    pub id: NodeId,
    pub slots: u64,
}

/// What is wrong with a configuration: the first of these that holds, by its number (this profile's own).
#[derive(Clone, Copy, Debug, PartialEq, Eq, Error)]
pub enum ConfigFault {
    /// The greatest capacity is 0 or above 2^63 - 1.
    #[error("the greatest capacity is out of range")]
    BadGreatest = 1,
    /// There are more than 64 nodes.
    #[error("too many nodes")]
    TooManyNodes = 2,
    /// Two nodes have one id.
    #[error("two nodes have one id")]
    SameNode = 3,
    /// A node has more than 4,096 slots.
    #[error("a node has too many slots")]
    BadSlots = 4,
    /// An allocation was refused.
    #[error("out of memory")]
    NoMemory = 5,
}

impl ConfigFault {
    /// The fault's number.
    pub fn number(self) -> u8
        ensures { result ≡ config_fault_number self }
    {
        self as u8
    }
}

/// What a controller can give (this profile's own): the greatest capacity of a volume, and up to 64 nodes,
/// each with up to 4,096 slots. A contract sees its parts.
#[derive(Clone, Debug)]
pub struct Config {
    greatest: u64,
    nodes: Vec<NodeSlots>,
}

impl Drop for Config {
    fn drop(self) {
        let Config {
            greatest: _,
            nodes: _,
        } = self;
    }
}

impl Model for Config {
    ghost use Rattle.std.specs.Prelude.{◌≡◌, None};
    ghost use Rattle.csi_types.specs.Model.Config.{Config as Parts};
    ghost use Rattle.csi_types.specs.Public.Config.{config_fault};

    ghost Value = { Parts };

    ghost view = { λ config. record { greatest = config.greatest; nodes = config.nodes.items } };

    ghost invariant = { λ config. config_fault config.greatest config.nodes.items ≡ None };
}

impl Config {
    /// The most nodes that a configuration has.
    pub const MAX_NODES: usize = 64;

    /// The most slots that a node of a configuration has.
    pub const MAX_SLOTS: u64 = 4096;

    /// A configuration with this greatest capacity in bytes and these nodes, or the first fault that it
    /// has. It takes no memory today, and so doesn't answer `NoMemory`.
    pub fn try_new(
        _alloc: Global,
        greatest: u64,
        nodes: Vec<NodeSlots>,
    ) -> Result<Config, ConfigFault>
        ensures ok { IsOk result ↔ (config_fault greatest nodes.items ≡ None) }
        ensures value { IfOk result (λ config. config ≡ record { greatest = greatest; nodes = nodes.items }) }
        ensures fault { IfErr result (λ fault. config_fault greatest nodes.items ≡ Some fault) }
        ensures memory { IsErrOf result ConfigFault.NoMemory → ⊥ }
    {
        if greatest == 0 || greatest > crate::capacity::MAX_CAPACITY {
            return Err(ConfigFault::BadGreatest);
        }
        if nodes.len() > Config::MAX_NODES {
            return Err(ConfigFault::TooManyNodes);
        }
        if has_same_node(&nodes) {
            return Err(ConfigFault::SameNode);
        }
        if has_bad_slots(&nodes) {
            return Err(ConfigFault::BadSlots);
        }
        Ok(Config { greatest, nodes })
    }

    /// The greatest capacity of a volume, in bytes.
    pub fn greatest(&self) -> u64
        ensures { result ≡ self.now.greatest }
    {
        self.greatest
    }

    /// The nodes in order.
    pub fn nodes(&self) -> &[NodeSlots]
        ensures { result.now ≡ self.now.nodes }
    {
        self.nodes.as_slice()
    }

    /// A law, and nothing that runs: the configuration has no fault.
    pub fn fit_law(&self)
        ensures { config_fault self.now.greatest self.now.nodes ≡ None }
    {
        let _nodes = &self.nodes;
    }
}

// Whether a node of this id is in the list.
fn has_node(id: &NodeId, nodes: &[NodeSlots]) -> bool
    ensures { result ≡ node_listed id.now nodes.now }
{
    nodes.iter().any(|node| *id == node.id)
}

// Whether two nodes of the list have one id.
fn has_same_node(nodes: &[NodeSlots]) -> bool
    ensures { result ≡ node_repeated nodes.now }
{
    for (place, node) in nodes.iter().enumerate() {
        if has_node(&node.id, &nodes[place + 1..]) {
            return true;
        }
    }
    false
}

// Whether a node of the list has more than 4,096 slots.
fn has_bad_slots(nodes: &[NodeSlots]) -> bool
    ensures { result ≡ slots_exceeded nodes.now }
{
    nodes.iter().any(|node| node.slots > Config::MAX_SLOTS)
}
