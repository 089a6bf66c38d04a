//! What an orchestrator keeps of a volume.
use crate::request::{Arguments, Usage};
use crate::thing::Known;
use csi_types::{Capability, Kind, Name, NodeId, Number, Target, VolumeId};

/// What is requested of a volume.
#[derive(Drop)]
pub enum Goal {
    /// That it is there, by the row's arguments.
    Create,
    /// That it is published so.
    Use(Usage),
    /// That it isn't published there, and then isn't at the node.
    Stop { node: NodeId, target: Target },
    /// That it is deleted.
    Delete,
}

/// What a row keeps of a target of a node: whether the volume is published at it.
#[derive(Drop)]
pub struct TargetEntry {
    pub target: Target,
    /// Whether the volume is published there.
    pub published: Known,
}

/// What a row keeps of a node at which the volume is used: how it is held there.
#[derive(Drop)]
pub struct NodeEntry {
    pub node: NodeId,
    /// How it is used there.
    pub capability: Capability,
    pub readonly: bool,
    /// Whether it is attached at the node.
    pub attached: Known,
    /// Whether it is staged there.
    pub staged: Known,
    /// The targets at which it may be published.
    pub target_entries: Vec<TargetEntry>,
}

/// What a row keeps of its open call, which is the one of this kind for the goal.
#[derive(Clone, Copy)]
pub struct OpenCall {
    pub number: Number,
    pub kind: Kind,
}

/// A volume's row.
#[derive(Drop)]
pub struct Row {
    pub name: Name,
    /// What it was requested to be created with.
    pub arguments: Arguments,
    /// The volume's id, once a reply told it.
    pub id: Option<VolumeId>,
    /// Whether it is made.
    pub exists: Known,
    /// What is requested of it and isn't done.
    pub goal: Option<Goal>,
    /// The call that is open. The rows of a record have none.
    pub open_call: Option<OpenCall>,
    /// How often a call was sent since the goal was set or a success was heard, counted up to 3.
    pub tries: u64,
    /// The nodes at which it is used, or may be.
    pub node_entries: Vec<NodeEntry>,
}
