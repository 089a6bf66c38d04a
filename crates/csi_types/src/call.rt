//! Calls, and the plugins that they are for.
ghost use Rattle.std.specs.Prelude.{◌≡◌, IsTrue, ◌↔◌};
ghost use Rattle.csi_types.specs.Model.Call.{kind_of};
ghost use Rattle.csi_types.specs.Public.Call.{is_party_of};
ghost use Rattle.csi_types.specs.Public.Names.{kind_name};

use crate::capability::{Capability, CapabilityList};
use crate::text::{Name, NodeId, Target};
use crate::volume_id::VolumeId;

/// Which call a frame has, or which call it replies to: the eight of the volume lifecycle, by their
/// names in CSI's spec.md, "RPC Interface".
#[derive(Clone, Copy, Debug, PartialEq, Eq)]
pub enum Kind {
    CreateVolume,
    DeleteVolume,
    ControllerPublishVolume,
    ControllerUnpublishVolume,
    NodeStageVolume,
    NodeUnstageVolume,
    NodePublishVolume,
    NodeUnpublishVolume,
}

/// The plugin that a call is for, or that sent a reply.
#[derive(Clone, Debug, PartialEq, Eq, Drop)]
pub enum Party {
    /// The controller plugin.
    Controller,
    /// The node plugin of this node.
    Node(NodeId),
}

/// A call with its arguments: "RPC Interface" of CSI's spec.md, without what this profile leaves out.
#[derive(Debug, PartialEq, Eq, Drop)]
pub enum Call {
    /// Makes a volume of this name, with a capacity in bytes of at least `required` and, unless `limit`
    /// is 0, at most `limit`, that can be used with each of these capabilities.
    CreateVolume {
        name: Name,
        required: u64,
        limit: u64,
        capabilities: CapabilityList,
    },
    /// Removes the volume.
    DeleteVolume {
        id: VolumeId,
    },
    /// Attaches the volume to the node.
    ControllerPublishVolume {
        id: VolumeId,
        node: NodeId,
        capability: Capability,
        readonly: bool,
    },
    /// Detaches the volume from the node.
    ControllerUnpublishVolume {
        id: VolumeId,
        node: NodeId,
    },
    /// Makes the volume ready on the node, at a staging path that follows from its id.
    NodeStageVolume {
        id: VolumeId,
        capability: Capability,
    },
    /// Undoes `NodeStageVolume`.
    NodeUnstageVolume {
        id: VolumeId,
    },
    /// Shows the volume to a workload at the target.
    NodePublishVolume {
        id: VolumeId,
        target: Target,
        capability: Capability,
        readonly: bool,
    },
    /// Undoes `NodePublishVolume`.
    NodeUnpublishVolume {
        id: VolumeId,
        target: Target,
    },
}

impl Call {
    /// Which call it is.
    pub fn kind(&self) -> Kind
        ensures { result ≡ kind_of self.now }
    {
        match self {
            Call::CreateVolume { .. } => Kind::CreateVolume,
            Call::DeleteVolume { .. } => Kind::DeleteVolume,
            Call::ControllerPublishVolume { .. } => Kind::ControllerPublishVolume,
            Call::ControllerUnpublishVolume { .. } => Kind::ControllerUnpublishVolume,
            Call::NodeStageVolume { .. } => Kind::NodeStageVolume,
            Call::NodeUnstageVolume { .. } => Kind::NodeUnstageVolume,
            Call::NodePublishVolume { .. } => Kind::NodePublishVolume,
            Call::NodeUnpublishVolume { .. } => Kind::NodeUnpublishVolume,
        }
    }
}

impl Kind {
    /// Whether calls of this kind are for this plugin: the first four for the controller, the others for
    /// a node.
    pub fn is_for(self, party: &Party) -> bool
        ensures { result ≡ is_party_of self party.now }
    {
        match self {
            Kind::CreateVolume
            | Kind::DeleteVolume
            | Kind::ControllerPublishVolume
            | Kind::ControllerUnpublishVolume => matches!(party, Party::Controller),
            Kind::NodeStageVolume
            | Kind::NodeUnstageVolume
            | Kind::NodePublishVolume
            | Kind::NodeUnpublishVolume => matches!(party, Party::Node(_)),
        }
    }

    /// The name of the call: CSI's spec.md, "RPC Interface".
    pub fn name(self) -> &'static str
        ensures { result.now ≡ kind_name self }
    {
        match self {
            Kind::CreateVolume => "CreateVolume",
            Kind::DeleteVolume => "DeleteVolume",
            Kind::ControllerPublishVolume => "ControllerPublishVolume",
            Kind::ControllerUnpublishVolume => "ControllerUnpublishVolume",
            Kind::NodeStageVolume => "NodeStageVolume",
            Kind::NodeUnstageVolume => "NodeUnstageVolume",
            Kind::NodePublishVolume => "NodePublishVolume",
            Kind::NodeUnpublishVolume => "NodeUnpublishVolume",
        }
    }
}
