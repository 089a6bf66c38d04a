//! Calls that lend their texts: whoever keeps a part of one makes a copy of that part, and nobody else does.
ghost use Rattle.std.specs.Prelude.{◌≡◌, ◌==◌, ◌↔◌, IfOk, IsTrue, length};
ghost use Rattle.std.specs.List.{list_all};
ghost use Rattle.csi_types.specs.Model.Call.{kind_of};
ghost use Rattle.csi_types.specs.Public.Lent.{lent_access, lent_capability, lent_capabilities, lent_call, HasFitTexts, IsTooLong, HasNoText};
ghost use Rattle.csi_types.specs.Public.Made.{IsCopyOf};
ghost use Rattle.csi_types.specs.Public.Limits.{IsAccess};
ghost use Rattle.csi_types.specs.Model.Same.{has_capability as is_among};

use crate::call::{Call, Kind};
use crate::capability::{Access, Capability, CapabilityList, has_capability};
use crate::memory::NoMemory;
use crate::mode::Mode;
use crate::spelled::SpelledCapabilities;
use crate::text::{FsType, Name, NodeId, Target, TextFault};
use crate::volume_id::VolumeIdRef;
use std::alloc::Global;

/// An `Access`, lent.
#[derive(Clone, Copy)]
pub enum AccessRef<'a> {
    Block,
    Mount(&'a str),
}

/// A `Capability`, lent.
#[derive(Clone, Copy)]
pub struct CapabilityRef<'a> {
    pub access: AccessRef<'a>,
    pub mode: Mode,
}

/// Capabilities, lent: from none to 8 of them, in order.
#[derive(Clone, Copy)]
pub enum CapabilitiesRef<'a> {
    /// Those of a list.
    Lent(&'a CapabilityList),
    /// Those that bytes spell, which are read where they are wanted.
    Spelled(SpelledCapabilities<'a>),
}

/// A `Call`, lent. Its texts may be outside their limits, which a `Call`'s are not.
#[derive(Clone, Copy)]
pub enum CallRef<'a> {
    CreateVolume {
        name: &'a str,
        required: u64,
        limit: u64,
        capabilities: CapabilitiesRef<'a>,
    },
    DeleteVolume {
        id: VolumeIdRef,
    },
    ControllerPublishVolume {
        id: VolumeIdRef,
        node: &'a str,
        capability: CapabilityRef<'a>,
        readonly: bool,
    },
    ControllerUnpublishVolume {
        id: VolumeIdRef,
        node: &'a str,
    },
    NodeStageVolume {
        id: VolumeIdRef,
        capability: CapabilityRef<'a>,
    },
    NodeUnstageVolume {
        id: VolumeIdRef,
    },
    NodePublishVolume {
        id: VolumeIdRef,
        target: &'a str,
        capability: CapabilityRef<'a>,
        readonly: bool,
    },
    NodeUnpublishVolume {
        id: VolumeIdRef,
        target: &'a str,
    },
}

impl Capability {
    /// The capability, lent. It takes no memory.
    pub fn lend(&self) -> CapabilityRef<'_>
        ensures { lent_capability result ≡ self.now }
    {
        let mode = self.mode;
        match &self.access {
            Access::Block => CapabilityRef {
                access: AccessRef::Block,
                mode,
            },
            Access::Mount(fs_type) => CapabilityRef {
                access: AccessRef::Mount(fs_type.as_str()),
                mode,
            },
        }
    }
}

impl Call {
    /// The call, lent. It takes no memory.
    pub fn lend(&self) -> CallRef<'_>
        ensures { lent_call result ≡ self.now }
    {
        match self {
            Call::CreateVolume {
                name,
                required,
                limit,
                capabilities,
            } => CallRef::CreateVolume {
                name: name.as_str(),
                required: *required,
                limit: *limit,
                capabilities: CapabilitiesRef::Lent(capabilities),
            },
            Call::DeleteVolume { id } => CallRef::DeleteVolume { id: id.lend() },
            Call::ControllerPublishVolume {
                id,
                node,
                capability,
                readonly,
            } => CallRef::ControllerPublishVolume {
                id: id.lend(),
                node: node.as_str(),
                capability: capability.lend(),
                readonly: *readonly,
            },
            Call::ControllerUnpublishVolume { id, node } => CallRef::ControllerUnpublishVolume {
                id: id.lend(),
                node: node.as_str(),
            },
            Call::NodeStageVolume { id, capability } => CallRef::NodeStageVolume {
                id: id.lend(),
                capability: capability.lend(),
            },
            Call::NodeUnstageVolume { id } => CallRef::NodeUnstageVolume { id: id.lend() },
            Call::NodePublishVolume {
                id,
                target,
                capability,
                readonly,
            } => CallRef::NodePublishVolume {
                id: id.lend(),
                target: target.as_str(),
                capability: capability.lend(),
                readonly: *readonly,
            },
            Call::NodeUnpublishVolume { id, target } => CallRef::NodeUnpublishVolume {
                id: id.lend(),
                target: target.as_str(),
            },
        }
    }
}

impl CapabilityRef<'_> {
    /// The capability with a text of its own: `TooLong` where the type of its file system has more than 128 bytes, `NoMemory`
    /// where a growth is refused. Without a text, and with an empty one, it takes no memory.
    pub fn to_capability(self, alloc: Global) -> Result<Capability, TextFault>
        ensures { IsCopyOf (lent_capability self.entry) (IsTooLong self.entry.access) (IsAccess (lent_access self.entry.access)) (HasNoText self.entry.access) result }
    {
        let mode = self.mode;
        match self.access {
            AccessRef::Block => Ok(Capability {
                access: Access::Block,
                mode,
            }),
            AccessRef::Mount(text) => match FsType::try_new(alloc, text) {
                Ok(fs_type) => Ok(Capability {
                    access: Access::Mount(fs_type),
                    mode,
                }),
                Err(fault) => Err(fault),
            },
        }
    }
}

impl CapabilitiesRef<'_> {
    /// Whether there are none. It takes no memory.
    pub fn is_empty(self) -> bool
        ensures { result ≡ (length (lent_capabilities self.entry) == 0) }
    {
        match self {
            CapabilitiesRef::Lent(list) => list.as_slice().is_empty(),
            CapabilitiesRef::Spelled(list) => list.count == 0,
        }
    }

    /// Whether each of them is one of these. It takes no memory.
    pub fn are_among(self, own: &[Capability]) -> bool
        ensures { result ≡ list_all (is_among own.now) (lent_capabilities self.entry) }
    {
        match self {
            CapabilitiesRef::Lent(list) => has_each(own, list.as_slice()),
            CapabilitiesRef::Spelled(list) => list.are_among(own),
        }
    }

    /// A list of them, with texts of its own.
    pub fn to_list(self, alloc: Global) -> Result<CapabilityList, NoMemory>
        ensures { IfOk result (λ list. list ≡ lent_capabilities self.entry) }
    {
        match self {
            CapabilitiesRef::Lent(list) => match list.clone() {
                Ok(copy) => Ok(copy),
                Err(_) => Err(NoMemory),
            },
            CapabilitiesRef::Spelled(list) => list.to_list(alloc),
        }
    }
}

// Whether the list has each of these capabilities.
fn has_each(own: &[Capability], wished: &[Capability]) -> bool
    ensures { result ≡ list_all (is_among own.now) wished.now }
{
    for capability in wished {
        if !has_capability(own, capability.lend()) {
            return false;
        }
    }
    true
}

// Whether the type of a file system is within its limit.
fn fits_access(access: &AccessRef<'_>) -> bool
    ensures { IsTrue result ↔ IsAccess (lent_access access.now) }
{
    match *access {
        AccessRef::Block => true,
        AccessRef::Mount(text) => text.len() <= FsType::MAX_LEN,
    }
}

impl CallRef<'_> {
    /// Which call it is. It takes no memory.
    pub fn kind(&self) -> Kind
        ensures { result ≡ kind_of (lent_call self.now) }
    {
        match self {
            CallRef::CreateVolume { .. } => Kind::CreateVolume,
            CallRef::DeleteVolume { .. } => Kind::DeleteVolume,
            CallRef::ControllerPublishVolume { .. } => Kind::ControllerPublishVolume,
            CallRef::ControllerUnpublishVolume { .. } => Kind::ControllerUnpublishVolume,
            CallRef::NodeStageVolume { .. } => Kind::NodeStageVolume,
            CallRef::NodeUnstageVolume { .. } => Kind::NodeUnstageVolume,
            CallRef::NodePublishVolume { .. } => Kind::NodePublishVolume,
            CallRef::NodeUnpublishVolume { .. } => Kind::NodeUnpublishVolume,
        }
    }

    /// Whether each of its texts is within its limits, so that a `Call` could have them. It takes no memory.
    pub fn is_within_limits(&self) -> bool
        ensures { IsTrue result ↔ HasFitTexts (lent_call self.now) }
    {
        match *self {
            CallRef::CreateVolume { name, .. } => !name.is_empty() && name.len() <= Name::MAX_LEN,
            CallRef::DeleteVolume { .. } => true,
            CallRef::ControllerPublishVolume {
                node,
                capability,
                ..
            } => !node.is_empty()
                && node.len() <= NodeId::MAX_LEN
                && fits_access(&capability.access),
            CallRef::ControllerUnpublishVolume { node, .. } => !node.is_empty()
                && node.len() <= NodeId::MAX_LEN,
            CallRef::NodeStageVolume { capability, .. } => fits_access(&capability.access),
            CallRef::NodeUnstageVolume { .. } => true,
            CallRef::NodePublishVolume {
                target,
                capability,
                ..
            } => !target.is_empty()
                && target.len() <= Target::MAX_LEN
                && fits_access(&capability.access),
            CallRef::NodeUnpublishVolume { target, .. } => !target.is_empty()
                && target.len() <= Target::MAX_LEN,
        }
    }
}
