//! What a volume can do.
ghost use Rattle.std.specs.Prelude.{◌≡◌, ◌≤◌, length, vec_len};
ghost use Rattle.csi_types.specs.Public.Lent.{lent_capability};
ghost use Rattle.csi_types.specs.Public.Made.{IsGivenIf, Shows};
ghost use Rattle.csi_types.specs.Model.Same.{same_capability as is_same_capability, has_capability as is_among};

use crate::lent::{AccessRef, CapabilityRef};
use crate::mode::Mode;
use crate::text::FsType;
use std::marker::Model;

/// How a volume is shown to a workload: `access_type` of CSI's `VolumeCapability`.
#[derive(Clone, Debug, PartialEq, Eq, Drop)]
pub enum Access {
    /// As a raw device.
    Block,
    /// As a file system of this type, mounted.
    Mount(FsType),
}

/// An access type and an access mode: `VolumeCapability` of CSI's spec.md, "CreateVolume".
#[derive(Clone, Debug, PartialEq, Eq, Drop)]
pub struct Capability {
    pub access: Access,
    pub mode: Mode,
}

/// Whether the mode is the same, and both are block, or both mount the same type of file system. It takes no memory.
pub fn same_capability(a: CapabilityRef, b: CapabilityRef) -> bool
    ensures { result ≡ is_same_capability (lent_capability a.entry) (lent_capability b.entry) }
{
    if a.mode != b.mode {
        return false;
    }
    match a.access {
        AccessRef::Block => matches!(b.access, AccessRef::Block),
        AccessRef::Mount(own) => match b.access {
            AccessRef::Block => false,
            AccessRef::Mount(other) => own == other,
        },
    }
}

/// Whether the capability is one of these. It takes no memory.
pub fn has_capability(capabilities: &[Capability], wished: CapabilityRef) -> bool
    ensures { result ≡ is_among capabilities.now (lent_capability wished.entry) }
{
    capabilities
        .iter()
        .any(|own| same_capability(wished, own.lend()))
}

/// From none to 8 capabilities, in order (this profile's own limit). A contract sees it as a list.
#[derive(Clone, Debug)]
pub struct CapabilityList {
    items: Vec<Capability>,
}

impl Drop for CapabilityList {
    fn drop(self) {
        let CapabilityList { items: _ } = self;
    }
}

impl Model for CapabilityList {
    ghost use Rattle.std.specs.Prelude.{List, ◌≤◌, length};
    ghost use Rattle.csi_types.specs.declared.capability.Capability.{Capability};

    ghost Value = { List Capability };

    ghost view = { λ list. list.items.items };

    ghost invariant = { λ list. length list.items.items ≤ 8 };
}

impl CapabilityList {
    /// The most capabilities that a list has.
    pub const MAX_LEN: usize = 8;

    /// A list of these capabilities, or `None` where there are more than 8. It takes no memory.
    pub fn try_new(items: Vec<Capability>) -> Option<CapabilityList>
        ensures { IsGivenIf (vec_len items ≤ 8) items.items result }
    {
        if items.len() > CapabilityList::MAX_LEN {
            return None;
        }
        Some(CapabilityList { items })
    }

    /// The capabilities in order.
    pub fn as_slice(&self) -> &[Capability]
        ensures { Shows (λ list. length list ≤ 8) self.now result.now }
    {
        self.items.as_slice()
    }
}

impl PartialEq for CapabilityList {
    ghost use Rattle.std.specs.Cmp.Lexicographic.{pointwise, lists_per};
    ghost use Rattle.csi_types.specs.contracts.capability.CapabilityPartialEq.TheImpl.Laws.{laws-law};

    ghost eq = { pointwise ⟦<Capability as PartialEq>⟧.eq };

    ghost laws = { lists_per laws-law };

    fn eq(&self, other: &CapabilityList) -> bool {
        self.as_slice() == other.as_slice()
    }
}

impl Eq for CapabilityList {
    ghost use Rattle.std.specs.Cmp.Lexicographic.{lists_equiv};
    ghost use Rattle.csi_types.specs.contracts.capability.CapabilityEq.TheImpl.Laws.{laws-law};

    ghost laws = { lists_equiv laws-law };
}
