//! The entries of a node's lists.
ghost use Rattle.std.specs.Prelude.{◌≡◌, IfOk};

use csi_types::{Capability, Target, VolumeId};
use std::alloc::AllocError;

/// A volume that is staged on a node, and in which capability (CSI's spec.md, "NodeStageVolume").
#[derive(Clone, Debug, PartialEq, Eq, Drop)]
pub struct Staged {
    pub id: VolumeId,
    pub capability: Capability,
}

/// A volume that is published at a target of a node, and how (CSI's spec.md, "NodePublishVolume").
#[derive(Debug, PartialEq, Eq, Drop)]
pub struct Published {
    pub id: VolumeId,
    pub target: Target,
    pub capability: Capability,
    pub readonly: bool,
}

impl Clone for Published {
    ghost is_clone = { λ published copy. copy ≡ published };

    fn clone(&self) -> Result<Published, AllocError> {
        published_at(self.id, &self.target, &self.capability, self.readonly)
    }
}

/// A volume that is published at this target, in this capability.
pub(crate) fn published_at(
    id: VolumeId,
    target: &Target,
    capability: &Capability,
    readonly: bool,
) -> Result<Published, AllocError>
    ensures { IfOk result (λ made. made ≡ record { id = id; target = target.now; capability = capability.now; readonly = readonly }) }
{
    let target = target.clone()?;
    let capability = capability.clone()?;
    Ok(Published {
        id,
        target,
        capability,
        readonly,
    })
}
