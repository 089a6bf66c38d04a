//! What an orchestrator does and undoes.
ghost use Rattle.std.specs.Prelude.{◌≡◌, IfOk};
ghost use Rattle.csi_orchestrator.specs.declared.thing.Thing.TheVariants as things;
ghost use Rattle.csi_orchestrator.specs.Private.Listing.{lent_thing};
ghost use Rattle.csi_orchestrator.specs.Model.Thing.{name_in, is_yes, is_no};

use csi_types::{Name, NodeId, Target};
use std::alloc::AllocError;

/// A state of a volume that a call brings about and another call ends (CSI's spec.md, "Volume
/// Lifecycle"), by the name that the orchestrator gave the volume.
#[derive(Debug, PartialEq, Eq, Drop)]
pub enum Thing {
    /// The volume is made: CREATED.
    Exists {
        name: Name,
    },
    /// It is published at the node by the controller: NODE_READY.
    Attached {
        name: Name,
        node: NodeId,
    },
    /// It is staged at the node: VOL_READY.
    Staged {
        name: Name,
        node: NodeId,
    },
    /// It is published at a target of the node: PUBLISHED.
    Published {
        name: Name,
        node: NodeId,
        target: Target,
    },
}

/// A thing, lent.
#[derive(Clone, Copy)]
pub(crate) enum ThingRef<'a> {
    Exists {
        name: &'a Name,
    },
    Attached {
        name: &'a Name,
        node: &'a NodeId,
    },
    Staged {
        name: &'a Name,
        node: &'a NodeId,
    },
    Published {
        name: &'a Name,
        node: &'a NodeId,
        target: &'a Target,
    },
}

/// What an orchestrator knows of a thing.
#[derive(Clone, Copy, Debug, PartialEq, Eq)]
pub enum Known {
    /// It is so.
    Yes,
    /// It isn't so.
    No,
    /// It may be so: a call was sent that does or undoes it, and no success was heard of it.
    Maybe,
}

impl Known {
    /// Whether it is known to be so.
    pub(crate) fn is_yes(self) -> bool
        ensures { result ≡ is_yes self }
    {
        matches!(self, Known::Yes)
    }

    /// Whether it is known not to be so.
    pub(crate) fn is_no(self) -> bool
        ensures { result ≡ is_no self }
    {
        matches!(self, Known::No)
    }
}

impl Thing {
    /// The name of its volume.
    pub(crate) fn name(&self) -> &Name
        ensures { result.now ≡ name_in self.now }
    {
        match self {
            Thing::Exists { name } => name,
            Thing::Attached { name, .. } => name,
            Thing::Staged { name, .. } => name,
            Thing::Published { name, .. } => name,
        }
    }
}

impl Clone for Thing {
    ghost is_clone = { λ thing copy. copy ≡ thing };

    fn clone(&self) -> Result<Thing, AllocError> {
        match self {
            Thing::Exists { name } => exists(name),
            Thing::Attached { name, node } => attached(name, node),
            Thing::Staged { name, node } => staged(name, node),
            Thing::Published { name, node, target } => published(name, node, target),
        }
    }
}

impl ThingRef<'_> {
    /// The thing with texts of its own.
    pub(crate) fn to_thing(self) -> Result<Thing, AllocError>
        ensures { IfOk result (λ thing. thing ≡ lent_thing self.entry) }
    {
        match self {
            ThingRef::Exists { name } => exists(name),
            ThingRef::Attached { name, node } => attached(name, node),
            ThingRef::Staged { name, node } => staged(name, node),
            ThingRef::Published { name, node, target } => published(name, node, target),
        }
    }
}

// That the volume is made.
fn exists(name: &Name) -> Result<Thing, AllocError>
    ensures { IfOk result (λ thing. thing ≡ things.Exists name.now) }
{
    let name = name.clone()?;
    Ok(Thing::Exists { name })
}

// That it is attached to the node.
fn attached(name: &Name, node: &NodeId) -> Result<Thing, AllocError>
    ensures { IfOk result (λ thing. thing ≡ things.Attached name.now node.now) }
{
    let name = name.clone()?;
    let node = node.clone()?;
    Ok(Thing::Attached { name, node })
}

// That it is staged there.
fn staged(name: &Name, node: &NodeId) -> Result<Thing, AllocError>
    ensures { IfOk result (λ thing. thing ≡ things.Staged name.now node.now) }
{
    let name = name.clone()?;
    let node = node.clone()?;
    Ok(Thing::Staged { name, node })
}

// That it is published at the target there.
fn published(name: &Name, node: &NodeId, target: &Target) -> Result<Thing, AllocError>
    ensures { IfOk result (λ thing. thing ≡ things.Published name.now node.now target.now) }
{
    let name = name.clone()?;
    let node = node.clone()?;
    let target = target.clone()?;
    Ok(Thing::Published { name, node, target })
}
