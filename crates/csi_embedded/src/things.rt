//! Things of which an orchestrator knows whether they are so, of what C hands over.
ghost use Rattle.std.specs.Prelude.{IfOk, IfErr};
ghost use Rattle.csi_embedded.specs.Public.Asking.{HasNone};
ghost use Rattle.csi_embedded.specs.Public.Knowing.{AsksExists, AsksAttached, AsksStaged, AsksPublished};

use crate::ending::CallEnding;
use crate::texts::{id_of, name_of, target_of};
use csi_orchestrator::Thing;
use std::alloc::Global;

/// That the volume of a name is there.
pub(crate) fn exists_of(alloc: Global, name: &[u8]) -> Result<Thing, CallEnding>
    ensures asked { IfOk result (AsksExists name.now) }
    ensures none { IfErr result (HasNone (AsksExists name.now)) }
{
    match name_of(alloc, name) {
        Ok(name) => Ok(Thing::Exists { name }),
        Err(ending) => Err(ending),
    }
}

/// That it is attached to a node.
pub(crate) fn attached_of(alloc: Global, name: &[u8], node: &[u8]) -> Result<Thing, CallEnding>
    ensures asked { IfOk result (AsksAttached name.now node.now) }
    ensures none { IfErr result (HasNone (AsksAttached name.now node.now)) }
{
    let name = match name_of(alloc, name) {
        Ok(name) => name,
        Err(ending) => return Err(ending),
    };
    match id_of(alloc, node) {
        Ok(node) => Ok(Thing::Attached { name, node }),
        Err(ending) => Err(ending),
    }
}

/// That it is staged there.
pub(crate) fn staged_of(alloc: Global, name: &[u8], node: &[u8]) -> Result<Thing, CallEnding>
    ensures asked { IfOk result (AsksStaged name.now node.now) }
    ensures none { IfErr result (HasNone (AsksStaged name.now node.now)) }
{
    let name = match name_of(alloc, name) {
        Ok(name) => name,
        Err(ending) => return Err(ending),
    };
    match id_of(alloc, node) {
        Ok(node) => Ok(Thing::Staged { name, node }),
        Err(ending) => Err(ending),
    }
}

/// That it is published at a target there.
pub(crate) fn published_of(
    alloc: Global,
    name: &[u8],
    node: &[u8],
    target: &[u8],
) -> Result<Thing, CallEnding>
    ensures asked { IfOk result (AsksPublished name.now node.now target.now) }
    ensures none { IfErr result (HasNone (AsksPublished name.now node.now target.now)) }
{
    let name = match name_of(alloc, name) {
        Ok(name) => name,
        Err(ending) => return Err(ending),
    };
    let node = match id_of(alloc, node) {
        Ok(node) => node,
        Err(ending) => return Err(ending),
    };
    match target_of(alloc, target) {
        Ok(target) => Ok(Thing::Published { name, node, target }),
        Err(ending) => Err(ending),
    }
}
