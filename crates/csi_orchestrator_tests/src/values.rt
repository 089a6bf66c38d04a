//! Makers of values.
//!
//! What a maker is given is within the limits, so it fails only where it is out of memory, and then tries once more: a run
//! refuses one allocation at most (`tools/refusals`). So what a test is made of is there in every run,
//! and the call under test is the one that sees the refusal, or none does.
use csi_types::{Access, Capability, CapabilityList, Detail, Mode, Name, NodeId, Target, VolumeId};
use std::alloc::Global;
use std::process::Abort;

pub(crate) fn name(rt: &(impl Abort + AllocGlobal), text: &str) -> Name {
    match Name::try_new(rt.alloc(), text) {
        Ok(name) => name,
        Err(_) => Name::try_new(rt.alloc(), text).expect(rt, "a name"),
    }
}

pub(crate) fn node_id(rt: &(impl Abort + AllocGlobal), text: &str) -> NodeId {
    match NodeId::try_new(rt.alloc(), text) {
        Ok(id) => id,
        Err(_) => NodeId::try_new(rt.alloc(), text).expect(rt, "a node id"),
    }
}

pub(crate) fn target(rt: &(impl Abort + AllocGlobal), text: &str) -> Target {
    match Target::try_new(rt.alloc(), text) {
        Ok(target) => target,
        Err(_) => Target::try_new(rt.alloc(), text).expect(rt, "a target"),
    }
}

/// A detail that says nothing.
pub(crate) fn no_detail(rt: &(impl Abort + AllocGlobal)) -> Detail {
    match Detail::try_new(rt.alloc(), "") {
        Ok(detail) => detail,
        Err(_) => Detail::try_new(rt.alloc(), "").expect(rt, "a detail"),
    }
}

/// The only volume's id.
pub(crate) fn first_id(rt: &impl Abort) -> VolumeId {
    VolumeId::try_new(1).expect(rt, "an id")
}

/// A raw device in this mode.
pub(crate) fn block(mode: Mode) -> Capability {
    Capability {
        access: Access::Block,
        mode,
    }
}

// Room for so many values, which are then pushed without memory.
fn room<T: Drop>(rt: &(impl Abort + AllocGlobal), count: usize) -> Vec<T> {
    match Vec::with_capacity(rt.alloc(), count) {
        Ok(list) => list,
        Err(_) => Vec::with_capacity(rt.alloc(), count).expect(rt, "memory"),
    }
}

/// Nodes with these ids.
pub(crate) fn node_ids(rt: &(impl Abort + AllocGlobal), texts: &[&str]) -> Vec<NodeId> {
    let mut nodes = room(rt, texts.len());
    for text in texts {
        nodes.push(node_id(rt, text)).expect(rt, "room");
    }
    nodes
}

/// A raw device in this mode alone.
pub(crate) fn only_block(rt: &(impl Abort + AllocGlobal), mode: Mode) -> CapabilityList {
    let mut list = room(rt, 1);
    list.push(block(mode)).expect(rt, "room");
    CapabilityList::try_new(list).expect(rt, "capabilities")
}
