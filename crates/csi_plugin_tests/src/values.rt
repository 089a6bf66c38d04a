//! Makers of values.
//!
//! What a maker is given is within the limits, so it fails only where it is out of memory, and then tries once more: a run
//! refuses one allocation at most (`tools/refusals`). So what a test is made of is there in every run,
//! and the call under test is the one that sees the refusal, or none does.
use csi_types::{
    Access, Capability, CapabilityList, Config, Detail, FsType, Mode, Name, NodeId, NodeSlots,
    Number, Reply, Status, Target, VolumeId,
};
use std::alloc::Global;
use std::process::Abort;

/// What a reply says: its status, the number of its id, and its detail.
pub(crate) type Told = (Status, Option<u64>, &'static str);

/// What is answered where all is well and no volume was made.
pub(crate) const DONE: Told = (Status::Ok, None, "");

/// What is answered to a call that is over.
pub(crate) const STALE: Told = (Status::Aborted, None, "stale");

pub(crate) fn name(rt: &(impl Abort + AllocGlobal), text: &str) -> Name {
    match Name::try_new(rt.alloc(), text) {
        Ok(name) => name,
        Err(_) => Name::try_new(rt.alloc(), text).expect(rt, "a name"),
    }
}

pub(crate) fn node_id(rt: &(impl Abort + AllocGlobal), text: &str) -> NodeId {
    match NodeId::try_new(rt.alloc(), text) {
        Ok(id) => id,
        Err(_) => NodeId::try_new(rt.alloc(), text).expect(rt, "a node id"),
    }
}

pub(crate) fn target(rt: &(impl Abort + AllocGlobal), text: &str) -> Target {
    match Target::try_new(rt.alloc(), text) {
        Ok(target) => target,
        Err(_) => Target::try_new(rt.alloc(), text).expect(rt, "a target"),
    }
}

fn fs_type(rt: &(impl Abort + AllocGlobal), text: &str) -> FsType {
    match FsType::try_new(rt.alloc(), text) {
        Ok(fs_type) => fs_type,
        Err(_) => FsType::try_new(rt.alloc(), text).expect(rt, "an fs type"),
    }
}

fn detail(rt: &(impl Abort + AllocGlobal), text: &str) -> Detail {
    match Detail::try_new(rt.alloc(), text) {
        Ok(detail) => detail,
        Err(_) => Detail::try_new(rt.alloc(), text).expect(rt, "a detail"),
    }
}

/// The id of this number, which isn't 0.
pub(crate) fn volume_id(rt: &impl Abort, number: u64) -> VolumeId {
    VolumeId::try_new(number).expect(rt, "an id")
}

/// The number of a call of session 1.
pub(crate) fn number(call: u64) -> Number {
    Number { session: 1, call }
}

pub(crate) fn reply(rt: &(impl Abort + AllocGlobal), (status, id, text): Told) -> Reply {
    Reply {
        status,
        id: match id {
            Some(id) => VolumeId::try_new(id),
            None => None,
        },
        detail: detail(rt, text),
    }
}

/// A raw device in this mode.
pub(crate) fn block(mode: Mode) -> Capability {
    Capability {
        access: Access::Block,
        mode,
    }
}

/// A raw device in a mode for one node, and an `ext4` file system in a mode for several.
pub(crate) fn device(rt: &(impl Abort + AllocGlobal), mode: Mode) -> Capability {
    if mode == Mode::MultiNodeMultiWriter {
        Capability {
            access: Access::Mount(fs_type(rt, "ext4")),
            mode,
        }
    } else {
        block(mode)
    }
}

/// Room for so many values, which are then pushed without memory.
pub(crate) fn room<T: Drop>(rt: &(impl Abort + AllocGlobal), count: usize) -> Vec<T> {
    match Vec::with_capacity(rt.alloc(), count) {
        Ok(list) => list,
        Err(_) => Vec::with_capacity(rt.alloc(), count).expect(rt, "memory"),
    }
}

/// Raw devices in these modes, at most 8.
pub(crate) fn blocks(rt: &(impl Abort + AllocGlobal), modes: &[Mode]) -> CapabilityList {
    let mut list = room(rt, modes.len());
    for mode in modes {
        list.push(block(*mode)).expect(rt, "room");
    }
    CapabilityList::try_new(list).expect(rt, "capabilities")
}

/// A configuration with greatest 1,000 and these nodes, each with its slots.
pub(crate) fn config(rt: &(impl Abort + AllocGlobal), nodes: &[(&str, u64)]) -> Config {
    let mut list = room(rt, nodes.len());
    for (id, slots) in nodes {
        let id = node_id(rt, id);
        list.push(NodeSlots { id, slots: *slots })
            .expect(rt, "room");
    }
    Config::try_new(rt.alloc(), 1000, list).expect(rt, "a configuration")
}
