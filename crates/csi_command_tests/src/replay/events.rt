//! A schedule that is read: its configuration, and its events.
use csi_json::read_schedule;
use csi_types::{Access, Capability, Config, Mode};
use csi_world::Event;
use std::alloc::Global;

const SCHEDULE: &str =
    "{\"config\":{\"greatest\":5,\"nodes\":[{\"id\":\"n1\",\"slots\":2}]},\"events\":[{\"create\":{\"capabilities\":[{\"access\":\"block\",\"mode\":1},{\"access\":\"mount\",\"fs\":\"ext4\",\"mode\":5}],\"limit\":9,\"name\":\"v\",\"required\":7}},{\"use\":{\"capability\":{\"access\":\"mount\",\"fs\":\"ext4\",\"mode\":5},\"name\":\"v\",\"node\":\"n1\",\"readonly\":true,\"target\":\"/a\"}},{\"deliver\":3}]}";

fn is_config(config: &Config) -> bool {
    match config.nodes() {
        [node] => config.greatest() == 5 && node.id.as_str() == "n1" && node.slots == 2,
        _ => false,
    }
}

fn is_device(found: &Capability) -> bool {
    matches!(&found.access, Access::Block) && found.mode == Mode::SingleNodeWriter
}

fn is_mounted(found: &Capability) -> bool {
    let is_access = match &found.access {
        Access::Block => false,
        Access::Mount(fs_type) => fs_type.as_str() == "ext4",
    };
    is_access && found.mode == Mode::MultiNodeMultiWriter
}

/// Whether it is the creation of this schedule.
pub(super) fn is_create(event: &Event) -> bool {
    let Event::Create {
        name,
        required,
        limit,
        capabilities,
    } = event
    else {
        return false;
    };
    let are_both = match capabilities.as_slice() {
        [first, second] => is_device(first) && is_mounted(second),
        _ => false,
    };
    are_both && name.as_str() == "v" && *required == 7 && *limit == 9
}

/// Whether it is its use.
pub(super) fn is_use(event: &Event) -> bool {
    let Event::Use {
        name,
        node,
        target,
        capability,
        readonly,
    } = event
    else {
        return false;
    };
    let is_there = name.as_str() == "v" && node.as_str() == "n1" && target.as_str() == "/a";
    is_there && is_mounted(capability) && *readonly
}

fn are_events(events: &[Event]) -> bool {
    match events {
        [first, second, Event::Deliver(number)] => {
            is_create(first) && is_use(second) && *number == 3
        }
        _ => false,
    }
}

// Whether it is read so, where there is memory for it.
fn is_read(alloc: Global) -> bool {
    match read_schedule(alloc, SCHEDULE) {
        Ok(schedule) => {
            is_config(&schedule.config) && are_events(&schedule.events) && schedule.on.is_empty()
        }
        Err(_) => false,
    }
}

#[test]
fn a_schedule_is_read(rt: HostRuntime) {
    assert!(&rt; is_read(rt.alloc()) || is_read(rt.alloc()));
}
