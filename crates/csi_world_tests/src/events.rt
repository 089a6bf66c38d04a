//! Events, as a table writes them.
use crate::steps::Does;
use crate::values::{block, config, name, node_id, node_ids, only_block, room, target};
use csi_types::NodeList;
use csi_world::Event;
use std::alloc::Global;
use std::process::Abort;

pub(crate) fn event(rt: &(impl Abort + AllocGlobal), does: Does) -> Event {
    match does {
        Does::Create(mode) => Event::Create {
            name: name(rt, "v"),
            required: 10,
            limit: 0,
            capabilities: only_block(rt, mode),
        },
        Does::Use(at, path, mode, readonly) => Event::Use {
            name: name(rt, "v"),
            node: node_id(rt, at),
            target: target(rt, path),
            capability: block(mode),
            readonly,
        },
        Does::Stop(at, path) => Event::Stop {
            name: name(rt, "v"),
            node: node_id(rt, at),
            target: target(rt, path),
        },
        Does::Delete => Event::Delete(name(rt, "v")),
        Does::Timeout => Event::Timeout(name(rt, "v")),
        Does::Settle => Event::Settle(name(rt, "v")),
        Does::Deliver(number) => Event::Deliver(number),
        Does::RestartOrchestrator => Event::RestartOrchestrator,
        Does::RestartController => Event::RestartController,
        Does::RestartNode(at) => Event::RestartNode(node_id(rt, at)),
        Does::Configures(nodes) => Event::RestartControllerWith(config(rt, nodes)),
        Does::Lists(ids) => Event::RestartOrchestratorWith(NodeList::of(node_ids(rt, ids))),
        Does::Join(at) => Event::Join(node_id(rt, at)),
        Does::Lose(at) => Event::Lose(node_id(rt, at)),
    }
}

pub(crate) fn events_of(rt: &(impl Abort + AllocGlobal), list: &[Does]) -> Vec<Event> {
    let mut events = room(rt, list.len());
    for does in list {
        events.push(event(rt, *does)).expect(rt, "room");
    }
    events
}
