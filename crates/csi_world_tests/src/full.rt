//! A world of 4,096 volumes and 64 nodes: one volume is at each node, and at as many targets of the first one as there may be; each other
//! volume is at one node.
use crate::assembled::{controller_of, nodes_of};
use crate::checking::has;
use crate::values::{block, name, node_id, node_ids, only_block, room, target};
use csi_orchestrator::Orchestrator;
use csi_types::Mode::MultiNodeMultiWriter;
use csi_types::{Config, Name, NodeId, NodeSlots};
use csi_world::{Event, Outcome, Violation, World, audit, simulate};
use std::alloc::Global;
use std::process::Abort;

const NODES: u64 = 64;

const VOLUMES: u64 = 4096;

const TARGETS: u64 = 16;

// How many events there are: two for each volume and for each use of one, and one more.
const EVENTS: usize = 2 * (4096 + 64 + 15 + 4095) + 1;

fn name_of(rt: &(impl Abort + AllocGlobal), volume: u64) -> Name {
    let text = format!(in rt.alloc(); "v{volume}").expect(rt, "memory");
    name(rt, &text)
}

fn numbered_node_id(rt: &(impl Abort + AllocGlobal), node: u64) -> NodeId {
    let text = format!(in rt.alloc(); "n{node}").expect(rt, "memory");
    node_id(rt, &text)
}

fn full_config(rt: &(impl Abort + AllocGlobal)) -> Config {
    let mut list = room(rt, 64);
    for node in 0..NODES {
        let id = numbered_node_id(rt, node);
        list.push(NodeSlots { id, slots: 4096 }).expect(rt, "room");
    }
    Config::try_new(rt.alloc(), 1000, list).expect(rt, "a configuration")
}

// This happens to a volume, which then comes to rest.
fn push_and_settle(
    rt: &(impl Abort + AllocGlobal),
    events: &mut Vec<Event>,
    event: Event,
    volume: u64,
) {
    events.push(event).expect(rt, "room");
    events
        .push(Event::Settle(name_of(rt, volume)))
        .expect(rt, "room");
}

fn create(rt: &(impl Abort + AllocGlobal), events: &mut Vec<Event>, volume: u64) {
    let created = Event::Create {
        name: name_of(rt, volume),
        required: 10,
        limit: 0,
        capabilities: only_block(rt, MultiNodeMultiWriter),
    };
    push_and_settle(rt, events, created, volume)
}

fn use_at(
    rt: &(impl Abort + AllocGlobal),
    events: &mut Vec<Event>,
    volume: u64,
    node: u64,
    place: u64,
) {
    let text = format!(in rt.alloc(); "/{place}").expect(rt, "memory");
    let used = Event::Use {
        name: name_of(rt, volume),
        node: numbered_node_id(rt, node),
        target: target(rt, &text),
        capability: block(MultiNodeMultiWriter),
        readonly: false,
    };
    push_and_settle(rt, events, used, volume)
}

// The last volume is asked to leave its node.
fn full_events(rt: &(impl Abort + AllocGlobal)) -> Vec<Event> {
    let mut events = room(rt, EVENTS);
    for volume in 0..VOLUMES {
        create(rt, &mut events, volume);
    }
    for node in 0..NODES {
        use_at(rt, &mut events, 0, node, 0);
    }
    for place in 1..TARGETS {
        use_at(rt, &mut events, 0, 0, place);
    }
    for volume in 1..VOLUMES {
        use_at(rt, &mut events, volume, volume % NODES, 0);
    }
    let stopped = Event::Stop {
        name: name_of(rt, VOLUMES - 1),
        node: numbered_node_id(rt, NODES - 1),
        target: target(rt, "/0"),
    };
    events.push(stopped).expect(rt, "room");
    events
}

// Whether that came of the event of this place: each command sends a call, which a timeout sends again; a volume is made, or published at a
// further target, by one call, and at a node by three.
fn is_wanted(place: usize, outcome: Outcome) -> bool {
    match (place % 2, place / 2) {
        (0, _) => matches!(outcome, Outcome::Sent(_)),
        (_, 0..=4095 | 4160..=4174) => outcome == Outcome::Settled(3),
        _ => outcome == Outcome::Settled(7),
    }
}

// The volumes that are attached, and those that are staged and published at the first node.
const COUNTS: (usize, usize, usize) = (64 + 4095, 64, 16 + 63);

// The world is full, and this is what an audit finds.
fn is_full(rt: &(impl Abort + AllocGlobal), world: &World, found: Option<Violation>) {
    assert!(rt; has(rt, world, "n0", COUNTS));
    assert!(rt; audit(rt.alloc(), world).expect(rt, "memory") == found);
}

// A world of these parts, but for the orchestrator, which has heard of nothing.
fn assembled(rt: &(impl Abort + AllocGlobal), world: &World) -> World {
    let kept = controller_of(rt, world);
    let nodes = nodes_of(rt, world);
    let orchestrator = Orchestrator::new(rt.alloc(), node_ids(rt, &["n0"]));
    World::assemble(rt.alloc(), full_config(rt), kept, nodes, orchestrator).expect(rt, "memory")
}

#[test]
fn a_world_has_4096_volumes_and_64_nodes(rt: HostRuntime) {
    let events = full_events(&rt);
    let world = simulate(rt.alloc(), &full_config(&rt), &events).expect(&rt, "memory");
    drop(events);
    assert!(&rt; world.outcomes().len() == EVENTS);
    for (place, outcome) in world.outcomes().iter().enumerate() {
        assert!(&rt; is_wanted(place, *outcome), "event {place}: {outcome:?}");
    }
    is_full(&rt, &world, None);
    let other = assembled(&rt, &world);
    is_full(&rt, &other, Some(Violation::RecordedWrong));
    drop(other);
    let settled = world
        .settle(&name_of(&rt, VOLUMES - 1))
        .expect(&rt, "memory");
    assert!(&rt; settled.events == 7 && settled.rest);
    drop(settled);
}
