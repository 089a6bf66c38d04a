//! Worlds that are made of their parts, safe and not, and what an audit finds in them: a thing that is staged and not
//! attached so, or one that is known and isn't so. Holdings of one volume that exclude each other, or a volume published
//! where it isn't staged, can't be made so, since the plugins' own contracts keep them out. Where memory is refused a part is asked
//! again, and a world is made a second time.
use crate::events::events_of;
use crate::playing::{audited, world_after};
use crate::steps::{Does, ONE};
use crate::values::{config, name, node_id, node_ids, only_block, room};
use csi_controller::ControllerRecord;
use csi_node::{Node, NodeRecord};
use csi_orchestrator::Orchestrator;
use csi_types::{Config, Mode};
use csi_world::Violation::{RecordedWrong, StagedUnattached};
use csi_world::{AssembleFault, Violation, World};
use std::alloc::Global;
use std::process::Abort;

// The controller's record in this world.
pub(crate) fn controller_of(rt: &impl Abort, world: &World) -> ControllerRecord {
    match world.controller().record() {
        Ok(kept) => kept,
        Err(_) => world.controller().record().expect(rt, "memory"),
    }
}

fn node_record(rt: &impl Abort, node: &Node) -> NodeRecord {
    match node.record() {
        Ok(kept) => kept,
        Err(_) => node.record().expect(rt, "memory"),
    }
}

// Its nodes' records.
pub(crate) fn nodes_of(rt: &(impl Abort + AllocGlobal), world: &World) -> Vec<NodeRecord> {
    let mut records = room(rt, world.nodes().len());
    for node in world.nodes() {
        records.push(node_record(rt, node)).expect(rt, "room");
    }
    records
}

fn after(rt: &(impl Abort + AllocGlobal), config: &Config, list: &[Does]) -> World {
    let events = events_of(rt, list);
    let world = world_after(rt, config, &events);
    drop(events);
    world
}

// Whether it asks for volume `v`, if there is memory for it.
fn asks(rt: &(impl Abort + AllocGlobal), orchestrator: &mut Orchestrator) -> bool {
    let capabilities = only_block(rt, ONE);
    let sent = orchestrator.create(name(rt, "v"), 10, 0, capabilities);
    let has_asked = sent.is_ok();
    drop(sent);
    has_asked
}

// An orchestrator that did nothing, or one that asked for `v` by its call 1, and heard in another world that it was made.
fn orchestrator(rt: &(impl Abort + AllocGlobal), config: &Config, has_heard: bool) -> Orchestrator {
    let mut orchestrator = Orchestrator::new(rt.alloc(), node_ids(rt, &["n1"]));
    if has_heard {
        let asked = asks(rt, &mut orchestrator) || asks(rt, &mut orchestrator);
        assert!(rt; asked);
        let world = after(rt, config, MADE);
        let heard = orchestrator.deliver(world.frame(2).expect(rt, "a reply"));
        drop(world);
        assert!(rt; heard.is_ok());
        drop(heard);
    }
    orchestrator
}

const MADE: &[Does] = &[Does::Create(ONE), Does::Deliver(1)];

const DELETED: &[Does] = &[
    Does::Create(ONE),
    Does::Deliver(1),
    Does::Deliver(2),
    Does::Delete,
    Does::Deliver(3),
];

const ATTACHED: &[Does] = &[
    Does::Create(ONE),
    Does::Deliver(1),
    Does::Deliver(2),
    Does::Use("n1", "/a", ONE, false),
    Does::Deliver(3),
];

const STAGED: &[Does] = &[
    Does::Create(ONE),
    Does::Deliver(1),
    Does::Deliver(2),
    Does::Use("n1", "/a", ONE, false),
    Does::Deliver(3),
    Does::Deliver(4),
    Does::Deliver(5),
];

const READERS: Mode = Mode::MultiNodeReaderOnly;

const STAGED_TO_READ: &[Does] = &[
    Does::Create(READERS),
    Does::Deliver(1),
    Does::Deliver(2),
    Does::Use("n1", "/a", READERS, true),
    Does::Deliver(3),
    Does::Deliver(4),
    Does::Deliver(5),
];

// What the controller did, what the node did, each in a world of its own, and whether the orchestrator heard that `v` was made; and what an
// audit finds.
type Row = (
    &'static str,
    &'static [Does],
    &'static [Does],
    bool,
    Option<Violation>,
);

const ROWS: &[Row] = &[
    ("nothing", &[], &[], false, None),
    ("a true reply", MADE, &[], true, None),
    (
        "staged, and not there",
        &[],
        STAGED,
        false,
        Some(StagedUnattached),
    ),
    (
        "staged, and not attached",
        MADE,
        STAGED,
        true,
        Some(StagedUnattached),
    ),
    (
        "staged, and attached in another capability",
        ATTACHED,
        STAGED_TO_READ,
        true,
        Some(StagedUnattached),
    ),
    ("a forged reply", &[], &[], true, Some(RecordedWrong)),
    (
        "deleted behind its back",
        DELETED,
        &[],
        true,
        Some(RecordedWrong),
    ),
    (
        "there, and never heard of",
        MADE,
        &[],
        false,
        Some(RecordedWrong),
    ),
    (
        "attached, and never sent",
        ATTACHED,
        &[],
        true,
        Some(RecordedWrong),
    ),
];

// The world of these parts, if there is memory for it.
fn try_assembled(rt: &(impl Abort + AllocGlobal), row: &Row) -> Result<World, AssembleFault> {
    let (_, of_controller, of_node, has_heard, _) = row;
    let config = config(rt, &[("n1", 4)]);
    let world = after(rt, &config, of_controller);
    let kept = controller_of(rt, &world);
    drop(world);
    let world = after(rt, &config, of_node);
    let nodes = nodes_of(rt, &world);
    drop(world);
    let orchestrator = orchestrator(rt, &config, *has_heard);
    World::assemble(rt.alloc(), config, kept, nodes, orchestrator)
}

fn assembled(rt: &(impl Abort + AllocGlobal), row: &Row) -> World {
    match try_assembled(rt, row) {
        Ok(world) => world,
        Err(fault) => {
            assert_eq!(rt; fault, AssembleFault::NoMemory);
            try_assembled(rt, row).expect(rt, "a world")
        }
    }
}

#[test]
fn an_audit_finds_what_is_wrong(rt: HostRuntime) {
    for row in ROWS {
        let (told, _, _, _, found) = row;
        let world = assembled(&rt, row);
        assert!(&rt;
            world.frame_count() == 0 && world.outcomes().is_empty(),
            "{told}"
        );
        assert!(&rt; audited(&rt, &world) == *found, "{told}");
        drop(world);
    }
}

// ---- the nodes that are there

// Which refusal comes for the records of these nodes, where the configuration has `n1` and then `n2`.
fn refusal(rt: &(impl Abort + AllocGlobal), ids: &[&str]) -> Option<AssembleFault> {
    let config = config(rt, &[("n1", 4), ("n2", 4)]);
    let empty = after(rt, &config, &[]);
    let kept = controller_of(rt, &empty);
    drop(empty);
    let mut nodes = room(rt, ids.len());
    for id in ids {
        let node = Node::new(rt.alloc(), node_id(rt, id), 0);
        nodes.push(node_record(rt, &node)).expect(rt, "room");
        drop(node);
    }
    let orchestrator = Orchestrator::new(rt.alloc(), node_ids(rt, &["n1"]));
    match World::assemble(rt.alloc(), config, kept, nodes, orchestrator) {
        Ok(world) => {
            drop(world);
            None
        }
        Err(fault) => Some(fault),
    }
}

const TWICE: Option<AssembleFault> = Some(AssembleFault::OtherNodes);

// Any nodes may be there, in any order, but each once.
const NODES: &[(&[&str], Option<AssembleFault>)] = &[
    (&["n1", "n2"], None),
    (&["n2", "n1"], None),
    (&["n1"], None),
    (&["n1", "n2", "n3"], None),
    (&[], None),
    (&["n1", "n1"], TWICE),
    (&["n3", "n1", "n2", "n3"], TWICE),
    (&["n2", "n1", "n1"], TWICE),
];

#[test]
fn no_two_records_are_of_one_node(rt: HostRuntime) {
    for (index, (ids, fault)) in NODES.iter().enumerate() {
        let first = refusal(&rt, ids);
        let is_so = first == *fault
            || first == Some(AssembleFault::NoMemory) && refusal(&rt, ids) == *fault;
        assert!(&rt; is_so, "row {index}");
    }
}
