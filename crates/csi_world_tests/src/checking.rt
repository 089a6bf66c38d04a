//! What a world is to show.
use crate::steps::AllKnown;
use crate::values::{name, node_id, target};
use csi_orchestrator::{Known, Orchestrator, Thing};
use csi_types::{Body, Frame, Kind, Number, Status};
use csi_world::World;
use std::alloc::Global;
use std::process::Abort;

// Whether there is a frame, of this session's number.
fn has_number(frame: Option<&Frame>, (session, call): (u64, u64)) -> bool {
    match frame {
        Some(frame) => frame.number() == Number { session, call },
        None => false,
    }
}

// Whether the frame is this call.
pub(crate) fn is_call(frame: Option<&Frame>, number: (u64, u64), kind: Kind) -> bool {
    let is_kind = match frame.map(Frame::body) {
        Some(Body::Call(call)) => call.kind() == kind,
        _ => false,
    };
    is_kind && has_number(frame, number)
}

// Whether the frame is this reply.
pub(crate) fn is_reply(
    frame: Option<&Frame>,
    number: (u64, u64),
    status: Status,
    detail: &str,
) -> bool {
    let is_told = match frame.map(Frame::body) {
        Some(Body::Reply(_, reply)) => reply.status == status && reply.detail.as_str() == detail,
        _ => false,
    };
    is_told && has_number(frame, number)
}

// How many volumes are attached. Where memory is refused they are listed the second time.
pub(crate) fn attached(rt: &(impl Abort + AllocGlobal), world: &World) -> usize {
    let controller = world.controller();
    let all = match controller.attachments() {
        Ok(all) => all,
        Err(_) => controller.attachments().expect(rt, "memory"),
    };
    let count = all.len();
    drop(all);
    count
}

// How many are staged and how many published at a node.
fn held(rt: &(impl Abort + AllocGlobal), world: &World, at: &str) -> (usize, usize) {
    let id = node_id(rt, at);
    let node = world.node(&id).expect(rt, "a node");
    drop(id);
    let staged = match node.staged() {
        Ok(all) => all,
        Err(_) => node.staged().expect(rt, "memory"),
    };
    let published = match node.published() {
        Ok(all) => all,
        Err(_) => node.published().expect(rt, "memory"),
    };
    let counts = (staged.len(), published.len());
    drop(staged);
    drop(published);
    counts
}

// Whether so many are attached, and at this node so many staged and so many published.
pub(crate) fn has(
    rt: &(impl Abort + AllocGlobal),
    world: &World,
    at: &str,
    counts: (usize, usize, usize),
) -> bool {
    let (staged, published) = held(rt, world, at);
    (attached(rt, world), staged, published) == counts
}

pub(crate) fn has_node(rt: &(impl Abort + AllocGlobal), world: &World, at: &str) -> bool {
    let id = node_id(rt, at);
    let has_node = world.node(&id).is_some();
    drop(id);
    has_node
}

fn is_known(orchestrator: &Orchestrator, thing: Thing, known: Known) -> bool {
    let found = orchestrator.known(&thing);
    drop(thing);
    found == known
}

// Whether the orchestrator knows this of `v`, of its use at this node and of `/a` there.
pub(crate) fn knows(
    rt: &(impl Abort + AllocGlobal),
    world: &World,
    at: &str,
    (exists, attached, staged, published): AllKnown,
) -> bool {
    let orchestrator = world.orchestrator();
    let volume = Thing::Exists {
        name: name(rt, "v"),
    };
    let attachment = Thing::Attached {
        name: name(rt, "v"),
        node: node_id(rt, at),
    };
    let staging = Thing::Staged {
        name: name(rt, "v"),
        node: node_id(rt, at),
    };
    let publication = Thing::Published {
        name: name(rt, "v"),
        node: node_id(rt, at),
        target: target(rt, "/a"),
    };
    let is_so = is_known(orchestrator, volume, exists);
    let is_so = is_known(orchestrator, attachment, attached) && is_so;
    let is_so = is_known(orchestrator, staging, staged) && is_so;
    is_known(orchestrator, publication, published) && is_so
}
