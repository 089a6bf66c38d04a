//! Damaged frames: each beginning of each vector, which is too short, and each vector with any one of its bytes set to each value. `decode`
//! and a splitter in two cuttings give the same frame or the same fault (which one, its contract says); and what is a frame still goes to a controller and a node that have a volume
//! in use: volume 1 is attached at `n1`, staged there and published at `/a`.
use crate::controller::new_controller;
use crate::node::new_node;
use crate::playing::{Ask, Step, plays};
use crate::values::{DONE, config};
use csi_controller::Controller;
use csi_frame_tests::vectors::{LONGER_DELETE, VECTORS};
use csi_frames::{FaultKind, FrameFault, Splitter, decode, encode};
use csi_node::Node;
use csi_types::{Body, Frame, Mode, Party, Status};
use std::alloc::Global;
use std::process::Abort;

const B1: Mode = Mode::SingleNodeWriter;

const NODES: &[(&str, u64)] = &[("n1", 4)];

const OF_CONTROLLER: &[Step] = &[
    (1, Ask::Create("v", 10, 0, &[B1]), (Status::Ok, Some(1), "")),
    (2, Ask::Attach(1, "n1", B1, false), DONE),
];

const OF_NODE: &[Step] = &[
    (3, Ask::Stage(1, B1), DONE),
    (4, Ask::Publish(1, "/a", B1, false), DONE),
];

// The plugins, with the volume in use.
#[derive(Drop)]
struct Used {
    controller: Controller,
    node: Node,
}

// Whether something is answered.
fn gives(answer: Option<Frame>) -> bool {
    let is_some = answer.is_some();
    drop(answer);
    is_some
}

// Whether the controller gives nothing to the frame, or one like it answers, if it is a call for it.
fn is_borne(rt: &(impl Abort + AllocGlobal), controller: &mut Controller, frame: &Frame) -> bool {
    match (frame.party(), frame.body()) {
        (Party::Controller, Body::Call(_)) => {
            let record = controller.record().expect(rt, "memory");
            let made = Controller::from_record(rt.alloc(), config(rt, NODES), record);
            let mut other = made.expect(rt, "memory");
            let answer = other.step(frame).expect(rt, "memory");
            drop(other);
            gives(answer)
        }
        _ => !gives(controller.step(frame).expect(rt, "memory")),
    }
}

// The same of a node.
fn is_borne_there(rt: &(impl Abort + AllocGlobal), node: &mut Node, frame: &Frame) -> bool {
    match (frame.party(), frame.body()) {
        (Party::Node(id), Body::Call(_)) if id.as_str() == "n1" => {
            let record = node.record().expect(rt, "memory");
            let mut other = Node::from_record(rt.alloc(), record).expect(rt, "memory");
            let answer = other.step(frame).expect(rt, "memory");
            drop(other);
            gives(answer)
        }
        _ => !gives(node.step(frame).expect(rt, "memory")),
    }
}

// Puts the bytes of the frames at the end that a splitter gives of these pieces, at most one of each. The fault at which it ends, if it does.
fn split(
    rt: &(impl Abort + AllocGlobal),
    pieces: &[&[u8]],
    out: &mut Vec<u8>,
) -> Result<(), FrameFault> {
    let mut splitter = Splitter::new(rt.alloc());
    for piece in pieces {
        splitter.feed(piece).expect(rt, "memory");
        if let Some(lent) = splitter.next()? {
            let frame = lent.to_frame(rt.alloc()).expect(rt, "memory");
            encode(&frame, out).expect(rt, "memory");
            drop(frame);
        }
    }
    splitter.end()
}

// Whether a splitter gives these bytes' frame, or their fault, whole and cut at a place.
fn is_split(
    rt: &(impl Abort + AllocGlobal),
    bytes: &[u8],
    place: usize,
    wanted: Result<(), FrameFault>,
) -> bool {
    let (first, second) = match (bytes.get(..place), bytes.get(place..)) {
        (Some(first), Some(second)) => (first, second),
        _ => (bytes, bytes),
    };
    let mut out = Vec::new(rt.alloc());
    let is_whole = split(rt, &[bytes], &mut out) == wanted;
    let is_cut = split(rt, &[first, second], &mut out) == wanted;
    let size = bytes.len();
    let is_given = match wanted {
        Ok(()) => out.get(..size) == Some(bytes) && out.get(size..) == Some(bytes),
        Err(_) => out.is_empty(),
    };
    drop(out);
    is_whole && is_cut && is_given
}

// Whether the bytes are one frame, which the plugins bear, or have a fault, that of a beginning if they are one, and so in pieces. A stream may end
// where there are no bytes.
fn is_judged(
    rt: &(impl Abort + AllocGlobal),
    used: &mut Used,
    bytes: &[u8],
    (place, is_beginning): (usize, bool),
) -> bool {
    match decode(rt.alloc(), bytes) {
        Ok((frame, size)) => {
            let are_borne = is_borne(rt, &mut used.controller, &frame)
                && is_borne_there(rt, &mut used.node, &frame);
            drop(frame);
            let is_whole = are_borne && size == bytes.len() && !is_beginning;
            is_whole && is_split(rt, bytes, place, Ok(()))
        }
        Err(fault) => {
            let is_known = if is_beginning {
                fault.kind == FaultKind::Short && fault.place == bytes.len()
            } else {
                fault.kind != FaultKind::NoMemory
            };
            is_known && (bytes.is_empty() || is_split(rt, bytes, place, Err(fault)))
        }
    }
}

// The vector's beginnings, each cut in its middle.
fn cut(rt: &(impl Abort + AllocGlobal), used: &mut Used, bytes: &[u8]) {
    for size in 0..bytes.len() {
        let front = bytes.get(..size).unwrap_or(&[]);
        assert!(rt;
            is_judged(rt, used, front, (size / 2, true)),
            "{size} of {bytes:?}"
        );
    }
}

// The vector with one byte set to each value, cut before that byte.
fn change(rt: &(impl Abort + AllocGlobal), used: &mut Used, bytes: &mut Vec<u8>, at: usize) {
    for value in 0..=255u8 {
        if at < bytes.len() {
            bytes[at] = value;
        }
        assert!(rt;
            is_judged(rt, used, bytes, (at, false)),
            "at {at} of {bytes:?}"
        );
    }
}

// A frame, or bytes that begin with none, damaged in all ways, but for so many bytes at the front.
fn damage_one(rt: &(impl Abort + AllocGlobal), used: &mut Used, vector: &[u8], front: usize) {
    cut(rt, used, vector);
    for at in front..vector.len() {
        let mut bytes = vector.to_vec(rt.alloc()).expect(rt, "memory");
        change(rt, used, &mut bytes, at);
        drop(bytes);
    }
}

// A body with a byte too many, whose length stays (with a shorter one it is a frame and a byte more), and a length that no frame has.
const FAULTY: &[(&[u8], usize)] = &[(&LONGER_DELETE, 4), (&[0, 0, 5, 1], 0)];

// Each third vector from this one on, and, with the first, what begins with no frame.
fn damage(rt: &(impl Abort + AllocGlobal), first: usize) {
    let mut used = Used {
        controller: new_controller(rt, NODES),
        node: new_node(rt, 0),
    };
    plays(rt, &mut used.controller, OF_CONTROLLER);
    plays(rt, &mut used.node, OF_NODE);
    for (place, vector) in VECTORS.iter().enumerate() {
        if place % 3 == first {
            damage_one(rt, &mut used, vector, 0);
        }
    }
    if first == 0 {
        for (faulty, front) in FAULTY {
            damage_one(rt, &mut used, faulty, *front);
        }
    }
    drop(used);
}

#[test]
fn a_first_part_of_the_vectors_damaged(rt: HostRuntime) {
    damage(&rt, 0);
}

#[test]
fn a_second_part_of_the_vectors_damaged(rt: HostRuntime) {
    damage(&rt, 1);
}

#[test]
fn a_third_part_of_the_vectors_damaged(rt: HostRuntime) {
    damage(&rt, 2);
}
