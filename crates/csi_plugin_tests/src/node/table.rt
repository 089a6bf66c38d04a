//! What the table answers: each line, and whole runs of calls.
use super::*;
use crate::playing::{Step, is_reply, plays};
use crate::values::{DONE, STALE, number};

const NOT_STAGED: Told = (Status::FailedPrecondition, None, "not staged");

const AT_A: Told = (Status::FailedPrecondition, None, "/a");

const AT_B: Told = (Status::FailedPrecondition, None, "/b");

const STAGED_OTHERWISE: Told = (Status::FailedPrecondition, None, "staged otherwise");

const OTHERWISE: Told = (Status::AlreadyExists, None, "published otherwise");

const NO_TARGET: Told = (Status::InvalidArgument, None, "target");

const STAGING: &[Step] = &[
    (1, Ask::Stage(1, ONE), DONE),
    (2, Ask::Stage(1, ONE), DONE),
    (
        3,
        Ask::Stage(1, MANY),
        (Status::AlreadyExists, None, "staged otherwise"),
    ),
    (4, Ask::Publish(1, "/a", ONE, false), DONE),
];

const UNSTAGING: &[Step] = &[
    (1, Ask::Unstage(1), DONE),
    (2, Ask::Stage(1, MANY), DONE),
    (3, Ask::Publish(1, "/b", MANY, false), DONE),
    (4, Ask::Publish(1, "/a", MANY, false), DONE),
    (5, Ask::Unstage(1), AT_B),
    (6, Ask::Unpublish(1, "/b"), DONE),
    (7, Ask::Unstage(1), AT_A),
    (8, Ask::Unpublish(1, "/a"), DONE),
    (9, Ask::Unstage(1), DONE),
    (10, Ask::Publish(1, "/a", MANY, false), NOT_STAGED),
    (11, Ask::Stage(1, ONE), DONE),
];

// A target that isn't a path from the root is judged before all else, and what is published there before the
// staging.
const PUBLISHING: &[Step] = &[
    (1, Ask::Publish(1, "a/", ONE, false), NO_TARGET),
    (2, Ask::Publish(1, "/a", ONE, false), NOT_STAGED),
    (3, Ask::Stage(1, ONE), DONE),
    (4, Ask::Publish(1, "/a", MANY, false), STAGED_OTHERWISE),
    (5, Ask::Publish(1, "/a", ONE, true), DONE),
    (6, Ask::Publish(1, "/a", MANY, true), OTHERWISE),
    (7, Ask::Publish(1, "/a", ONE, false), OTHERWISE),
    (8, Ask::Publish(1, "/a", ONE, true), DONE),
    (9, Ask::Publish(1, "/b", ONE, true), AT_A),
];

const UNPUBLISHING: &[Step] = &[
    (1, Ask::Unpublish(1, "/a"), DONE),
    (2, Ask::Stage(1, ONE), DONE),
    (3, Ask::Publish(1, "/a", ONE, false), DONE),
    (4, Ask::Unpublish(1, "/b"), DONE),
    (5, Ask::Unstage(1), AT_A),
    (6, Ask::Unpublish(1, "/a"), DONE),
    (7, Ask::Publish(1, "/b", ONE, false), DONE),
];

// One target in a mode for one node, two in a mode for several.
const BY_MODE: &[Step] = &[
    (1, Ask::Stage(1, ONE), DONE),
    (2, Ask::Publish(1, "/a", ONE, false), DONE),
    (2, Ask::Publish(1, "/a", ONE, false), DONE),
    (3, Ask::Publish(1, "/a", ONE, false), DONE),
    (4, Ask::Publish(1, "/a", ONE, true), OTHERWISE),
    (5, Ask::Publish(1, "/b", ONE, false), AT_A),
    (6, Ask::Publish(1, "b", ONE, false), NO_TARGET),
    (7, Ask::Unstage(1), AT_A),
    (8, Ask::Stage(2, MANY), DONE),
    (9, Ask::Publish(2, "/a", MANY, false), DONE),
    (10, Ask::Publish(2, "/b", MANY, false), DONE),
    (11, Ask::Unpublish(1, "/a"), DONE),
    (12, Ask::Unstage(1), DONE),
];

// Modes for one node: two targets where several write there, and else one.
const BY_WRITERS: &[Step] = &[
    (1, Ask::Stage(1, TWO_WRITERS), DONE),
    (2, Ask::Publish(1, "/a", TWO_WRITERS, false), DONE),
    (3, Ask::Publish(1, "/b", TWO_WRITERS, false), DONE),
    (4, Ask::Stage(2, ONE_WRITER), DONE),
    (5, Ask::Publish(2, "/a", ONE_WRITER, false), DONE),
    (6, Ask::Publish(2, "/b", ONE_WRITER, false), AT_A),
    (
        7,
        Ask::Publish(2, "/b", TWO_WRITERS, false),
        STAGED_OTHERWISE,
    ),
    (8, Ask::Unstage(1), AT_A),
];

const RUNS: &[&[Step]] = &[
    STAGING,
    UNSTAGING,
    PUBLISHING,
    UNPUBLISHING,
    BY_MODE,
    BY_WRITERS,
];

#[test]
fn the_table_answers(rt: HostRuntime) {
    for steps in RUNS {
        let mut node = new_node(&rt, 0);
        plays(&rt, &mut node, steps);
        drop(node);
    }
}

// A refusal opens a row and is kept.
const KEPT: &[Step] = &[
    (1, Ask::Publish(7, "/a", ONE, false), NOT_STAGED),
    (1, Ask::Publish(7, "/b", ONE, false), NOT_STAGED),
];

// Whatever comes under its number again.
#[test]
fn a_refusal_is_kept(rt: HostRuntime) {
    let mut node = new_node(&rt, 0);
    plays(&rt, &mut node, KEPT);
    let call = frame_of(&rt, number(1), Ask::Stage(7, ONE));
    let reply = node
        .step(&call)
        .expect(&rt, "memory")
        .expect(&rt, "a reply");
    assert!(rt; is_reply(&reply, &call, Kind::NodePublishVolume, NOT_STAGED));
    drop((reply, call));
    drop(node);
}

// A frame for another node gets nothing, and opens no row.
#[test]
fn a_frame_for_another_node(rt: HostRuntime) {
    let mut other = Node::new(rt.alloc(), node_id(&rt, "n2"), 0);
    let call = frame_of(&rt, number(1), Ask::Stage(1, ONE));
    let answer = other.step(&call).expect(&rt, "it takes no memory");
    drop(call);
    assert!(rt; answer.is_none() && other.row_count() == 0);
    drop((answer, other));
}
