//! Calls that are lent.
use super::*;
use crate::playing::{Step, tells};
use crate::values::{DONE, STALE, number};
use csi_types::Body;

const AT_A: Told = (Status::FailedPrecondition, None, "/a");

const LENT: &[Step] = &[
    (1, Ask::Stage(1, MANY), DONE),
    (2, Ask::Publish(1, "/a", MANY, true), DONE),
    (3, Ask::Unstage(1), AT_A),
    (3, Ask::Unpublish(1, "/a"), AT_A),
    (2, Ask::Unpublish(1, "/a"), STALE),
    (4, Ask::Unpublish(1, "/a"), DONE),
];

// The kind of the answer to each, and the volume whose row it changed: the third call is repeated by another.
const ANSWERS: &[(Kind, Option<u64>)] = &[
    (Kind::NodeStageVolume, Some(1)),
    (Kind::NodePublishVolume, Some(1)),
    (Kind::NodeUnstageVolume, Some(1)),
    (Kind::NodeUnstageVolume, None),
    (Kind::NodeUnpublishVolume, None),
    (Kind::NodeUnpublishVolume, Some(1)),
];

// Whether the node answers the call so, which is lent.
fn answers_lent(
    rt: &impl Abort,
    node: &mut Node,
    frame: &Frame,
    told: Told,
    (kind, row): (Kind, Option<u64>),
) -> bool {
    let Body::Call(call) = frame.body() else {
        return false;
    };
    let answer = node.answer(frame.number(), &call.lend());
    let answer = answer.expect(rt, "memory").expect(rt, "a reply");
    let is_told = answer.kind == kind && tells(&answer.reply, told);
    let found = match answer.row {
        Some(place) => match node.row_at(place) {
            Some(changed) => Some(changed.id.number()),
            None => None,
        },
        None => None,
    };
    drop(answer);
    is_told && found == row
}

#[test]
fn lent_calls_are_answered(rt: HostRuntime) {
    let mut node = new_node(&rt, 0);
    for ((call, ask, told), answer) in LENT.iter().zip(ANSWERS) {
        let frame = frame_of(&rt, number(*call), *ask);
        assert!(rt;
            answers_lent(&rt, &mut node, &frame, *told, *answer),
            "call {call}"
        );
        drop(frame);
    }
    drop(node);
}
