//! Frames that come late, after a timeout or a restart, or again.
use super::{MAYBE_ATTACHED, N1, PUBLISHED, STOP, USE};
use crate::playing::plays;
use crate::steps::Step::{
    Calls, Frames, Has, IsIn, Knows, Leaves, Makes, New, On, Publishes, Replies,
};
use crate::steps::{Does, ONE, Step};
use csi_orchestrator::Known::{Maybe, No, Yes};
use csi_types::{Kind, Status};
use csi_world::Outcome;

const GIVEN_UP: &[Step] = &[
    New(
        "a staging is sent three times and undone, and the first one comes late",
        N1,
    ),
    Makes(ONE),
    On(USE, Outcome::Sent(3)),
    On(Does::Deliver(3), Outcome::Answered(4)),
    On(Does::Deliver(4), Outcome::Taken(Some(5))),
    On(Does::Timeout, Outcome::Sent(6)),
    On(Does::Timeout, Outcome::Sent(7)),
    On(Does::Timeout, Outcome::Sent(8)),
    On(Does::Deliver(8), Outcome::Answered(9)),
    On(Does::Deliver(9), Outcome::Taken(Some(10))),
    On(Does::Deliver(5), Outcome::Answered(11)),
    Calls(5, (1, 3), Kind::NodeStageVolume),
    Calls(6, (1, 4), Kind::NodeStageVolume),
    Calls(7, (1, 5), Kind::NodeStageVolume),
    Calls(8, (1, 6), Kind::NodeUnstageVolume),
    Replies(9, (1, 6), Status::Ok, ""),
    Calls(10, (1, 7), Kind::ControllerUnpublishVolume),
    Replies(11, (1, 3), Status::Aborted, "stale"),
    Has(1, "n1", 0, 0),
    Frames(11),
    New(
        "a detachment that was sent twice comes once the volume is used again",
        N1,
    ),
    Makes(ONE),
    Publishes(3, "n1", ONE, false),
    On(STOP, Outcome::Sent(9)),
    On(Does::Deliver(9), Outcome::Answered(10)),
    On(Does::Deliver(10), Outcome::Taken(Some(11))),
    On(Does::Deliver(11), Outcome::Answered(12)),
    On(Does::Deliver(12), Outcome::Taken(Some(13))),
    On(Does::Timeout, Outcome::Sent(14)),
    On(Does::Deliver(14), Outcome::Answered(15)),
    On(Does::Deliver(15), Outcome::Taken(None)),
    Has(0, "n1", 0, 0),
    On(USE, Outcome::Sent(16)),
    On(Does::Deliver(16), Outcome::Answered(17)),
    On(Does::Deliver(17), Outcome::Taken(Some(18))),
    On(Does::Deliver(18), Outcome::Answered(19)),
    On(Does::Deliver(13), Outcome::Answered(20)),
    Replies(20, (1, 7), Status::Aborted, "stale"),
    Has(1, "n1", 1, 0),
    Calls(9, (1, 5), Kind::NodeUnpublishVolume),
    Replies(10, (1, 5), Status::Ok, ""),
    Calls(11, (1, 6), Kind::NodeUnstageVolume),
    Replies(12, (1, 6), Status::Ok, ""),
    Calls(13, (1, 7), Kind::ControllerUnpublishVolume),
    Calls(14, (1, 8), Kind::ControllerUnpublishVolume),
    Replies(15, (1, 8), Status::Ok, ""),
    Calls(16, (1, 9), Kind::ControllerPublishVolume),
    Replies(17, (1, 9), Status::Ok, ""),
    Calls(18, (1, 10), Kind::NodeStageVolume),
    Replies(19, (1, 10), Status::Ok, ""),
    Frames(20),
];

#[test]
fn a_call_that_was_given_up_is_stale(rt: HostRuntime) {
    plays(&rt, GIVEN_UP);
}

const HEARD: &[Step] = &[
    New(
        "a publishing was answered, but its reply comes after a timeout",
        N1,
    ),
    Makes(ONE),
    On(USE, Outcome::Sent(3)),
    On(Does::Deliver(3), Outcome::Answered(4)),
    On(Does::Deliver(4), Outcome::Taken(Some(5))),
    On(Does::Deliver(5), Outcome::Answered(6)),
    On(Does::Deliver(6), Outcome::Taken(Some(7))),
    On(Does::Deliver(7), Outcome::Answered(8)),
    Calls(7, (1, 4), Kind::NodePublishVolume),
    Replies(8, (1, 4), Status::Ok, ""),
    On(Does::Timeout, Outcome::Sent(9)),
    Calls(9, (1, 5), Kind::NodePublishVolume),
    On(Does::Deliver(8), Outcome::Ignored),
    Knows("n1", (Yes, Yes, Yes, Maybe)),
    Has(1, "n1", 1, 1),
    New(
        "calls that come again get the kept replies, and replies are ignored",
        N1,
    ),
    Makes(ONE),
    Publishes(3, "n1", ONE, false),
    On(Does::Deliver(7), Outcome::Answered(9)),
    Replies(9, (1, 4), Status::Ok, ""),
    On(Does::Deliver(8), Outcome::Ignored),
    On(Does::Deliver(9), Outcome::Ignored),
    On(Does::Deliver(5), Outcome::Answered(10)),
    Replies(10, (1, 3), Status::Aborted, "stale"),
    On(Does::Deliver(3), Outcome::Answered(11)),
    Replies(11, (1, 2), Status::Ok, ""),
    On(Does::Deliver(1), Outcome::Answered(12)),
    Replies(12, (1, 1), Status::Aborted, "stale"),
    Knows("n1", PUBLISHED),
    Has(1, "n1", 1, 1),
];

#[test]
fn a_reply_that_is_not_waited_for_is_ignored(rt: HostRuntime) {
    plays(&rt, HEARD);
}

const RESTARTED: &[Step] = &[
    New(
        "an orchestrator restarts before it hears of an attachment, and asks again",
        N1,
    ),
    Makes(ONE),
    On(USE, Outcome::Sent(3)),
    On(Does::Deliver(3), Outcome::Answered(4)),
    On(Does::RestartOrchestrator, Outcome::Restarted),
    IsIn(2),
    Knows("n1", MAYBE_ATTACHED),
    Frames(4),
    On(Does::Timeout, Outcome::Sent(5)),
    Calls(3, (1, 2), Kind::ControllerPublishVolume),
    Replies(4, (1, 2), Status::Ok, ""),
    Calls(5, (2, 1), Kind::ControllerPublishVolume),
    On(Does::Deliver(4), Outcome::Ignored),
    On(Does::Deliver(5), Outcome::Answered(6)),
    Replies(6, (2, 1), Status::Ok, ""),
    On(Does::Deliver(6), Outcome::Taken(Some(7))),
    Calls(7, (2, 2), Kind::NodeStageVolume),
    On(Does::Deliver(3), Outcome::Answered(8)),
    Replies(8, (1, 2), Status::Aborted, "stale"),
    On(Does::Deliver(8), Outcome::Ignored),
    Knows("n1", (Yes, Yes, Maybe, No)),
    Has(1, "n1", 0, 0),
    New("each part restarts on the way, and nothing is lost", N1),
    Makes(ONE),
    On(Does::RestartController, Outcome::Restarted),
    On(USE, Outcome::Sent(3)),
    On(Does::RestartOrchestrator, Outcome::Restarted),
    On(Does::Timeout, Outcome::Sent(4)),
    On(Does::Deliver(3), Outcome::Answered(5)),
    On(Does::RestartController, Outcome::Restarted),
    On(Does::Deliver(4), Outcome::Answered(6)),
    On(Does::Deliver(5), Outcome::Ignored),
    On(Does::Deliver(6), Outcome::Taken(Some(7))),
    On(Does::RestartNode("n1"), Outcome::Restarted),
    On(Does::Deliver(7), Outcome::Answered(8)),
    On(Does::RestartNode("n1"), Outcome::Restarted),
    On(Does::Deliver(8), Outcome::Taken(Some(9))),
    On(Does::Deliver(9), Outcome::Answered(10)),
    On(Does::Deliver(10), Outcome::Taken(None)),
    On(Does::RestartController, Outcome::Restarted),
    On(Does::RestartNode("n1"), Outcome::Restarted),
    On(Does::RestartNode("n2"), Outcome::NoSuchNode),
    Knows("n1", PUBLISHED),
    Has(1, "n1", 1, 1),
    New("what a node had in an earlier session is stale there", N1),
    Makes(ONE),
    Publishes(3, "n1", ONE, false),
    Leaves(9, "n1"),
    On(Does::RestartOrchestrator, Outcome::Restarted),
    On(USE, Outcome::Sent(15)),
    On(Does::Deliver(15), Outcome::Answered(16)),
    On(Does::Deliver(16), Outcome::Taken(Some(17))),
    Knows("n1", (Yes, Yes, Maybe, No)),
    On(Does::Deliver(17), Outcome::Answered(18)),
    On(Does::Deliver(5), Outcome::Answered(19)),
    Replies(19, (1, 3), Status::Aborted, "stale"),
    On(Does::Deliver(11), Outcome::Answered(20)),
    Replies(20, (1, 6), Status::Aborted, "stale"),
    On(Does::Deliver(13), Outcome::Answered(21)),
    Replies(21, (1, 7), Status::Aborted, "stale"),
    Has(1, "n1", 1, 0),
    IsIn(2),
];

#[test]
fn a_restart_leaves_what_was_heard(rt: HostRuntime) {
    plays(&rt, RESTARTED);
}
