//! A volume is used, and isn't any more.
use super::{CREATE, N1, NOTHING, PUBLISHED, STOP, THERE, TWO, USE};
use crate::playing::plays;
use crate::steps::Step::{
    Calls, Frames, Has, Knows, Leaves, Makes, New, NoFrame, NoNode, On, Publishes, Replies,
};
use crate::steps::{Does, ONE, Step};
use csi_orchestrator::OrchFault;
use csi_types::{Kind, Status};
use csi_world::Outcome;

const USED: &[Step] = &[
    New("nothing happens, and a frame that isn't there comes", &[]),
    Frames(0),
    Knows("n1", NOTHING),
    On(Does::Deliver(99), Outcome::NoSuchFrame),
    On(Does::Deliver(0), Outcome::NoSuchFrame),
    Frames(0),
    New("a node has nothing, and another isn't there", N1),
    NoNode("n2"),
    Has(0, "n1", 0, 0),
    New("eight frames publish a volume", N1),
    On(CREATE, Outcome::Sent(1)),
    On(Does::Deliver(1), Outcome::Answered(2)),
    On(Does::Deliver(2), Outcome::Taken(None)),
    On(USE, Outcome::Sent(3)),
    On(Does::Deliver(3), Outcome::Answered(4)),
    On(Does::Deliver(4), Outcome::Taken(Some(5))),
    On(Does::Deliver(5), Outcome::Answered(6)),
    On(Does::Deliver(6), Outcome::Taken(Some(7))),
    On(Does::Deliver(7), Outcome::Answered(8)),
    On(Does::Deliver(8), Outcome::Taken(None)),
    Frames(8),
    Calls(1, (1, 1), Kind::CreateVolume),
    Calls(3, (1, 2), Kind::ControllerPublishVolume),
    Calls(5, (1, 3), Kind::NodeStageVolume),
    Calls(7, (1, 4), Kind::NodePublishVolume),
    Replies(8, (1, 4), Status::Ok, ""),
    NoFrame(0),
    NoFrame(9),
    Knows("n1", PUBLISHED),
    Has(1, "n1", 1, 1),
    New(
        "what is so already, and what is refused, sends nothing",
        TWO,
    ),
    Makes(ONE),
    Publishes(3, "n1", ONE, false),
    On(USE, Outcome::Met),
    On(CREATE, Outcome::Refused(OrchFault::NameUsed)),
    On(Does::Timeout, Outcome::Refused(OrchFault::Idle)),
    On(Does::Delete, Outcome::Refused(OrchFault::InUse)),
    On(
        Does::Stop("n1", "/b"),
        Outcome::Refused(OrchFault::NoSuchTarget),
    ),
    Frames(8),
    Has(1, "n1", 1, 1),
];

#[test]
fn a_volume_is_used(rt: HostRuntime) {
    plays(&rt, USED);
}

const STOPPED: &[Step] = &[
    New("a volume is taken from its node, and deleted", N1),
    Makes(ONE),
    Publishes(3, "n1", ONE, false),
    Leaves(9, "n1"),
    Calls(9, (1, 5), Kind::NodeUnpublishVolume),
    Calls(11, (1, 6), Kind::NodeUnstageVolume),
    Calls(13, (1, 7), Kind::ControllerUnpublishVolume),
    Knows("n1", THERE),
    Has(0, "n1", 0, 0),
    On(STOP, Outcome::Refused(OrchFault::NoSuchTarget)),
    On(Does::Delete, Outcome::Sent(15)),
    Calls(15, (1, 8), Kind::DeleteVolume),
    New(
        "an attachment without a reply is undone, and the volume deleted",
        N1,
    ),
    Makes(ONE),
    On(USE, Outcome::Sent(3)),
    On(Does::Delete, Outcome::Refused(OrchFault::InUse)),
    On(Does::Timeout, Outcome::Sent(4)),
    On(Does::Timeout, Outcome::Sent(5)),
    On(Does::Timeout, Outcome::Sent(6)),
    Calls(3, (1, 2), Kind::ControllerPublishVolume),
    Calls(4, (1, 3), Kind::ControllerPublishVolume),
    Calls(5, (1, 4), Kind::ControllerPublishVolume),
    Calls(6, (1, 5), Kind::ControllerUnpublishVolume),
    On(Does::Deliver(6), Outcome::Answered(7)),
    Replies(7, (1, 5), Status::Ok, ""),
    On(Does::Deliver(7), Outcome::Taken(None)),
    On(Does::Delete, Outcome::Sent(8)),
    On(Does::Deliver(8), Outcome::Answered(9)),
    On(Does::Deliver(9), Outcome::Taken(None)),
    Calls(8, (1, 6), Kind::DeleteVolume),
    Replies(9, (1, 6), Status::Ok, ""),
    On(Does::Delete, Outcome::Met),
    On(CREATE, Outcome::Refused(OrchFault::NameUsed)),
    Knows("n1", NOTHING),
    Has(0, "n1", 0, 0),
];

#[test]
fn a_volume_is_stopped_and_deleted(rt: HostRuntime) {
    plays(&rt, STOPPED);
}
