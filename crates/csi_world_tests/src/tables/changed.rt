//! Nodes that join, are taken out and are lost; and volumes that come to rest.
use super::{ATTACHED, N1, PUBLISHED, STOP, THERE, TWO, USE};
use crate::playing::plays;
use crate::steps::Step::{
    Calls, Frames, Has, IsIn, Knows, Leaves, Makes, New, NoNode, On, Publishes, Replies,
};
use crate::steps::{Does, ONE, Step};
use csi_orchestrator::OrchFault;
use csi_types::{Kind, Status};
use csi_world::Outcome;

const AT_N2: Does = Does::Use("n2", "/a", ONE, false);

const HELD: Outcome = Outcome::Refused(OrchFault::HeldElsewhere);

const NO_NODE: Outcome = Outcome::Refused(OrchFault::NoSuchNode);

const LOST: &[Step] = &[
    New(
        "a node that a volume is published at is lost: it is detached, and used elsewhere",
        TWO,
    ),
    Makes(ONE),
    Publishes(3, "n1", ONE, false),
    On(AT_N2, HELD),
    On(Does::Lose("n1"), Outcome::Lost),
    IsIn(2),
    NoNode("n1"),
    Frames(8),
    Knows("n1", ATTACHED),
    On(Does::Deliver(7), Outcome::NoSuchNode),
    On(AT_N2, HELD),
    On(USE, NO_NODE),
    On(Does::Delete, Outcome::Refused(OrchFault::InUse)),
    On(Does::Stop("n1", "/x"), Outcome::Sent(9)),
    Calls(9, (2, 1), Kind::ControllerUnpublishVolume),
    On(Does::Deliver(9), Outcome::Answered(10)),
    Replies(10, (2, 1), Status::Ok, ""),
    On(Does::Deliver(10), Outcome::Taken(None)),
    Knows("n1", THERE),
    Publishes(11, "n2", ONE, false),
    Calls(15, (2, 4), Kind::NodePublishVolume),
    On(Does::Join("n1"), Outcome::Joined),
    On(Does::Join("n1"), Outcome::NodeThere),
    On(Does::Deliver(7), Outcome::Answered(17)),
    Replies(17, (1, 4), Status::Aborted, "stale"),
    On(Does::Deliver(5), Outcome::Answered(18)),
    Replies(18, (1, 3), Status::Aborted, "stale"),
    Has(1, "n1", 0, 0),
    Has(1, "n2", 1, 1),
    On(USE, NO_NODE),
    On(Does::Lists(&["n2", "n1"]), Outcome::Restarted),
    IsIn(3),
    On(USE, HELD),
    New(
        "a node in use stays listed, and is undone where no configuration has it",
        TWO,
    ),
    Makes(ONE),
    Publishes(3, "n1", ONE, false),
    On(Does::Lists(&["n2"]), Outcome::Refused(OrchFault::NodeInUse)),
    IsIn(1),
    On(Does::Configures(&[("n2", 4)]), Outcome::Restarted),
    Has(1, "n1", 1, 1),
    Knows("n1", PUBLISHED),
    Leaves(9, "n1"),
    On(USE, Outcome::Sent(15)),
    On(Does::Deliver(15), Outcome::Answered(16)),
    Replies(16, (1, 8), Status::NotFound, "node"),
    On(Does::Deliver(16), Outcome::Taken(Some(17))),
    Calls(17, (1, 9), Kind::ControllerUnpublishVolume),
    On(Does::Deliver(17), Outcome::Answered(18)),
    On(Does::Deliver(18), Outcome::Taken(None)),
    On(Does::Lists(&["n2"]), Outcome::Restarted),
    IsIn(2),
    On(USE, NO_NODE),
    On(Does::Lose("n1"), Outcome::Lost),
    IsIn(3),
    On(Does::RestartNode("n1"), Outcome::NoSuchNode),
    On(Does::Lose("n1"), Outcome::NoSuchNode),
    IsIn(3),
];

#[test]
fn a_node_is_lost_and_one_is_taken_out(rt: HostRuntime) {
    plays(&rt, LOST);
}

// It takes a timeout, and for each call that is then due two deliveries, of the call and of its reply.
const SETTLED: &[Step] = &[
    New(
        "an attachment that was lost is sent again, and the volume is published",
        N1,
    ),
    Makes(ONE),
    On(USE, Outcome::Sent(3)),
    On(Does::Timeout, Outcome::Sent(4)),
    On(Does::Settle, Outcome::Settled(7)),
    Calls(5, (1, 4), Kind::ControllerPublishVolume),
    Replies(6, (1, 4), Status::Ok, ""),
    Calls(7, (1, 5), Kind::NodeStageVolume),
    Calls(9, (1, 6), Kind::NodePublishVolume),
    Frames(10),
    Has(1, "n1", 1, 1),
    Knows("n1", PUBLISHED),
    On(Does::Settle, Outcome::Settled(0)),
    Frames(10),
    New("a use that was tried three times is undone", N1),
    Makes(ONE),
    On(USE, Outcome::Sent(3)),
    On(Does::Timeout, Outcome::Sent(4)),
    On(Does::Timeout, Outcome::Sent(5)),
    On(Does::Settle, Outcome::Settled(3)),
    Calls(6, (1, 5), Kind::ControllerUnpublishVolume),
    Frames(7),
    Knows("n1", THERE),
    On(STOP, Outcome::Refused(OrchFault::NoSuchTarget)),
    New(
        "from a node that isn't there no reply comes, until it is lost",
        TWO,
    ),
    Makes(ONE),
    On(Does::Lose("n2"), Outcome::Lost),
    On(Does::Lists(&["n1", "n2"]), Outcome::Restarted),
    IsIn(3),
    On(AT_N2, Outcome::Sent(3)),
    On(Does::Settle, Outcome::NotSettled(4)),
    Calls(6, (3, 3), Kind::NodeStageVolume),
    Frames(6),
    On(Does::Lose("n2"), Outcome::Lost),
    On(Does::Settle, Outcome::Settled(3)),
    Calls(7, (4, 1), Kind::ControllerUnpublishVolume),
    Frames(8),
    Knows("n2", THERE),
];

#[test]
fn a_volume_comes_to_rest(rt: HostRuntime) {
    plays(&rt, SETTLED);
}
