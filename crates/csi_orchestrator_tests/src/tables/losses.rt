//! Nodes that are lost: what was staged and published there is no more, what was attached is detached by `stop`, with any target, and a use
//! becomes its stop.
use crate::playing::plays;
use crate::steps::Gives::{Ignores, Nothing, Refuses, Sends};
use crate::steps::Step::{IsIn, Knows, Lists, Makes, New, On, Publishes, PublishesToo};
use crate::steps::{Ask, Fact, Gives, MANY, OK, ONE, Sent, Step};
use csi_orchestrator::{Known, OrchFault};
use csi_types::Status;

const BUSY: Gives = Refuses(OrchFault::Busy);

const NO_NODE: Gives = Refuses(OrchFault::NoSuchNode);

const DETACH: Sent = Sent::Detach("n1");

const LOST: &[Step] = &[
    New("what was attached to a lost node is detached"),
    Makes(MANY),
    Publishes(2, "n1", MANY, false),
    Publishes(5, "n2", MANY, false),
    PublishesToo(8, "/b"),
    On(Ask::Lose("n1"), Nothing),
    IsIn(2),
    Lists(&[
        (Fact::Exists("v"), Known::Yes),
        (Fact::Attached("v", "n1"), Known::Yes),
        (Fact::Attached("v", "n2"), Known::Yes),
        (Fact::Staged("v", "n2"), Known::Yes),
        (Fact::Published("v", "n2", "/a"), Known::Yes),
    ]),
    On(Ask::Use("n1", "/a", MANY, false), NO_NODE),
    On(Ask::Delete, Refuses(OrchFault::InUse)),
    On(Ask::Stop("n2", "/b"), Refuses(OrchFault::NoSuchTarget)),
    On(Ask::Stop("n1", "/none"), Sends(2, 1, DETACH)),
    On(Ask::Hear(2, 1, DETACH, Status::FailedPrecondition), Nothing),
    Knows(Fact::Attached("v", "n1"), Known::Maybe),
    On(Ask::Stop("n1", "/a"), BUSY),
    On(Ask::Timeout, Sends(2, 2, DETACH)),
    On(Ask::Hear(2, 2, DETACH, OK), Nothing),
    Knows(Fact::Attached("v", "n1"), Known::No),
    On(Ask::Stop("n1", "/a"), NO_NODE),
    New("a use is lost with its call, and what undoes it is sent until it succeeds"),
    Makes(ONE),
    On(
        Ask::Use("n1", "/a", ONE, false),
        Sends(1, 2, Sent::Attach("n1", ONE, false)),
    ),
    On(Ask::Lose("n1"), Nothing),
    Lists(&[
        (Fact::Exists("v"), Known::Yes),
        (Fact::Attached("v", "n1"), Known::Maybe),
    ]),
    On(Ask::Hear(1, 2, Sent::Attach("n1", ONE, false), OK), Ignores),
    On(Ask::Use("n2", "/a", ONE, false), BUSY),
    On(Ask::Timeout, Sends(2, 1, DETACH)),
    On(Ask::Timeout, Sends(2, 2, DETACH)),
    On(Ask::Timeout, Sends(2, 3, DETACH)),
    On(Ask::Timeout, Sends(2, 4, DETACH)),
    On(Ask::Hear(2, 3, DETACH, OK), Ignores),
    On(Ask::Hear(2, 4, DETACH, OK), Nothing),
    Lists(&[(Fact::Exists("v"), Known::Yes)]),
    On(
        Ask::Use("n2", "/a", ONE, false),
        Sends(2, 5, Sent::Attach("n2", ONE, false)),
    ),
];

#[test]
fn a_node_is_lost(rt: HostRuntime) {
    plays(&rt, LOST);
}
