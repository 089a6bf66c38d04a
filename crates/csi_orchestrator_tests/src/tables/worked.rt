//! The lifecycle of a volume, call by call.
use crate::playing::plays;
use crate::steps::Gives::{Ignores, Nothing, Refuses, Sends};
use crate::steps::Step::{Knows, KnowsOfEach, Makes, New, On, Publishes};
use crate::steps::{Ask, Fact, MANY, OK, ONE, Sent, Step};
use csi_orchestrator::{Known, OrchFault};
use csi_types::Status;

const REFUSED: Status = Status::FailedPrecondition;

// `v`, and its use at `/a` of `n1` in mode `ONE`, and its calls.
const CREATE: Ask = Ask::Create("v", ONE);

const CREATED: Sent = Sent::Create("v", ONE);

const USE: Ask = Ask::Use("n1", "/a", ONE, false);

const ATTACH: Sent = Sent::Attach("n1", ONE, false);

const STAGE: Sent = Sent::Stage("n1", ONE);

const PUBLISH: Sent = Sent::Publish("n1", "/a", ONE, false);

const DETACH: Sent = Sent::Detach("n1");

const UNSTAGE: Sent = Sent::Unstage("n1");

const UNPUBLISH: Sent = Sent::Unpublish("n1", "/a");

// What undoes it, and its use at `/b`, in mode `MANY`.
const STOP: Ask = Ask::Stop("n1", "/a");

const USE_B: Ask = Ask::Use("n1", "/b", MANY, false);

const PUBLISH_B: Sent = Sent::Publish("n1", "/b", MANY, false);

const UNPUBLISH_B: Sent = Sent::Unpublish("n1", "/b");

const MADE_AND_USED: &[Step] = &[
    New("a volume is brought to a target"),
    On(CREATE, Sends(1, 1, CREATED)),
    On(Ask::Hear(1, 1, CREATED, OK), Nothing),
    On(USE, Sends(1, 2, ATTACH)),
    On(Ask::Hear(1, 2, ATTACH, OK), Sends(1, 3, STAGE)),
    On(Ask::Hear(1, 3, STAGE, OK), Sends(1, 4, PUBLISH)),
    On(Ask::Hear(1, 4, PUBLISH, OK), Nothing),
    KnowsOfEach(Known::Yes),
    New("a reply to a call that was given up is ignored"),
    Makes(ONE),
    On(USE, Sends(1, 2, ATTACH)),
    On(Ask::Hear(1, 2, ATTACH, OK), Sends(1, 3, STAGE)),
    On(Ask::Hear(1, 3, STAGE, OK), Sends(1, 4, PUBLISH)),
    On(Ask::Timeout, Sends(1, 5, PUBLISH)),
    On(Ask::Hear(1, 4, PUBLISH, OK), Ignores),
    Knows(Fact::Published("v", "n1", "/a"), Known::Maybe),
    New("three tries without a reply are undone"),
    Makes(ONE),
    On(USE, Sends(1, 2, ATTACH)),
    On(Ask::Delete, Refuses(OrchFault::InUse)),
    On(Ask::Timeout, Sends(1, 3, ATTACH)),
    On(Ask::Timeout, Sends(1, 4, ATTACH)),
    On(Ask::Timeout, Sends(1, 5, DETACH)),
    On(Ask::Hear(1, 5, DETACH, OK), Nothing),
    On(Ask::Delete, Sends(1, 6, Sent::Delete)),
    New("a refused create may be asked again"),
    On(CREATE, Sends(1, 1, CREATED)),
    On(Ask::Hear(1, 1, CREATED, Status::OutOfRange), Nothing),
    Knows(Fact::Exists("v"), Known::Maybe),
    On(Ask::Delete, Refuses(OrchFault::NotCreated)),
    On(Ask::Timeout, Refuses(OrchFault::Idle)),
    On(CREATE, Sends(1, 2, CREATED)),
    New("a create without a reply is sent again, more than three times"),
    On(CREATE, Sends(1, 1, CREATED)),
    On(Ask::Timeout, Sends(1, 2, CREATED)),
    On(Ask::Timeout, Sends(1, 3, CREATED)),
    On(Ask::Timeout, Sends(1, 4, CREATED)),
    On(Ask::Hear(1, 4, CREATED, OK), Nothing),
    Knows(Fact::Exists("v"), Known::Yes),
    New("a refused attachment is undone"),
    Makes(ONE),
    On(USE, Sends(1, 2, ATTACH)),
    On(Ask::Hear(1, 2, ATTACH, REFUSED), Sends(1, 3, DETACH)),
    On(Ask::Hear(1, 3, DETACH, OK), Nothing),
    Knows(Fact::Attached("v", "n1"), Known::No),
];

#[test]
fn a_volume_is_made_and_used(rt: HostRuntime) {
    plays(&rt, MADE_AND_USED);
}

const STOPPED_AND_DELETED: &[Step] = &[
    New("the last target frees the node"),
    Makes(MANY),
    Publishes(2, "n1", MANY, false),
    On(USE_B, Sends(1, 5, PUBLISH_B)),
    On(Ask::Hear(1, 5, PUBLISH_B, OK), Nothing),
    On(STOP, Sends(1, 6, UNPUBLISH)),
    On(Ask::Hear(1, 6, UNPUBLISH, OK), Nothing),
    On(Ask::Stop("n1", "/b"), Sends(1, 7, UNPUBLISH_B)),
    On(Ask::Hear(1, 7, UNPUBLISH_B, OK), Sends(1, 8, UNSTAGE)),
    On(Ask::Hear(1, 8, UNSTAGE, OK), Sends(1, 9, DETACH)),
    On(Ask::Hear(1, 9, DETACH, OK), Nothing),
    Knows(Fact::Exists("v"), Known::Yes),
    Knows(Fact::Attached("v", "n1"), Known::No),
    Knows(Fact::Staged("v", "n1"), Known::No),
    Knows(Fact::Published("v", "n1", "/a"), Known::No),
    Knows(Fact::Published("v", "n1", "/b"), Known::No),
    New("a refused unstaging waits for its timeout"),
    Makes(MANY),
    Publishes(2, "n1", MANY, false),
    On(USE_B, Sends(1, 5, PUBLISH_B)),
    On(Ask::Hear(1, 5, PUBLISH_B, OK), Nothing),
    On(STOP, Sends(1, 6, UNPUBLISH)),
    On(Ask::Hear(1, 6, UNPUBLISH, OK), Nothing),
    On(Ask::Stop("n1", "/b"), Sends(1, 7, UNPUBLISH_B)),
    On(Ask::Hear(1, 7, UNPUBLISH_B, OK), Sends(1, 8, UNSTAGE)),
    On(Ask::Hear(1, 8, UNSTAGE, REFUSED), Nothing),
    Knows(Fact::Staged("v", "n1"), Known::Maybe),
    On(USE_B, Refuses(OrchFault::Busy)),
    On(Ask::Timeout, Sends(1, 9, UNSTAGE)),
    New("a use that is there needs no call"),
    Makes(MANY),
    Publishes(2, "n1", MANY, false),
    On(Ask::Use("n1", "/a", MANY, false), Nothing),
    On(
        Ask::Use("n1", "/a", MANY, true),
        Refuses(OrchFault::HeldOtherwise),
    ),
    KnowsOfEach(Known::Yes),
    New("a name is used once in a session"),
    Makes(ONE),
    On(Ask::Delete, Sends(1, 2, Sent::Delete)),
    On(Ask::Hear(1, 2, Sent::Delete, OK), Nothing),
    On(Ask::Delete, Nothing),
    On(CREATE, Refuses(OrchFault::NameUsed)),
    KnowsOfEach(Known::No),
];

#[test]
fn a_volume_is_stopped_and_deleted(rt: HostRuntime) {
    plays(&rt, STOPPED_AND_DELETED);
}

const HEARD: &[Step] = &[
    New("the controller must reply as it was called"),
    On(CREATE, Sends(1, 1, CREATED)),
    On(Ask::Echo(1, 1, CREATED), Ignores),
    On(Ask::Hear(1, 1, Sent::Delete, OK), Ignores),
    On(Ask::Hear(1, 2, CREATED, OK), Ignores),
    On(Ask::Hear(2, 1, CREATED, OK), Ignores),
    On(Ask::Hear(1, 1, CREATED, OK), Nothing),
    On(Ask::Hear(1, 1, CREATED, OK), Ignores),
    New("a node must reply as it was called"),
    Makes(ONE),
    On(USE, Sends(1, 2, ATTACH)),
    On(Ask::Hear(1, 2, ATTACH, OK), Sends(1, 3, STAGE)),
    On(Ask::Echo(1, 3, STAGE), Ignores),
    On(Ask::Hear(1, 3, Sent::Stage("n2", ONE), OK), Ignores),
    On(Ask::Hear(1, 3, UNSTAGE, OK), Ignores),
    On(Ask::Hear(1, 3, ATTACH, OK), Ignores),
    On(Ask::Hear(1, 2, STAGE, OK), Ignores),
    On(Ask::Hear(1, 3, STAGE, OK), Sends(1, 4, PUBLISH)),
];

#[test]
fn a_reply_is_to_its_call(rt: HostRuntime) {
    plays(&rt, HEARD);
}
