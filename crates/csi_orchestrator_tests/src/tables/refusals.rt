//! What is refused, with the first refusal that holds.
use crate::playing::plays;
use crate::steps::Gives::{Nothing, Refuses, Sends};
use crate::steps::Step::{Knows, KnowsOfEach, Makes, New, On, Publishes, PublishesToo};
use crate::steps::{Ask, Fact, Gives, MANY, OK, ONE, ONE_WRITER, Sent, Step, TWO_WRITERS, WRITER};
use csi_orchestrator::{Known, OrchFault};

// What `v` is asked for, which is refused.
const USE: Ask = Ask::Use("n1", "/a", ONE, false);

const STOP: Ask = Ask::Stop("n1", "/a");

const NO_VOLUME: Gives = Refuses(OrchFault::NoSuchVolume);

const NOT_CREATED: Gives = Refuses(OrchFault::NotCreated);

const NO_NODE: Gives = Refuses(OrchFault::NoSuchNode);

const NO_TARGET: Gives = Refuses(OrchFault::NoSuchTarget);

const ELSEWHERE: Gives = Refuses(OrchFault::HeldElsewhere);

const TAKEN: Gives = Refuses(OrchFault::TargetTaken);

const BUSY: Gives = Refuses(OrchFault::Busy);

const BESIDE: Sent = Sent::Publish("n1", "/b", TWO_WRITERS, false);

const REFUSED: &[Step] = &[
    New("an unknown name"),
    On(USE, NO_VOLUME),
    On(STOP, NO_VOLUME),
    On(Ask::Delete, NO_VOLUME),
    On(Ask::Timeout, NO_VOLUME),
    KnowsOfEach(Known::No),
    New("a volume that isn't made yet"),
    On(Ask::Create("v", ONE), Sends(1, 1, Sent::Create("v", ONE))),
    On(USE, NOT_CREATED),
    On(STOP, NOT_CREATED),
    On(Ask::Delete, NOT_CREATED),
    On(Ask::Create("v", ONE), Refuses(OrchFault::NameUsed)),
    New("a node and a capability that aren't there"),
    Makes(ONE),
    On(Ask::Use("n9", "/a", ONE, false), NO_NODE),
    On(
        Ask::Use("n1", "/a", MANY, false),
        Refuses(OrchFault::NotCapable),
    ),
    On(Ask::Stop("n9", "/a"), NO_NODE),
    On(STOP, NO_TARGET),
    New("a volume with a goal"),
    Makes(ONE),
    On(USE, Sends(1, 2, Sent::Attach("n1", ONE, false))),
    On(USE, BUSY),
    On(STOP, BUSY),
];

#[test]
fn what_is_not_there_is_refused(rt: HostRuntime) {
    plays(&rt, REFUSED);
}

const HELD: &[Step] = &[
    New("a volume in a mode for one node is held there"),
    Makes(ONE),
    Publishes(2, "n1", ONE, false),
    On(Ask::Use("n2", "/a", ONE, false), ELSEWHERE),
    On(Ask::Use("n1", "/b", ONE, false), TAKEN),
    On(Ask::Stop("n1", "/b"), NO_TARGET),
    On(Ask::Stop("n2", "/a"), NO_TARGET),
    On(Ask::Delete, Refuses(OrchFault::InUse)),
    On(Ask::Timeout, Refuses(OrchFault::Idle)),
    KnowsOfEach(Known::Yes),
    New("one writer at one node has no second target"),
    Makes(ONE_WRITER),
    Publishes(2, "n1", ONE_WRITER, false),
    On(Ask::Use("n1", "/b", ONE_WRITER, false), TAKEN),
    On(Ask::Use("n2", "/a", ONE_WRITER, true), ELSEWHERE),
    KnowsOfEach(Known::Yes),
    New("several writers at one node have"),
    Makes(TWO_WRITERS),
    Publishes(2, "n1", TWO_WRITERS, false),
    On(Ask::Use("n2", "/a", TWO_WRITERS, false), ELSEWHERE),
    On(
        Ask::Use("n1", "/b", TWO_WRITERS, false),
        Sends(1, 5, BESIDE),
    ),
    On(Ask::Hear(1, 5, BESIDE, OK), Nothing),
    Knows(Fact::Published("v", "n1", "/b"), Known::Yes),
    KnowsOfEach(Known::Yes),
    New("a second writer"),
    Makes(WRITER),
    Publishes(2, "n1", WRITER, true),
    Publishes(5, "n2", WRITER, true),
    Publishes(8, "n3", WRITER, false),
    On(
        Ask::Use("n4", "/a", WRITER, false),
        Refuses(OrchFault::WriterElsewhere),
    ),
];

#[test]
fn what_is_held_is_refused(rt: HostRuntime) {
    plays(&rt, HELD);
}

const UNPUBLISH: Sent = Sent::Unpublish("n1", "/p");

const SIXTEEN_TARGETS: &[Step] = &[
    New("a node has sixteen targets"),
    Makes(MANY),
    Publishes(2, "n1", MANY, false),
    PublishesToo(5, "/b"),
    PublishesToo(6, "/c"),
    PublishesToo(7, "/d"),
    PublishesToo(8, "/e"),
    PublishesToo(9, "/f"),
    PublishesToo(10, "/g"),
    PublishesToo(11, "/h"),
    PublishesToo(12, "/i"),
    PublishesToo(13, "/j"),
    PublishesToo(14, "/k"),
    PublishesToo(15, "/l"),
    PublishesToo(16, "/m"),
    PublishesToo(17, "/n"),
    PublishesToo(18, "/o"),
    PublishesToo(19, "/p"),
    On(Ask::Use("n1", "/q", MANY, false), Refuses(OrchFault::Full)),
    On(Ask::Use("n1", "/p", MANY, false), Nothing),
    On(Ask::Stop("n1", "/p"), Sends(1, 20, UNPUBLISH)),
    On(Ask::Hear(1, 20, UNPUBLISH, OK), Nothing),
    PublishesToo(21, "/q"),
];

#[test]
fn a_node_has_sixteen_targets(rt: HostRuntime) {
    plays(&rt, SIXTEEN_TARGETS);
}
