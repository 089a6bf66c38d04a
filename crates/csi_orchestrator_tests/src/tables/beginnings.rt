//! Sessions: the numbers of calls in them, and restarts, with the same nodes or with others: what is forgotten, what stays, and what is
//! refused.
use crate::playing::plays;
use crate::steps::Gives::{Ignores, Nothing, Refuses, Sends};
use crate::steps::Step::{After, IsIn, Knows, KnowsOfEach, Lists, Makes, New, Notes, On};
use crate::steps::{Ask, Fact, Gives, MANY, OK, ONE, Sent, Step};
use csi_orchestrator::{Known, OrchFault};
use csi_types::Status;

const REFUSED: Status = Status::FailedPrecondition;

const NAME_USED: Gives = Refuses(OrchFault::NameUsed);

const NO_VOLUME: Gives = Refuses(OrchFault::NoSuchVolume);

const SPENT: Gives = Refuses(OrchFault::NumbersSpent);

const IN_USE: Gives = Refuses(OrchFault::NodeInUse);

const LAST: u64 = 0xffff_ffff_ffff_ffff;

// `v`, and its use at `/a` of `n1`, in mode `ONE`.
const CREATE: Ask = Ask::Create("v", ONE);

const CREATED: Sent = Sent::Create("v", ONE);

const USE: Ask = Ask::Use("n1", "/a", ONE, false);

const ATTACH: Sent = Sent::Attach("n1", ONE, false);

const STOP: Ask = Ask::Stop("n1", "/a");

const RESTARTED: &[Step] = &[
    New("a new one knows nothing, and notes no call but one that it sent"),
    IsIn(1),
    KnowsOfEach(Known::No),
    Notes(0),
    On(Ask::Restart, Nothing),
    IsIn(2),
    KnowsOfEach(Known::No),
    On(CREATE, Sends(2, 1, CREATED)),
    Notes(1),
    After("a restart asks for a session and not for a call", 1, LAST),
    On(CREATE, SPENT),
    On(Ask::Restart, Nothing),
    On(CREATE, Sends(2, 1, CREATED)),
    IsIn(2),
    New("a restart gives up the open call, whose reply comes too late"),
    Makes(ONE),
    On(USE, Sends(1, 2, ATTACH)),
    On(Ask::Restart, Nothing),
    IsIn(2),
    Knows(Fact::Attached("v", "n1"), Known::Maybe),
    On(Ask::Timeout, Sends(2, 1, ATTACH)),
    On(Ask::Hear(1, 2, ATTACH, OK), Ignores),
    After(
        "in the last session no other begins, and that is told first",
        LAST,
        0,
    ),
    On(CREATE, Sends(LAST, 1, CREATED)),
    On(Ask::Hear(LAST, 1, CREATED, OK), Nothing),
    On(USE, Sends(LAST, 2, ATTACH)),
    On(Ask::Restart, SPENT),
    On(Ask::Lists(&[]), SPENT),
    On(Ask::Lose("n1"), SPENT),
    IsIn(LAST),
    On(
        Ask::Hear(LAST, 2, ATTACH, OK),
        Sends(LAST, 3, Sent::Stage("n1", ONE)),
    ),
];

#[test]
fn a_session_begins(rt: HostRuntime) {
    plays(&rt, RESTARTED);
}

const NAMES: &[Step] = &[
    New("a deleted volume's name is free in the next session"),
    Makes(ONE),
    On(Ask::Delete, Sends(1, 2, Sent::Delete)),
    On(Ask::Hear(1, 2, Sent::Delete, OK), Nothing),
    On(CREATE, NAME_USED),
    On(Ask::Restart, Nothing),
    Lists(&[]),
    On(Ask::Delete, NO_VOLUME),
    On(STOP, NO_VOLUME),
    On(Ask::Timeout, NO_VOLUME),
    On(CREATE, Sends(2, 1, CREATED)),
    On(Ask::Hear(1, 1, CREATED, OK), Ignores),
    Knows(Fact::Exists("v"), Known::Maybe),
    On(Ask::Hear(2, 1, CREATED, OK), Nothing),
    Knows(Fact::Exists("v"), Known::Yes),
    New("what may be there stays, until it was created again and deleted"),
    On(CREATE, Sends(1, 1, CREATED)),
    On(Ask::Hear(1, 1, CREATED, Status::OutOfRange), Nothing),
    On(Ask::Create("w", ONE), Sends(1, 2, Sent::Create("w", ONE))),
    On(Ask::Restart, Nothing),
    Lists(&[
        (Fact::Exists("v"), Known::Maybe),
        (Fact::Exists("w"), Known::Maybe),
    ]),
    On(Ask::Create("w", ONE), NAME_USED),
    On(CREATE, Sends(2, 1, CREATED)),
    On(Ask::Hear(2, 1, CREATED, OK), Nothing),
    On(Ask::Delete, Sends(2, 2, Sent::Delete)),
    On(Ask::Restart, Nothing),
    Knows(Fact::Exists("v"), Known::Maybe),
    On(Ask::Timeout, Sends(3, 1, Sent::Delete)),
    On(Ask::Hear(3, 1, Sent::Delete, OK), Nothing),
    On(CREATE, NAME_USED),
    On(Ask::Lose("n9"), Nothing),
    IsIn(4),
    Lists(&[(Fact::Exists("w"), Known::Maybe)]),
    On(CREATE, Sends(4, 1, CREATED)),
];

#[test]
fn the_name_of_a_volume_that_is_not_there_is_free_in_the_next_session(rt: HostRuntime) {
    plays(&rt, NAMES);
}

// What is left out of the list may have nothing attached. A refusal leaves the open call, whose reply is taken.
const LEFT_OUT: &[Step] = &[
    New("a node in use isn't left out"),
    Makes(MANY),
    On(
        Ask::Use("n1", "/a", MANY, false),
        Sends(1, 2, Sent::Attach("n1", MANY, false)),
    ),
    On(Ask::Lists(&["n2", "n3"]), IN_USE),
    IsIn(1),
    On(
        Ask::Hear(1, 2, Sent::Attach("n1", MANY, false), OK),
        Sends(1, 3, Sent::Stage("n1", MANY)),
    ),
    On(Ask::Lists(&[]), IN_USE),
    On(Ask::Lists(&["n7", "n1"]), Nothing),
    IsIn(2),
    Knows(Fact::Attached("v", "n1"), Known::Yes),
    Knows(Fact::Staged("v", "n1"), Known::Maybe),
    On(Ask::Timeout, Sends(2, 1, Sent::Stage("n1", MANY))),
    On(
        Ask::Hear(2, 1, Sent::Stage("n1", MANY), OK),
        Sends(2, 2, Sent::Publish("n1", "/a", MANY, false)),
    ),
    On(
        Ask::Hear(2, 2, Sent::Publish("n1", "/a", MANY, false), OK),
        Nothing,
    ),
    On(
        Ask::Use("n2", "/a", MANY, false),
        Refuses(OrchFault::NoSuchNode),
    ),
    On(
        Ask::Use("n7", "/a", MANY, false),
        Sends(2, 3, Sent::Attach("n7", MANY, false)),
    ),
    On(Ask::Lists(&["n1"]), IN_USE),
    On(
        Ask::Hear(2, 3, Sent::Attach("n7", MANY, false), REFUSED),
        Sends(2, 4, Sent::Detach("n7")),
    ),
    On(Ask::Hear(2, 4, Sent::Detach("n7"), OK), Nothing),
    On(Ask::Lists(&["n1"]), Nothing),
    IsIn(3),
    KnowsOfEach(Known::Yes),
];

#[test]
fn a_session_begins_with_other_nodes(rt: HostRuntime) {
    plays(&rt, LEFT_OUT);
}
