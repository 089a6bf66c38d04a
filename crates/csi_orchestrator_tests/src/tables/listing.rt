//! What is known, as a list.
use crate::playing::plays;
use crate::steps::Gives::Sends;
use crate::steps::Step::{Lists, Makes, New, On, Publishes};
use crate::steps::{Ask, Fact, MANY, ONE, Sent, Step};
use csi_orchestrator::Known::{Maybe, Yes};

const LISTED: &[Step] = &[
    New("nothing is listed at first"),
    Lists(&[]),
    New("a create without a reply is listed, and a published volume is four things"),
    On(Ask::Create("v", ONE), Sends(1, 1, Sent::Create("v", ONE))),
    Lists(&[(Fact::Exists("v"), Maybe)]),
    New("things are in the order of their bytes"),
    Makes(MANY),
    Publishes(2, "n2", MANY, false),
    Lists(&[
        (Fact::Exists("v"), Yes),
        (Fact::Attached("v", "n2"), Yes),
        (Fact::Staged("v", "n2"), Yes),
        (Fact::Published("v", "n2", "/a"), Yes),
    ]),
    Publishes(5, "n10", MANY, false),
    On(
        Ask::Use("n2", "/0", MANY, false),
        Sends(1, 8, Sent::Publish("n2", "/0", MANY, false)),
    ),
    On(Ask::Create("w", ONE), Sends(1, 9, Sent::Create("w", ONE))),
    On(Ask::Create("u", ONE), Sends(1, 10, Sent::Create("u", ONE))),
    Lists(&[
        (Fact::Exists("u"), Maybe),
        (Fact::Exists("v"), Yes),
        (Fact::Attached("v", "n10"), Yes),
        (Fact::Staged("v", "n10"), Yes),
        (Fact::Published("v", "n10", "/a"), Yes),
        (Fact::Attached("v", "n2"), Yes),
        (Fact::Staged("v", "n2"), Yes),
        (Fact::Published("v", "n2", "/0"), Maybe),
        (Fact::Published("v", "n2", "/a"), Yes),
        (Fact::Exists("w"), Maybe),
    ]),
];

#[test]
fn what_is_known_is_listed(rt: HostRuntime) {
    plays(&rt, LISTED);
}
