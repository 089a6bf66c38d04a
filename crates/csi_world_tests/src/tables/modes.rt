//! Several nodes, or several targets of one, by the mode of the volume.
use crate::playing::plays;
use crate::steps::Step::{Frames, Has, Leaves, Makes, New, On, Publishes};
use crate::steps::{Does, ONE, Step};
use csi_orchestrator::OrchFault;
use csi_types::Mode;
use csi_world::Outcome;

const NODES: &[(&str, u64)] = &[("n1", 4), ("n2", 4), ("n3", 4), ("n4", 4)];

const WRITER: Mode = Mode::MultiNodeSingleWriter;

const MANY: Mode = Mode::MultiNodeMultiWriter;

const READERS: Mode = Mode::MultiNodeReaderOnly;

const ONE_WRITER: Mode = Mode::SingleNodeSingleWriter;

const TWO_WRITERS: Mode = Mode::SingleNodeMultiWriter;

const HELD: Outcome = Outcome::Refused(OrchFault::HeldElsewhere);

const TAKEN: Outcome = Outcome::Refused(OrchFault::TargetTaken);

const SHARED: &[Step] = &[
    New("one node has the volume, and one target", NODES),
    Makes(ONE),
    Publishes(3, "n1", ONE, false),
    On(Does::Use("n2", "/a", ONE, true), HELD),
    On(Does::Use("n1", "/b", ONE, false), TAKEN),
    Frames(8),
    New("one writer at one node has one target", NODES),
    Makes(ONE_WRITER),
    Publishes(3, "n1", ONE_WRITER, false),
    On(Does::Use("n1", "/b", ONE_WRITER, false), TAKEN),
    On(Does::Use("n2", "/a", ONE_WRITER, false), HELD),
    Has(1, "n1", 1, 1),
    New(
        "several writers at one node have each their own, and the last frees it",
        NODES,
    ),
    Makes(TWO_WRITERS),
    Publishes(3, "n1", TWO_WRITERS, false),
    On(Does::Use("n1", "/b", TWO_WRITERS, false), Outcome::Sent(9)),
    On(Does::Deliver(9), Outcome::Answered(10)),
    On(Does::Deliver(10), Outcome::Taken(None)),
    Has(1, "n1", 1, 2),
    On(Does::Stop("n1", "/b"), Outcome::Sent(11)),
    On(Does::Deliver(11), Outcome::Answered(12)),
    On(Does::Deliver(12), Outcome::Taken(None)),
    Has(1, "n1", 1, 1),
    On(Does::Use("n2", "/a", TWO_WRITERS, false), HELD),
    Leaves(13, "n1"),
    Has(0, "n1", 0, 0),
    Publishes(19, "n2", TWO_WRITERS, true),
    Has(1, "n2", 1, 1),
    New("several nodes read", NODES),
    Makes(READERS),
    Publishes(3, "n1", READERS, true),
    Publishes(9, "n2", READERS, true),
    Has(2, "n2", 1, 1),
    New(
        "one of several nodes writes, and another once the first left",
        NODES,
    ),
    Makes(WRITER),
    Publishes(3, "n1", WRITER, true),
    Publishes(9, "n2", WRITER, true),
    Publishes(15, "n3", WRITER, false),
    On(
        Does::Use("n4", "/a", WRITER, false),
        Outcome::Refused(OrchFault::WriterElsewhere),
    ),
    Leaves(21, "n3"),
    Publishes(27, "n4", WRITER, false),
    Has(3, "n4", 1, 1),
    Has(3, "n3", 0, 0),
    New("several nodes write", NODES),
    Makes(MANY),
    Publishes(3, "n1", MANY, false),
    Publishes(9, "n2", MANY, false),
    Publishes(15, "n3", MANY, true),
    Has(3, "n2", 1, 1),
    Leaves(21, "n2"),
    Has(2, "n2", 0, 0),
];

#[test]
fn a_volume_is_shared_by_its_mode(rt: HostRuntime) {
    plays(&rt, SHARED);
}
