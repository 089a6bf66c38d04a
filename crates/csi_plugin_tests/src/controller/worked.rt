//! What the table answers.
use super::*;
use crate::playing::{Step, plays};
use crate::values::DONE;

const AT_N3: Told = (Status::FailedPrecondition, None, "n3");

const ONE_NODE: &[Step] = &[
    (1, Ask::Create("v", 10, 0, &[B1, B3]), FIRST),
    (2, Ask::Attach(1, "n1", B1, false), DONE),
    (3, Ask::Attach(1, "n2", B1, false), AT_N1),
    (4, Ask::Attach(1, "n2", B3, false), AT_N1),
];

// Two writers at one node are at one node still.
const TWO_WRITERS: &[Step] = &[
    (1, Ask::Create("v", 10, 0, &[B7]), FIRST),
    (2, Ask::Attach(1, "n1", B7, false), DONE),
    (3, Ask::Attach(1, "n2", B7, false), AT_N1),
    (4, Ask::Attach(1, "n2", B7, true), AT_N1),
];

const ONE_WRITER_THERE: &[Step] = &[
    (1, Ask::Create("v", 10, 0, &[B3, B6]), FIRST),
    (2, Ask::Attach(1, "n1", B6, false), DONE),
    (3, Ask::Attach(1, "n2", B6, true), AT_N1),
    (4, Ask::Attach(1, "n2", B3, true), AT_N1),
    (
        5,
        Ask::Attach(1, "n2", B7, false),
        (Status::InvalidArgument, None, "capability"),
    ),
];

const ONE_WRITER: &[Step] = &[
    (1, Ask::Create("v", 10, 0, &[B4]), FIRST),
    (2, Ask::Attach(1, "n1", B4, true), DONE),
    (3, Ask::Attach(1, "n2", B4, true), DONE),
    (4, Ask::Attach(1, "n3", B4, false), DONE),
    (5, Ask::Attach(1, "n4", B4, false), AT_N3),
];

const FOUR_NODES: &[(&str, u64)] = &[("n1", 4), ("n2", 4), ("n3", 4), ("n4", 4)];

const SLOTS: &[Step] = &[
    (1, MAKE, FIRST),
    (2, Ask::Create("w", 10, 0, &[B1]), SECOND),
    (3, Ask::Attach(1, "n1", B1, false), DONE),
    (
        4,
        Ask::Attach(2, "n1", B1, false),
        (Status::ResourceExhausted, None, "slots"),
    ),
    (5, Ask::Attach(1, "n9", B1, false), NO_NODE),
];

const NAMES: &[Step] = &[
    (1, MAKE, FIRST),
    (2, Ask::Create("v", 5, 20, &[B1]), FIRST),
    (3, Ask::Create("v", 11, 0, &[B1]), TAKEN),
    (4, Ask::Delete(1), DONE),
    (5, MAKE, TAKEN),
];

const UNCONFIGURED: &[Step] = &[
    (1, MAKE, FIRST),
    (2, Ask::Attach(1, "n1", B1, false), NO_NODE),
];

const RUNS: &[(&[(&str, u64)], &[Step])] = &[
    (FOUR_NODES, ONE_NODE),
    (FOUR_NODES, TWO_WRITERS),
    (FOUR_NODES, ONE_WRITER_THERE),
    (FOUR_NODES, ONE_WRITER),
    (&[("n1", 1)], SLOTS),
    (&[], NAMES),
    (&[], UNCONFIGURED),
];

#[test]
fn the_table_answers(rt: HostRuntime) {
    for (nodes, steps) in RUNS {
        let mut controller = new_controller(&rt, nodes);
        plays(&rt, &mut controller, steps);
        drop(controller);
    }
}
