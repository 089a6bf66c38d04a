//! Sessions: which calls begin one, what is forgotten then, and what is over. Each call may see a growth refused
//! (`tools/refusals`), which leaves the controller as it was, and is then answered.
use super::*;
use crate::playing::{Line, all_come, has_left};
use crate::values::{DONE, STALE};

const NODES: &[(&str, u64)] = &[("n1", 4), ("n2", 4)];

// CreateVolume of `w` with 10 bytes in a mode for one node.
const MAKE_W: Ask = Ask::Create("w", 10, 0, &[B1]);

const THIRD: Told = (Status::Ok, Some(3), "");

const FOURTH: Told = (Status::Ok, Some(4), "");

const FIFTH: Told = (Status::Ok, Some(5), "");

const NO_VOLUME: Told = (Status::NotFound, None, "volume");

// A volume is made and deleted in session 1.
const DELETED: &[Line] = &[
    ((1, 1), MAKE, FIRST, (1, 1, &[])),
    ((1, 2), Ask::Delete(1), DONE, (1, 1, &[1])),
];

// Another is made in session 2. The first is forgotten then, its name is any name, and its id no volume's; until a call of
// session 3 comes, the one that is deleted in session 2 isn't.
const FORGOTTEN: &[Line] = &[
    ((2, 1), MAKE_W, SECOND, (2, 1, &[])),
    ((1, 2), Ask::Delete(1), STALE, (2, 1, &[])),
    ((2, 2), MAKE, THIRD, (2, 2, &[])),
    ((2, 3), Ask::Delete(1), DONE, (2, 2, &[])),
    ((2, 4), Ask::Detach(1, "n1"), DONE, (2, 2, &[])),
    (
        (2, 5),
        Ask::Attach(1, "n1", B1, false),
        NO_VOLUME,
        (2, 2, &[]),
    ),
    ((2, 6), Ask::Delete(3), DONE, (2, 2, &[3])),
    ((2, 7), MAKE, TAKEN, (2, 2, &[3])),
    ((2, 6), Ask::Delete(3), STALE, (2, 2, &[3])),
    ((2, 7), MAKE, TAKEN, (2, 2, &[3])),
    ((1, 1), MAKE, STALE, (2, 2, &[3])),
    ((3, 1), MAKE, FOURTH, (3, 2, &[])),
    ((3, 2), Ask::Delete(2), DONE, (3, 2, &[2])),
    ((3, 3), Ask::Delete(4), DONE, (3, 2, &[2, 4])),
];

// A session begins with a call of the volume that is forgotten: each call in turn, and a creation that is refused.
const BY_ITS_OWN_CALL: &[Line] = &[
    ((2, 1), Ask::Delete(1), DONE, (2, 0, &[])),
    ((2, 1), Ask::Delete(1), DONE, (2, 0, &[])),
    ((3, 1), MAKE, SECOND, (3, 1, &[])),
    ((3, 2), Ask::Delete(2), DONE, (3, 1, &[2])),
    ((4, 1), MAKE, THIRD, (4, 1, &[])),
    ((4, 2), Ask::Delete(3), DONE, (4, 1, &[3])),
    ((5, 1), Ask::Detach(3, "n1"), DONE, (5, 0, &[])),
    ((6, 1), MAKE, FOURTH, (6, 1, &[])),
    ((6, 2), Ask::Delete(4), DONE, (6, 1, &[4])),
    (
        (7, 1),
        Ask::Attach(4, "n1", B1, false),
        NO_VOLUME,
        (7, 0, &[]),
    ),
    ((8, 1), MAKE, FIFTH, (8, 1, &[])),
    ((8, 2), Ask::Delete(5), DONE, (8, 1, &[5])),
    (
        (9, 1),
        Ask::Create("v", 0, 0, &[B1]),
        (Status::InvalidArgument, None, "capacity"),
        (9, 0, &[]),
    ),
    ((8, 2), Ask::Delete(5), STALE, (9, 0, &[])),
];

// What lives stays, as it is held. A session begins with a call that is refused, and with one that has no volume; what was answered
// before is over, also for a volume that has that very number.
const LIVING: &[Line] = &[
    ((1, 1), MAKE, FIRST, (1, 1, &[])),
    ((1, 2), Ask::Attach(1, "n1", B1, false), DONE, (1, 1, &[])),
    ((1, 3), MAKE_W, SECOND, (1, 2, &[])),
    ((2, 1), Ask::Delete(1), AT_N1, (2, 2, &[])),
    ((2, 1), Ask::Delete(1), AT_N1, (2, 2, &[])),
    ((1, 3), MAKE_W, STALE, (2, 2, &[])),
    ((2, 2), Ask::Attach(1, "n2", B1, false), AT_N1, (2, 2, &[])),
    ((2, 3), Ask::Detach(1, "n1"), DONE, (2, 2, &[])),
    ((2, 4), Ask::Delete(1), DONE, (2, 2, &[1])),
    ((2, 5), MAKE_W, SECOND, (2, 2, &[1])),
    ((2, 4), Ask::Delete(1), DONE, (2, 2, &[1])),
    ((7, 1), Ask::Detach(9, "n1"), DONE, (7, 1, &[])),
    ((6, 9), MAKE_W, STALE, (7, 1, &[])),
    ((7, 1), MAKE_W, SECOND, (7, 1, &[])),
    ((u64::MAX, 0), Ask::Delete(2), DONE, (u64::MAX, 1, &[2])),
    ((u64::MAX - 1, 9), MAKE, STALE, (u64::MAX, 1, &[2])),
    ((u64::MAX, 1), MAKE_W, TAKEN, (u64::MAX, 1, &[2])),
];

// Calls of session 0 begin none, and are judged like any other, until one of a later session comes.
const IN_SESSION_0: &[Line] = &[
    ((0, 0), Ask::Delete(1), DONE, (0, 0, &[])),
    ((0, 0), MAKE, FIRST, (0, 1, &[])),
    ((0, 0), MAKE, FIRST, (0, 1, &[])),
    ((0, 1), Ask::Attach(1, "n1", B1, false), DONE, (0, 1, &[])),
    ((0, 0), MAKE, STALE, (0, 1, &[])),
    ((0, 2), Ask::Delete(1), AT_N1, (0, 1, &[])),
    ((0, 3), Ask::Detach(1, "n1"), DONE, (0, 1, &[])),
    ((0, 4), Ask::Delete(1), DONE, (0, 1, &[1])),
    ((0, 5), MAKE, TAKEN, (0, 1, &[1])),
    ((1, 0), MAKE, SECOND, (1, 1, &[])),
    ((0, 5), MAKE, STALE, (1, 1, &[])),
    ((0, 6), MAKE_W, STALE, (1, 1, &[])),
];

const RUNS: &[&[&[Line]]] = &[
    &[DELETED, FORGOTTEN],
    &[DELETED, BY_ITS_OWN_CALL],
    &[LIVING],
    &[IN_SESSION_0],
];

#[test]
fn deleted_volumes_are_forgotten_where_a_session_begins(rt: HostRuntime) {
    for lines in RUNS {
        let mut controller = new_controller(&rt, NODES);
        assert!(rt; has_left(&rt, &controller, (0, 0, &[])));
        for part in *lines {
            all_come(&rt, &mut controller, part);
        }
        drop(controller);
    }
}
