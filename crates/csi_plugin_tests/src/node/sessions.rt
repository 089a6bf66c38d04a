//! Sessions: which calls begin one, what is forgotten then, and what is over; and nodes that join with a session: what was under way to a
//! lost node of their id is stale, of whatever volume.
use super::*;
use crate::playing::{Line, all_come, has_left};
use crate::values::{DONE, STALE};

const NOT_STAGED: Told = (Status::FailedPrecondition, None, "not staged");

const AT_A: Told = (Status::FailedPrecondition, None, "/a");

// A volume is staged and unstaged in session 1.
const UNSTAGED: &[Line] = &[
    ((1, 1), Ask::Stage(1, ONE), DONE, (1, 1, &[])),
    ((1, 2), Ask::Unstage(1), DONE, (1, 1, &[1])),
];

// A call of session 2, of another volume: the first is forgotten, and its staging, which comes late, stale. One that is unstaged in session 2
// is forgotten where the next begins, and not before.
const FORGOTTEN: &[Line] = &[
    ((2, 1), Ask::Unstage(2), DONE, (2, 1, &[2])),
    ((1, 1), Ask::Stage(1, ONE), STALE, (2, 1, &[2])),
    ((1, 2), Ask::Unstage(1), STALE, (2, 1, &[2])),
    ((1, 9), Ask::Unpublish(3, "/a"), STALE, (2, 1, &[2])),
    ((2, 2), Ask::Stage(2, MANY), DONE, (2, 1, &[])),
    (
        (2, 3),
        Ask::Publish(2, "/a", MANY, false),
        DONE,
        (2, 1, &[]),
    ),
    (
        (2, 4),
        Ask::Publish(3, "/a", MANY, false),
        NOT_STAGED,
        (2, 2, &[3]),
    ),
    (
        (2, 4),
        Ask::Publish(3, "/a", MANY, false),
        NOT_STAGED,
        (2, 2, &[3]),
    ),
    ((2, 1), Ask::Unstage(2), STALE, (2, 2, &[3])),
    ((3, 1), Ask::Unstage(2), AT_A, (3, 1, &[])),
    (
        (2, 3),
        Ask::Publish(2, "/a", MANY, false),
        STALE,
        (3, 1, &[]),
    ),
    (
        (3, 2),
        Ask::Publish(2, "/a", MANY, false),
        DONE,
        (3, 1, &[]),
    ),
    ((3, 3), Ask::Unpublish(2, "/a"), DONE, (3, 1, &[])),
    ((3, 4), Ask::Unstage(2), DONE, (3, 1, &[2])),
    ((3, 5), Ask::Stage(1, ONE), DONE, (3, 2, &[2])),
    ((u64::MAX, 0), Ask::Stage(1, ONE), DONE, (u64::MAX, 1, &[])),
    (
        (u64::MAX - 1, 9),
        Ask::Stage(4, ONE),
        STALE,
        (u64::MAX, 1, &[]),
    ),
];

// A session begins with a call of the volume that is forgotten, which then has a row again: each call in turn, and one that is refused.
const BY_ITS_OWN_CALL: &[Line] = &[
    ((2, 1), Ask::Unstage(1), DONE, (2, 1, &[1])),
    ((2, 1), Ask::Unstage(1), DONE, (2, 1, &[1])),
    ((3, 1), Ask::Unpublish(1, "/a"), DONE, (3, 1, &[1])),
    (
        (4, 1),
        Ask::Publish(1, "/a", ONE, false),
        NOT_STAGED,
        (4, 1, &[1]),
    ),
    ((5, 1), Ask::Stage(1, ONE), DONE, (5, 1, &[])),
    ((6, 1), Ask::Publish(1, "/a", ONE, false), DONE, (6, 1, &[])),
    ((7, 1), Ask::Unpublish(1, "/a"), DONE, (7, 1, &[])),
    ((8, 1), Ask::Unstage(1), DONE, (8, 1, &[1])),
    ((7, 1), Ask::Unstage(1), STALE, (8, 1, &[1])),
];

// Calls of session 0 begin none, and are judged like any other, until one of a later session comes.
const IN_SESSION_0: &[Line] = &[
    ((0, 0), Ask::Stage(1, ONE), DONE, (0, 1, &[])),
    ((0, 0), Ask::Stage(1, ONE), DONE, (0, 1, &[])),
    ((0, 1), Ask::Unstage(1), DONE, (0, 1, &[1])),
    ((0, 0), Ask::Stage(1, ONE), STALE, (0, 1, &[1])),
    (
        (0, 2),
        Ask::Publish(2, "/a", ONE, false),
        NOT_STAGED,
        (0, 2, &[1, 2]),
    ),
    ((0, 3), Ask::Stage(1, ONE), DONE, (0, 2, &[2])),
    ((1, 0), Ask::Unstage(3), DONE, (1, 2, &[3])),
    ((0, 3), Ask::Stage(1, ONE), STALE, (1, 2, &[3])),
    ((0, 4), Ask::Stage(2, ONE), STALE, (1, 2, &[3])),
];

// An undoing call opens a row, and the call that it undid is stale.
const UNDONE: &[Line] = &[
    ((1, 6), Ask::Unstage(1), DONE, (1, 1, &[1])),
    ((1, 3), Ask::Stage(1, ONE), STALE, (1, 1, &[1])),
];

// Node `n1` was lost in session 1, in which volume 1 was staged and published there under 1.3 and 1.4. It joins again with session 2, and the
// old calls come, before and after those of session 2.
const LATE: &[Line] = &[
    (
        (1, 4),
        Ask::Publish(1, "/a", ONE, false),
        STALE,
        (2, 0, &[]),
    ),
    ((1, 3), Ask::Stage(1, ONE), STALE, (2, 0, &[])),
    ((0, 9), Ask::Unstage(7), STALE, (2, 0, &[])),
    ((2, 3), Ask::Stage(1, ONE), DONE, (2, 1, &[])),
    ((2, 4), Ask::Publish(1, "/a", ONE, false), DONE, (2, 1, &[])),
    ((1, 5), Ask::Unpublish(1, "/a"), STALE, (2, 1, &[])),
    ((1, 9), Ask::Stage(2, ONE), STALE, (2, 1, &[])),
    ((3, 1), Ask::Unpublish(1, "/a"), DONE, (3, 1, &[])),
    ((2, 5), Ask::Stage(2, ONE), STALE, (3, 1, &[])),
];

// One that heard of session 1 alone would carry out what is late.
const UNTOLD: &[Line] = &[
    ((1, 3), Ask::Stage(1, ONE), DONE, (1, 1, &[])),
    ((1, 4), Ask::Publish(1, "/a", ONE, false), DONE, (1, 1, &[])),
];

// In the greatest session there is.
const LAST: &[Line] = &[
    (
        (u64::MAX - 1, 1),
        Ask::Stage(1, ONE),
        STALE,
        (u64::MAX, 0, &[]),
    ),
    ((u64::MAX, 1), Ask::Stage(1, ONE), DONE, (u64::MAX, 1, &[])),
];

// The session with which a node joins, and what comes.
const RUNS: &[(u64, &[&[Line]])] = &[
    (0, &[UNSTAGED, FORGOTTEN]),
    (0, &[UNSTAGED, BY_ITS_OWN_CALL]),
    (0, &[IN_SESSION_0]),
    (0, &[UNDONE]),
    (2, &[LATE]),
    (1, &[UNTOLD]),
    (0, &[UNTOLD]),
    (u64::MAX, &[LAST]),
];

#[test]
fn unstaged_volumes_are_forgotten_where_a_session_begins(rt: HostRuntime) {
    for (session, lines) in RUNS {
        let mut node = new_node(&rt, *session);
        assert!(rt; has_left(&rt, &node, (*session, 0, &[])));
        for part in *lines {
            all_come(&rt, &mut node, part);
        }
        drop(node);
    }
}
