//! Refused growths. With memory to spare each test compares the whole answers. Run with one allocation refused, each
//! in turn (`tools/refusals`), the call that sees it wants memory and leaves the node as it was, and the
//! same call is then answered in full.
use super::*;
use crate::playing::{Step, plays};
use crate::values::{DONE, STALE};

const NOT_STAGED: Told = (Status::FailedPrecondition, None, "not staged");

const AT_A: Told = (Status::FailedPrecondition, None, "/a");

const PUBLISH: Ask = Ask::Publish(1, "/a", MANY, true);

// A volume's first call, also one that is refused, calls that are carried out, refusals, a kept reply, and a stale
// call.
const CALLS: &[Step] = &[
    (1, Ask::Stage(2, MANY), DONE),
    (1, PUBLISH, NOT_STAGED),
    (2, PUBLISH, NOT_STAGED),
    (3, Ask::Stage(1, MANY), DONE),
    (4, PUBLISH, DONE),
    (4, PUBLISH, DONE),
    (5, Ask::Unstage(1), AT_A),
    (2, Ask::Stage(1, MANY), STALE),
    (6, Ask::Unpublish(1, "/a"), DONE),
    (1, Ask::Unstage(3), DONE),
];

#[test]
fn calls_in_want_of_memory(rt: HostRuntime) {
    let mut node = new_node(&rt, 0);
    plays(&rt, &mut node, CALLS);
    drop(node);
}

// Volume 9 at two targets, volume 3 at one, and volume 5 nowhere.
const STEPS: &[Step] = &[
    (1, Ask::Stage(9, MANY), DONE),
    (2, Ask::Stage(3, ONE), DONE),
    (3, Ask::Publish(9, "/b", MANY, false), DONE),
    (4, Ask::Publish(9, "/a", MANY, true), DONE),
    (5, Ask::Publish(3, "/c", ONE, false), DONE),
    (6, Ask::Unstage(5), DONE),
];

// What there is then.
const VOLUMES: &[Volume] = &[
    (
        3,
        Some(ONE),
        &[("/c", false)],
        (1, 5),
        Kind::NodePublishVolume,
    ),
    (5, None, &[], (1, 6), Kind::NodeUnstageVolume),
    (
        9,
        Some(MANY),
        &[("/b", false), ("/a", true)],
        (1, 4),
        Kind::NodePublishVolume,
    ),
];

// The record gives the node again, with its last numbers and its kept replies.
const AFTER: &[Step] = &[
    (5, Ask::Publish(3, "/d", ONE, false), DONE),
    (1, Ask::Stage(9, MANY), STALE),
];

#[test]
fn what_is_there_is_told_in_want_of_memory(rt: HostRuntime) {
    let mut first = new_node(&rt, 0);
    plays(&rt, &mut first, STEPS);
    let rows = rows_of(&rt, VOLUMES);
    assert!(rt; tells_rows(&rt, &first, &rows));
    let row = row_in_the_end(&rt, &first, 9);
    assert!(rt; row.as_ref() == rows.last());
    drop(row);
    let none = row_in_the_end(&rt, &first, 4);
    assert!(rt; none.is_none());
    drop(none);
    let record = record_of(&rt, &first);
    drop(first);
    let mut second = Node::from_record(rt.alloc(), record).expect(&rt, "it takes no memory");
    assert!(rt; tells_rows(&rt, &second, &rows));
    drop(rows);
    plays(&rt, &mut second, AFTER);
    drop(second);
}

// ---- records, which take no memory

#[test]
fn a_record_is_made_of_rows(rt: HostRuntime) {
    let rows = rows_of(&rt, VOLUMES);
    let made = NodeRecord::try_new(node_id(&rt, "n1"), rows_of(&rt, VOLUMES), 1);
    let record = made.expect(&rt, "it takes no memory");
    assert!(rt; record.id().as_str() == "n1" && record.session() == 1);
    assert!(rt; record.rows() == rows.as_slice());
    drop((record, rows));
}

const UNSTAGE: Kind = Kind::NodeUnstageVolume;

const STAGED: Volume = (1, Some(ONE), &[], (1, 1), UNSTAGE);

const UNSTAGED: Volume = (1, None, &[], (1, 1), UNSTAGE);

const STAGED_LATER: Volume = (2, Some(ONE), &[], (2, 1), UNSTAGE);

const UNSTAGED_LATER: Volume = (2, None, &[], (2, 1), UNSTAGE);

const UNSTAGED_AT_LAST: Volume = (4, None, &[], (1, 1), UNSTAGE);

// Rows that were kept without a session, the session, and those that stay: the session is the greatest of all rows, and what was
// unstaged before it is left out.
const WITHOUT: &[(&[Volume], u64, &[Volume])] = &[
    (&[], 0, &[]),
    (&[STAGED], 1, &[STAGED]),
    (&[UNSTAGED], 1, &[UNSTAGED]),
    (&[STAGED, STAGED_LATER], 2, &[STAGED, STAGED_LATER]),
    (&[UNSTAGED, STAGED_LATER], 2, &[STAGED_LATER]),
    (&[UNSTAGED, UNSTAGED_LATER], 2, &[UNSTAGED_LATER]),
    (
        &[STAGED, UNSTAGED_LATER, UNSTAGED_AT_LAST],
        2,
        &[STAGED, UNSTAGED_LATER],
    ),
];

#[test]
fn rows_without_a_session_make_a_record(rt: HostRuntime) {
    for (all, session, left) in WITHOUT {
        let made = NodeRecord::without_session(node_id(&rt, "n1"), rows_of(&rt, all));
        let record = made.expect(&rt, "it takes no memory");
        let rows = rows_of(&rt, left);
        assert!(rt; record.session() == *session && record.rows() == rows.as_slice());
        drop((record, rows));
    }
}
