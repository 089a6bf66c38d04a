//! A node of as many volumes as there can be, of which one is at 16 targets: its record, its lists, and a session that forgets all. What it
//! takes to get there is in `tools/library/full.c`.
use super::*;
use crate::playing::{Line, all_come};
use crate::values::{DONE, STALE};

const SEVENTH: u64 = 7;

const SIXTEEN: &[(&str, bool)] = &[
    ("/a", false),
    ("/b", true),
    ("/c", false),
    ("/d", false),
    ("/e", false),
    ("/f", false),
    ("/g", false),
    ("/h", false),
    ("/i", false),
    ("/j", false),
    ("/k", false),
    ("/l", false),
    ("/m", false),
    ("/n", false),
    ("/o", false),
    ("/p", false),
];

// Volumes 1 to 4,096, staged or unstaged by call 1 of session 1; where they are staged one is published.
fn rows(rt: &(impl Abort + AllocGlobal), staged: Option<Mode>) -> Vec<NodeRow> {
    let mut rows = room(rt, 4096);
    for id in 1..=4096u64 {
        let targets = if id == SEVENTH && staged.is_some() {
            SIXTEEN
        } else {
            &[]
        };
        let row = row_of(rt, (id, staged, targets, (1, 1), Kind::NodeStageVolume));
        rows.push(row).expect(rt, "room");
    }
    rows
}

// A node of them.
fn full(rt: &(impl Abort + AllocGlobal), staged: Option<Mode>) -> Node {
    let record = NodeRecord::try_new(node_id(rt, "n1"), rows(rt, staged), 1);
    Node::from_record(rt.alloc(), record.expect(rt, "memory")).expect(rt, "memory")
}

const NO_ROWS: Told = (Status::ResourceExhausted, None, "rows");

const NO_TARGETS: Told = (Status::ResourceExhausted, None, "targets");

// A seventeenth target is refused. So is a volume more, which isn't kept, and begins a session. Where one of them was unstaged, the next
// session has room.
const STAGED: &[Line] = &[
    (
        (1, 2),
        Ask::Publish(SEVENTH, "/q", MANY, false),
        NO_TARGETS,
        (1, 4096, &[]),
    ),
    ((1, 2), Ask::Unstage(5000), NO_ROWS, (1, 4096, &[])),
    ((1, 2), Ask::Unstage(5000), NO_ROWS, (1, 4096, &[])),
    ((2, 1), Ask::Unstage(5000), NO_ROWS, (2, 4096, &[])),
    ((1, 9), Ask::Stage(1, MANY), STALE, (2, 4096, &[])),
    ((2, 2), Ask::Unstage(8), DONE, (2, 4096, &[8])),
    ((2, 3), Ask::Stage(5000, ONE), NO_ROWS, (2, 4096, &[8])),
    ((3, 1), Ask::Stage(5000, ONE), DONE, (3, 4096, &[])),
];

#[test]
fn a_full_node_is_told_and_takes_no_other_volume(rt: HostRuntime) {
    let mut node = full(&rt, Some(MANY));
    let rows = rows(&rt, Some(MANY));
    assert!(rt; tells_rows(&rt, &node, &rows));
    let row = row_in_the_end(&rt, &node, SEVENTH);
    assert!(rt; row.as_ref() == rows.get(6));
    drop((row, rows));
    all_come(&rt, &mut node, STAGED);
    drop(node);
}

// None is staged: in a later session there is room for all others.
const UNSTAGED: &[Line] = &[
    ((2, 1), Ask::Unstage(5000), DONE, (2, 1, &[5000])),
    ((1, 1), Ask::Stage(1, ONE), STALE, (2, 1, &[5000])),
];

#[test]
fn a_session_forgets_as_many_volumes_as_there_can_be(rt: HostRuntime) {
    let mut node = full(&rt, None);
    let empty = node.forgettable().expect(&rt, "memory");
    assert!(rt; empty.len() == 4096);
    drop(empty);
    all_come(&rt, &mut node, UNSTAGED);
    drop(node);
}
