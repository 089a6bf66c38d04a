//! Refused growths. With memory to spare each test compares the whole answers. Run with one allocation refused, each
//! in turn (`tools/refusals`), the call that sees it wants memory and leaves the controller as it was,
//! and the same call is then answered in full.
use super::*;
use crate::playing::{Step, plays};
use crate::values::{DONE, STALE, number};
use csi_controller::RecordFault;
use csi_types::Holding;

const NODES: &[(&str, u64)] = &[("n1", 4)];

// Calls that are carried out, refusals with a detail, a kept reply, and a stale call.
const CALLS: &[Step] = &[
    (1, MAKE, FIRST),
    (2, Ask::Attach(1, "n1", B1, false), DONE),
    (3, Ask::Delete(1), AT_N1),
    (3, Ask::Delete(1), AT_N1),
    (1, Ask::Delete(1), STALE),
    (4, Ask::Create("v", 11, 0, &[B1]), TAKEN),
    (5, Ask::Detach(1, "n1"), DONE),
    (6, Ask::Delete(1), DONE),
];

#[test]
fn calls_in_want_of_memory(rt: HostRuntime) {
    let mut controller = new_controller(&rt, NODES);
    plays(&rt, &mut controller, CALLS);
    drop(controller);
}

// Volume 1 made, and held at `n1`.
const HELD: &[Step] = &[(1, MAKE, FIRST), (2, Ask::Attach(1, "n1", B1, false), DONE)];

// The row of volume 1 then.
fn held_row(rt: &(impl Abort + AllocGlobal)) -> ControllerRow {
    let mut held = room(rt, 1);
    held.push(("n1", B1, false)).expect(rt, "room");
    let made = new_volume(rt, 1, true, "v", number(2));
    let row = Volume {
        held,
        kind: Kind::ControllerPublishVolume,
        told: DONE,
        ..made
    };
    row_of(rt, &row)
}

// Whether it is volume 1 at `n1`, and nothing else.
fn is_held(all: &[Holding]) -> bool {
    match all {
        [one] => {
            one.volume.number() == 1
                && one.node.as_str() == "n1"
                && one.capability.mode == B1
                && !one.readonly
        }
        _ => false,
    }
}

// The copy of the row of volume 1, in the end.
fn row_in_the_end(rt: &impl Abort, controller: &Controller) -> ControllerRow {
    let row = match controller.row(volume_id(rt, 1)) {
        Ok(row) => row,
        Err(CoreFault::NoMemory) => controller.row(volume_id(rt, 1)).expect(rt, "memory"),
    };
    row.expect(rt, "a row")
}

#[test]
fn what_is_held_is_told_in_want_of_memory(rt: HostRuntime) {
    let mut controller = new_controller(&rt, NODES);
    plays(&rt, &mut controller, HELD);
    let wanted = held_row(&rt);
    let all = match controller.attachments() {
        Ok(all) => all,
        Err(CoreFault::NoMemory) => controller.attachments().expect(&rt, "memory"),
    };
    assert!(rt; is_held(&all));
    drop(all);
    let row = row_in_the_end(&rt, &controller);
    assert!(rt; row == wanted);
    drop((row, wanted));
    drop(controller);
}

// Of a volume that no node has.
const AFTER: &[Step] = &[
    (3, Ask::Attach(1, "n1", B1, false), NO_NODE),
    (4, Ask::Detach(1, "n1"), DONE),
];

// A record with volume 1 held at `n1`, opened with no nodes, which takes no memory.
#[test]
fn a_record_may_hold_more_than_its_configuration(rt: HostRuntime) {
    let mut first = new_controller(&rt, NODES);
    plays(&rt, &mut first, HELD);
    let record = record_of(&rt, &first);
    drop(first);
    let wanted = held_row(&rt);
    assert!(rt; record.next_id() == 2 && record.session() == 1);
    assert!(rt; record.rows().len() == 1 && record.rows().first() == Some(&wanted));
    drop(wanted);
    let opened = Controller::from_record(rt.alloc(), config(&rt, &[]), record);
    let mut second = opened.expect(&rt, "it takes no memory");
    plays(&rt, &mut second, AFTER);
    let row = row_in_the_end(&rt, &second);
    assert!(rt; row.holdings.is_empty());
    drop(row);
    let name = name(&rt, "v");
    assert!(rt; second.volume(&name) == Some((volume_id(&rt, 1), 10)));
    assert!(rt; second.id_of(&name) == Some(volume_id(&rt, 1)));
    drop(name);
    drop(second);
}

// ---- records

// A row of a volume of 10 bytes that is held nowhere: its id and name, whether it lives, and the session of its last call.
type Given = (u64, &'static str, bool, u64);

fn rows_of(rt: &(impl Abort + AllocGlobal), all: &[Given]) -> Vec<ControllerRow> {
    let mut rows = room(rt, all.len());
    for (id, text, live, session) in all {
        let last = Number {
            session: *session,
            call: 1,
        };
        let made = new_volume(rt, *id, *live, text, last);
        rows.push(row_of(rt, &made)).expect(rt, "room");
    }
    rows
}

const LIVES: Given = (1, "v", true, 1);

const GONE: Given = (1, "v", false, 1);

const LIVES_LATER: Given = (2, "w", true, 2);

const GONE_LATER: Given = (2, "w", false, 2);

const GONE_AT_LAST: Given = (4, "x", false, 1);

// Rows that were kept without a session, the session, and the ids of those that stay: the session is the greatest of all rows, and what was
// deleted before it is left out.
const WITHOUT: &[(&[Given], u64, &[u64])] = &[
    (&[], 0, &[]),
    (&[LIVES], 1, &[1]),
    (&[GONE], 1, &[1]),
    (&[LIVES, LIVES_LATER], 2, &[1, 2]),
    (&[GONE, LIVES_LATER], 2, &[2]),
    (&[GONE, GONE_LATER], 2, &[2]),
    (&[LIVES, GONE_LATER, GONE_AT_LAST], 2, &[1, 2]),
    (&[(3, "u", false, 5), GONE_AT_LAST], 5, &[3]),
];

// Whether these are the ids of the rows.
fn have_ids(rows: &[ControllerRow], ids: &[u64]) -> bool {
    for (row, id) in rows.iter().zip(ids) {
        if row.id.number() != *id {
            return false;
        }
    }
    rows.len() == ids.len()
}

#[test]
fn rows_without_a_session_make_a_record_in_want_of_memory(rt: HostRuntime) {
    for (all, session, ids) in WITHOUT {
        let made = match ControllerRecord::without_session(rt.alloc(), 9, rows_of(&rt, all)) {
            Err(RecordFault::NoMemory) => {
                ControllerRecord::without_session(rt.alloc(), 9, rows_of(&rt, all))
            }
            first => first,
        };
        let record = made.expect(&rt, "a record");
        assert!(rt; record.session() == *session && record.next_id() == 9);
        assert!(rt; have_ids(record.rows(), ids));
        drop(record);
    }
}

#[test]
fn a_record_is_made_in_want_of_memory(rt: HostRuntime) {
    let rows = &[LIVES, GONE_LATER];
    let made = match ControllerRecord::try_new(rt.alloc(), 3, rows_of(&rt, rows), 2) {
        Err(RecordFault::NoMemory) => {
            ControllerRecord::try_new(rt.alloc(), 3, rows_of(&rt, rows), 2)
        }
        first => first,
    };
    let record = made.expect(&rt, "a record");
    assert!(rt; record.session() == 2 && record.next_id() == 3);
    let wanted = rows_of(&rt, rows);
    assert!(rt; record.rows() == wanted.as_slice());
    drop((record, wanted));
}
