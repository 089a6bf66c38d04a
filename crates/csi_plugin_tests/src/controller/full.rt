//! A controller of as many volumes as there can be, of which one is at 64 nodes: its record, its lists, and a session that forgets all
//! others. What it takes to get there is in `tools/library/full.c`.
use super::*;
use crate::playing::{Line, all_come};
use crate::values::{DONE, number};
use csi_types::{Config, NodeId, NodeSlots};

const VOLUMES: u64 = 4096;

const NODES: u64 = 64;

const B5: Mode = Mode::MultiNodeMultiWriter;

fn node(rt: &(impl Abort + AllocGlobal), place: u64) -> NodeId {
    let text = format!(in rt.alloc(); "n{place}").expect(rt, "memory");
    node_id(rt, text.as_str())
}

fn large_config(rt: &(impl Abort + AllocGlobal)) -> Config {
    let mut list = room(rt, 64);
    for place in 0..NODES {
        let id = node(rt, place);
        list.push(NodeSlots { id, slots: 4096 }).expect(rt, "room");
    }
    Config::try_new(rt.alloc(), 1000, list).expect(rt, "a configuration")
}

// Volumes 1 to 4,096, of which the first lives and is held everywhere, and the others live or don't.
fn rows(rt: &(impl Abort + AllocGlobal), live: bool) -> Vec<ControllerRow> {
    let mut first = row_of(rt, &new_volume(rt, 1, true, "v1", number(1)));
    first.capabilities = blocks(rt, &[B5]);
    for place in 0..NODES {
        let holding = NodeHolding {
            node: node(rt, place),
            capability: block(B5),
            readonly: place % 2 == 0,
        };
        first.holdings.push(holding).expect(rt, "memory");
    }
    let mut rows = room(rt, 4096);
    rows.push(first).expect(rt, "room");
    for id in 2..=VOLUMES {
        let text = format!(in rt.alloc(); "v{id}").expect(rt, "memory");
        let made = new_volume(rt, id, live, text.as_str(), number(id));
        rows.push(row_of(rt, &made)).expect(rt, "room");
    }
    rows
}

const OTHER: Ask = Ask::Create("other", 10, 0, &[B1]);

const NO_ROOM: Told = (Status::ResourceExhausted, None, "volumes");

// A creation that finds the table full of volumes that live begins a session. Where one of them was deleted, the next session has room.
const FULL: &[Line] = &[
    ((1, 5000), OTHER, NO_ROOM, (1, 4096, &[])),
    ((2, 1), OTHER, NO_ROOM, (2, 4096, &[])),
    ((2, 2), Ask::Delete(7), DONE, (2, 4096, &[7])),
    ((2, 3), OTHER, NO_ROOM, (2, 4096, &[7])),
    ((3, 1), OTHER, (Status::Ok, Some(4097), ""), (3, 4096, &[])),
];

#[test]
fn a_full_table_is_told_and_takes_no_other_name(rt: HostRuntime) {
    let wanted = rows(&rt, true);
    let made = ControllerRecord::try_new(rt.alloc(), 4097, rows(&rt, true), 1);
    let record = made.expect(&rt, "memory");
    let opened = Controller::from_record(rt.alloc(), large_config(&rt), record);
    let mut controller = opened.expect(&rt, "memory");
    let kept = controller.record().expect(&rt, "memory");
    assert!(rt; kept.rows() == wanted.as_slice() && kept.next_id() == 4097);
    drop(kept);
    let row = controller.row(volume_id(&rt, 1)).expect(&rt, "memory");
    assert!(rt; row.as_ref() == wanted.first());
    drop((row, wanted));
    let all = controller.attachments().expect(&rt, "memory");
    assert!(rt; all.len() == 64);
    drop(all);
    all_come(&rt, &mut controller, FULL);
    drop(controller);
}

const FORGOTTEN: &[Line] = &[((2, 1), OTHER, (Status::Ok, Some(4097), ""), (2, 2, &[]))];

#[test]
fn a_session_forgets_as_many_volumes_as_there_can_be(rt: HostRuntime) {
    let made = ControllerRecord::without_session(rt.alloc(), 4097, rows(&rt, false));
    let record = made.expect(&rt, "memory");
    assert!(rt; record.rows().len() == 4096 && record.session() == 1);
    let opened = Controller::from_record(rt.alloc(), large_config(&rt), record);
    let mut controller = opened.expect(&rt, "memory");
    let empty = controller.forgettable().expect(&rt, "memory");
    assert!(rt; empty.len() == 4095);
    drop(empty);
    all_come(&rt, &mut controller, FORGOTTEN);
    drop(controller);
}
