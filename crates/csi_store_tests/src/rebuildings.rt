//! Controllers' records that are made of what an orchestrator keeps, and nodes' that are held against them: all as bytes, each refusal, and as many
//! volumes as there may be.
use crate::recoveries::node_records;
use csi_controller::ControllerRecord;
use csi_orchestrator::OrchestratorRecord;
use csi_recovery::{RebuildingFault, RecoveryFault, first_unlike, rebuilt};
use csi_service::{read_record, write_record};
use std::process::Abort;

// Of `n1` and `n2`, in session 5: `v` (7) is in use at both, `w` is being created, `a` (3) may be attached at `n1`, `gone` (4) was deleted, and `going`
// (5) is being deleted.
const ORCHESTRATOR: &[u8] = &[
    3, 0, 0, 0, 6, 0, 0, 0, 0, 0, 0, 0, 0, 0, 0, 0, 17, 3, 2, 0, 0, 0, 0, 0, 0, 0, 5, 2, 2, 110,
    49, 2, 110, 50, 0, 0, 0, 0, 0, 0, 0, 1, 0, 0, 0, 72, 3, 1, 118, 0, 0, 0, 0, 0, 0, 0, 20, 0, 0,
    0, 0, 0, 0, 0, 40, 2, 0, 5, 1, 4, 101, 120, 116, 52, 1, 1, 0, 0, 0, 0, 0, 0, 0, 7, 1, 0, 0, 2,
    2, 110, 50, 0, 5, 1, 1, 1, 1, 2, 47, 98, 1, 2, 110, 49, 0, 5, 0, 1, 1, 2, 2, 47, 98, 1, 2, 47,
    97, 1, 0, 0, 0, 0, 0, 0, 0, 2, 0, 0, 0, 27, 3, 1, 119, 0, 0, 0, 0, 0, 0, 0, 10, 0, 0, 0, 0, 0,
    0, 0, 0, 1, 0, 1, 0, 2, 1, 3, 0, 0, 0, 0, 0, 0, 0, 0, 3, 0, 0, 0, 72, 3, 1, 97, 0, 0, 0, 0, 0,
    0, 0, 0, 127, 255, 255, 255, 255, 255, 255, 255, 1, 1, 4, 101, 120, 116, 52, 1, 1, 0, 0, 0, 0,
    0, 0, 0, 3, 1, 2, 2, 110, 49, 2, 47, 99, 1, 4, 101, 120, 116, 52, 1, 1, 1, 1, 2, 110, 49, 1, 4,
    101, 120, 116, 52, 1, 1, 2, 0, 1, 2, 47, 99, 0, 0, 0, 0, 0, 0, 0, 0, 4, 0, 0, 0, 38, 3, 4, 103,
    111, 110, 101, 0, 0, 0, 0, 0, 0, 0, 10, 0, 0, 0, 0, 0, 0, 0, 0, 1, 0, 1, 1, 0, 0, 0, 0, 0, 0,
    0, 4, 0, 0, 0, 0, 0, 0, 0, 0, 0, 0, 0, 5, 0, 0, 0, 39, 3, 5, 103, 111, 105, 110, 103, 0, 0, 0,
    0, 0, 0, 0, 0, 0, 0, 0, 0, 0, 0, 0, 9, 1, 0, 1, 1, 0, 0, 0, 0, 0, 0, 0, 5, 2, 4, 2, 0,
];

// In session 6, with 8 as the next id: `a`, `going` and `v`, where they may be attached.
const CONTROLLER: &[u8] = &[
    3, 0, 0, 0, 4, 0, 0, 0, 0, 0, 0, 0, 0, 0, 0, 0, 18, 3, 0, 0, 0, 0, 0, 0, 0, 0, 8, 0, 0, 0, 0,
    0, 0, 0, 6, 0, 0, 0, 0, 0, 0, 0, 3, 0, 0, 0, 59, 3, 1, 1, 97, 0, 0, 0, 0, 64, 0, 0, 0, 1, 1, 4,
    101, 120, 116, 52, 1, 1, 2, 110, 49, 1, 4, 101, 120, 116, 52, 1, 1, 0, 0, 0, 0, 0, 0, 0, 0, 0,
    0, 0, 0, 0, 0, 0, 0, 129, 0, 0, 0, 0, 0, 0, 0, 0, 3, 0, 0, 0, 0, 0, 0, 0, 0, 5, 0, 0, 0, 47, 3,
    1, 5, 103, 111, 105, 110, 103, 0, 0, 0, 0, 0, 0, 0, 9, 1, 0, 1, 0, 0, 0, 0, 0, 0, 0, 0, 0, 0,
    0, 0, 0, 0, 0, 0, 0, 129, 0, 0, 0, 0, 0, 0, 0, 0, 5, 0, 0, 0, 0, 0, 0, 0, 0, 7, 0, 0, 0, 62, 3,
    1, 1, 118, 0, 0, 0, 0, 0, 0, 0, 20, 2, 0, 5, 1, 4, 101, 120, 116, 52, 1, 2, 2, 110, 50, 0, 5,
    1, 2, 110, 49, 0, 5, 0, 0, 0, 0, 0, 0, 0, 0, 0, 0, 0, 0, 0, 0, 0, 0, 0, 129, 0, 0, 0, 0, 0, 0,
    0, 0, 7, 0,
];

// In the last session.
const LAST: &[u8] = &[
    3, 0, 0, 0, 1, 0, 0, 0, 0, 0, 0, 0, 0, 0, 0, 0, 11, 3, 2, 255, 255, 255, 255, 255, 255, 255,
    255, 0,
];

// Two of three volumes are 2.
const TWICE: &[u8] = &[
    3, 0, 0, 0, 4, 0, 0, 0, 0, 0, 0, 0, 0, 0, 0, 0, 11, 3, 2, 0, 0, 0, 0, 0, 0, 0, 5, 0, 0, 0, 0,
    0, 0, 0, 0, 1, 0, 0, 0, 35, 3, 1, 118, 0, 0, 0, 0, 0, 0, 0, 10, 0, 0, 0, 0, 0, 0, 0, 0, 1, 0,
    1, 1, 0, 0, 0, 0, 0, 0, 0, 2, 1, 0, 0, 0, 0, 0, 0, 0, 0, 0, 0, 2, 0, 0, 0, 35, 3, 1, 119, 0, 0,
    0, 0, 0, 0, 0, 10, 0, 0, 0, 0, 0, 0, 0, 0, 1, 0, 1, 1, 0, 0, 0, 0, 0, 0, 0, 1, 1, 0, 0, 0, 0,
    0, 0, 0, 0, 0, 0, 3, 0, 0, 0, 35, 3, 1, 120, 0, 0, 0, 0, 0, 0, 0, 10, 0, 0, 0, 0, 0, 0, 0, 0,
    1, 0, 1, 1, 0, 0, 0, 0, 0, 0, 0, 2, 1, 0, 0, 0,
];

// `n1`: 7 is published at `/b` and `/a`, and 9 was unstaged.
const FIRST: &[u8] = &[
    3, 0, 0, 0, 3, 0, 0, 0, 0, 0, 0, 0, 0, 0, 0, 0, 13, 3, 1, 2, 110, 49, 0, 0, 0, 0, 0, 0, 0, 4,
    0, 0, 0, 0, 0, 0, 0, 7, 0, 0, 0, 40, 3, 1, 0, 5, 2, 2, 47, 98, 0, 2, 47, 97, 0, 0, 0, 0, 0, 0,
    0, 0, 4, 0, 0, 0, 0, 0, 0, 0, 5, 135, 0, 0, 0, 0, 0, 0, 0, 0, 0, 0, 0, 0, 0, 0, 0, 0, 0, 9, 0,
    0, 0, 30, 3, 0, 0, 0, 0, 0, 0, 0, 0, 0, 4, 0, 0, 0, 0, 0, 0, 0, 6, 134, 0, 0, 0, 0, 0, 0, 0, 0,
    0, 0,
];

// `n2`: 7 is published at `/b`, for reading; or otherwise; or it heard of session 6, and has nothing.
const SECOND: &[u8] = &[
    3, 0, 0, 0, 2, 0, 0, 0, 0, 0, 0, 0, 0, 0, 0, 0, 13, 3, 1, 2, 110, 50, 0, 0, 0, 0, 0, 0, 0, 5,
    0, 0, 0, 0, 0, 0, 0, 7, 0, 0, 0, 36, 3, 1, 0, 5, 1, 2, 47, 98, 1, 0, 0, 0, 0, 0, 0, 0, 3, 0, 0,
    0, 0, 0, 0, 0, 9, 135, 0, 0, 0, 0, 0, 0, 0, 0, 0, 0,
];

const OTHERWISE: &[u8] = &[
    3, 0, 0, 0, 2, 0, 0, 0, 0, 0, 0, 0, 0, 0, 0, 0, 13, 3, 1, 2, 110, 50, 0, 0, 0, 0, 0, 0, 0, 5,
    0, 0, 0, 0, 0, 0, 0, 7, 0, 0, 0, 36, 3, 1, 0, 5, 1, 2, 47, 98, 0, 0, 0, 0, 0, 0, 0, 0, 4, 0, 0,
    0, 0, 0, 0, 0, 5, 133, 0, 0, 0, 0, 0, 0, 0, 0, 0, 0,
];

const LATER: &[u8] = &[
    3, 0, 0, 0, 1, 0, 0, 0, 0, 0, 0, 0, 0, 0, 0, 0, 13, 3, 1, 2, 110, 50, 0, 0, 0, 0, 0, 0, 0, 6,
];

// The orchestrator's record, the next id, and what comes of them.
struct Case {
    kept: &'static [u8],
    next_id: u64,
    wanted: Result<&'static [u8], RebuildingFault>,
}

const CASES: &[Case] = &[
    Case {
        kept: ORCHESTRATOR,
        next_id: 8,
        wanted: Ok(CONTROLLER),
    },
    Case {
        kept: LAST,
        next_id: 0,
        wanted: Err(RebuildingFault::NumbersSpent),
    },
    Case {
        kept: TWICE,
        next_id: 0,
        wanted: Err(RebuildingFault::IdTaken(0)),
    },
    Case {
        kept: TWICE,
        next_id: 2,
        wanted: Err(RebuildingFault::IdTaken(1)),
    },
    // the second volume by rising id is the second of its id
    Case {
        kept: TWICE,
        next_id: 3,
        wanted: Err(RebuildingFault::BadRow(3)),
    },
];

// The records of nodes, and why they don't go with the controller's, if they don't.
const NODES: &[(&[&[u8]], Option<RecoveryFault>)] = &[
    (&[FIRST, SECOND], None),
    (&[FIRST, LATER, FIRST], Some(RecoveryFault::SameNode(3))),
    (&[FIRST, LATER], Some(RecoveryFault::NotLater)),
    (&[FIRST, OTHERWISE], Some(RecoveryFault::Disagrees(2))),
];

// What is made of an orchestrator's record, as bytes.
fn rebuilt_bytes(
    rt: &(impl Abort + AllocGlobal),
    bytes: &[u8],
    next_id: u64,
) -> Result<Vec<u8>, RebuildingFault> {
    let kept = read_record::<OrchestratorRecord>(rt.alloc(), bytes).expect(rt, "a record");
    let made = rebuilt(rt.alloc(), next_id, &kept);
    drop(kept);
    match made {
        Ok(record) => {
            let bytes = write_record(rt.alloc(), &record).expect(rt, "memory");
            drop(record);
            Ok(bytes)
        }
        Err(fault) => Err(fault),
    }
}

// Whether this comes of it.
fn comes(
    rt: &(impl Abort + AllocGlobal),
    kept: &[u8],
    next_id: u64,
    wanted: Result<&[u8], RebuildingFault>,
) -> bool {
    match rebuilt_bytes(rt, kept, next_id) {
        Ok(bytes) => {
            let same = match wanted {
                Ok(wanted) => bytes.as_slice() == wanted,
                Err(_) => false,
            };
            drop(bytes);
            same
        }
        Err(fault) => wanted == Err(fault),
    }
}

#[test]
fn a_controller_is_made_of_its_orchestrator(rt: HostRuntime) {
    for (place, case) in CASES.iter().enumerate() {
        assert!(&rt;
            comes(&rt, case.kept, case.next_id, case.wanted),
            "case {place}"
        );
    }
}

#[test]
fn nodes_are_held_against_the_controller(rt: HostRuntime) {
    let made = read_record::<ControllerRecord>(rt.alloc(), CONTROLLER).expect(&rt, "a record");
    for (place, (given, wanted)) in NODES.iter().enumerate() {
        let given = node_records(&rt, given);
        assert!(&rt; first_unlike(&made, &given) == *wanted, "case {place}");
        drop(given);
    }
    drop(made);
}

const VOLUMES: u64 = 4096;

// What records of so many begin with, in session 7, and in session 8 with the next id; then the bytes of a row, before and behind what differs: its name
// has four figures, and it is attached at `n1`.
const KEPT_HEAD: &[u8] = &[
    3, 0, 0, 16, 1, 0, 0, 0, 0, 0, 0, 0, 0, 0, 0, 0, 14, 3, 2, 0, 0, 0, 0, 0, 0, 0, 7, 1, 2, 110,
    49,
];

const KEPT_ROW: [&[u8]; 3] = [
    &[0, 0, 0, 51, 3, 4],
    &[0, 0, 0, 0, 0, 0, 0, 10, 0, 0, 0, 0, 0, 0, 0, 0, 1, 0, 5, 1],
    &[1, 0, 0, 1, 2, 110, 49, 0, 5, 0, 1, 1, 1, 2, 47, 97, 1],
];

const MADE_HEAD: &[u8] = &[
    3, 0, 0, 16, 1, 0, 0, 0, 0, 0, 0, 0, 0, 0, 0, 0, 18, 3, 0, 0, 0, 0, 0, 0, 0, 16, 1, 0, 0, 0, 0,
    0, 0, 0, 8,
];

const MADE_ROW: [&[u8]; 3] = [
    &[0, 0, 0, 52, 3, 1, 4],
    &[
        0, 0, 0, 0, 0, 0, 0, 10, 1, 0, 5, 1, 2, 110, 49, 0, 5, 0, 0, 0, 0, 0, 0, 0, 0, 0, 0, 0, 0,
        0, 0, 0, 0, 0, 129, 0,
    ],
    &[0],
];

// Adds the row of this key and volume.
fn add_row(
    rt: &(impl Abort + AllocGlobal),
    out: &mut Vec<u8>,
    key: u64,
    volume: u64,
    [front, middle, rest]: [&[u8]; 3],
) {
    let name = 9999_u64.saturating_sub(volume);
    let text = format!(in rt.alloc(); "{name}").expect(rt, "memory");
    let (place, id) = (key.to_be_bytes(), volume.to_be_bytes());
    for bytes in [&place[..], front, text.as_bytes(), middle, &id[..], rest] {
        out.extend_from_slice(bytes).expect(rt, "room");
    }
    drop(text);
}

// An orchestrator's record of that many, by falling id; or the controller's.
fn full(rt: &(impl Abort + AllocGlobal), is_made: bool) -> Vec<u8> {
    let head = if is_made { MADE_HEAD } else { KEPT_HEAD };
    let mut out = Vec::new(rt.alloc());
    out.extend_from_slice(head).expect(rt, "room");
    for place in 1..=VOLUMES {
        if is_made {
            add_row(rt, &mut out, place, place, MADE_ROW);
        } else {
            add_row(rt, &mut out, place, VOLUMES + 1 - place, KEPT_ROW);
        }
    }
    out
}

#[test]
fn there_are_as_many_volumes_as_rows(rt: HostRuntime) {
    let (kept, made) = (full(&rt, false), full(&rt, true));
    assert!(&rt; comes(&rt, kept.as_slice(), VOLUMES + 1, Ok(made.as_slice())));
    drop((kept, made));
}
