//! Stores of parts, in memory and in SQLite: what is committed is there, also where the store is opened again; what doesn't fit, or isn't done,
//! isn't. Two tests bear a refusal at any allocation (`tools/refusals`): a commit that sees one leaves what was there, and is done then.
use crate::contents::{Change, is_part, part};
use crate::stops::opened;
use csi_disk_tests::{Image, TableKeep};
use csi_service::{Keep, KeepFault, MemoryKeep, Part};
use std::process::Abort;

// What is there, what is committed at once, and what is there then.
type Commit = (&'static [Change], &'static [Change], &'static [Change]);

const LONG: &[u8] = &[9; 5000];

const TWO: &[Change] = &[(5, Some(LONG)), (7, Some(&[1, 2]))];

const LAST: &[Change] = &[(7, Some(&[])), (u64::MAX, Some(&[3]))];

const COMMITS: &[Commit] = &[
    (&[], &[], &[]),
    (&[], &[(7, Some(&[1, 2])), (5, Some(LONG))], TWO),
    (TWO, &[(6, None)], TWO),
    (
        TWO,
        &[
            (u64::MAX, Some(&[3])),
            (7, Some(&[])),
            (5, Some(&[])),
            (5, None),
        ],
        LAST,
    ),
];

// Parts that do this.
fn parts(rt: &(impl Abort + AllocGlobal), changes: &[Change]) -> Vec<Part> {
    let count = changes.len();
    let mut parts = match Vec::with_capacity(rt.alloc(), count) {
        Ok(parts) => parts,
        Err(_) => Vec::with_capacity(rt.alloc(), count).expect(rt, "memory"),
    };
    for change in changes {
        parts.push(part(rt, *change)).expect(rt, "room");
    }
    parts
}

// Whether the store has these parts.
fn has<K: Keep>(keep: &mut K, wanted: &[Change]) -> bool {
    let loaded = match keep.load() {
        Err(KeepFault::NoMemory) => keep.load(),
        first => first,
    };
    let Ok(found) = loaded else {
        return false;
    };
    let mut is_same = found.len() == wanted.len();
    for (one, other) in found.iter().zip(wanted) {
        is_same = is_same && is_part(one, *other);
    }
    drop(found);
    is_same
}

// Commits this to a store that has that.
fn commit<K: Keep>(
    rt: &(impl Abort + AllocGlobal),
    keep: &mut K,
    changes: &[Change],
    before: &[Change],
) {
    let parts = parts(rt, changes);
    if let Err(fault) = keep.commit(&parts) {
        assert!(rt; fault == KeepFault::NoMemory && has(keep, before));
        keep.commit(&parts).expect(rt, "memory");
    }
    drop(parts);
}

// Whether a new store gets all that is committed.
fn keeps<K: Keep>(rt: &(impl Abort + AllocGlobal), keep: &mut K) -> bool {
    for (before, changes, after) in COMMITS {
        commit(rt, keep, changes, before);
        if !has(keep, after) {
            return false;
        }
    }
    keep.faults() == 0
}

#[test]
fn memory_keeps_what_is_committed(rt: HostRuntime) {
    let mut keep = MemoryKeep::new(rt.alloc(), 10_000);
    assert!(&rt; keeps(&rt, &mut keep));
    drop(keep);
}

// A store in a database in memory.
fn table(rt: &(impl Abort + AllocGlobal)) -> TableKeep {
    match TableKeep::made_by(rt.alloc(), "", None) {
        Err(KeepFault::NoMemory) => TableKeep::made_by(rt.alloc(), "", None)
            .ok()
            .expect(rt, "memory"),
        first => first.ok().expect(rt, "a store"),
    }
}

#[test]
fn a_table_keeps_what_is_committed(rt: HostRuntime) {
    let mut keep = table(&rt);
    assert!(&rt; keeps(&rt, &mut keep));
    drop(keep);
}

#[test]
fn a_table_that_is_taken_anew_has_what_it_had(rt: HostRuntime) {
    let mut keep = table(&rt);
    assert!(&rt; keeps(&rt, &mut keep));
    let mut again = keep.taken_anew().ok().expect(&rt, "a store");
    assert!(&rt; has(&mut again, LAST));
    drop(again);
}

// A store that is closed needs no log.
#[test]
fn files_keep_what_is_committed(rt: HostRuntime) {
    let mut keep = opened(&rt, &Image::new(rt.alloc()));
    assert!(&rt; keeps(&rt, &mut keep));
    let (is_put_back, closed) = keep.closed().expect(&rt, "memory");
    let alone = closed.without_log(rt.alloc());
    let mut again = opened(&rt, &alone);
    assert!(&rt; is_put_back && has(&mut again, LAST));
    drop((alone, again));
}

// What a connection is in the middle of, by which it is refused.
#[test]
fn a_connection_inside_a_transaction_is_refused(rt: HostRuntime) {
    let refused = TableKeep::made_by(rt.alloc(), "BEGIN", None);
    assert!(&rt; matches!(refused, Err(KeepFault::Device)));
    drop(refused);
}

const THREE: &[Change] = &[(1, Some(&[1])), (2, Some(&[2])), (3, Some(&[3]))];

// The statements may take three steps: three parts are more than can be read.
#[test]
fn a_store_that_failed_once_goes_on(rt: HostRuntime) {
    let mut keep = TableKeep::made_by(rt.alloc(), "", Some(3))
        .ok()
        .expect(&rt, "a store");
    commit(&rt, &mut keep, THREE, &[]);
    for faults in [1, 2] {
        let refused = keep.load();
        assert!(&rt; matches!(refused, Err(KeepFault::Device)) && keep.faults() == faults);
        drop(refused);
    }
    commit(&rt, &mut keep, &[(1, None), (2, None), (3, None)], THREE);
    assert!(&rt; has(&mut keep, &[]) && keep.faults() == 2);
    drop(keep);
}

// How much a store may take that has part 1 with two bytes, what is put in and taken out, and whether that fits.
const ROOMS: &[(u64, &[Change], bool)] = &[
    // two parts of 8 bytes and two
    (20, &[(1, Some(&[1, 2])), (2, Some(&[3, 4]))], true),
    (19, &[(1, Some(&[1, 2])), (2, Some(&[3, 4]))], false),
    // the first is made smaller, by what the second takes
    (19, &[(1, Some(&[1])), (2, Some(&[3, 4]))], true),
    (18, &[(1, Some(&[])), (2, Some(&[3, 4]))], true),
    (17, &[(1, Some(&[])), (2, Some(&[3, 4]))], false),
    // it is taken out
    (10, &[(2, Some(&[3, 4]))], false),
    (10, &[(1, None), (2, Some(&[3, 4]))], true),
];

const FIRST: &[Change] = &[(1, Some(&[1, 2]))];

// Whether a store with so much room takes these changes; if not it has what it had.
fn takes(rt: &(impl Abort + AllocGlobal), limit: u64, changes: &[Change]) -> bool {
    let mut keep = MemoryKeep::new(rt.alloc(), limit);
    commit(rt, &mut keep, FIRST, &[]);
    let parts = parts(rt, changes);
    let committed = keep.commit(&parts);
    drop(parts);
    let is_left = has(&mut keep, FIRST) && keep.faults() == 0;
    drop(keep);
    assert!(rt; committed.is_ok() || committed == Err(KeepFault::Full) && is_left);
    committed.is_ok()
}

#[test]
fn a_content_fits_exactly_within_the_limit(rt: HostRuntime) {
    for (limit, changes, fits) in ROOMS {
        assert!(&rt; takes(&rt, *limit, changes) == *fits, "of {limit} bytes");
    }
}
