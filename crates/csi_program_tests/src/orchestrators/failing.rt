//! The orchestrator's program over a store, a reader and a writer of which one fails at one call, at each in turn: how it ends, what is written and
//! kept, and that the life goes on from there.
use super::script::{Side, WHOLE, lines};
use super::{answers, count, goes_on, has_after, lives, puts, read_with};
use crate::devices::{Devices, SOUND, new_store, room};
use csi_stores::Left;
use csi_streams::Ending;
use std::alloc::Global;
use std::process::Abort;

// What fails as it is opened in session 6, and the session that the store is in then. Its record is the first commit.
const OPENINGS: &[(Devices, u8)] = &[
    (
        Devices {
            load: Some(0),
            ..SOUND
        },
        5,
    ),
    (
        Devices {
            commit: Some(1),
            ..SOUND
        },
        5,
    ),
    (
        Devices {
            commit: Some(1),
            left: Left::New,
            ..SOUND
        },
        6,
    ),
];

#[test]
fn an_opening_that_fails_leaves_one_session_or_the_next(rt: HostRuntime) {
    for (devices, session) in OPENINGS {
        let mut keep = new_store(rt.alloc(), 1000, *devices);
        puts(&rt, &mut keep, 5, 4);
        let (written, ending) = answers(&rt, &mut keep, b"", SOUND);
        assert!(&rt; ending == Ending::Device && written.is_empty());
        drop(written);
        assert!(&rt; has_after(&rt, &mut keep, *session, (4, 0)));
        assert!(&rt; lives(&rt, &mut keep, (session.saturating_add(1), 4)));
        drop(keep);
    }
}

// How many lines a run over such devices writes whole, and whether one failed. The steps of the lines that were read with the next one are kept, all
// of them, or none is; and the life goes on.
fn run(rt: &(impl Abort + AllocGlobal), devices: Devices, is_ahead: bool) -> (usize, bool) {
    let mut keep = new_store(rt.alloc(), 1000, devices);
    let given = lines(rt, Side::Given, 1, (0, WHOLE));
    let (written, ending) = answers(rt, &mut keep, &given, devices);
    let said = count(&written);
    let answered = said.saturating_sub(1);
    let (session, steps) = match said {
        0 if is_ahead => (1, 0),
        0 => (0, 0),
        _ if is_ahead => (1, read_with(&given, devices.most, answered)),
        _ => (1, answered),
    };
    drop(given);
    assert!(rt; has_after(rt, &mut keep, session, (steps, 0)));
    assert!(rt; goes_on(rt, &mut keep, (1, 0), &written, steps));
    drop((keep, written));
    assert!(rt; ending == Ending::Device || ending == Ending::Done);
    (said, ending == Ending::Device)
}

// How many bytes are read, and written, at a time; how many lines are committed together then, where a line has 15 bytes at least; and how often that is.
const CUTS: &[(usize, usize, usize)] = &[(15, 1, WHOLE), (4096, WHOLE, 1)];

#[test]
fn each_commit_that_fails_leaves_all_of_its_steps_or_none(rt: HostRuntime) {
    for (most, together, groups) in CUTS {
        let mut said = 0;
        for commit in 0..=*groups {
            let old = Devices {
                commit: Some(commit as u64),
                most: *most,
                ..SOUND
            };
            let new = Devices {
                left: Left::New,
                ..old
            };
            assert!(&rt; run(&rt, old, false) == (said, true), "{commit}");
            assert!(&rt; run(&rt, new, true) == (said, true), "{commit}");
            said = commit.saturating_mul(*together).saturating_add(1);
        }
    }
}

// 20,000 empty lines, of which 16,384 are in the first piece, whose answers aren't flushed.
#[test]
fn the_lines_of_16384_bytes_are_answered_at_once(rt: HostRuntime) {
    let mut given = room(&rt, 20_000);
    for _ in 0..20_000 {
        given.push(b'\n').expect(&rt, "room");
    }
    let devices = Devices {
        flush: Some(1),
        most: 100_000,
        ..SOUND
    };
    let mut keep = new_store(rt.alloc(), 1000, devices);
    let (written, ending) = answers(&rt, &mut keep, &given, devices);
    assert!(&rt; ending == Ending::Device && count(&written) == 16_385);
    drop((keep, given, written));
}

// Whether the life comes to its end, one call after another of the reader or the writer failing, and no line is taken back.
fn ends(rt: &(impl Abort + AllocGlobal), most: usize, is_read: bool) -> bool {
    let mut far = 0usize;
    for call in 0..10_000u64 {
        let (read, write) = if is_read {
            (Some(call), None)
        } else {
            (None, Some(call))
        };
        let devices = Devices {
            most,
            read,
            write,
            ..SOUND
        };
        let (said, has_failed) = run(rt, devices, !is_read);
        assert!(rt; said >= far, "at {call}");
        far = said;
        if !has_failed {
            return true;
        }
    }
    false
}

// All that was read is answered and committed: nothing waits over a read.
#[test]
fn each_read_that_fails_ends_it(rt: HostRuntime) {
    assert!(&rt; ends(&rt, 1, true) && ends(&rt, 15, true) && ends(&rt, 200, true));
}

#[test]
fn each_write_that_fails_ends_it(rt: HostRuntime) {
    assert!(&rt; ends(&rt, 20, false) && ends(&rt, 200, false) && ends(&rt, 4096, false));
}

// The lines that aren't flushed are written.
#[test]
fn each_flush_that_fails_ends_it(rt: HostRuntime) {
    for (most, together, groups) in CUTS {
        for flush in 0..=*groups {
            let devices = Devices {
                flush: Some(flush as u64),
                most: *most,
                ..SOUND
            };
            let said = flush.saturating_mul(*together).saturating_add(1);
            assert!(&rt; run(&rt, devices, false) == (said, true), "{flush}");
        }
    }
}
