//! Refused growths of openings and of serving. With memory to spare each test compares the whole answers. Run with one allocation refused, each in
//! turn (`tools/refusals`), the run that sees it ends out of memory, where the store has what was committed before, and goes on once it is opened
//! again.
use crate::contents::{NOTHING, has, puts};
use crate::script::{AT_ONCE, CUTS, Cut, SCRIPT};
use crate::serving::{End, config, take};
use crate::turns::{BEGUN, IN_SESSION_0, REWRITTEN, Turn};
use csi_service::{KeepFault, MemoryKeep, ServeFaultKind};
use std::process::Abort;

// How many of the frames, served from one on, were served to such an end, and whether the store has what these leave: memory was refused, or all
// were served. An opening that is refused may have committed, or not.
fn served(
    rt: &(impl Abort + AllocGlobal),
    keep: &mut MemoryKeep,
    turn: &Turn,
    (end, from): (End, usize),
) -> usize {
    let (count, is_refusal) = match end {
        End::Unopened(fault) => (from, fault == KeepFault::NoMemory),
        End::Served(count) => (count, true),
        End::Ended(count, kind) => {
            let is_memory = kind == ServeFaultKind::NoMemory;
            (
                count,
                is_memory || kind == ServeFaultKind::Keep(KeepFault::NoMemory),
            )
        }
    };
    let opened = count.saturating_add(1);
    let is_first = count == 0 && matches!(end, End::Unopened(_));
    let before = turn.contents.get(count).unwrap_or(&NOTHING);
    let after = turn.contents.get(opened).expect(rt, "a content");
    assert!(rt; is_refusal && (has(keep, *after) || is_first && has(keep, *before)));
    count
}

// The turn, read so, and where it ended out of memory its rest. Of frames that are read at once those before the one that wanted memory are
// committed and replied.
fn lives(rt: &(impl Abort + AllocGlobal), turn: &Turn, (most, _, _): Cut) {
    let mut keep = MemoryKeep::new(rt.alloc(), 1000);
    let before = turn.contents.first().expect(rt, "a content");
    puts(rt, &mut keep, *before);
    let end = take(rt, &mut keep, turn, (0, most));
    let count = served(rt, &mut keep, turn, (end, 0));
    let all = turn.steps.len();
    if end != End::Served(all) {
        assert!(rt; take(rt, &mut keep, turn, (count, most)) == End::Served(all));
    }
    let after = turn.contents.last().expect(rt, "a content");
    assert!(rt; has(&mut keep, *after));
    drop(keep);
}

#[test]
fn the_script_is_served_in_want_of_memory(rt: HostRuntime) {
    for cut in CUTS {
        lives(&rt, SCRIPT, *cut);
    }
}

#[test]
fn stores_of_earlier_versions_are_rewritten_in_want_of_memory(rt: HostRuntime) {
    for turn in REWRITTEN {
        lives(&rt, turn, AT_ONCE);
    }
}

#[test]
fn sessions_begin_in_want_of_memory(rt: HostRuntime) {
    for turn in BEGUN {
        lives(&rt, turn, AT_ONCE);
    }
}

#[test]
fn calls_of_session_0_are_served_in_want_of_memory(rt: HostRuntime) {
    for turn in IN_SESSION_0 {
        lives(&rt, turn, AT_ONCE);
    }
}

#[test]
fn a_configuration_is_read_in_want_of_memory(rt: HostRuntime) {
    let config = config(&rt);
    let is_read = match config.nodes() {
        [one, other] => { one.id.as_str() == "n1" && one.slots == 4 && other.id.as_str() == "n2" }
        _ => false,
    };
    assert!(&rt; is_read && config.greatest() == 1000);
    drop(config);
}
