//! Plugins over SQLite in files that stop to answer, at each call of both, in an opening too, also where the power fails then: what is found when the
//! store is opened again, and what serving the same frames once more comes to. (By `rt try --test` these take minutes, so it needs `--seconds 900`;
//! once they are built they take a second each.)
use crate::contents::{has, puts};
use crate::script::{AT_ONCE, CUTS, Cut, SCRIPT};
use crate::serving::{End, input, run, stream, take};
use crate::turns::{BEGUN, REWRITTEN, Turn};
use csi_disk_tests::{DiskKeep, DiskStop, Image, NO_STOP, Opened, Stopping};
use csi_service::{Counted, Keep, KeepFault, ServeFaultKind};
use std::process::Abort;

const DEVICE: ServeFaultKind = ServeFaultKind::Keep(KeepFault::Device);

/// The store in files that hold this, with no stop.
pub(crate) fn opened(rt: &(impl Abort + AllocGlobal), image: &Image) -> DiskKeep {
    match DiskKeep::open(rt.alloc(), image, NO_STOP) {
        Ok(Opened::Open(keep)) => keep,
        _ => panic!(rt; "a store"),
    }
}

// Files that hold what the turn's store has before, and were closed. New ones hold nothing.
fn image_before(rt: &(impl Abort + AllocGlobal), turn: &Turn) -> Image {
    let new = Image::new(rt.alloc());
    let before = turn.contents.first().expect(rt, "a content");
    if before.0.is_empty() {
        return new;
    }
    let mut keep = opened(rt, &new);
    drop(new);
    puts(rt, &mut keep, *before);
    let (is_put_back, image) = keep.closed().expect(rt, "memory");
    assert!(rt; is_put_back);
    image
}

// A run: how it ended, whether no file stopped, and what they hold then.
struct Run {
    end: End,
    is_whole: bool,
    image: Image,
}

// Serves the turn, which is read so, over such files that stop so; then the store is closed, by which a file that stopped doesn't change any more.
fn stopped(
    rt: &(impl Abort + AllocGlobal),
    image: &Image,
    (turn, (most, _, _)): (&Turn, Cut),
    stop: DiskStop,
) -> Run {
    let mut keep = match DiskKeep::open(rt.alloc(), image, stop).expect(rt, "memory") {
        Opened::Open(keep) => keep,
        Opened::Stopped(image) => {
            return Run {
                end: End::Unopened(KeepFault::Device),
                is_whole: false,
                image,
            };
        }
    };
    let end = take(rt, &mut keep, turn, (0, most));
    let is_served = end == End::Served(turn.steps.len());
    assert!(rt; (keep.faults() == 0) == is_served);
    let (is_put_back, image) = keep.closed().expect(rt, "memory");
    Run {
        end,
        is_whole: is_put_back && is_served,
        image,
    }
}

// Which of the turn's contents such a run may leave: where it stopped in a commit, the one before it, or the one that it puts in, and none of those
// between, where the commit is one of several frames.
fn left_by(rt: &impl Abort, (turn, (_, frames, _)): (&Turn, Cut), end: End) -> (usize, usize) {
    match end {
        End::Unopened(fault) => {
            assert!(rt; fault == KeepFault::Device);
            (0, 1)
        }
        End::Ended(count, kind) => {
            assert!(rt; kind == DEVICE);
            let together = count.saturating_add(frames).min(turn.steps.len());
            (count.saturating_add(1), together.saturating_add(1))
        }
        End::Served(count) => (count.saturating_add(1), count.saturating_add(1)),
    }
}

// Whether these files have what such a run may leave, and come to what the turn leaves when it is served again: its last frame gets its reply then,
// and what was answered before gets that it is stale, or the reply that is kept.
fn goes_on(
    rt: &(impl Abort + AllocGlobal),
    image: &Image,
    (turn, cut): (&Turn, Cut),
    end: End,
) -> bool {
    let mut keep = opened(rt, image);
    let (old, new) = left_by(rt, (turn, cut), end);
    let old = *turn.contents.get(old).expect(rt, "a content");
    let new = *turn.contents.get(new).expect(rt, "a content");
    let is_left = has(&mut keep, old) || has(&mut keep, new);
    let all = turn.steps.len();
    let (frames, replies) = stream(rt, turn, (0, all));
    drop(replies);
    let mut reader = input(&frames, cut.0);
    let mut writer = Counted::new(Vec::new(rt.alloc()));
    let again = run(rt, turn.plugin, &mut keep, &mut reader, &mut writer);
    let after = turn.contents.last().expect(rt, "a content");
    let is_there = has(&mut keep, *after) && keep.faults() == 0;
    drop(keep);
    is_left && is_there && again == End::Served(all)
}

// How far a run came: 0 where the store was not opened, one more at each commit that stopped, and last of all at the end.
fn stage(end: End) -> usize {
    match end {
        End::Unopened(_) => 0,
        End::Ended(count, _) | End::Served(count) => count.saturating_add(1),
    }
}

// Serves the turn, which is read so, over files of which one stops so; whether none did. The turn goes on, and came at least so far.
fn runs(
    rt: &(impl Abort + AllocGlobal),
    (image, turn): (&Image, (&Turn, Cut)),
    stop: DiskStop,
    far: &mut usize,
) -> bool {
    let Run {
        end,
        is_whole,
        image: left,
    } = stopped(rt, image, turn, stop);
    assert!(rt; goes_on(rt, &left, turn, end) && stage(end) >= *far);
    drop(left);
    *far = stage(end);
    is_whole
}

// More calls than a run makes.
const MANY: u64 = 1000;

// Serves the turn with so many calls of a file let through, from none on, until a run ends with no stop; whether one did.
fn ends(
    rt: &(impl Abort + AllocGlobal),
    turn: (&Turn, Cut),
    stopping: Stopping,
    power_fails: bool,
) -> bool {
    let image = image_before(rt, turn.0);
    let mut far = 0;
    for calls in 0..MANY {
        let stop = stopping.after(calls, power_fails);
        if runs(rt, (&image, turn), stop, &mut far) {
            return true;
        }
    }
    false
}

// That, where either file stops, and where the power fails then too.
fn all_end(rt: &(impl Abort + AllocGlobal), turn: (&Turn, Cut)) {
    for stopping in [Stopping::Log, Stopping::Database] {
        for power_fails in [false, true] {
            assert!(rt; ends(rt, turn, stopping, power_fails));
        }
    }
}

#[test]
fn stops_leave_a_record(rt: HostRuntime) {
    for cut in CUTS {
        all_end(&rt, (SCRIPT, *cut));
    }
}

#[test]
fn stops_leave_an_earlier_version_or_version_3(rt: HostRuntime) {
    for turn in REWRITTEN {
        all_end(&rt, (turn, AT_ONCE));
    }
}

#[test]
fn stops_leave_one_session_or_the_next(rt: HostRuntime) {
    for turn in BEGUN {
        all_end(&rt, (turn, AT_ONCE));
    }
}

// With no stop everything is answered, and a store that is closed needs no log.
#[test]
fn sqlite_keep_works_with_no_stop(rt: HostRuntime) {
    let image = image_before(&rt, SCRIPT);
    let Run {
        end,
        is_whole,
        image: left,
    } = stopped(&rt, &image, (SCRIPT, AT_ONCE), NO_STOP);
    let alone = left.without_log(rt.alloc());
    assert!(&rt; is_whole && goes_on(&rt, &alone, (SCRIPT, AT_ONCE), end));
    drop((image, alone));
}
