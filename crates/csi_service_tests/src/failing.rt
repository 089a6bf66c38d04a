//! A controller that is opened and served over a store, a reader and a writer that fail at one call, at each in turn, or give and take few bytes: how
//! that ends, after how many frames, and what is counted, written and kept.
use crate::contents::{CONTROLLER_HEAD, Content, NOTHING, has};
use crate::script::{CUTS, Cut, MADE, ONE_MADE, SCRIPT, replied, whole_frames};
use crate::serving::{End, PluginKind, run, stream};
use crate::turns::Turn;
use csi_frames::FaultKind;
use csi_service::{Counted, Keep, KeepFault, MemoryKeep, ServeFaultKind};
use csi_stores::{FailingKeep, FailingReader, FailingWriter, Left};
use std::process::Abort;

// The load and the commit that fail, and what that commit leaves; how many bytes a read gives at most, and the one that fails; the
// same of a write; and the flush that fails.
#[derive(Clone, Copy)]
struct Devices {
    load: Option<u64>,
    commit: Option<u64>,
    left: Left,
    read: (usize, Option<u64>),
    write: (usize, Option<u64>),
    flush: Option<u64>,
}

// None fails.
const SOUND: Devices = Devices {
    load: None,
    commit: None,
    left: Left::Old,
    read: (4096, None),
    write: (4096, None),
    flush: None,
};

const UNOPENED: End = End::Unopened(KeepFault::Device);

const COMMIT: ServeFaultKind = ServeFaultKind::Keep(KeepFault::Device);

const INPUT: ServeFaultKind = ServeFaultKind::Input;

const OUTPUT: ServeFaultKind = ServeFaultKind::Output;

// How it ends, how many bytes of the replies are written, which of the turn's contents is kept, and how often the reader was asked.
type Outcome = (End, usize, usize, u64);

type Store = FailingKeep<MemoryKeep>;

type Input<'a> = Counted<FailingReader<&'a [u8]>>;

type Output = Counted<FailingWriter<Vec<u8>>>;

// How many failures of the store, the reader and the writer are to be counted.
fn counts(end: End) -> (u64, u64, u64) {
    match end {
        End::Unopened(_) => (1, 0, 0),
        End::Served(_) => (0, 0, 0),
        End::Ended(_, kind) => match kind {
            ServeFaultKind::Keep(_) => (1, 0, 0),
            ServeFaultKind::Input => (0, 1, 0),
            ServeFaultKind::Output => (0, 0, 1),
            _ => (0, 0, 0),
        },
    }
}

// The store, the reader and the writer of which these calls fail.
fn store(rt: &impl AllocGlobal, devices: Devices) -> Store {
    let inner = MemoryKeep::new(rt.alloc(), 1000);
    FailingKeep::new(inner, devices.load, devices.commit, devices.left)
}

fn input(devices: Devices, frames: &[u8]) -> Input<'_> {
    Counted::new(FailingReader::new(frames, devices.read.0, devices.read.1))
}

fn output(rt: &impl AllocGlobal, devices: Devices) -> Output {
    let (most, write) = devices.write;
    Counted::new(FailingWriter::new(Vec::new(rt.alloc()), most, write, devices.flush))
}

// The turn is served over these devices, and comes to that.
fn comes_to(
    rt: &(impl Abort + AllocGlobal),
    turn: &Turn,
    devices: Devices,
    (end, size, kept, reads): Outcome,
) {
    let (frames, replies) = stream(rt, turn, (0, turn.steps.len()));
    let mut keep = store(rt, devices);
    let mut reader = input(devices, &frames);
    let mut writer = output(rt, devices);
    let ended = run(rt, turn.plugin, &mut keep, &mut reader, &mut writer);
    let faults = (keep.faults(), reader.faults(), writer.faults());
    assert!(rt;
        ended == end && faults == counts(end),
        "{size} bytes, {reads} reads"
    );
    let content = *turn.contents.get(kept).expect(rt, "a content");
    let is_kept = has(&mut keep, content);
    drop(keep);
    let is_read = reader.into_inner().calls() == reads;
    let written = writer.into_inner().into_inner();
    let wanted = replies.get(..size).expect(rt, "replies");
    let is_written = written.as_slice() == wanted;
    drop(written);
    assert!(rt;
        is_kept && is_read && is_written,
        "{size} bytes, {reads} reads"
    );
}

const WHOLE: Outcome = (End::Served(6), 200, 7, 2);

// What fails as the plugin is opened; a writer that takes nothing; and failures that don't come.
const FAILURES: &[(Devices, Outcome)] = &[
    (SOUND, WHOLE),
    (
        Devices {
            load: Some(0),
            ..SOUND
        },
        (UNOPENED, 0, 0, 0),
    ),
    (
        Devices {
            commit: Some(0),
            ..SOUND
        },
        (UNOPENED, 0, 0, 0),
    ),
    (
        Devices {
            commit: Some(0),
            left: Left::New,
            ..SOUND
        },
        (UNOPENED, 0, 1, 0),
    ),
    (
        Devices {
            write: (0, None),
            ..SOUND
        },
        (End::Ended(6, OUTPUT), 0, 7, 1),
    ),
    (
        Devices {
            commit: Some(2),
            flush: Some(1),
            ..SOUND
        },
        WHOLE,
    ),
];

#[test]
fn a_device_that_fails_ends_a_plugin(rt: HostRuntime) {
    for (devices, outcome) in FAILURES {
        comes_to(&rt, SCRIPT, *devices, *outcome);
    }
}

// The frames whose commit fails aren't replied, none of them; what they put in is kept, all of it, or nothing is.
#[test]
fn each_commit_that_fails_ends_a_plugin(rt: HostRuntime) {
    for (most, together, reads) in CUTS {
        for (commits, read) in reads.iter().copied().enumerate() {
            let frames = commits.saturating_mul(*together);
            let old = frames.saturating_add(1);
            for (left, kept) in [(Left::Old, old), (Left::New, old.saturating_add(*together))] {
                let devices = Devices {
                    commit: Some(commits.saturating_add(1) as u64),
                    left,
                    read: (*most, None),
                    ..SOUND
                };
                let end = End::Ended(frames, COMMIT);
                comes_to(&rt, SCRIPT, devices, (end, replied(frames), kept, read));
            }
        }
    }
}

// The frames whose replies aren't flushed are committed, and counted.
#[test]
fn each_flush_that_fails_ends_a_plugin(rt: HostRuntime) {
    for (most, together, reads) in CUTS {
        for (flushes, read) in reads.iter().copied().enumerate() {
            let devices = Devices {
                flush: Some(flushes as u64),
                read: (*most, None),
                ..SOUND
            };
            let frames = flushes.saturating_add(1).saturating_mul(*together);
            let kept = frames.saturating_add(1);
            let end = End::Ended(frames, OUTPUT);
            comes_to(&rt, SCRIPT, devices, (end, replied(frames), kept, read));
        }
    }
}

// Each read ends a plugin where it fails, that which finds the end too, where each gives so many bytes; none comes behind.
fn each_read(rt: &(impl Abort + AllocGlobal), most: usize) {
    let mut given = 0usize;
    for passing in 0..229u64 {
        let devices = Devices {
            read: (most, Some(passing)),
            ..SOUND
        };
        let reads = passing.saturating_add(1);
        let frames = whole_frames(given);
        let kept = frames.saturating_add(1);
        let end = End::Ended(frames, INPUT);
        comes_to(rt, SCRIPT, devices, (end, replied(frames), kept, reads));
        if given == 227 {
            let none_fails = Devices {
                read: (most, None),
                ..SOUND
            };
            return comes_to(rt, SCRIPT, none_fails, (End::Served(6), 200, 7, reads));
        }
        given = given.saturating_add(most).min(227);
    }
    assert!(rt; false);
}

#[test]
fn each_read_that_fails_ends_a_plugin(rt: HostRuntime) {
    for most in [1, 31, 4096] {
        each_read(&rt, most);
    }
}

// Each write ends a plugin where it fails, where frames are read so, and each takes so many bytes; none comes behind the last reply.
fn each_write(rt: &(impl Abort + AllocGlobal), (most, together, reads): Cut, taken: usize) {
    let mut group = 0usize;
    let mut written = 0usize;
    let mut read = 0u64;
    for passing in 0..201 {
        let devices = Devices {
            read: (most, None),
            write: (taken, Some(passing)),
            ..SOUND
        };
        let Some(next) = reads.get(group) else {
            return comes_to(
                rt,
                SCRIPT,
                devices,
                (End::Served(6), 200, 7, read.saturating_add(1)),
            );
        };
        read = *next;
        let frames = group.saturating_add(1).saturating_mul(together);
        let kept = frames.saturating_add(1);
        let end = End::Ended(frames, OUTPUT);
        comes_to(rt, SCRIPT, devices, (end, written, kept, read));
        written = written.saturating_add(taken).min(replied(frames));
        if written == replied(frames) {
            group = group.saturating_add(1);
        }
    }
    assert!(rt; false);
}

#[test]
fn each_write_that_fails_ends_a_plugin(rt: HostRuntime) {
    for cut in CUTS {
        for taken in [1, 20, 4096] {
            each_write(&rt, *cut, taken);
        }
    }
}

// Deletes volume 1, which the controller doesn't know; and what that is replied.
const DELETE: &[u8] = &[
    0, 0, 0, 27, 1, 2, 0, 0, 0, 0, 0, 0, 0, 1, 0, 0, 0, 0, 0, 0, 0, 2, 0, 0, 0, 0, 0, 0, 0, 0, 1,
];

const DELETED: &[u8] = &[
    0, 0, 0, 29, 1, 130, 0, 0, 0, 0, 0, 0, 0, 1, 0, 0, 0, 0, 0, 0, 0, 2, 0, 0, 0, 0, 0, 0, 0, 0, 0,
    0, 0,
];

const BEGUN: Content = (
    &[3, 0, 0, 0, 0, 0, 0, 0, 0, 1, 0, 0, 0, 0, 0, 0, 0, 1],
    &[],
    &[],
);

const NEW: Content = (CONTROLLER_HEAD, &[], &[]);

const DELETES: &Turn = &Turn {
    plugin: PluginKind::Controller,
    steps: &[(DELETE, DELETED), (DELETE, DELETED), (DELETE, DELETED)],
    contents: &[NOTHING, NEW, BEGUN, BEGUN, BEGUN],
};

// A frame at each of three reads, and a writer that takes no byte.
#[test]
fn nothing_is_read_once_a_reply_is_not_written(rt: HostRuntime) {
    let devices = Devices {
        read: (31, None),
        write: (0, None),
        ..SOUND
    };
    comes_to(&rt, DELETES, devices, (End::Ended(1, OUTPUT), 0, 2, 1));
}

// 140 deletions, of which 132 are in the first piece of 4,096 bytes, and all but the first repeat it.
const MANY: &Turn = &Turn {
    plugin: PluginKind::Controller,
    steps: &[(DELETE, DELETED); 140],
    contents: &[NOTHING, NEW, BEGUN],
};

// The second piece changes nothing, so the commit that would fail doesn't come.
#[test]
fn the_frames_of_4096_bytes_are_replied_at_once(rt: HostRuntime) {
    let sound = Devices {
        commit: Some(2),
        read: (100_000, None),
        ..SOUND
    };
    comes_to(&rt, MANY, sound, (End::Served(140), 4620, 2, 3));
    let failing = Devices {
        flush: Some(0),
        ..sound
    };
    comes_to(&rt, MANY, failing, (End::Ended(132, OUTPUT), 4356, 2, 1));
}

const CREATE: &[u8] = &[
    0, 0, 0, 40, 1, 1, 0, 0, 0, 0, 0, 0, 0, 1, 0, 0, 0, 0, 0, 0, 0, 1, 0, 1, 118, 0, 0, 0, 0, 0, 0,
    0, 10, 0, 0, 0, 0, 0, 0, 0, 0, 1, 0, 1,
];

const CREATED: &[u8] = &[
    0, 0, 0, 29, 1, 129, 0, 0, 0, 0, 0, 0, 0, 1, 0, 0, 0, 0, 0, 0, 0, 1, 0, 0, 0, 0, 0, 0, 0, 0, 0,
    1, 0,
];

const CONTENTS: &[Content] = &[NOTHING, NEW, (ONE_MADE, MADE, &[])];

// A creation, and then a deletion whose length is one too many, with more behind it; or the first three bytes of a frame.
const FAULTY: &Turn = &Turn {
    plugin: PluginKind::Controller,
    steps: &[
        (CREATE, CREATED),
        (
            &[
                0, 0, 0, 28, 1, 2, 0, 0, 0, 0, 0, 0, 0, 1, 0, 0, 0, 0, 0, 0, 0, 2, 0, 0, 0, 0, 0,
                0, 0, 0, 1, 0,
            ],
            &[],
        ),
        (DELETE, &[]),
    ],
    contents: CONTENTS,
};

const CUT: &Turn = &Turn {
    plugin: PluginKind::Controller,
    steps: &[(CREATE, CREATED), (&[0, 0, 0], &[])],
    contents: CONTENTS,
};

const DIFFERS: ServeFaultKind = ServeFaultKind::Frame(FaultKind::LengthDiffers, 75);

const SHORT: ServeFaultKind = ServeFaultKind::Frame(FaultKind::Short, 47);

// How many bytes are read at most, and how many reads that takes for the faulty frame, and for the cut one.
#[test]
fn serving_stops_at_a_frame_fault_and_reads_no_more(rt: HostRuntime) {
    for (most, faulty, cut) in [(4096usize, 1u64, 2u64), (1, 76, 48)] {
        let devices = Devices {
            read: (most, None),
            ..SOUND
        };
        comes_to(
            &rt,
            FAULTY,
            devices,
            (End::Ended(1, DIFFERS), 33, 2, faulty),
        );
        comes_to(&rt, CUT, devices, (End::Ended(1, SHORT), 33, 2, cut));
    }
}
