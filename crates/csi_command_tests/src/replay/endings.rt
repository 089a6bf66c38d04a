//! How a run of the program ends.
use csi_frames::FaultKind;
use csi_json::ScheduleFault;
use csi_streams::Ending;
use std::alloc::{AllocError, Global};
use std::io::ErrorKind;
use std::process::Abort;

// Each ending with its line, and the exit status.
const ENDINGS: &[(Ending, &str, u8)] = &[
    (Ending::Done, "", 0),
    (
        Ending::FrameFault(FaultKind::LengthDiffers, 62),
        "csi-replay: frame fault 13 at 62",
        1,
    ),
    (
        Ending::ScheduleFault(ScheduleFault::NotJson),
        "csi-replay: schedule fault 1 at 0",
        1,
    ),
    (
        Ending::ScheduleFault(ScheduleFault::BadSchedule { place: 2 }),
        "csi-replay: schedule fault 2 at 2",
        1,
    ),
    (
        Ending::ScheduleFault(ScheduleFault::TooMany),
        "csi-replay: schedule fault 3 at 0",
        1,
    ),
    (Ending::NotUtf8, "csi-replay: not UTF-8", 1),
    (Ending::ConfigRefused, "csi-replay: config refused", 1),
    (Ending::RecordFault(0), "csi-replay: record fault at 0", 1),
    (
        Ending::RecordFault(4096),
        "csi-replay: record fault at 4096",
        1,
    ),
    (
        Ending::StoreFault(0, 1),
        "csi-replay: record fault at 0, store 1",
        1,
    ),
    (
        Ending::StoresDisagree(65),
        "csi-replay: stores disagree, store 65",
        1,
    ),
    (Ending::StoreNotNew, "csi-replay: store not new", 1),
    (Ending::IdTaken, "csi-replay: id taken", 1),
    (Ending::LineFault(1), "csi-replay: line fault at 1", 1),
    (
        Ending::LineFault(18_446_744_073_709_551_615),
        "csi-replay: line fault at 18446744073709551615",
        1,
    ),
    (
        Ending::EarlierSession,
        "csi-replay: store of an earlier session",
        1,
    ),
    (Ending::NumbersSpent, "csi-replay: numbers spent", 1),
    (Ending::NodeInUse, "csi-replay: node in use", 1),
    (Ending::OlderStore, "csi-replay: older store", 1),
    (Ending::Usage, "csi-replay: usage", 2),
    (Ending::Device, "csi-replay: device", 3),
    (Ending::StoreNotOpened, "csi-replay: store not opened", 3),
    (Ending::Endless, "csi-replay: endless", 3),
    (Ending::Memory, "csi-replay: memory", 3),
];

// Whether this is the ending's line, where there is memory for it.
fn has_line(alloc: Global, ending: Ending, line: &str) -> bool {
    match format!(in alloc; "{ending}") {
        Ok(text) => text.as_str() == line,
        Err(_) => false,
    }
}

#[test]
fn an_ending_has_a_line_and_a_status(rt: HostRuntime) {
    for (ending, line, status) in ENDINGS {
        let has = has_line(rt.alloc(), *ending, line) || has_line(rt.alloc(), *ending, line);
        assert!(&rt; has, "{line}");
        assert_eq!(&rt; ending.status(), *status);
    }
}

const FAILURES: &[(ErrorKind, Ending, Ending)] = &[
    (ErrorKind::NotFound, Ending::Device, Ending::Usage),
    (ErrorKind::IsADirectory, Ending::Device, Ending::Usage),
    (ErrorKind::BrokenPipe, Ending::Device, Ending::Usage),
    (ErrorKind::Other, Ending::Device, Ending::Usage),
    (ErrorKind::OutOfMemory, Ending::Memory, Ending::Memory),
];

#[test]
fn a_failing_call_of_the_system_has_an_ending(rt: HostRuntime) {
    for (kind, device, words) in FAILURES {
        assert_eq!(&rt; Ending::of_device(*kind), *device);
        assert_eq!(&rt; Ending::of_words(*kind), *words);
    }
    assert_eq!(&rt; Ending::from(AllocError), Ending::Memory);
}
