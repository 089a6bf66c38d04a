//! Commands on readers that give little at once or fail, and on writers that take little or nothing.
use super::devices::{AT_ONCE, BYTE_BY_BYTE, Ways, outcome_of};
use super::running::{asked_in, bytes_of};
use super::schedules::with_objects;
use super::{
    CONTROLLER_PUBLISH, CREATE, CREATED, Case, DAMAGED, DELETE, DELETED, NO_EVENT, NO_EVENT_REPORT,
    NO_NODE,
};
use csi_frames::FaultKind;
use csi_json::ScheduleFault;
use csi_streams::{Ending, FileCommand, ScheduleCommand};
use std::process::Abort;

// Whether the case ends as it is to end, after so many bytes of what it is to give, where reader and writer do so.
fn gives_front(rt: &(impl Abort + AllocGlobal), case: Case, ways: Ways, most: usize) -> bool {
    let asked = asked_in(case);
    let input = bytes_of(rt, asked.input);
    let output = bytes_of(rt, asked.output);
    let came = outcome_of(rt.alloc(), asked.command, (&input, &output), ways);
    came.ending == asked.ending && came.is_wanted && came.taken == output.len().min(most)
}

const CASES: &[Case] = &[
    Case::Answers(&[], &[], Ending::Done),
    Case::Answers(&[CREATE], &[CREATED], Ending::Done),
    Case::Answers(
        &[CREATE, CONTROLLER_PUBLISH],
        &[CREATED, NO_NODE],
        Ending::Done,
    ),
    // a reply gets nothing
    Case::Answers(&[DELETED], &[], Ending::Done),
    // a fault behind a frame, and frames behind the fault
    Case::Answers(
        &[DELETE, DAMAGED, DELETE],
        &[DELETED],
        Ending::FrameFault(FaultKind::LengthDiffers, 62),
    ),
    Case::Answers(
        &["00000501"],
        &[],
        Ending::FrameFault(FaultKind::TooLong, 0),
    ),
    // a frame that ends too early
    Case::Answers(
        &[DELETE, "0000001b 01 02 00000000"],
        &[DELETED],
        Ending::FrameFault(FaultKind::Short, 41),
    ),
    Case::Shows(
        &[DELETE, DELETED],
        "0 1.2 controller DeleteVolume 1\n31 1.2 controller DeleteVolume reply 0 0 \"\"\n",
        Ending::Done,
    ),
    Case::Shows(
        &[DELETE, DAMAGED],
        "0 1.2 controller DeleteVolume 1\n",
        Ending::FrameFault(FaultKind::LengthDiffers, 62),
    ),
    Case::Runs(NO_EVENT, NO_EVENT_REPORT, Ending::Done),
];

#[test]
fn what_comes_of_a_stream_is_the_same_in_any_pieces(rt: HostRuntime) {
    for (index, case) in CASES.iter().enumerate() {
        let at_once = gives_front(&rt, *case, AT_ONCE, 512);
        assert!(&rt; at_once, "case {index}, at once");
        let byte_by_byte = gives_front(&rt, *case, BYTE_BY_BYTE, 512);
        assert!(&rt; byte_by_byte, "case {index}, byte by byte");
    }
}

// Each with how many bytes are written: a writer that takes no byte; one that has room for 40 bytes, the first reply and 7 bytes of the second; and a
// reader that fails after two reads of 44 bytes, in the second of three frames.
const FAILURES: &[(Ways, Case, usize)] = &[
    (
        Ways { room: 0, ..AT_ONCE },
        Case::Answers(&[CREATE], &[CREATED], Ending::Device),
        0,
    ),
    (
        Ways {
            room: 40,
            ..AT_ONCE
        },
        Case::Answers(
            &[CREATE, CONTROLLER_PUBLISH],
            &[CREATED, NO_NODE],
            Ending::Device,
        ),
        40,
    ),
    (
        Ways {
            gives: 44,
            reads: 2,
            ..AT_ONCE
        },
        Case::Answers(
            &[CREATE, CONTROLLER_PUBLISH, CONTROLLER_PUBLISH, DELETE],
            &[CREATED, NO_NODE],
            Ending::Device,
        ),
        512,
    ),
    (
        Ways {
            reads: 0,
            ..AT_ONCE
        },
        Case::Shows(&[DELETE], "", Ending::Device),
        0,
    ),
    (
        Ways {
            gives: 20,
            reads: 2,
            ..AT_ONCE
        },
        Case::Runs(NO_EVENT, "", Ending::Device),
        0,
    ),
    (
        Ways {
            gives: 1,
            takes: 1,
            room: 10,
            ..AT_ONCE
        },
        Case::Runs(NO_EVENT, NO_EVENT_REPORT, Ending::Device),
        10,
    ),
];

#[test]
fn a_device_that_fails_ends_a_stream_after_a_front(rt: HostRuntime) {
    for (index, (ways, case, written)) in FAILURES.iter().enumerate() {
        assert!(&rt; gives_front(&rt, *case, *ways, *written), "case {index}");
    }
}

// Each command, how it ends on 90,000 bytes that begin no frame and are no JSON, and after how many reads: of a schedule all is read, and then its end.
const LONG: &[(FileCommand, Ending, usize)] = &[
    (
        FileCommand::Answer,
        Ending::FrameFault(FaultKind::TooLong, 0),
        1,
    ),
    (
        FileCommand::Show,
        Ending::FrameFault(FaultKind::TooLong, 0),
        1,
    ),
    (
        FileCommand::Schedule(ScheduleCommand::Run),
        Ending::ScheduleFault(ScheduleFault::NotJson),
        3,
    ),
];

#[test]
fn as_much_is_read_at_once_as_a_pipe_holds(rt: HostRuntime) {
    let schedule = with_objects(&rt, 30_000);
    let input = schedule.as_bytes().get(1..).unwrap_or(&[]);
    for (index, (command, ending, reads)) in LONG.iter().enumerate() {
        let came = outcome_of(rt.alloc(), *command, (input, &[]), AT_ONCE);
        assert!(&rt; came.ending == *ending && came.is_wanted, "case {index}");
        assert_eq!(&rt;
            (came.reads, came.largest),
            (*reads, 65_536),
            "case {index}"
        );
    }
}
