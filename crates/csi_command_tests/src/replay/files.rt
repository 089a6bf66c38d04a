//! Files of frames, answered by a new controller.
use super::running::run_all;
use super::{
    CONTROLLER_PUBLISH, CREATE, CREATE_SIX, CREATED, Case, DAMAGED, DELETE, DELETED, NO_NODE,
    NODE_PUBLISH,
};
use csi_frames::FaultKind;
use csi_streams::Ending;

const DONE: Ending = Ending::Done;

const MODE_6: &str =
    "00000028 01 01 0000000000000001 0000000000000001 00 0176 000000000000000a 0000000000000000 01 00 06";

const STALE: &str =
    "00000022 01 81 0000000000000001 0000000000000001 00 0a 0000000000000000 05 7374616c65";

const FILES: &[Case] = &[
    Case::Answers(&[DELETE], &[DELETED], DONE),
    Case::Answers(&[CREATE], &[CREATED], DONE),
    Case::Answers(&[CREATE_SIX], &[CREATED], DONE),
    Case::Answers(&[], &[], DONE),
    Case::Answers(
        &[DAMAGED],
        &[],
        Ending::FrameFault(FaultKind::LengthDiffers, 31),
    ),
    Case::Answers(
        &[DELETE, DAMAGED],
        &[DELETED],
        Ending::FrameFault(FaultKind::LengthDiffers, 62),
    ),
    Case::Answers(
        &["00000501"],
        &[],
        Ending::FrameFault(FaultKind::TooLong, 0),
    ),
    Case::Answers(
        &["0000001b 01 02 00000000"],
        &[],
        Ending::FrameFault(FaultKind::Short, 10),
    ),
    Case::Answers(&[MODE_6], &[], Ending::FrameFault(FaultKind::BadMode, 43)),
    // in version 2: no mode of 6 or 7, mode 8, another kind, and no capability; and version 3
    Case::Answers(
        &[
            "00000028 02 01 0000000000000001 0000000000000001 00 0176 000000000000000a 0000000000000000 01 00 01",
        ],
        &[],
        Ending::FrameFault(FaultKind::BadMode, 43),
    ),
    Case::Answers(
        &[
            CREATE_SIX,
            "00000028 02 01 0000000000000001 0000000000000001 00 0176 000000000000000a 0000000000000000 01 00 08",
        ],
        &[CREATED],
        Ending::FrameFault(FaultKind::BadMode, 87),
    ),
    Case::Answers(
        &["0000001b 02 02 0000000000000001 0000000000000002 00 0000000000000001"],
        &[],
        Ending::FrameFault(FaultKind::BadKind, 5),
    ),
    Case::Answers(
        &[
            "00000026 02 01 0000000000000001 0000000000000001 00 0176 000000000000000a 0000000000000000 00",
        ],
        &[],
        Ending::FrameFault(FaultKind::BadCount, 41),
    ),
    Case::Answers(
        &["0000001b 03 02 0000000000000001 0000000000000002 00 0000000000000001"],
        &[],
        Ending::FrameFault(FaultKind::BadVersion, 4),
    ),
    // `v` is made, asked for as it is and with more, deleted, and asked for again.
    Case::Answers(
        &[
            CREATE,
            "00000028 01 01 0000000000000001 0000000000000002 00 0176 0000000000000005 0000000000000014 01 00 01",
            "00000028 01 01 0000000000000001 0000000000000003 00 0176 000000000000000b 0000000000000000 01 00 01",
            "0000001b 01 02 0000000000000001 0000000000000004 00 0000000000000001",
            "00000028 01 01 0000000000000001 0000000000000005 00 0176 000000000000000a 0000000000000000 01 00 01",
        ],
        &[
            CREATED,
            "0000001d 01 81 0000000000000001 0000000000000002 00 00 0000000000000001 00",
            "00000021 01 81 0000000000000001 0000000000000003 00 06 0000000000000000 04 6e616d65",
            "0000001d 01 82 0000000000000001 0000000000000004 00 00 0000000000000000 00",
            "00000021 01 81 0000000000000001 0000000000000005 00 06 0000000000000000 04 6e616d65",
        ],
        DONE,
    ),
    // `v` with more than it has, and without a capability.
    Case::Answers(
        &[
            CREATE,
            "00000028 01 01 0000000000000001 0000000000000003 00 0176 000000000000000b 0000000000000000 01 00 01",
        ],
        &[
            CREATED,
            "00000021 01 81 0000000000000001 0000000000000003 00 06 0000000000000000 04 6e616d65",
        ],
        DONE,
    ),
    Case::Answers(
        &[
            "00000026 01 01 0000000000000001 0000000000000001 00 0176 000000000000000a 0000000000000000 00",
        ],
        &[
            "00000029 01 81 0000000000000001 0000000000000001 00 03 0000000000000000 0c 6361706162696c6974696573",
        ],
        DONE,
    ),
    Case::Answers(&[DELETED], &[], DONE),
    Case::Answers(&[NODE_PUBLISH], &[], DONE),
    Case::Answers(
        &[CREATE, NODE_PUBLISH, CREATED, DELETE],
        &[CREATED, DELETED],
        DONE,
    ),
    // The refusal is kept: the same call gets it again, and an earlier number is stale.
    Case::Answers(&[CREATE, CONTROLLER_PUBLISH], &[CREATED, NO_NODE], DONE),
    Case::Answers(
        &[CREATE, CONTROLLER_PUBLISH, CONTROLLER_PUBLISH, CREATE],
        &[CREATED, NO_NODE, NO_NODE, STALE],
        DONE,
    ),
    Case::Answers(
        &[CONTROLLER_PUBLISH],
        &[
            "00000023 01 83 0000000000000001 0000000000000002 00 05 0000000000000000 06 766f6c756d65",
        ],
        DONE,
    ),
    Case::Answers(
        &["0000001e 01 04 0000000000000001 0000000000000002 00 0000000000000001 026e31"],
        &["0000001d 01 84 0000000000000001 0000000000000002 00 00 0000000000000000 00"],
        DONE,
    ),
    // The kept reply is that to the create, also where the number comes with a delete.
    Case::Answers(
        &[
            CREATE,
            CREATE,
            "0000001b 01 02 0000000000000001 0000000000000001 00 0000000000000001",
        ],
        &[CREATED, CREATED, CREATED],
        DONE,
    ),
    // The delete's session is later, though its call is earlier than that of the create which comes after it.
    Case::Answers(
        &[
            CREATE,
            "0000001b 01 02 0000000000000002 0000000000000001 00 0000000000000001",
            "00000028 01 01 0000000000000001 0000000000000009 00 0176 000000000000000a 0000000000000000 01 00 01",
        ],
        &[
            CREATED,
            "0000001d 01 82 0000000000000002 0000000000000001 00 00 0000000000000000 00",
            "00000022 01 81 0000000000000001 0000000000000009 00 0a 0000000000000000 05 7374616c65",
        ],
        DONE,
    ),
];

#[test]
fn files_of_frames_are_answered(rt: HostRuntime) {
    run_all(&rt, FILES);
}
