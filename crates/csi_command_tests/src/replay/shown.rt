//! Files of frames, shown in lines.
use super::running::run_all;
use super::{CONTROLLER_PUBLISH, CREATE, CREATE_SIX, Case, DAMAGED, DELETE, DELETED, NODE_PUBLISH};
use csi_frames::FaultKind;
use csi_streams::Ending;

const DONE: Ending = Ending::Done;

const SHOWN: &[Case] = &[
    Case::Shows(
        &[DELETE, DELETED],
        "0 1.2 controller DeleteVolume 1\n31 1.2 controller DeleteVolume reply 0 0 \"\"\n",
        DONE,
    ),
    Case::Shows(
        &[CREATE],
        "0 1.1 controller CreateVolume \"v\" 10 0 block/1\n",
        DONE,
    ),
    Case::Shows(
        &[
            CREATE_SIX,
            "00000025 02 05 0000000000000001 0000000000000003 01 026e31 0000000000000001 01 0465787434 07",
        ],
        "0 1.1 controller CreateVolume \"v\" 10 0 block/6\n44 1.3 node:\"n1\" NodeStageVolume 1 mount:\"ext4\"/7\n",
        DONE,
    ),
    Case::Shows(&[], "", DONE),
    Case::Shows(
        &[CONTROLLER_PUBLISH, NODE_PUBLISH],
        "0 1.2 controller ControllerPublishVolume 1 \"n1\" block/1 rw\n37 1.4 node:\"n1\" NodePublishVolume 1 \"/a\" block/1 ro\n",
        DONE,
    ),
    // The fault is that of number 13, as `endings` shows.
    Case::Shows(
        &[DAMAGED],
        "",
        Ending::FrameFault(FaultKind::LengthDiffers, 31),
    ),
    Case::Shows(
        &[DELETE, DAMAGED],
        "0 1.2 controller DeleteVolume 1\n",
        Ending::FrameFault(FaultKind::LengthDiffers, 62),
    ),
    // A NodePublishVolume for the controller, and one whose flag is 2.
    Case::Shows(
        &[
            "00000024 01 07 0000000000000001 0000000000000004 00 026e31 0000000000000001 022f61 0001 01",
        ],
        "",
        Ending::FrameFault(FaultKind::BadParty, 22),
    ),
    Case::Shows(
        &[
            "00000024 01 07 0000000000000001 0000000000000004 01 026e31 0000000000000001 022f61 0001 02",
        ],
        "",
        Ending::FrameFault(FaultKind::BadFlag, 39),
    ),
    Case::Shows(
        &["0000001f 01 04 0000000000000001 0000000000000002 00 0000000000000001 03c3a922"],
        "0 1.2 controller ControllerUnpublishVolume 1 \"\\xc3\\xa9\\x22\"\n",
        DONE,
    ),
    Case::Shows(
        &[
            "00000025 01 05 0000000000000001 0000000000000003 01 026e31 0000000000000001 01 0465787434 05",
        ],
        "0 1.3 node:\"n1\" NodeStageVolume 1 mount:\"ext4\"/5\n",
        DONE,
    ),
    Case::Shows(
        &["0000001e 01 06 0000000000000001 0000000000000008 01 026e31 0000000000000001"],
        "0 1.8 node:\"n1\" NodeUnstageVolume 1\n",
        DONE,
    ),
    Case::Shows(
        &["00000021 01 08 0000000000000001 0000000000000007 01 026e31 0000000000000001 022f61"],
        "0 1.7 node:\"n1\" NodeUnpublishVolume 1 \"/a\"\n",
        DONE,
    ),
    Case::Shows(
        &[
            "00000026 01 87 0000000000000001 0000000000000007 01 026e31 06 0000000000000000 06 746172676574",
        ],
        "0 1.7 node:\"n1\" NodePublishVolume reply 6 0 \"target\"\n",
        DONE,
    ),
];

#[test]
fn frames_are_shown(rt: HostRuntime) {
    run_all(&rt, SHOWN);
}
