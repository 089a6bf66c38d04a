//! Tests of what `csi-replay` does with the bytes of a file and reads of a schedule. What is to come of them is written out in
//! tables, by the formats. Each test bears the refusal of any allocation, after which it asks again.
mod answers;
mod configs;
mod devices;
mod drawing;
mod endings;
mod events;
mod files;
mod flushes;
mod pictures;
mod pieces;
mod requests;
mod running;
mod runs;
mod schedules;
mod shown;
mod streams;

use csi_streams::Ending;

// What a command is to give for the frames of a file, which are written in hexadecimal: for `answer` the replies, for `show`
// the lines; and how it ends. For `run` the file is a schedule and its report is given, or bytes that get
// nothing; for `frames` it is a schedule, and the frames that its run sends are given; for `draw` its picture is.
#[derive(Clone, Copy)]
enum Case {
    Answers(&'static [&'static str], &'static [&'static str], Ending),
    Shows(&'static [&'static str], &'static str, Ending),
    Runs(&'static str, &'static str, Ending),
    RunsBytes(&'static [&'static str], Ending),
    Sends(&'static str, &'static [&'static str], Ending),
    Draws(&'static str, &'static str, Ending),
}

// DeleteVolume of id 1 under (1, 2), and its reply.
const DELETE: &str = "0000001b 01 02 0000000000000001 0000000000000002 00 0000000000000001";

const DELETED: &str = "0000001d 01 82 0000000000000001 0000000000000002 00 00 0000000000000000 00";

// The same with a byte too many.
const DAMAGED: &str = "0000001c 01 02 0000000000000001 0000000000000002 00 0000000000000001 00";

// CreateVolume of `v` under (1, 1), required 10, for a block device of mode 1, and its reply.
const CREATE: &str =
    "00000028 01 01 0000000000000001 0000000000000001 00 0176 000000000000000a 0000000000000000 01 00 01";

// The same for a block device of mode 6, in version 2. Its reply is the same.
const CREATE_SIX: &str =
    "00000028 02 01 0000000000000001 0000000000000001 00 0176 000000000000000a 0000000000000000 01 00 06";

const CREATED: &str = "0000001d 01 81 0000000000000001 0000000000000001 00 00 0000000000000001 00";

// ControllerPublishVolume of id 1 at `n1` under (1, 2), for a block device of mode 1.
const CONTROLLER_PUBLISH: &str =
    "00000021 01 03 0000000000000001 0000000000000002 00 0000000000000001 026e31 0001 00";

// Its refusal where there are no nodes: NotFound, `node`.
const NO_NODE: &str =
    "00000021 01 83 0000000000000001 0000000000000002 00 05 0000000000000000 04 6e6f6465";

const NODE_PUBLISH: &str =
    "00000024 01 07 0000000000000001 0000000000000004 01 026e31 0000000000000001 022f61 0001 01";

// A schedule without events, and its report, of 114 bytes.
const NO_EVENT: &str = "{\"config\":{\"greatest\":1000,\"nodes\":[]},\"events\":[]}";

const NO_EVENT_REPORT: &str =
    "{\"attached\":[],\"events\":[],\"frames\":0,\"known\":[],\"published\":[],\"safe\":true,\"session\":1,\"staged\":[],\"volumes\":[]}\n";
