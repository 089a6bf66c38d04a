//! Records as bytes, of the plugins in all versions and of an orchestrator: read, written again in the present version, cut short at each of their
//! bytes, longer by one, and with values that no record has. One test bears a refusal at any allocation (`tools/refusals`).
use csi_controller::{Controller, ControllerRecord};
use csi_frames::decode;
use csi_node::NodeRecord;
use csi_orchestrator::OrchestratorRecord;
use csi_service::{KeepFault, Record, read_record, write_record};
use csi_types::{Config, NoMemory};
use std::process::Abort;

// Creates `v` with at least 10 bytes, for one writing node.
const CREATE: &[u8] = &[
    0, 0, 0, 40, 1, 1, 0, 0, 0, 0, 0, 0, 0, 1, 0, 0, 0, 0, 0, 0, 0, 1, 0, 1, 118, 0, 0, 0, 0, 0, 0,
    0, 10, 0, 0, 0, 0, 0, 0, 0, 0, 1, 0, 1,
];

// The record of a controller that carried it out; the same in version 2, and in version 1.
const RECORD: &[u8] = &[
    3, 0, 0, 0, 2, 0, 0, 0, 0, 0, 0, 0, 0, 0, 0, 0, 18, 3, 0, 0, 0, 0, 0, 0, 0, 0, 2, 0, 0, 0, 0,
    0, 0, 0, 1, 0, 0, 0, 0, 0, 0, 0, 1, 0, 0, 0, 43, 3, 1, 1, 118, 0, 0, 0, 0, 0, 0, 0, 10, 1, 0,
    1, 0, 0, 0, 0, 0, 0, 0, 0, 1, 0, 0, 0, 0, 0, 0, 0, 1, 129, 0, 0, 0, 0, 0, 0, 0, 0, 1, 0,
];

const SECOND_RECORD: &[u8] = &[
    2, 0, 0, 0, 2, 0, 0, 0, 0, 0, 0, 0, 0, 0, 0, 0, 10, 2, 0, 0, 0, 0, 0, 0, 0, 0, 2, 0, 0, 0, 0,
    0, 0, 0, 1, 0, 0, 0, 43, 2, 1, 1, 118, 0, 0, 0, 0, 0, 0, 0, 10, 1, 0, 1, 0, 0, 0, 0, 0, 0, 0,
    0, 1, 0, 0, 0, 0, 0, 0, 0, 1, 129, 0, 0, 0, 0, 0, 0, 0, 0, 1, 0,
];

const FIRST_RECORD: &[u8] = &[
    1, 0, 0, 0, 2, 0, 0, 0, 0, 0, 0, 0, 0, 0, 0, 0, 10, 1, 0, 0, 0, 0, 0, 0, 0, 0, 2, 0, 0, 0, 0,
    0, 0, 0, 1, 0, 0, 0, 43, 1, 1, 1, 118, 0, 0, 0, 0, 0, 0, 0, 10, 1, 0, 1, 0, 0, 0, 0, 0, 0, 0,
    0, 1, 0, 0, 0, 0, 0, 0, 0, 1, 129, 0, 0, 0, 0, 0, 0, 0, 0, 1, 0,
];

// The record of a node `n1` that staged volume 1 and published it at `/a`; the same in version 2, and in version 1.
const NODE_RECORD: &[u8] = &[
    3, 0, 0, 0, 2, 0, 0, 0, 0, 0, 0, 0, 0, 0, 0, 0, 13, 3, 1, 2, 110, 49, 0, 0, 0, 0, 0, 0, 0, 1,
    0, 0, 0, 0, 0, 0, 0, 1, 0, 0, 0, 36, 3, 1, 0, 1, 1, 2, 47, 97, 0, 0, 0, 0, 0, 0, 0, 0, 1, 0, 0,
    0, 0, 0, 0, 0, 2, 135, 0, 0, 0, 0, 0, 0, 0, 0, 0, 0,
];

const SECOND_NODE_RECORD: &[u8] = &[
    2, 0, 0, 0, 2, 0, 0, 0, 0, 0, 0, 0, 0, 0, 0, 0, 5, 2, 1, 2, 110, 49, 0, 0, 0, 0, 0, 0, 0, 1, 0,
    0, 0, 36, 2, 1, 0, 1, 1, 2, 47, 97, 0, 0, 0, 0, 0, 0, 0, 0, 1, 0, 0, 0, 0, 0, 0, 0, 2, 135, 0,
    0, 0, 0, 0, 0, 0, 0, 0, 0,
];

const FIRST_NODE_RECORD: &[u8] = &[
    1, 0, 0, 0, 2, 0, 0, 0, 0, 0, 0, 0, 0, 0, 0, 0, 5, 1, 1, 2, 110, 49, 0, 0, 0, 0, 0, 0, 0, 1, 0,
    0, 0, 36, 1, 1, 0, 1, 1, 2, 47, 97, 0, 0, 0, 0, 0, 0, 0, 0, 1, 0, 0, 0, 0, 0, 0, 0, 2, 135, 0,
    0, 0, 0, 0, 0, 0, 0, 0, 0,
];

// The record of an orchestrator of the nodes `n1` and `n2` in session 3, with a volume that it made and is to publish at `/a` of `n1`,
// and the first call of that sent.
const ORCHESTRATOR_RECORD: &[u8] = &[
    3, 0, 0, 0, 2, 0, 0, 0, 0, 0, 0, 0, 0, 0, 0, 0, 17, 3, 2, 0, 0, 0, 0, 0, 0, 0, 3, 2, 2, 110,
    49, 2, 110, 50, 0, 0, 0, 0, 0, 0, 0, 1, 0, 0, 0, 57, 3, 1, 118, 0, 0, 0, 0, 0, 0, 0, 10, 0, 0,
    0, 0, 0, 0, 0, 0, 1, 0, 1, 1, 0, 0, 0, 0, 0, 0, 0, 1, 1, 2, 2, 110, 49, 2, 47, 97, 0, 1, 0, 1,
    1, 2, 110, 49, 0, 1, 0, 2, 0, 1, 2, 47, 97, 0,
];

// Whose record it is.
#[derive(Clone, Copy)]
enum Whose {
    Controller,
    Node,
    Orchestrator,
}

// A byte that is changed, and the part that is refused for it.
type Change = (usize, u8, u64);

// A record, what it is written as, where the key of its row begins, and what is refused of it.
struct Whole {
    whose: Whose,
    bytes: &'static [u8],
    written: &'static [u8],
    row: usize,
    changes: &'static [Change],
}

const WHOLES: &[Whole] = &[
    Whole {
        whose: Whose::Controller,
        bytes: RECORD,
        written: RECORD,
        row: 35,
        changes: &[
            // the version of all and of the head, and the number of parts
            (0, 1, 0),
            (0, 2, 0),
            (0, 4, 0),
            (17, 1, 0),
            (17, 2, 0),
            (17, 4, 0),
            (4, 3, 2),
            // a node's head, a next id that is given already, and a session that is over for the row
            (18, 1, 0),
            (26, 1, 1),
            (34, 0, 1),
            // a row of another version, neither live nor deleted, with capacity 0, in mode 8
            (47, 1, 1),
            (47, 2, 1),
            (48, 3, 1),
            (58, 0, 1),
            (61, 8, 1),
            // a name that is no UTF-8, a node and a detail that aren't there, and a reply of a node's
            (50, 255, 1),
            (62, 1, 1),
            (89, 1, 1),
            (79, 0x85, 1),
        ],
    },
    Whole {
        whose: Whose::Controller,
        bytes: SECOND_RECORD,
        written: RECORD,
        row: 27,
        changes: &[
            (0, 1, 0),
            (0, 3, 0),
            (17, 1, 0),
            (17, 3, 0),
            (39, 1, 1),
            (39, 3, 1),
            (4, 3, 2),
            (26, 1, 1),
            (50, 0, 1),
            (53, 8, 1),
            (71, 0x85, 1),
        ],
    },
    Whole {
        whose: Whose::Controller,
        bytes: FIRST_RECORD,
        written: RECORD,
        row: 27,
        changes: &[
            (0, 2, 0),
            (0, 3, 0),
            (17, 2, 0),
            (39, 2, 1),
            // version 1 has no mode 6
            (53, 6, 1),
            (4, 3, 2),
            (26, 1, 1),
            (50, 0, 1),
            (71, 0x85, 1),
        ],
    },
    Whole {
        whose: Whose::Node,
        bytes: NODE_RECORD,
        written: NODE_RECORD,
        row: 30,
        changes: &[
            // a controller's head, a session that is over for the row, and a key that is there already
            (18, 0, 0),
            (29, 0, 1),
            (37, 0, 1),
            // a row of another version, neither staged nor not, in mode 8, with no target of one, with a flag of 2
            (42, 1, 1),
            (43, 2, 1),
            (45, 8, 1),
            (46, 0, 1),
            (50, 2, 1),
            // a reply of the controller's, with a status above 16, and with an id
            (67, 129, 1),
            (68, 17, 1),
            (76, 1, 1),
            // an id that is no UTF-8, and a target that is none
            (20, 255, 0),
            (49, 255, 1),
        ],
    },
    Whole {
        whose: Whose::Node,
        bytes: SECOND_NODE_RECORD,
        written: NODE_RECORD,
        row: 22,
        changes: &[(17, 3, 0)],
    },
    Whole {
        whose: Whose::Node,
        bytes: FIRST_NODE_RECORD,
        written: NODE_RECORD,
        row: 22,
        changes: &[(17, 3, 0)],
    },
    Whole {
        whose: Whose::Orchestrator,
        bytes: ORCHESTRATOR_RECORD,
        written: ORCHESTRATOR_RECORD,
        row: 34,
        changes: &[(0, 2, 0), (18, 0, 0)],
    },
];

// Reads a record, and writes it. Where one of the two isn't done, memory was refused, or it is no record.
fn rewritten<T: Record>(
    rt: &(impl Abort + AllocGlobal),
    bytes: &[u8],
) -> Result<Vec<u8>, KeepFault> {
    let read = match read_record::<T>(rt.alloc(), bytes) {
        Err(KeepFault::NoMemory) => read_record::<T>(rt.alloc(), bytes),
        first => first,
    };
    let record = match read {
        Ok(record) => record,
        Err(fault) => return Err(fault),
    };
    let written = match write_record(rt.alloc(), &record) {
        Ok(written) => written,
        Err(NoMemory) => write_record(rt.alloc(), &record).expect(rt, "memory"),
    };
    drop(record);
    Ok(written)
}

// The same of such a record.
fn rewritten_of(
    rt: &(impl Abort + AllocGlobal),
    whose: Whose,
    bytes: &[u8],
) -> Result<Vec<u8>, KeepFault> {
    match whose {
        Whose::Controller => rewritten::<ControllerRecord>(rt, bytes),
        Whose::Node => rewritten::<NodeRecord>(rt, bytes),
        Whose::Orchestrator => rewritten::<OrchestratorRecord>(rt, bytes),
    }
}

// Whether it is written as this.
fn is_written(rt: &(impl Abort + AllocGlobal), whose: Whose, bytes: &[u8], wanted: &[u8]) -> bool {
    let written = rewritten_of(rt, whose, bytes).expect(rt, "a record");
    let is_written = written.as_slice() == wanted;
    drop(written);
    is_written
}

#[test]
fn a_record_is_read_and_written(rt: HostRuntime) {
    for whole in WHOLES {
        assert!(&rt; is_written(&rt, whole.whose, whole.bytes, whole.written));
    }
}

// Whether the bytes are no such record: this is the part that is refused.
fn is_refused_at(rt: &(impl Abort + AllocGlobal), whose: Whose, bytes: &[u8], place: u64) -> bool {
    match rewritten_of(rt, whose, bytes) {
        Ok(written) => {
            drop(written);
            false
        }
        Err(fault) => fault == KeepFault::BadRecord(place),
    }
}

// Those of no more than the head end in part 0, and the others in part 1.
#[test]
fn each_beginning_of_a_record_is_refused(rt: HostRuntime) {
    for whole in WHOLES {
        for count in 0..whole.bytes.len() {
            let place = if count < whole.row { 0 } else { 1 };
            let front = whole.bytes.get(..count).expect(&rt, "bytes");
            assert!(&rt;
                is_refused_at(&rt, whole.whose, front, place),
                "{count} bytes"
            );
        }
    }
}

// The version and the count of a record with 2^32 - 1 parts, with none, and with one, and no part behind them.
#[test]
fn a_record_without_its_parts_is_refused(rt: HostRuntime) {
    for (high, low) in [(255u8, 255u8), (0, 0), (0, 1)] {
        for version in [1u8, 2, 3] {
            let bytes = [version, high, high, high, low];
            for whose in [Whose::Controller, Whose::Node, Whose::Orchestrator] {
                assert!(&rt; is_refused_at(&rt, whose, &bytes, 0), "version {version}");
            }
        }
    }
}

// The record with one byte in place of another, or one behind it.
fn changed(rt: &(impl Abort + AllocGlobal), record: &[u8], at: usize, byte: u8) -> Vec<u8> {
    let mut bytes = Vec::from_slice(rt.alloc(), record).expect(rt, "memory");
    if at < bytes.len() {
        bytes[at] = byte;
    } else {
        bytes.push(byte).expect(rt, "memory");
    }
    bytes
}

// The record that is changed so is refused.
fn refuses(rt: &(impl Abort + AllocGlobal), whole: &Whole, (at, byte, place): Change) {
    let bytes = changed(rt, whole.bytes, at, byte);
    let is_refused = is_refused_at(rt, whole.whose, &bytes, place);
    drop(bytes);
    assert!(rt; is_refused, "{byte} at {at}");
}

// A byte behind the record has the number of parts as its place.
#[test]
fn a_record_is_refused_at_its_first_bad_part(rt: HostRuntime) {
    for whole in WHOLES {
        refuses(&rt, whole, (whole.bytes.len(), 0, 2));
        for change in whole.changes {
            refuses(&rt, whole, *change);
        }
    }
}

// What a controller that made `v` has recorded.
fn recorded(rt: &(impl Abort + AllocGlobal)) -> ControllerRecord {
    let (frame, _) = decode(rt.alloc(), CREATE).expect(rt, "a frame");
    let config = Config::try_new(rt.alloc(), 1000, Vec::new(rt.alloc())).expect(rt, "limits");
    let mut controller = Controller::new(rt.alloc(), config);
    let reply = controller.step(&frame).expect(rt, "memory");
    drop((frame, reply));
    let record = controller.record().expect(rt, "memory");
    drop(controller);
    record
}

#[test]
fn what_a_controller_recorded_is_written(rt: HostRuntime) {
    let record = recorded(&rt);
    let bytes = write_record(rt.alloc(), &record).expect(&rt, "memory");
    drop(record);
    assert!(&rt; bytes.as_slice() == RECORD);
    drop(bytes);
}
