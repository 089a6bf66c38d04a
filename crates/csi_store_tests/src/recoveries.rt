//! Orchestrators' records that are made of what plugins keep: all as bytes, and each refusal.
use csi_controller::ControllerRecord;
use csi_node::NodeRecord;
use csi_recovery::{RecoveryFault, recovered};
use csi_service::{read_record, write_record};
use csi_types::NodeId;
use std::process::Abort;

// Of session 2: `v`, of 10 bytes, is attached at `n1`, `n2` and `n3`, as a device in mode 5; `w` was deleted.
const CONTROLLER: &[u8] = &[
    3, 0, 0, 0, 3, 0, 0, 0, 0, 0, 0, 0, 0, 0, 0, 0, 18, 3, 0, 0, 0, 0, 0, 0, 0, 0, 3, 0, 0, 0, 0,
    0, 0, 0, 2, 0, 0, 0, 0, 0, 0, 0, 1, 0, 0, 0, 61, 3, 1, 1, 118, 0, 0, 0, 0, 0, 0, 0, 10, 1, 0,
    5, 3, 2, 110, 49, 0, 5, 0, 2, 110, 50, 0, 5, 0, 2, 110, 51, 0, 5, 0, 0, 0, 0, 0, 0, 0, 0, 2, 0,
    0, 0, 0, 0, 0, 0, 3, 129, 0, 0, 0, 0, 0, 0, 0, 0, 1, 0, 0, 0, 0, 0, 0, 0, 0, 2, 0, 0, 0, 43, 3,
    2, 1, 119, 0, 0, 0, 0, 0, 0, 0, 10, 1, 0, 5, 0, 0, 0, 0, 0, 0, 0, 0, 2, 0, 0, 0, 0, 0, 0, 0, 4,
    130, 0, 0, 0, 0, 0, 0, 0, 0, 0, 0,
];

// `n1`: `v` is published at `/a`.
const FIRST: &[u8] = &[
    3, 0, 0, 0, 2, 0, 0, 0, 0, 0, 0, 0, 0, 0, 0, 0, 13, 3, 1, 2, 110, 49, 0, 0, 0, 0, 0, 0, 0, 2,
    0, 0, 0, 0, 0, 0, 0, 1, 0, 0, 0, 36, 3, 1, 0, 5, 1, 2, 47, 97, 0, 0, 0, 0, 0, 0, 0, 0, 2, 0, 0,
    0, 0, 0, 0, 0, 5, 135, 0, 0, 0, 0, 0, 0, 0, 0, 0, 0,
];

// `n2`: it is staged alone; the same of `n3`, and of `n4`, at which it isn't attached.
const SECOND: &[u8] = &[
    3, 0, 0, 0, 2, 0, 0, 0, 0, 0, 0, 0, 0, 0, 0, 0, 13, 3, 1, 2, 110, 50, 0, 0, 0, 0, 0, 0, 0, 2,
    0, 0, 0, 0, 0, 0, 0, 1, 0, 0, 0, 32, 3, 1, 0, 5, 0, 0, 0, 0, 0, 0, 0, 0, 2, 0, 0, 0, 0, 0, 0,
    0, 4, 133, 0, 0, 0, 0, 0, 0, 0, 0, 0, 0,
];

const THIRD: &[u8] = &[
    3, 0, 0, 0, 2, 0, 0, 0, 0, 0, 0, 0, 0, 0, 0, 0, 13, 3, 1, 2, 110, 51, 0, 0, 0, 0, 0, 0, 0, 2,
    0, 0, 0, 0, 0, 0, 0, 1, 0, 0, 0, 32, 3, 1, 0, 5, 0, 0, 0, 0, 0, 0, 0, 0, 2, 0, 0, 0, 0, 0, 0,
    0, 4, 133, 0, 0, 0, 0, 0, 0, 0, 0, 0, 0,
];

const FOURTH: &[u8] = &[
    3, 0, 0, 0, 2, 0, 0, 0, 0, 0, 0, 0, 0, 0, 0, 0, 13, 3, 1, 2, 110, 52, 0, 0, 0, 0, 0, 0, 0, 2,
    0, 0, 0, 0, 0, 0, 0, 1, 0, 0, 0, 32, 3, 1, 0, 5, 0, 0, 0, 0, 0, 0, 0, 0, 2, 0, 0, 0, 0, 0, 0,
    0, 4, 133, 0, 0, 0, 0, 0, 0, 0, 0, 0, 0,
];

// Of `n1` and `n2`, in session 5: `v` is in use at `n1`, its stop at `/` of `n2` is wanted, and it is left at `n3`.
const ORCHESTRATOR: &[u8] = &[
    3, 0, 0, 0, 2, 0, 0, 0, 0, 0, 0, 0, 0, 0, 0, 0, 17, 3, 2, 0, 0, 0, 0, 0, 0, 0, 5, 2, 2, 110,
    49, 2, 110, 50, 0, 0, 0, 0, 0, 0, 0, 1, 0, 0, 0, 74, 3, 1, 118, 0, 0, 0, 0, 0, 0, 0, 10, 0, 0,
    0, 0, 0, 0, 0, 0, 1, 0, 5, 1, 0, 0, 0, 0, 0, 0, 0, 1, 1, 3, 2, 110, 50, 1, 47, 1, 3, 2, 110,
    49, 0, 5, 0, 1, 1, 1, 2, 47, 97, 1, 2, 110, 50, 0, 5, 0, 1, 2, 1, 1, 47, 0, 2, 110, 51, 0, 5,
    0, 1, 0, 0,
];

// The nodes, the session, the nodes' records, and what comes of them.
struct Case {
    nodes: &'static [&'static str],
    session: u64,
    given: &'static [&'static [u8]],
    wanted: Result<&'static [u8], RecoveryFault>,
}

const CASES: &[Case] = &[
    Case {
        nodes: &["n1", "n2"],
        session: 5,
        given: &[FIRST, SECOND],
        wanted: Ok(ORCHESTRATOR),
    },
    // two records of one node, and a session that was heard of
    Case {
        nodes: &["n1", "n2"],
        session: 2,
        given: &[FIRST, SECOND, FIRST],
        wanted: Err(RecoveryFault::SameNode(3)),
    },
    Case {
        nodes: &["n1", "n1"],
        session: 2,
        given: &[FIRST, FOURTH],
        wanted: Err(RecoveryFault::NotLater),
    },
    // staged where it isn't attached
    Case {
        nodes: &["n1", "n1"],
        session: 5,
        given: &[FIRST, FOURTH],
        wanted: Err(RecoveryFault::Disagrees(2)),
    },
    // a node twice, one that isn't listed, and two at which it is staged alone
    Case {
        nodes: &["n1", "n1"],
        session: 5,
        given: &[FIRST, SECOND],
        wanted: Err(RecoveryFault::BadNodes),
    },
    Case {
        nodes: &["n1"],
        session: 5,
        given: &[FIRST, SECOND],
        wanted: Err(RecoveryFault::BadRow(1)),
    },
    Case {
        nodes: &["n1", "n2", "n3"],
        session: 5,
        given: &[FIRST, SECOND, THIRD],
        wanted: Err(RecoveryFault::BadRow(1)),
    },
];

// Nodes with these ids.
fn node_ids(rt: &(impl Abort + AllocGlobal), texts: &[&str]) -> Vec<NodeId> {
    let mut nodes = Vec::with_capacity(rt.alloc(), texts.len()).expect(rt, "memory");
    for text in texts {
        let node = NodeId::try_new(rt.alloc(), text).expect(rt, "a node id");
        nodes.push(node).expect(rt, "room");
    }
    nodes
}

/// These nodes' records.
pub(crate) fn node_records(rt: &(impl Abort + AllocGlobal), given: &[&[u8]]) -> Vec<NodeRecord> {
    let mut records = Vec::with_capacity(rt.alloc(), given.len()).expect(rt, "memory");
    for bytes in given {
        let record = read_record::<NodeRecord>(rt.alloc(), bytes).expect(rt, "a record");
        records.push(record).expect(rt, "room");
    }
    records
}

// What is recovered, as bytes.
fn recovered_bytes(rt: &(impl Abort + AllocGlobal), case: &Case) -> Result<Vec<u8>, RecoveryFault> {
    let controller = read_record::<ControllerRecord>(rt.alloc(), CONTROLLER).expect(rt, "a record");
    let given = node_records(rt, case.given);
    let nodes = node_ids(rt, case.nodes);
    let made = recovered(rt.alloc(), nodes, case.session, &controller, &given);
    drop((controller, given));
    match made {
        Ok(record) => {
            let bytes = write_record(rt.alloc(), &record).expect(rt, "memory");
            drop(record);
            Ok(bytes)
        }
        Err(fault) => Err(fault),
    }
}

// Whether what is wanted comes of it.
fn comes(rt: &(impl Abort + AllocGlobal), case: &Case) -> bool {
    match recovered_bytes(rt, case) {
        Ok(bytes) => {
            let same = match case.wanted {
                Ok(wanted) => bytes.as_slice() == wanted,
                Err(_) => false,
            };
            drop(bytes);
            same
        }
        Err(fault) => case.wanted == Err(fault),
    }
}

#[test]
fn an_orchestrator_is_recovered_of_its_plugins(rt: HostRuntime) {
    for (place, case) in CASES.iter().enumerate() {
        assert!(&rt; comes(&rt, case), "case {place}");
    }
}
