//! What the vectors spell: each is read as its frame, and the frame is written as its bytes. And the longest frame.
use crate::vectors::*;
use csi_frames::{decode, encode};
use csi_types::{
    Access, Call, Capability, CapabilityList, Detail, Frame, FsType, Kind, Mode, Name, NodeId,
    Number, Party, Reply, Status, Target, VolumeId,
};
use std::alloc::Global;
use std::process::Abort;

// A block device in this mode, or a file system of a type.
#[derive(Clone, Copy)]
enum Use {
    Block(Mode),
    Mount(&'static str, Mode),
}

// A call, as the table writes it.
#[derive(Clone, Copy)]
enum Ask {
    // Name, least and greatest capacity, and capabilities.
    Create(&'static str, u64, u64, &'static [Use]),
    Delete(u64),
    // Volume, node, capability, and whether it is for reading alone.
    Attach(u64, &'static str, Use, bool),
    Detach(u64, &'static str),
    Stage(u64, Use),
    Unstage(u64),
    // Volume, target, capability, and whether it is for reading alone.
    Publish(u64, &'static str, Use, bool),
    Unpublish(u64, &'static str),
}

// What a reply says: its status, the number of its id, and its detail.
type Told = (Status, Option<u64>, &'static str);

const B1: Use = Use::Block(Mode::SingleNodeWriter);

const M5: Use = Use::Mount("ext4", Mode::MultiNodeMultiWriter);

const B6: Use = Use::Block(Mode::SingleNodeSingleWriter);

const B7: Use = Use::Block(Mode::SingleNodeMultiWriter);

const M7: Use = Use::Mount("ext4", Mode::SingleNodeMultiWriter);

// Calls: the bytes, the number in session 1, the node (none: the controller), and what is asked.
const CALLS: &[(&[u8], u64, &str, Ask)] = &[
    (&CREATE, 1, "", Ask::Create("v", 10, 0, &[B1])),
    (&CREATE_MORE, 3, "", Ask::Create("v", 11, 0, &[B1])),
    (&CREATE_BARE, 1, "", Ask::Create("v", 10, 0, &[])),
    (&CREATE_ACCENTED, 1, "", Ask::Create("é", 10, 0, &[B1])),
    (&CREATE_TWO, 1, "", Ask::Create("v", 10, 0, &[B1, M5])),
    (&DELETE, 2, "", Ask::Delete(1)),
    (&DELETE_LAST, 8, "", Ask::Delete(1)),
    (&ATTACH, 2, "", Ask::Attach(1, "n1", B1, false)),
    (&DETACH, 7, "", Ask::Detach(1, "n1")),
    (&STAGE, 3, "n1", Ask::Stage(1, B1)),
    (&PUBLISH, 4, "n1", Ask::Publish(1, "/a", B1, true)),
    (&PUBLISH_TO_WRITE, 4, "n1", Ask::Publish(1, "/a", B1, false)),
    (&UNPUBLISH, 5, "n1", Ask::Unpublish(1, "/a")),
    (&UNSTAGE, 6, "n1", Ask::Unstage(1)),
    // of version 2
    (&CREATE_SIX, 1, "", Ask::Create("v", 10, 0, &[B6])),
    (
        &CREATE_SEVEN_LAST,
        1,
        "",
        Ask::Create("v", 10, 0, &[B1, M7]),
    ),
    (
        &CREATE_SEVEN_FIRST,
        1,
        "",
        Ask::Create("v", 10, 0, &[B7, M5]),
    ),
    (&ATTACH_SEVEN, 2, "", Ask::Attach(1, "n1", B7, false)),
    (&STAGE_SIX, 3, "n1", Ask::Stage(1, B6)),
    (&PUBLISH_SEVEN, 4, "n1", Ask::Publish(1, "/a", B7, true)),
];

const OK: Told = (Status::Ok, None, "");

const CREATED: Kind = Kind::CreateVolume;

const ATTACHED: Kind = Kind::ControllerPublishVolume;

// Replies: the bytes, the number, the node, the kind of the call, and what is told.
const REPLIES: &[(&[u8], u64, &str, Kind, Told)] = &[
    (&CREATE_REPLY, 1, "", CREATED, (Status::Ok, Some(1), "")),
    (
        &REFUSAL,
        3,
        "",
        CREATED,
        (Status::AlreadyExists, None, "name"),
    ),
    (
        &BARE_REPLY,
        1,
        "",
        CREATED,
        (Status::InvalidArgument, None, "capabilities"),
    ),
    (
        &STALE_REPLY,
        1,
        "",
        CREATED,
        (Status::Aborted, None, "stale"),
    ),
    (&DELETE_REPLY, 2, "", Kind::DeleteVolume, OK),
    (&DELETE_LAST_REPLY, 8, "", Kind::DeleteVolume, OK),
    (&ATTACH_REPLY, 2, "", ATTACHED, OK),
    (&NO_NODE, 2, "", ATTACHED, (Status::NotFound, None, "node")),
    (&DETACH_REPLY, 7, "", Kind::ControllerUnpublishVolume, OK),
    (&STAGE_REPLY, 3, "n1", Kind::NodeStageVolume, OK),
    (&PUBLISH_REPLY, 4, "n1", Kind::NodePublishVolume, OK),
    (&UNPUBLISH_REPLY, 5, "n1", Kind::NodeUnpublishVolume, OK),
    (&UNSTAGE_REPLY, 6, "n1", Kind::NodeUnstageVolume, OK),
];

fn capability(rt: &(impl Abort + AllocGlobal), used: Use) -> Capability {
    match used {
        Use::Block(mode) => Capability {
            access: Access::Block,
            mode,
        },
        Use::Mount(text, mode) => Capability {
            access: Access::Mount(FsType::try_new(rt.alloc(), text).expect(rt, "an fs type")),
            mode,
        },
    }
}

fn capabilities(rt: &(impl Abort + AllocGlobal), uses: &[Use]) -> CapabilityList {
    let mut list = Vec::new(rt.alloc());
    for used in uses {
        list.push(capability(rt, *used)).expect(rt, "memory");
    }
    CapabilityList::try_new(list).expect(rt, "eight at most")
}

fn node_id(rt: &(impl Abort + AllocGlobal), text: &str) -> NodeId {
    NodeId::try_new(rt.alloc(), text).expect(rt, "a node id")
}

fn target(rt: &(impl Abort + AllocGlobal), text: &str) -> Target {
    Target::try_new(rt.alloc(), text).expect(rt, "a target")
}

fn volume_id(rt: &impl Abort, number: u64) -> VolumeId {
    VolumeId::try_new(number).expect(rt, "an id")
}

fn call_of(rt: &(impl Abort + AllocGlobal), ask: Ask) -> Call {
    match ask {
        Ask::Create(text, required, limit, uses) => Call::CreateVolume {
            name: Name::try_new(rt.alloc(), text).expect(rt, "a name"),
            required,
            limit,
            capabilities: capabilities(rt, uses),
        },
        Ask::Delete(volume) => Call::DeleteVolume {
            id: volume_id(rt, volume),
        },
        Ask::Attach(volume, node, used, readonly) => Call::ControllerPublishVolume {
            id: volume_id(rt, volume),
            node: node_id(rt, node),
            capability: capability(rt, used),
            readonly,
        },
        Ask::Detach(volume, node) => Call::ControllerUnpublishVolume {
            id: volume_id(rt, volume),
            node: node_id(rt, node),
        },
        Ask::Stage(volume, used) => Call::NodeStageVolume {
            id: volume_id(rt, volume),
            capability: capability(rt, used),
        },
        Ask::Unstage(volume) => Call::NodeUnstageVolume {
            id: volume_id(rt, volume),
        },
        Ask::Publish(volume, text, used, readonly) => Call::NodePublishVolume {
            id: volume_id(rt, volume),
            target: target(rt, text),
            capability: capability(rt, used),
            readonly,
        },
        Ask::Unpublish(volume, text) => Call::NodeUnpublishVolume {
            id: volume_id(rt, volume),
            target: target(rt, text),
        },
    }
}

fn reply_of(rt: &(impl Abort + AllocGlobal), (status, id, text): Told) -> Reply {
    Reply {
        status,
        id: match id {
            Some(id) => VolumeId::try_new(id),
            None => None,
        },
        detail: Detail::try_new(rt.alloc(), text).expect(rt, "a detail"),
    }
}

// The node of this id, or the controller.
fn party(rt: &(impl Abort + AllocGlobal), node: &str) -> Party {
    if node.is_empty() {
        Party::Controller
    } else {
        Party::Node(node_id(rt, node))
    }
}

// Whether the bytes are read as the frame, and the frame is written as the bytes, behind those of earlier frames.
fn spell(rt: &(impl Abort + AllocGlobal), bytes: &[u8], frame: &Frame, out: &mut Vec<u8>) -> bool {
    let before = out.len();
    encode(frame, out).expect(rt, "memory");
    let (found, size) = decode(rt.alloc(), bytes).expect(rt, "a frame");
    let is_read = found == *frame && size == bytes.len();
    drop(found);
    is_read && out.get(before..) == Some(bytes)
}

#[test]
fn each_vector_spells_its_frame(rt: HostRuntime) {
    let mut out = Vec::new(rt.alloc());
    for (bytes, call, node, ask) in CALLS {
        let number = Number {
            session: 1,
            call: *call,
        };
        let frame = Frame::call(number, party(&rt, node), call_of(&rt, *ask));
        let frame = frame.expect(&rt, "a call");
        assert!(rt; spell(&rt, bytes, &frame, &mut out), "{bytes:?}");
        drop(frame);
    }
    for (bytes, call, node, kind, told) in REPLIES {
        let number = Number {
            session: 1,
            call: *call,
        };
        let frame = Frame::reply(number, party(&rt, node), *kind, reply_of(&rt, *told));
        let frame = frame.expect(&rt, "a reply");
        assert!(rt; spell(&rt, bytes, &frame, &mut out), "{bytes:?}");
        drop(frame);
    }
    drop(out);
    assert!(rt; CALLS.len() + REPLIES.len() == VECTORS.len());
}

// 128 letters.
const TEXT: &str =
    "aaaaaaaaaaaaaaaaaaaaaaaaaaaaaaaaaaaaaaaaaaaaaaaaaaaaaaaaaaaaaaaaaaaaaaaaaaaaaaaaaaaaaaaaaaaaaaaaaaaaaaaaaaaaaaaaaaaaaaaaaaaaaaaa";

const MOUNT: Use = Use::Mount(TEXT, Mode::MultiNodeMultiWriter);

// The longest texts, and the most capabilities.
const LONGEST: Ask = Ask::Create(
    TEXT,
    u64::MAX,
    u64::MAX,
    &[MOUNT, MOUNT, MOUNT, MOUNT, MOUNT, MOUNT, MOUNT, MOUNT],
);

#[test]
fn the_longest_body_has_1213_bytes(rt: HostRuntime) {
    let number = Number {
        session: u64::MAX,
        call: u64::MAX,
    };
    let frame = Frame::call(number, Party::Controller, call_of(&rt, LONGEST));
    let frame = frame.expect(&rt, "a call");
    let mut out = Vec::new(rt.alloc());
    encode(&frame, &mut out).expect(&rt, "memory");
    assert!(rt; out.len() == 4 + 1213);
    let (found, size) = decode(rt.alloc(), &out).expect(&rt, "a frame");
    assert!(rt; found == frame && size == out.len());
    drop((found, frame));
    drop(out);
}
