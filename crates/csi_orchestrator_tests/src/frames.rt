//! Frames, as a table writes them.
use crate::steps::Sent;
use crate::values::{block, first_id, name, no_detail, node_id, only_block, target};
use csi_types::{Call, Frame, Kind, Number, Party, Reply, Status};
use std::alloc::Global;
use std::process::Abort;

fn call_of(rt: &(impl Abort + AllocGlobal), sent: Sent) -> Call {
    let id = first_id(rt);
    match sent {
        Sent::Create(text, mode) => Call::CreateVolume {
            name: name(rt, text),
            required: 10,
            limit: 0,
            capabilities: only_block(rt, mode),
        },
        Sent::Delete => Call::DeleteVolume { id },
        Sent::Attach(at, mode, readonly) => Call::ControllerPublishVolume {
            id,
            node: node_id(rt, at),
            capability: block(mode),
            readonly,
        },
        Sent::Detach(at) => Call::ControllerUnpublishVolume {
            id,
            node: node_id(rt, at),
        },
        Sent::Stage(_, mode) => Call::NodeStageVolume {
            id,
            capability: block(mode),
        },
        Sent::Unstage(_) => Call::NodeUnstageVolume { id },
        Sent::Publish(_, path, mode, readonly) => Call::NodePublishVolume {
            id,
            target: target(rt, path),
            capability: block(mode),
            readonly,
        },
        Sent::Unpublish(_, path) => Call::NodeUnpublishVolume {
            id,
            target: target(rt, path),
        },
    }
}

// The plugin that a call is for.
fn party_of(rt: &(impl Abort + AllocGlobal), sent: Sent) -> Party {
    match sent {
        Sent::Create(..) | Sent::Delete | Sent::Attach(..) | Sent::Detach(_) => Party::Controller,
        Sent::Stage(at, _) | Sent::Unstage(at) | Sent::Publish(at, ..) | Sent::Unpublish(at, _) => {
            Party::Node(node_id(rt, at))
        }
    }
}

// The call under this number.
pub(crate) fn call_frame(rt: &(impl Abort + AllocGlobal), number: Number, sent: Sent) -> Frame {
    let party = party_of(rt, sent);
    let call = call_of(rt, sent);
    Frame::call(number, party, call).expect(rt, "a call")
}

fn kind_of(sent: Sent) -> Kind {
    match sent {
        Sent::Create(..) => Kind::CreateVolume,
        Sent::Delete => Kind::DeleteVolume,
        Sent::Attach(..) => Kind::ControllerPublishVolume,
        Sent::Detach(_) => Kind::ControllerUnpublishVolume,
        Sent::Stage(..) => Kind::NodeStageVolume,
        Sent::Unstage(_) => Kind::NodeUnstageVolume,
        Sent::Publish(..) => Kind::NodePublishVolume,
        Sent::Unpublish(..) => Kind::NodeUnpublishVolume,
    }
}

// The reply with this status to the call under this number. The volume that is made has id 1.
pub(crate) fn reply_frame(
    rt: &(impl Abort + AllocGlobal),
    number: Number,
    sent: Sent,
    status: Status,
) -> Frame {
    let party = party_of(rt, sent);
    let kind = kind_of(sent);
    let is_made = kind == Kind::CreateVolume && status == Status::Ok;
    let reply = Reply {
        status,
        id: if is_made { Some(first_id(rt)) } else { None },
        detail: no_detail(rt),
    };
    Frame::reply(number, party, kind, reply).expect(rt, "a reply")
}
