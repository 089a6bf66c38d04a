//! Calls as a test writes them, what they are to be answered, and how a plugin is played: each call may see a growth
//! refused (`tools/refusals`), which leaves the plugin as it was, and is then answered.
use crate::values::{Told, block, blocks, device, name, node_id, number, target, volume_id};
use csi_types::{Body, Call, Frame, Kind, Mode, Number, Party, Reply, VolumeId};
use std::alloc::Global;
use std::process::Abort;

/// A call, as a test writes it.
#[derive(Clone, Copy)]
pub(crate) enum Ask {
    // Name, least and greatest capacity, and the modes in which a raw device is used.
    Create(&'static str, u64, u64, &'static [Mode]),
    Delete(u64),
    // Volume, node, mode, and whether it is for reading alone.
    Attach(u64, &'static str, Mode, bool),
    Detach(u64, &'static str),
    // To node `n1`, of a raw device, or a file system where the mode is for several nodes.
    Stage(u64, Mode),
    Unstage(u64),
    // Volume, target, mode, and whether it is for reading alone.
    Publish(u64, &'static str, Mode, bool),
    Unpublish(u64, &'static str),
}

/// A call under this number of session 1, and what it is answered.
pub(crate) type Step = (u64, Ask, Told);

/// What there is after a call: the greatest session that came, how many rows, and the ids of those that are empty.
pub(crate) type Left = (u64, usize, &'static [u64]);

/// A call under this number of this session, what it is answered, and what there is then.
pub(crate) type Line = ((u64, u64), Ask, Told, Left);

/// A plugin that is played.
pub(crate) trait PlayedPlugin {
    /// Its answer. Where it wants memory it is as it was, and then answers.
    fn answer_in_the_end<R: Abort + AllocGlobal>(&mut self, rt: &R, frame: &Frame) -> Option<Frame>;

    /// The greatest session that came, how many rows there are, and the ids of the empty ones, in the end.
    fn left_in_the_end<R: Abort>(&self, rt: &R) -> (u64, usize, Vec<VolumeId>);
}

pub(crate) fn kind_of(ask: Ask) -> Kind {
    match ask {
        Ask::Create(..) => Kind::CreateVolume,
        Ask::Delete(_) => Kind::DeleteVolume,
        Ask::Attach(..) => Kind::ControllerPublishVolume,
        Ask::Detach(..) => Kind::ControllerUnpublishVolume,
        Ask::Stage(..) => Kind::NodeStageVolume,
        Ask::Unstage(_) => Kind::NodeUnstageVolume,
        Ask::Publish(..) => Kind::NodePublishVolume,
        Ask::Unpublish(..) => Kind::NodeUnpublishVolume,
    }
}

fn call_of(rt: &(impl Abort + AllocGlobal), ask: Ask) -> Call {
    match ask {
        Ask::Create(text, required, limit, modes) => Call::CreateVolume {
            name: name(rt, text),
            required,
            limit,
            capabilities: blocks(rt, modes),
        },
        Ask::Delete(id) => Call::DeleteVolume {
            id: volume_id(rt, id),
        },
        Ask::Attach(id, node, mode, readonly) => Call::ControllerPublishVolume {
            id: volume_id(rt, id),
            node: node_id(rt, node),
            capability: block(mode),
            readonly,
        },
        Ask::Detach(id, node) => Call::ControllerUnpublishVolume {
            id: volume_id(rt, id),
            node: node_id(rt, node),
        },
        Ask::Stage(id, mode) => Call::NodeStageVolume {
            id: volume_id(rt, id),
            capability: device(rt, mode),
        },
        Ask::Unstage(id) => Call::NodeUnstageVolume {
            id: volume_id(rt, id),
        },
        Ask::Publish(id, text, mode, readonly) => Call::NodePublishVolume {
            id: volume_id(rt, id),
            target: target(rt, text),
            capability: device(rt, mode),
            readonly,
        },
        Ask::Unpublish(id, text) => Call::NodeUnpublishVolume {
            id: volume_id(rt, id),
            target: target(rt, text),
        },
    }
}

/// The call, as a frame to the controller or to node `n1`.
pub(crate) fn frame_of(rt: &(impl Abort + AllocGlobal), number: Number, ask: Ask) -> Frame {
    let party = match ask {
        Ask::Create(..) | Ask::Delete(_) | Ask::Attach(..) | Ask::Detach(..) => Party::Controller,
        _ => Party::Node(node_id(rt, "n1")),
    };
    Frame::call(number, party, call_of(rt, ask)).expect(rt, "a call for that plugin")
}

/// Whether the reply says this.
pub(crate) fn tells(reply: &Reply, (status, id, detail): Told) -> bool {
    let is_id = match (reply.id, id) {
        (Some(found), Some(id)) => found.number() == id,
        (None, None) => true,
        _ => false,
    };
    is_id && reply.status == status && reply.detail.as_str() == detail
}

/// Whether the frame is a reply to this call, of this kind, and says this.
pub(crate) fn is_reply(reply: &Frame, call: &Frame, kind: Kind, told: Told) -> bool {
    match reply.body() {
        Body::Reply(of, said) => {
            let is_to = reply.number() == call.number() && reply.party() == call.party();
            is_to && *of == kind && tells(said, told)
        }
        Body::Call(_) => false,
    }
}

/// The plugin answers the call so.
pub(crate) fn answers<P: PlayedPlugin>(
    rt: &(impl Abort + AllocGlobal),
    plugin: &mut P,
    number: Number,
    ask: Ask,
    told: Told,
) {
    let call = frame_of(rt, number, ask);
    let reply = plugin.answer_in_the_end(rt, &call).expect(rt, "a reply");
    let is_told = is_reply(&reply, &call, kind_of(ask), told);
    drop((reply, call));
    assert!(rt; is_told, "{number:?}");
}

/// The plugin answers these calls so, one after another.
pub(crate) fn plays<P: PlayedPlugin>(
    rt: &(impl Abort + AllocGlobal),
    plugin: &mut P,
    steps: &[Step],
) {
    for (call, ask, told) in steps {
        answers(rt, plugin, number(*call), *ask, *told);
    }
}

// Whether these are the ids of these numbers.
fn are_ids(found: &[VolumeId], ids: &[u64]) -> bool {
    for (found, id) in found.iter().zip(ids) {
        if found.number() != *id {
            return false;
        }
    }
    found.len() == ids.len()
}

/// Whether this is there.
pub(crate) fn has_left<P: PlayedPlugin>(rt: &impl Abort, plugin: &P, left: Left) -> bool {
    let (session, count, empty) = plugin.left_in_the_end(rt);
    let are_empty = are_ids(empty.as_slice(), left.2);
    drop(empty);
    are_empty && session == left.0 && count == left.1
}

/// The plugin answers these calls so, one after another, and each leaves this.
pub(crate) fn all_come<P: PlayedPlugin>(
    rt: &(impl Abort + AllocGlobal),
    plugin: &mut P,
    lines: &[Line],
) {
    for ((session, call), ask, told, left) in lines {
        let number = Number {
            session: *session,
            call: *call,
        };
        answers(rt, plugin, number, *ask, *told);
        assert!(rt; has_left(rt, plugin, *left), "after {number:?}");
    }
}
