//! Laws, and nothing that counts when it runs: what a frame has is within its limits, since each value of it keeps its own.
ghost use Rattle.csi_types.specs.Public.Limits.{IsCapability, IsCapabilityList, IsParty, IsCall, IsReply, IsFrame};

use csi_types::{Access, Body, Call, Capability, CapabilityList, Frame, Party, Reply};

fn capability_law(capability: &Capability)
    ensures { IsCapability capability.now }
{
    match &capability.access {
        Access::Block => {}
        Access::Mount(fs_type) => {
            let _text = fs_type.as_str();
        }
    }
}

fn list_law(list: &CapabilityList)
    ensures { IsCapabilityList list.now }
{
    let items = list.as_slice();
    for one in items {
        capability_law(one);
    }
}

fn call_law(call: &Call)
    ensures { IsCall call.now }
{
    match call {
        Call::CreateVolume {
            name,
            required,
            limit,
            capabilities,
        } => {
            let _name = name.as_str();
            let _required = *required;
            let _limit = *limit;
            list_law(capabilities);
        }
        Call::DeleteVolume { id } | Call::NodeUnstageVolume { id } => {
            let _id = id.number();
        }
        Call::ControllerPublishVolume {
            id,
            node,
            capability,
            ..
        } => {
            let _id = id.number();
            let _node = node.as_str();
            capability_law(capability);
        }
        Call::ControllerUnpublishVolume { id, node } => {
            let _id = id.number();
            let _node = node.as_str();
        }
        Call::NodeStageVolume { id, capability } => {
            let _id = id.number();
            capability_law(capability);
        }
        Call::NodePublishVolume {
            id,
            target,
            capability,
            ..
        } => {
            let _id = id.number();
            let _target = target.as_str();
            capability_law(capability);
        }
        Call::NodeUnpublishVolume { id, target } => {
            let _id = id.number();
            let _target = target.as_str();
        }
    }
}

fn reply_law(reply: &Reply)
    ensures { IsReply reply.now }
{
    let _detail = reply.detail.as_str();
    if let Some(id) = reply.id {
        let _id = id.number();
    }
}

fn party_law(party: &Party)
    ensures { IsParty party.now }
{
    match party {
        Party::Controller => {}
        Party::Node(id) => {
            let _id = id.as_str();
        }
    }
}

/// All that the frame has is within its limits.
pub(crate) fn frame_law(frame: &Frame)
    ensures { IsFrame frame.now }
{
    let _number = frame.number();
    party_law(frame.party());
    match frame.body() {
        Body::Call(call) => call_law(call),
        Body::Reply(_, reply) => reply_law(reply),
    }
}
