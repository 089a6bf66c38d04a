//! Copies of what a borrowed frame stands for. It is within its limits, so that a copy can only want memory.
ghost use Rattle.std.specs.Prelude.{◌≡◌, [], IfOk, IsOk};
ghost use Rattle.csi_types.specs.declared.call.Call.TheVariants as calls;
ghost use Rattle.csi_types.specs.Public.Lent.{lent_capability, lent_capabilities, lent_call};
ghost use Rattle.csi_types.specs.Public.Limits.{IsParty, IsCall, IsFrame};
ghost use Rattle.csi_frames.specs.Public.Borrowed.{lent_party, lent_reply, lent_borrowed_frame};
ghost use Rattle.csi_frames.specs.Public.Texts.{AreEmpty, capability_texts, party_texts, call_texts, IsTextless};

use crate::borrowed::{BodyRef, BorrowedFrame, PartyRef, ReplyRef};
use csi_types::{
    Call, CallRef, CapabilitiesRef, Capability, CapabilityRef, Detail, Frame, Name, NoMemory,
    NodeId, Party, Reply, Target, VolumeId, VolumeIdRef,
};
use std::alloc::Global;

fn capability(alloc: Global, from: &CapabilityRef<'_>) -> Result<Capability, NoMemory>
    ensures value { IfOk result (λ capability. capability ≡ lent_capability from.now) }
    ensures textless { AreEmpty (capability_texts (lent_capability from.now)) → IsOk result }
{
    match from.to_capability(alloc) {
        Ok(capability) => Ok(capability),
        Err(_) => Err(NoMemory),
    }
}

fn party(alloc: Global, from: &PartyRef<'_>) -> Result<Party, NoMemory>
    requires { IsParty (lent_party from.now) }
    ensures value { IfOk result (λ party. party ≡ lent_party from.now) }
    ensures textless { AreEmpty (party_texts (lent_party from.now)) → IsOk result }
{
    match from {
        PartyRef::Controller => Ok(Party::Controller),
        PartyRef::Node(id) => match NodeId::try_new(alloc, id) {
            Ok(id) => Ok(Party::Node(id)),
            Err(_) => Err(NoMemory),
        },
    }
}

// A CreateVolume, with texts of its own.
fn create_call(
    alloc: Global,
    text: &str,
    required: u64,
    limit: u64,
    list: CapabilitiesRef<'_>,
) -> Result<Call, NoMemory>
    ensures { IfOk result (λ call. call ≡ calls.CreateVolume text.now required limit (lent_capabilities list.entry)) }
{
    let capabilities = list.to_list(alloc)?;
    match Name::try_new(alloc, text) {
        Ok(name) => Ok(Call::CreateVolume {
            name,
            required,
            limit,
            capabilities,
        }),
        Err(_) => Err(NoMemory),
    }
}

// A ControllerPublishVolume, with texts of its own.
fn controller_publish_call(
    alloc: Global,
    id: VolumeIdRef,
    text: &str,
    usage: &CapabilityRef<'_>,
    readonly: bool,
) -> Result<Call, NoMemory>
    ensures { IfOk result (λ call. call ≡ calls.ControllerPublishVolume id.number text.now (lent_capability usage.now) readonly) }
{
    let id = id.volume_id();
    let capability = capability(alloc, usage)?;
    match NodeId::try_new(alloc, text) {
        Ok(node) => Ok(Call::ControllerPublishVolume {
            id,
            node,
            capability,
            readonly,
        }),
        Err(_) => Err(NoMemory),
    }
}

// A NodePublishVolume, with texts of its own.
fn node_publish_call(
    alloc: Global,
    id: VolumeIdRef,
    text: &str,
    usage: &CapabilityRef<'_>,
    readonly: bool,
) -> Result<Call, NoMemory>
    ensures { IfOk result (λ call. call ≡ calls.NodePublishVolume id.number text.now (lent_capability usage.now) readonly) }
{
    let id = id.volume_id();
    let capability = capability(alloc, usage)?;
    match Target::try_new(alloc, text) {
        Ok(target) => Ok(Call::NodePublishVolume {
            id,
            target,
            capability,
            readonly,
        }),
        Err(_) => Err(NoMemory),
    }
}

fn call(alloc: Global, from: &CallRef<'_>) -> Result<Call, NoMemory>
    requires { IsCall (lent_call from.now) }
    ensures value { IfOk result (λ call. call ≡ lent_call from.now) }
    ensures textless { AreEmpty (call_texts (lent_call from.now)) → IsOk result }
{
    match from {
        CallRef::CreateVolume {
            name,
            required,
            limit,
            capabilities,
        } => create_call(alloc, name, *required, *limit, *capabilities),
        CallRef::DeleteVolume { id } => Ok(Call::DeleteVolume { id: id.volume_id() }),
        CallRef::ControllerPublishVolume {
            id,
            node,
            capability,
            readonly,
        } => controller_publish_call(alloc, *id, node, capability, *readonly),
        CallRef::ControllerUnpublishVolume { id, node: text } => {
            let id = id.volume_id();
            match NodeId::try_new(alloc, text) {
                Ok(node) => Ok(Call::ControllerUnpublishVolume { id, node }),
                Err(_) => Err(NoMemory),
            }
        }
        CallRef::NodeStageVolume {
            id,
            capability: usage,
        } => {
            let id = id.volume_id();
            match capability(alloc, usage) {
                Ok(capability) => Ok(Call::NodeStageVolume { id, capability }),
                Err(NoMemory) => Err(NoMemory),
            }
        }
        CallRef::NodeUnstageVolume { id } => Ok(Call::NodeUnstageVolume { id: id.volume_id() }),
        CallRef::NodePublishVolume {
            id,
            target,
            capability,
            readonly,
        } => node_publish_call(alloc, *id, target, capability, *readonly),
        CallRef::NodeUnpublishVolume { id, target: text } => {
            let id = id.volume_id();
            match Target::try_new(alloc, text) {
                Ok(target) => Ok(Call::NodeUnpublishVolume { id, target }),
                Err(_) => Err(NoMemory),
            }
        }
    }
}

fn reply(alloc: Global, from: &ReplyRef<'_>) -> Result<Reply, NoMemory>
    ensures value { IfOk result (λ reply. reply ≡ lent_reply from.now) }
    ensures textless { from.now.detail.now ≡ [] → IsOk result }
{
    let id = VolumeId::try_new(from.id);
    match Detail::try_new(alloc, from.detail) {
        Ok(detail) => Ok(Reply {
            status: from.status,
            id,
            detail,
        }),
        Err(_) => Err(NoMemory),
    }
}

/// The frame that this one stands for, with texts of its own. Where there are none it takes no memory.
pub(crate) fn frame(alloc: Global, from: &BorrowedFrame<'_>) -> Result<Frame, NoMemory>
    requires { IsFrame (lent_borrowed_frame from.now) }
    ensures value { IfOk result (λ frame. frame ≡ lent_borrowed_frame from.now) }
    ensures textless { IsTextless (lent_borrowed_frame from.now) → IsOk result }
{
    let party = party(alloc, &from.party)?;
    match &from.body {
        BodyRef::Call(lent) => {
            let call = call(alloc, lent)?;
            Ok(Frame::call(from.number, party, call).unwrap())
        }
        BodyRef::Reply(kind, lent) => {
            let reply = reply(alloc, lent)?;
            Ok(Frame::reply(from.number, party, *kind, reply).unwrap())
        }
    }
}
