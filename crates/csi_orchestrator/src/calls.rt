//! The call that is due, spelled.
ghost use Rattle.std.specs.Prelude.{◌≡◌, IfOk, IsOk};
ghost use Rattle.csi_types.specs.declared.call.Call.TheVariants as calls;
ghost use Rattle.csi_types.specs.declared.call.Kind.TheVariants as kinds;
ghost use Rattle.csi_types.specs.Model.Call.{kind_of};
ghost use Rattle.csi_orchestrator.specs.Private.Found.{call_due};

use crate::due::Due;
use crate::request::{Arguments, Usage};
use csi_types::{Call, Name, NodeId, Target, VolumeId};
use std::alloc::AllocError;

// The call that makes a volume.
fn create_call(name: &Name, arguments: &Arguments) -> Result<Call, AllocError>
    ensures { IfOk result (λ call. call ≡ calls.CreateVolume name.now arguments.now.required arguments.now.limit arguments.now.capabilities) }
{
    let name = name.clone()?;
    let capabilities = arguments.capabilities.clone()?;
    Ok(Call::CreateVolume {
        name,
        required: arguments.required,
        limit: arguments.limit,
        capabilities,
    })
}

// The call that attaches it for a use.
fn attach_call(id: VolumeId, usage: &Usage) -> Result<Call, AllocError>
    ensures { IfOk result (λ call. call ≡ calls.ControllerPublishVolume id usage.now.node usage.now.capability usage.now.readonly) }
{
    let node = usage.node.clone()?;
    let capability = usage.capability.clone()?;
    Ok(Call::ControllerPublishVolume {
        id,
        node,
        capability,
        readonly: usage.readonly,
    })
}

// The call that detaches it from the node.
fn detach_call(id: VolumeId, node: &NodeId) -> Result<Call, AllocError>
    ensures { IfOk result (λ call. call ≡ calls.ControllerUnpublishVolume id node.now) }
{
    let node = node.clone()?;
    Ok(Call::ControllerUnpublishVolume { id, node })
}

// The call that stages it for a use.
fn stage_call(id: VolumeId, usage: &Usage) -> Result<Call, AllocError>
    ensures { IfOk result (λ call. call ≡ calls.NodeStageVolume id usage.now.capability) }
{
    let capability = usage.capability.clone()?;
    Ok(Call::NodeStageVolume { id, capability })
}

// The call that publishes it for a use.
fn publish_call(id: VolumeId, usage: &Usage) -> Result<Call, AllocError>
    ensures { IfOk result (λ call. call ≡ calls.NodePublishVolume id usage.now.target usage.now.capability usage.now.readonly) }
{
    let target = usage.target.clone()?;
    let capability = usage.capability.clone()?;
    Ok(Call::NodePublishVolume {
        id,
        target,
        capability,
        readonly: usage.readonly,
    })
}

// The call that ends its publication at the target.
fn unpublish_call(id: VolumeId, target: &Target) -> Result<Call, AllocError>
    ensures { IfOk result (λ call. call ≡ calls.NodeUnpublishVolume id target.now) }
{
    let target = target.clone()?;
    Ok(Call::NodeUnpublishVolume { id, target })
}

/// The call, spelled. For a delete it takes no memory.
pub(crate) fn call_of(due: &Due<'_>) -> Result<Call, AllocError>
    ensures ok { IfOk result (λ call. call ≡ call_due due.now) }
    ensures delete { kind_of (call_due due.now) ≡ kinds.DeleteVolume → IsOk result }
{
    match due {
        Due::Create { name, arguments } => create_call(name, arguments),
        Due::Delete { id } => Ok(Call::DeleteVolume { id: *id }),
        Due::Attach { id, usage } => attach_call(*id, usage),
        Due::Detach { id, node } => detach_call(*id, node),
        Due::Stage { id, usage } => stage_call(*id, usage),
        Due::Unstage { id, .. } => Ok(Call::NodeUnstageVolume { id: *id }),
        Due::Publish { id, usage } => publish_call(*id, usage),
        Due::Unpublish { id, target, .. } => unpublish_call(*id, target),
    }
}
