//! Capabilities, calls and replies, read from the bytes of a body.
ghost use Rattle.std.specs.Prelude.{◌≡◌, ◌≤◌, ◌==◌, ◌&&◌, ℕ, Bool, List, Ok, not};
ghost use Rattle.csi_types.specs.declared.capability.Capability.{Capability as OneCapability};
ghost use Rattle.csi_types.specs.Public.Lent.{lent_access, lent_capability, lent_call};
ghost use Rattle.csi_types.specs.Public.Listed.{listed};
ghost use Rattle.csi_frames.specs.Public.Borrowed.{lent_reply};
ghost use Rattle.csi_frames.specs.Public.Gives.{Gives};
ghost use Rattle.csi_frames.specs.Public.Version.{is_new_mode, owes_new_mode};
ghost use Rattle.csi_frames.specs.Public.Reading.{id_at, access_at, mode_at, owed_capability_at, capability_at, capabilities_at};
ghost use Rattle.csi_frames.specs.Public.Reading.{create_at, call_at, status_at, reply_id_of, reply_id_at, reply_at};

use crate::borrowed::ReplyRef;
use crate::fault::FaultKind;
use crate::fields::{FieldStop, Fields};
use crate::version::{Version, is_new_mode};
use csi_types::{
    AccessRef, CallRef, CapabilitiesRef, CapabilityRef, Detail, FsType, Kind, Mode, Name, NodeId,
    SpelledCapabilities, Status, Target, VolumeIdRef,
};

#[inline(always)]
#[tactic(auto, unfolding(crate::specs::Public::Reading::access_at))]
fn access_at<'a>(fields: &mut Fields<'a>) -> Result<AccessRef<'a>, FieldStop>
    ensures { Gives lent_access result fields.new (access_at fields.old.bytes.now) }
{
    let byte = fields.byte(1, FaultKind::BadAccess)?;
    if byte == 0 {
        return Ok(AccessRef::Block);
    }
    let fs_type = fields.text(0, FsType::MAX_LEN)?;
    Ok(AccessRef::Mount(fs_type))
}

#[inline(always)]
#[tactic(auto, unfolding(crate::specs::Public::Reading::byte_at, crate::specs::Public::Reading::mode_at))]
fn mode_at(fields: &mut Fields<'_>, version: Version, owed: bool) -> Result<Mode, FieldStop>
    ensures { Gives (λ mode. mode) result fields.new (mode_at version owed fields.old.bytes.now) }
{
    let bad = fields.stop(FaultKind::BadMode);
    let byte = fields.any_byte()?;
    version.mode_where(owed, byte).ok_or(bad)
}

// A capability in a mode that the version has, and in a new one where it is owed.
#[inline(always)]
#[tactic(auto, unfolding(crate::specs::Public::Reading::owed_capability_at))]
fn owed_capability_at<'a>(
    fields: &mut Fields<'a>,
    version: Version,
    owed: bool,
) -> Result<CapabilityRef<'a>, FieldStop>
    ensures { Gives lent_capability result fields.new (owed_capability_at version owed fields.old.bytes.now) }
{
    let access = access_at(fields)?;
    let mode = mode_at(fields, version, owed)?;
    Ok(CapabilityRef { access, mode })
}

/// A capability, in a mode that the version has. It takes no memory.
#[inline(always)]
#[tactic(auto, unfolding(crate::specs::Public::Reading::capability_at))]
pub fn capability_at<'a>(
    fields: &mut Fields<'a>,
    version: Version,
) -> Result<CapabilityRef<'a>, FieldStop>
    ensures { Gives lent_capability result fields.new (capability_at version fields.old.bytes.now) }
{
    owed_capability_at(fields, version, false)
}

// Whether the capability behind which so many are left has to be in a new mode.
fn is_owed(owed: bool, left: u8) -> bool
    ensures { result ≡ (owed && (left == 0)) }
{
    owed && left == 0
}

// Whether a new mode is still owed behind a capability in this one.
fn is_still_owed(owed: bool, mode: Mode) -> bool
    ensures { result ≡ (owed && not (is_new_mode mode)) }
{
    owed && !is_new_mode(mode)
}

// The id of a volume.
#[inline(always)]
fn id_at(fields: &mut Fields<'_>) -> Result<VolumeIdRef, FieldStop>
    ensures { Gives (λ id. id.number) result fields.new (id_at fields.old.bytes.now) }
{
    let number = fields.id()?;
    Ok(VolumeIdRef { number })
}

// The capabilities of these bytes, which were judged.
#[inline(always)]
fn judged(bytes: &[u8], count: u8) -> SpelledCapabilities<'_>
    requires few { count ≤ 8 }
    requires read { (version : Version) × (owed : Bool) × (list : List OneCapability) × (rest : List ℕ)
        × (capabilities_at version owed count bytes.now ≡ Ok (list, rest)) }
    ensures { (version : Version) (owed : Bool) (list : List OneCapability) (rest : List ℕ) →
        capabilities_at version owed count bytes.now ≡ Ok (list, rest) → listed result ≡ list }
{
    SpelledCapabilities { bytes, count }
}

// As many capabilities as `count` says. Where the version owes a new mode, the last one is in such a mode if no earlier one is.
fn capabilities_at<'a>(
    fields: &mut Fields<'a>,
    version: Version,
    count: u8,
) -> Result<SpelledCapabilities<'a>, FieldStop>
    requires { count ≤ 8 }
    ensures { Gives listed result fields.new (capabilities_at version (owes_new_mode version) count fields.old.bytes.now) }
{
    let bytes = fields.bytes;
    let mut owed = version.owes_new_mode();
    let mut left = count;
    while left > 0 {
        left -= 1;
        let here = is_owed(owed, left);
        let one = owed_capability_at(fields, version, here)?;
        owed = is_still_owed(owed, one.mode);
    }
    Ok(judged(bytes, count))
}

#[inline(always)]
#[tactic(auto, unfolding(crate::specs::Public::Reading::create_at))]
fn create_at<'a>(fields: &mut Fields<'a>, version: Version) -> Result<CallRef<'a>, FieldStop>
    ensures { Gives lent_call result fields.new (create_at version fields.old.bytes.now) }
{
    let name = fields.text(1, Name::MAX_LEN)?;
    let required = fields.word()?;
    let limit = fields.word()?;
    let count = fields.count(version.least_count(), 8)?;
    let capabilities = CapabilitiesRef::Spelled(capabilities_at(fields, version, count)?);
    Ok(CallRef::CreateVolume {
        name,
        required,
        limit,
        capabilities,
    })
}

#[inline(always)]
#[tactic(auto, unfolding(crate::specs::Public::Reading::call_at, crate::specs::Public::Reading::publish_at))]
fn controller_publish_at<'a>(
    fields: &mut Fields<'a>,
    version: Version,
) -> Result<CallRef<'a>, FieldStop>
    ensures { Gives lent_call result fields.new (call_at version Kind.ControllerPublishVolume fields.old.bytes.now) }
{
    let id = id_at(fields)?;
    let node = fields.text(1, NodeId::MAX_LEN)?;
    let capability = owed_capability_at(fields, version, version.owes_new_mode())?;
    let readonly = fields.flag()?;
    Ok(CallRef::ControllerPublishVolume {
        id,
        node,
        capability,
        readonly,
    })
}

#[inline(always)]
#[tactic(auto, unfolding(crate::specs::Public::Reading::call_at, crate::specs::Public::Reading::publish_at))]
fn node_publish_at<'a>(fields: &mut Fields<'a>, version: Version) -> Result<CallRef<'a>, FieldStop>
    ensures { Gives lent_call result fields.new (call_at version Kind.NodePublishVolume fields.old.bytes.now) }
{
    let id = id_at(fields)?;
    let target = fields.text(1, Target::MAX_LEN)?;
    let capability = owed_capability_at(fields, version, version.owes_new_mode())?;
    let readonly = fields.flag()?;
    Ok(CallRef::NodePublishVolume {
        id,
        target,
        capability,
        readonly,
    })
}

#[inline(always)]
#[tactic(auto, unfolding(crate::specs::Public::Reading::call_at, crate::specs::Public::Reading::id_alone_at, crate::specs::Public::Reading::id_and_text_at, crate::specs::Public::Reading::stage_at))]
pub(crate) fn call_at<'a>(
    fields: &mut Fields<'a>,
    version: Version,
    kind: Kind,
) -> Result<CallRef<'a>, FieldStop>
    ensures { Gives lent_call result fields.new (call_at version kind fields.old.bytes.now) }
{
    match kind {
        Kind::CreateVolume => create_at(fields, version),
        Kind::DeleteVolume => {
            let id = id_at(fields)?;
            Ok(CallRef::DeleteVolume { id })
        }
        Kind::ControllerPublishVolume => controller_publish_at(fields, version),
        Kind::ControllerUnpublishVolume => {
            let id = id_at(fields)?;
            let node = fields.text(1, NodeId::MAX_LEN)?;
            Ok(CallRef::ControllerUnpublishVolume { id, node })
        }
        Kind::NodeStageVolume => {
            let id = id_at(fields)?;
            let capability = owed_capability_at(fields, version, version.owes_new_mode())?;
            Ok(CallRef::NodeStageVolume { id, capability })
        }
        Kind::NodeUnstageVolume => {
            let id = id_at(fields)?;
            Ok(CallRef::NodeUnstageVolume { id })
        }
        Kind::NodePublishVolume => node_publish_at(fields, version),
        Kind::NodeUnpublishVolume => {
            let id = id_at(fields)?;
            let target = fields.text(1, Target::MAX_LEN)?;
            Ok(CallRef::NodeUnpublishVolume { id, target })
        }
    }
}

/// A status. It takes no memory.
#[tactic(auto, unfolding(crate::specs::Public::Reading::byte_at, crate::specs::Public::Reading::status_at))]
pub fn status_at(fields: &mut Fields<'_>) -> Result<Status, FieldStop>
    ensures { Gives (λ status. status) result fields.new (status_at fields.old.bytes.now) }
{
    let bad = fields.stop(FaultKind::BadStatus);
    let byte = fields.any_byte()?;
    Status::from_code(byte).ok_or(bad)
}

// The id of a reply: 0, for none, but in an `Ok` to CreateVolume, where it isn't 0.
#[tactic(auto, unfolding(crate::specs::Public::Reading::word_at, crate::specs::Public::Reading::reply_id_at))]
fn reply_id_at(fields: &mut Fields<'_>, kind: Kind, status: Status) -> Result<u64, FieldStop>
    ensures { Gives reply_id_of result fields.new (reply_id_at kind status fields.old.bytes.now) }
{
    let bad = fields.stop(FaultKind::BadId);
    let has_id = kind == Kind::CreateVolume && status == Status::Ok;
    let number = fields.word()?;
    if (number != 0) != has_id {
        return Err(bad);
    }
    Ok(number)
}

#[tactic(auto, unfolding(crate::specs::Public::Reading::reply_at))]
pub(crate) fn reply_at<'a>(fields: &mut Fields<'a>, kind: Kind) -> Result<ReplyRef<'a>, FieldStop>
    ensures { Gives lent_reply result fields.new (reply_at kind fields.old.bytes.now) }
{
    let status = status_at(fields)?;
    let id = reply_id_at(fields, kind, status)?;
    let detail = fields.text(0, Detail::MAX_LEN)?;
    Ok(ReplyRef { status, id, detail })
}
