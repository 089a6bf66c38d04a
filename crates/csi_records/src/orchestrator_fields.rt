//! The fields of an orchestrator's row, read one after another from its bytes.
ghost use Rattle.std.specs.Prelude.{◌≡◌, Some, None, IfOk, IsErrOf, OnErr};
ghost use Rattle.csi_records.specs.Private.OrchestratorReading.{known_from, read_known, read_id_if, read_arguments, read_usage, read_stop, read_goal};

use crate::fault::ValueStop;
use crate::items::{Item, list};
use crate::version::RecordVersion;
use csi_frames::Fields;
use csi_orchestrator::{Arguments, Goal, Known, Usage};
use csi_types::{Capability, CapabilityList, NodeId, Target, VolumeId};
use std::alloc::Global;

// What is known, by its byte.
fn known_of(byte: u8) -> Option<Known>
    ensures { result ≡ known_from byte }
{
    match byte {
        0 => Some(Known::No),
        1 => Some(Known::Yes),
        2 => Some(Known::Maybe),
        _ => None,
    }
}

/// What is known.
#[tactic(auto, unfolding(crate::specs::Private::OrchestratorReading::read_known, crate::specs::Private::Reading::read_code, crate::specs::Private::Reading::read_byte))]
pub(crate) fn known(fields: &mut Fields<'_>) -> Result<Known, ValueStop>
    ensures read { IfOk result (λ known. read_known fields.old.bytes.now ≡ Some (known, fields.new.bytes.now)) }
    ensures bad { OnErr result (read_known fields.old.bytes.now ≡ None) }
{
    match known_of(fields.any_byte()?) {
        Some(known) => Ok(known),
        None => Err(ValueStop::Bad),
    }
}

/// An id, if there is one.
#[tactic(auto, unfolding(crate::specs::Private::OrchestratorReading::read_id_if, crate::specs::Private::Reading::read_flag, crate::specs::Private::Reading::read_word))]
pub(crate) fn id_if(fields: &mut Fields<'_>) -> Result<Option<VolumeId>, ValueStop>
    ensures read { IfOk result (λ id. read_id_if fields.old.bytes.now ≡ Some (id, fields.new.bytes.now)) }
    ensures bad { OnErr result (read_id_if fields.old.bytes.now ≡ None) }
{
    if !fields.flag()? {
        return Ok(None);
    }
    match VolumeId::try_new(fields.word()?) {
        Some(id) => Ok(Some(id)),
        None => Err(ValueStop::Bad),
    }
}

/// What a volume was to be created with.
#[tactic(auto, unfolding(crate::specs::Private::OrchestratorReading::read_arguments, crate::specs::Private::Reading::read_word))]
pub(crate) fn arguments(
    fields: &mut Fields<'_>,
    alloc: Global,
    version: RecordVersion,
) -> Result<Arguments, ValueStop>
    ensures read { IfOk result (λ arguments. read_arguments version fields.old.bytes.now ≡ Some (arguments, fields.new.bytes.now)) }
    ensures bad { IsErrOf result ValueStop.Bad → read_arguments version fields.old.bytes.now ≡ None }
{
    let required = fields.word()?;
    let limit = fields.word()?;
    let capabilities = CapabilityList::try_new(list(fields, alloc, version, 8)?).unwrap();
    Ok(Arguments {
        required,
        limit,
        capabilities,
    })
}

// Where and how a volume is to be used.
#[tactic(auto, unfolding(crate::specs::Private::OrchestratorReading::read_usage, crate::specs::Private::Reading::read_text, crate::specs::Private::Reading::read_flag))]
fn usage(fields: &mut Fields<'_>, alloc: Global, version: RecordVersion) -> Result<Usage, ValueStop>
    ensures read { IfOk result (λ usage. read_usage version fields.old.bytes.now ≡ Some (usage, fields.new.bytes.now)) }
    ensures bad { IsErrOf result ValueStop.Bad → read_usage version fields.old.bytes.now ≡ None }
{
    let node = NodeId::try_new(alloc, fields.text(1, NodeId::MAX_LEN)?)?;
    let target = Target::try_new(alloc, fields.text(1, Target::MAX_LEN)?)?;
    let capability = Capability::read(fields, alloc, version)?;
    let readonly = fields.flag()?;
    Ok(Usage {
        node,
        target,
        capability,
        readonly,
    })
}

// Where a volume is to be used no longer, as a goal.
#[tactic(auto, unfolding(crate::specs::Private::OrchestratorReading::read_stop, crate::specs::Private::Reading::read_text))]
fn stop(fields: &mut Fields<'_>, alloc: Global) -> Result<Option<Goal>, ValueStop>
    ensures read { IfOk result (λ goal. read_stop fields.old.bytes.now ≡ Some (goal, fields.new.bytes.now)) }
    ensures bad { IsErrOf result ValueStop.Bad → read_stop fields.old.bytes.now ≡ None }
{
    let node = NodeId::try_new(alloc, fields.text(1, NodeId::MAX_LEN)?)?;
    let target = Target::try_new(alloc, fields.text(1, Target::MAX_LEN)?)?;
    Ok(Some(Goal::Stop { node, target }))
}

/// A goal, if there is one.
#[tactic(auto, unfolding(crate::specs::Private::OrchestratorReading::read_goal, crate::specs::Private::Reading::read_byte))]
pub(crate) fn goal(
    fields: &mut Fields<'_>,
    alloc: Global,
    version: RecordVersion,
) -> Result<Option<Goal>, ValueStop>
    ensures read { IfOk result (λ goal. read_goal version fields.old.bytes.now ≡ Some (goal, fields.new.bytes.now)) }
    ensures bad { IsErrOf result ValueStop.Bad → read_goal version fields.old.bytes.now ≡ None }
{
    match fields.any_byte()? {
        0 => Ok(None),
        1 => Ok(Some(Goal::Create)),
        2 => {
            let usage = usage(fields, alloc, version)?;
            Ok(Some(Goal::Use(usage)))
        }
        3 => stop(fields, alloc),
        4 => Ok(Some(Goal::Delete)),
        _ => Err(ValueStop::Bad),
    }
}
