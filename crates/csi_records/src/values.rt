//! How a volume is staged, and the last call that is kept, read from the bytes of a value.
ghost use Rattle.std.specs.Prelude.{◌≡◌, Some, None, IfOk, IsErrOf};
ghost use Rattle.csi_records.specs.Private.Reading.{read_kept, read_staged};

use crate::fault::ValueStop;
use crate::items::Item;
use crate::version::RecordVersion;
use csi_frames::{Fields, number_at, reply_kind, status_at};
use csi_types::{Capability, Detail, Kind, Number, Reply, VolumeId};
use std::alloc::Global;

/// How a volume is staged, if it is.
#[tactic(auto, unfolding(crate::specs::Private::Reading::read_staged, crate::specs::Private::Reading::read_flag))]
pub(crate) fn staged(
    fields: &mut Fields<'_>,
    alloc: Global,
    version: RecordVersion,
) -> Result<Option<Capability>, ValueStop>
    ensures read { IfOk result (λ staged. read_staged version fields.old.bytes.now ≡ Some (staged, fields.new.bytes.now)) }
    ensures bad { IsErrOf result ValueStop.Bad → read_staged version fields.old.bytes.now ≡ None }
{
    if !fields.flag()? {
        return Ok(None);
    }
    let capability = Capability::read(fields, alloc, version)?;
    Ok(Some(capability))
}

/// The last call that is kept.
#[derive(Drop)]
pub(crate) struct KeptCall {
    pub number: Number,
    pub kind: Kind,
    pub reply: Reply,
}

/// The last call that is kept: its number, the kind of its reply, and the reply.
#[tactic(auto, unfolding(crate::specs::Private::Reading::read_kept, crate::specs::Private::Reading::read_number, crate::specs::Private::Reading::read_code, crate::specs::Private::Reading::read_byte, crate::specs::Private::Reading::read_reply, crate::specs::Private::Reading::read_status, crate::specs::Private::Reading::read_reply_id, crate::specs::Private::Reading::read_word, crate::specs::Private::Reading::read_text))]
pub(crate) fn kept(fields: &mut Fields<'_>, alloc: Global) -> Result<KeptCall, ValueStop>
    ensures read { IfOk result (λ kept. read_kept fields.old.bytes.now ≡ Some (
      record {
        number = kept.number;
        kind = kept.kind;
        reply = kept.reply;
      },
      fields.new.bytes.now,
    )) }
    ensures bad { IsErrOf result ValueStop.Bad → read_kept fields.old.bytes.now ≡ None }
{
    let number = number_at(fields)?;
    let Some(kind) = reply_kind(fields.any_byte()?) else {
        return Err(ValueStop::Bad);
    };
    let status = status_at(fields)?;
    let id = VolumeId::try_new(fields.word()?);
    let detail = Detail::try_new(alloc, fields.text(0, Detail::MAX_LEN)?)?;
    let reply = Reply { status, id, detail };
    Ok(KeptCall {
        number,
        kind,
        reply,
    })
}
