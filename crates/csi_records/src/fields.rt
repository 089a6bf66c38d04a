//! The fields of a value that frames don't have, read one after another from its bytes.
ghost use Rattle.std.specs.Prelude.{◌≡◌, Some, None, IfOk, OnErr};
ghost use Rattle.csi_records.specs.Private.Reading.{read_session, read_tag, live_from};

use crate::fault::ValueStop;
use crate::version::RecordVersion;
use csi_frames::Fields;

/// The byte `n`.
#[tactic(auto, unfolding(crate::specs::Private::Reading::read_tag, crate::specs::Private::Reading::read_code, crate::specs::Private::Reading::read_byte))]
pub(crate) fn tag(fields: &mut Fields<'_>, n: u8) -> Result<(), ValueStop>
    ensures read { IfOk result (λ u. read_tag n fields.old.bytes.now ≡ Some (tt, fields.new.bytes.now)) }
    ensures bad { OnErr result (read_tag n fields.old.bytes.now ≡ None) }
{
    let byte = fields.any_byte()?;
    if byte == n {
        Ok(())
    } else {
        Err(ValueStop::Bad)
    }
}

/// The greatest session that came, where the version has it.
#[tactic(auto, unfolding(crate::specs::Private::Reading::read_session, crate::specs::Private::Reading::read_word))]
pub(crate) fn session(
    fields: &mut Fields<'_>,
    version: RecordVersion,
) -> Result<Option<u64>, ValueStop>
    ensures read { IfOk result (λ session. read_session version fields.old.bytes.now ≡ Some (session, fields.new.bytes.now)) }
    ensures bad { OnErr result (read_session version fields.old.bytes.now ≡ None) }
{
    if !version.has_session() {
        return Ok(None);
    }
    let session = fields.word()?;
    Ok(Some(session))
}

/// Whether a volume is live, by its byte: 1, or 2 where it was deleted.
pub(crate) fn live_of(byte: u8) -> Option<bool>
    ensures { result ≡ live_from byte }
{
    match byte {
        1 => Some(true),
        2 => Some(false),
        _ => None,
    }
}
