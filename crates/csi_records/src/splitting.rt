//! The bytes of a whole record, split into parts.
ghost use Rattle.std.specs.Prelude.{◌≡◌, Some, None, IfOk, OnErr, IsErrOf};
ghost use Rattle.csi_stores.specs.Public.Part.{stored_in, all_stored_in};
ghost use Rattle.csi_records.specs.Private.Reading.{read_long, read_part};
ghost use Rattle.csi_records.specs.Private.Stopping.{AreSplit, HasNoHead};

use crate::fault::ValueStop;
use crate::version::RecordVersion;
use byteorder::{BigEndian, ByteOrder};
use csi_frames::Fields;
use csi_stores::Part;
use std::alloc::Global;

/// The version and the parts that bytes have, and whether the bytes are all of them.
#[derive(Drop)]
pub(crate) struct SplitParts {
    pub version: RecordVersion,
    pub parts: Vec<Part>,
    pub all: bool,
}

// A number of 32 bits.
#[tactic(auto, unfolding(crate::specs::Private::Reading::read_long, crate::specs::Private::Reading::read_bytes))]
fn long(fields: &mut Fields<'_>) -> Result<u32, ValueStop>
    ensures read { IfOk result (λ n. read_long fields.old.bytes.now ≡ Some (n, fields.new.bytes.now)) }
    ensures bad { OnErr result (read_long fields.old.bytes.now ≡ None) }
{
    if fields.bytes.len() < 4 {
        return Err(ValueStop::Bad);
    }
    let (front, rest) = fields.bytes.split_at(4);
    fields.bytes = rest;
    Ok(BigEndian::read_u32(front))
}

// A part.
#[tactic(auto, unfolding(crate::specs::Private::Reading::read_part, crate::specs::Private::Reading::read_word, crate::specs::Private::Reading::read_bytes))]
fn part(fields: &mut Fields<'_>, alloc: Global) -> Result<Part, ValueStop>
    ensures read { IfOk result (λ part. read_part fields.old.bytes.now ≡ Some (stored_in part, fields.new.bytes.now)) }
    ensures bad { IsErrOf result ValueStop.Bad → read_part fields.old.bytes.now ≡ None }
{
    let key = fields.word()?;
    let count = long(fields)? as usize;
    if fields.bytes.len() < count {
        return Err(ValueStop::Bad);
    }
    let (value, rest) = fields.bytes.split_at(count);
    fields.bytes = rest;
    let value = Vec::from_slice(alloc, value)?;
    Ok(Part {
        key,
        value: Some(value),
    })
}

/// The parts of bytes, until one is none; `Bad` where no version and number of parts stand in front.
#[tactic(auto, unfolding(crate::specs::Private::Reading::read_record_head, crate::specs::Private::Reading::read_code, crate::specs::Private::Reading::read_byte))]
pub(crate) fn split(alloc: Global, bytes: &[u8]) -> Result<SplitParts, ValueStop>
    ensures split { IfOk result (λ split. AreSplit split.version bytes.now (all_stored_in split.parts.items) split.all) }
    ensures bad { IsErrOf result ValueStop.Bad → HasNoHead bytes.now }
{
    let mut fields = Fields { bytes };
    let Some(version) = RecordVersion::from_number(fields.any_byte()?) else {
        return Err(ValueStop::Bad);
    };
    let count = long(&mut fields)?;
    if count == 0 {
        return Err(ValueStop::Bad);
    }
    let mut parts = Vec::new(alloc);
    for _ in 0..count {
        match part(&mut fields, alloc) {
            Ok(one) => parts.push(one)?,
            Err(ValueStop::Bad) => {
                return Ok(SplitParts {
                    version,
                    parts,
                    all: false,
                });
            }
            Err(ValueStop::NoMemory) => return Err(ValueStop::NoMemory),
        }
    }
    Ok(SplitParts {
        version,
        parts,
        all: fields.bytes.is_empty(),
    })
}
