//! The parts of a controller's record: its head, read, and its rows.
ghost use Rattle.std.specs.Prelude.{◌≡◌, ℕ, Some, None, IfOk, IfSome, OnErr, Option};
ghost use Rattle.csi_types.specs.Public.Limits.{IsWord};
ghost use Rattle.csi_frames.specs.Public.Bytes.{AreBytes};
ghost use Rattle.csi_stores.specs.Public.Part.{stored_in};
ghost use Rattle.csi_records.specs.Public.Spelling.{controller_head};
ghost use Rattle.csi_records.specs.Public.Records.{Head, IsHead};
ghost use Rattle.csi_records.specs.Private.Reading.{read_controller_head, read_whole};

use crate::fault::ValueStop;
use crate::fields::{live_of, session, tag};
use crate::items::list;
use crate::part_value::value_of;
use crate::plugin_rows::Row;
use crate::row_values::volume_value;
use crate::values::{KeptCall, kept};
use crate::version::RecordVersion;
use csi_controller::ControllerRow;
use csi_frames::Fields;
use csi_stores::{Part, push_value};
use csi_types::{CapabilityList, Name, NoMemory, VolumeId};
use std::alloc::Global;

impl Row for ControllerRow {
    ghost use Rattle.csi_records.specs.Private.Reading.{read_volume};
    ghost use Rattle.csi_records.specs.Public.Records.{IsVolumeRow};
    ghost use Rattle.csi_records.specs.Public.Spelling.{VolumeRow, volume_row, volume_part};
    ghost use Rattle.csi_records.specs.Public.Writing.{AreHeldFew};

    ghost Shown = { VolumeRow };

    ghost shown = { volume_row };

    ghost row_in = { read_volume };

    ghost row_part = { volume_part };

    ghost is_row = { IsVolumeRow };

    ghost is_small = { AreHeldFew };

    #[tactic(auto, unfolding(crate::specs::Private::Reading::read_volume, crate::specs::Private::Reading::read_code, crate::specs::Private::Reading::read_byte, crate::specs::Private::Reading::read_text, crate::specs::Private::Reading::read_word))]
    fn read(
        fields: &mut Fields<'_>,
        alloc: Global,
        version: RecordVersion,
        id: VolumeId,
    ) -> Result<ControllerRow, ValueStop> {
        let Some(live) = live_of(fields.any_byte()?) else {
            return Err(ValueStop::Bad);
        };
        let name = Name::try_new(alloc, fields.text(1, Name::MAX_LEN)?)?;
        let capacity = fields.word()?;
        let capabilities = CapabilityList::try_new(list(fields, alloc, version, 8)?).unwrap();
        let holdings = list(fields, alloc, version, 64)?;
        let KeptCall {
            number,
            kind,
            reply,
        } = kept(fields, alloc)?;
        Ok(ControllerRow {
            id,
            live,
            name,
            capacity,
            capabilities,
            holdings,
            last: number,
            kind,
            reply,
        })
    }

    fn push(&self, alloc: Global, parts: &mut Vec<Part>) -> Result<(), NoMemory> {
        let value = volume_value(alloc, self)?;
        push_value(parts, self.id.number(), value)
    }

    #[tactic(auto, using(crate::proofs::PartReaders::volume_read))]
    fn reading_law() {}
}

/// What the head of a controller's record tells: the next id, and the greatest session that came, where its version has it.
#[derive(Clone, Copy)]
pub(crate) struct ControllerHead {
    pub next_id: u64,
    pub session: Option<u64>,
}

// What the head tells of which this is the whole value, in this version.
#[tactic(auto, unfolding(crate::specs::Private::Reading::read_whole, crate::specs::Private::Reading::read_controller_head, crate::specs::Private::Reading::read_word))]
fn head_in(version: RecordVersion, value: &[u8]) -> Result<ControllerHead, ValueStop>
    ensures read { IfOk result (λ head. read_whole version (read_controller_head version) value.now ≡ Some (record {
      own = head.next_id;
      session = head.session;
    })) }
    ensures bad { OnErr result (read_whole version (read_controller_head version) value.now ≡ None) }
    ensures bytes { AreBytes value.now }
{
    let mut fields = Fields { bytes: value };
    tag(&mut fields, version.number())?;
    tag(&mut fields, 0)?;
    let next_id = fields.word()?;
    let session = session(&mut fields, version)?;
    if fields.bytes.is_empty() {
        Ok(ControllerHead { next_id, session })
    } else {
        Err(ValueStop::Bad)
    }
}

/// What this part, a head of this version, tells.
pub(crate) fn head_of(version: RecordVersion, part: &Part) -> Option<ControllerHead>
    ensures head { IfSome result (λ head. IsHead IsWord version (record { own = head.next_id; session = head.session })
        × (controller_head version head.next_id head.session ≡ stored_in part.now)) }
    ensures none { result ≡ None → (head : Head ℕ) → IsHead IsWord version head → controller_head version head.own head.session ≡ stored_in part.now → ⊥ }
{
    if part.key != 0 {
        return None;
    }
    match head_in(version, value_of(part)) {
        Ok(head) => Some(head),
        Err(_) => None,
    }
}
