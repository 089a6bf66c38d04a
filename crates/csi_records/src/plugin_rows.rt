//! The rows of either plugin's record: read from parts, and written as parts.
ghost use Rattle.std.specs.Prelude.{◌≡◌, ◌++◌, [], ◌∷◌, ℕ, List, Some, None, map, IfOk, IsErrOf, OnOk};
ghost use Rattle.std.specs.List.{AllByRecursion};
ghost use Rattle.csi_types.specs.Public.VolumeId.{IsVolumeId};
ghost use Rattle.csi_records.specs.declared.version.RecordVersion.{RecordVersion};
ghost use Rattle.csi_frames.specs.Public.Bytes.{AreBytes};
ghost use Rattle.csi_stores.specs.Public.Part.{StoredPart, stored_in, all_stored_in, part_change, put_all};
ghost use Rattle.csi_records.specs.Private.Reading.{Reader, IsReadWhole, read_whole};
ghost use Rattle.csi_records.specs.Public.Spelling.{present};
ghost use Rattle.csi_records.specs.Private.Stopping.{AreRead};

use crate::fault::ValueStop;
use crate::fields::tag;
use crate::part_value::value_of;
use crate::version::RecordVersion;
use csi_frames::Fields;
use csi_stores::{Part, push_value};
use csi_types::{NoMemory, VolumeId};
use std::alloc::Global;

/// A row of a plugin's record. It is read in any version, and written in the present one.
pub(crate) trait Row: Drop {
    /// A row as definitions have it.
    ghost Shown: { Type 0 };

    ghost shown: { Self → Shown };

    /// How the row of this id is read, behind the version.
    ghost row_in: { RecordVersion → ℕ → Reader Shown };

    /// What spells a row.
    ghost row_part: { RecordVersion → Shown → StoredPart };

    /// A row is within its limits.
    ghost is_row: { RecordVersion → Shown → Type 0 };

    /// The counts of the row's lists are bytes.
    ghost is_small: { Self → Type 0 };

    /// A row's fields, behind the version.
    fn read(
        fields: &mut Fields<'_>,
        alloc: Global,
        version: RecordVersion,
        id: VolumeId,
    ) -> Result<Self, ValueStop>
        ensures read { IfOk result (λ row. row_in version id fields.old.bytes.now ≡ Some (shown row, fields.new.bytes.now)) }
        ensures bad { IsErrOf result ValueStop.Bad → row_in version id fields.old.bytes.now ≡ None };

    /// Puts the row's part at the end.
    fn push(&self, alloc: Global, parts: &mut Vec<Part>) -> Result<(), NoMemory>
        requires { is_small self.now }
        ensures pushed { OnOk result (map part_change parts.new.items ≡ map part_change parts.old.items ++ put_all (row_part present (shown self.now) ∷ [])) }
        ensures fits { OnOk result (is_row present (shown self.now)) };

    /// A law, and nothing that runs: a row is read from its part, and from no other.
    fn reading_law()
        ensures { (version : RecordVersion) → IsReadWhole version (row_in version) IsVolumeId (is_row version) (row_part version) };
}

// The row of which this is the whole value, in this version.
#[tactic(auto, unfolding(crate::specs::Private::Reading::read_whole))]
fn row_in<T: Row>(
    alloc: Global,
    version: RecordVersion,
    id: VolumeId,
    value: &[u8],
) -> Result<T, ValueStop>
    ensures read { IfOk result (λ row. read_whole version (T.row_in version id) value.now ≡ Some (T.shown row)) }
    ensures bad { IsErrOf result ValueStop.Bad → read_whole version (T.row_in version id) value.now ≡ None }
    ensures bytes { AreBytes value.now }
    ensures id { IsVolumeId id }
{
    let _number = id.number();
    let mut fields = Fields { bytes: value };
    tag(&mut fields, version.number())?;
    let row = T::read(&mut fields, alloc, version, id)?;
    if fields.bytes.is_empty() {
        Ok(row)
    } else {
        Err(ValueStop::Bad)
    }
}

// The row that this part spells, in this version.
fn row_of<T: Row>(alloc: Global, version: RecordVersion, part: &Part) -> Result<T, ValueStop>
    ensures row { IfOk result (λ row. T.is_row version (T.shown row) × (T.row_part version (T.shown row) ≡ stored_in part.now)) }
    ensures bad { IsErrOf result ValueStop.Bad → (row : T.Shown) → T.is_row version row → T.row_part version row ≡ stored_in part.now → ⊥ }
{
    T::reading_law();
    let Some(id) = VolumeId::try_new(part.key) else {
        return Err(ValueStop::Bad);
    };
    row_in(alloc, version, id, value_of(part))
}

/// The rows that were read, and whether all parts are rows.
#[derive(Drop)]
pub(crate) struct ReadRows<T> {
    pub rows: Vec<T>,
    pub all: bool,
}

/// The rows of these parts, until one is none of this version.
pub(crate) fn rows_of<T: Row>(
    alloc: Global,
    version: RecordVersion,
    parts: &[Part],
) -> Result<ReadRows<T>, NoMemory>
    ensures { IfOk result (λ read. AreRead (T.row_part version) (T.is_row version) (all_stored_in parts.now) (map T.shown read.rows.items) read.all) }
{
    let mut rows = Vec::new(alloc);
    for part in parts {
        match row_of(alloc, version, part) {
            Ok(row) => rows.push(row)?,
            Err(ValueStop::Bad) => return Ok(ReadRows { rows, all: false }),
            Err(ValueStop::NoMemory) => return Err(NoMemory),
        }
    }
    Ok(ReadRows { rows, all: true })
}

/// The parts of the record with a head of this value and these rows.
pub(crate) fn parts_with<T: Row>(
    alloc: Global,
    head: Vec<u8>,
    rows: &[T],
) -> Result<Vec<Part>, NoMemory>
    requires { AllByRecursion T.is_small rows.now }
    ensures parts { IfOk result (λ parts. map part_change parts.items ≡ put_all (record {
      key = 0;
      value = head.items;
    } ∷ map (T.row_part present) (map T.shown rows.now))) }
    ensures fit { IfOk result (λ parts. AllByRecursion (T.is_row present) (map T.shown rows.now)) }
{
    let mut parts = Vec::new(alloc);
    push_value(&mut parts, 0, head)?;
    for row in rows {
        row.push(alloc, &mut parts)?;
    }
    Ok(parts)
}
