//! The rows of an orchestrator's record, read from parts.
ghost use Rattle.std.specs.Prelude.{◌≡◌, map, IfOk, IsErrOf};
ghost use Rattle.csi_orchestrator.specs.Public.Shown.{row_shown};
ghost use Rattle.csi_stores.specs.Public.Part.{stored_in, all_stored_in};
ghost use Rattle.csi_records.specs.Public.OrchestratorSpelling.{KeyedRow, orchestrator_part};
ghost use Rattle.csi_records.specs.Public.OrchestratorRecords.{IsKeyedRow};
ghost use Rattle.csi_records.specs.Private.Stopping.{IsRowUnder, AreReadInOrder};

use crate::fault::ValueStop;
use crate::orchestrator_row::orchestrator_row_in;
use crate::part_value::value_of;
use crate::plugin_rows::ReadRows;
use crate::version::RecordVersion;
use csi_orchestrator::Row;
use csi_stores::Part;
use csi_types::NoMemory;
use std::alloc::Global;

// The row that this part spells in this version, where it stands under its place, counted from 1.
fn row_at(alloc: Global, version: RecordVersion, place: u64, part: &Part) -> Result<Row, ValueStop>
    ensures row { IfOk result (λ row. IsKeyedRow version (record { key = place; row = row_shown row })
        × (orchestrator_part version (record { key = place; row = row_shown row }) ≡ stored_in part.now)) }
    ensures bad { IsErrOf result ValueStop.Bad → (row : KeyedRow) → IsRowUnder version place row →
        orchestrator_part version row ≡ stored_in part.now → ⊥ }
{
    if part.key != place {
        return Err(ValueStop::Bad);
    }
    orchestrator_row_in(alloc, version, value_of(part))
}

/// The rows of these parts, until one is none of this version under the next key.
pub(crate) fn orchestrator_rows(
    alloc: Global,
    version: RecordVersion,
    parts: &[Part],
) -> Result<ReadRows<Row>, NoMemory>
    ensures { IfOk result (λ read. AreReadInOrder version (all_stored_in parts.now) (map row_shown read.rows.items) read.all) }
{
    let mut rows = Vec::new(alloc);
    for part in parts {
        let place = rows.len() as u64 + 1;
        match row_at(alloc, version, place, part) {
            Ok(row) => rows.push(row)?,
            Err(ValueStop::Bad) => return Ok(ReadRows { rows, all: false }),
            Err(ValueStop::NoMemory) => return Err(NoMemory),
        }
    }
    Ok(ReadRows { rows, all: true })
}
