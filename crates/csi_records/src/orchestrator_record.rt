//! An orchestrator's record, read from its parts.
ghost use Rattle.csi_stores.specs.Public.Part.{all_stored_in};
ghost use Rattle.csi_records.specs.Public.OrchestratorRecords.{orchestrator_layout, IsOrchestratorOf};
ghost use Rattle.csi_records.specs.Public.Records.{IsRecordOf};
ghost use Rattle.csi_records.specs.Public.Places.{ReadsParts};

use crate::fault::{RecordStop, ValueStop};
use crate::orchestrator_head::orchestrator_head_of;
use crate::orchestrator_rows::orchestrator_rows;
use crate::plugin_rows::ReadRows;
use crate::version::RecordVersion;
use csi_orchestrator::{OrchRecordFault, OrchestratorRecord};
use csi_stores::Part;
use std::alloc::Global;

/// The orchestrator's record of these parts, in this version, or the first of them that is refused.
pub(crate) fn orchestrator_record(
    alloc: Global,
    version: RecordVersion,
    parts: &[Part],
) -> Result<OrchestratorRecord, RecordStop>
    ensures { ReadsParts (IsRecordOf (orchestrator_layout version)) (IsOrchestratorOf version) (all_stored_in parts.now) result }
{
    let [first, others @ ..] = parts else {
        return Err(RecordStop::BadRecord(0));
    };
    let head = match orchestrator_head_of(alloc, version, first) {
        Ok(head) => head,
        Err(ValueStop::Bad) => return Err(RecordStop::BadRecord(0)),
        Err(ValueStop::NoMemory) => return Err(RecordStop::NoMemory),
    };
    let ReadRows { rows, all } = orchestrator_rows(alloc, version, others)?;
    let place = rows.len() as u64 + 1;
    match OrchestratorRecord::try_new(alloc, head.nodes, head.session, rows) {
        Ok(record) if all => Ok(record),
        Ok(_) => Err(RecordStop::BadRecord(place)),
        Err(OrchRecordFault::BadNodes) => Err(RecordStop::BadRecord(0)),
        Err(OrchRecordFault::BadRow(bad)) => Err(RecordStop::BadRecord(bad)),
        Err(OrchRecordFault::NoMemory) => Err(RecordStop::NoMemory),
    }
}
