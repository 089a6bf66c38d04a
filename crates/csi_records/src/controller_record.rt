//! A controller's record, read from its parts.
ghost use Rattle.std.specs.Prelude.{◌≡◌, IfOk, IfErr, OnOk};
ghost use Rattle.csi_controller.specs.Public.Judging.{IsRecordRefusal};
ghost use Rattle.csi_stores.specs.Public.Part.{all_stored_in};
ghost use Rattle.csi_records.specs.Public.Records.{controller_layout, controller_record_of, AreControllerRows, IsControllerOf, IsRecordOf};
ghost use Rattle.csi_records.specs.Public.Places.{ReadsParts};

use crate::fault::RecordStop;
use crate::plugin_rows::{ReadRows, rows_of};
use crate::version::RecordVersion;
use crate::volumes::{ControllerHead, head_of};
use csi_controller::{ControllerRecord, ControllerRow};
use csi_fence::RecordFault;
use csi_stores::Part;
use std::alloc::Global;

// The record of these rows under this head: with the head's session, or without one.
fn record_of(
    alloc: Global,
    head: ControllerHead,
    rows: Vec<ControllerRow>,
) -> Result<ControllerRecord, RecordFault>
    ensures made { IfOk result (λ made. made ≡ controller_record_of head.next_id head.session rows.items) }
    ensures rules { OnOk result (AreControllerRows head.next_id head.session rows.items) }
    ensures refused { IfErr result (IsRecordRefusal (AreControllerRows head.next_id head.session) rows.items) }
{
    match head.session {
        Some(session) => ControllerRecord::try_new(alloc, head.next_id, rows, session),
        None => ControllerRecord::without_session(alloc, head.next_id, rows),
    }
}

/// The controller's record of these parts, in this version, or the first of them that is refused.
pub(crate) fn controller_record(
    alloc: Global,
    version: RecordVersion,
    parts: &[Part],
) -> Result<ControllerRecord, RecordStop>
    ensures { ReadsParts (IsRecordOf (controller_layout version)) (IsControllerOf version) (all_stored_in parts.now) result }
{
    let [first, others @ ..] = parts else {
        return Err(RecordStop::BadRecord(0));
    };
    let Some(head) = head_of(version, first) else {
        return Err(RecordStop::BadRecord(0));
    };
    let ReadRows { rows, all } = rows_of(alloc, version, others)?;
    let place = rows.len() as u64 + 1;
    match record_of(alloc, head, rows) {
        Ok(record) if all => Ok(record),
        Ok(_) => Err(RecordStop::BadRecord(place)),
        Err(RecordFault::BadRow(bad)) => Err(RecordStop::BadRecord(bad)),
        Err(RecordFault::NoMemory) => Err(RecordStop::NoMemory),
    }
}
