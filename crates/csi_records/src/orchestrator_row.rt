//! A row of an orchestrator's record, read.
ghost use Rattle.std.specs.Prelude.{◌≡◌, Some, None, IfOk, IsErrOf};
ghost use Rattle.csi_frames.specs.Public.Bytes.{AreBytes};
ghost use Rattle.csi_orchestrator.specs.Public.Shown.{row_shown};
ghost use Rattle.csi_records.specs.Private.Reading.{read_whole};
ghost use Rattle.csi_records.specs.Private.OrchestratorReading.{read_orchestrator_row};

use crate::entries::node_entries;
use crate::fault::ValueStop;
use crate::fields::tag;
use crate::orchestrator_fields::{arguments, goal, id_if, known};
use crate::version::RecordVersion;
use csi_frames::{FaultKind, Fields};
use csi_orchestrator::Row;
use csi_types::Name;
use std::alloc::Global;

// A row's fields, behind the version.
#[tactic(auto, unfolding(crate::specs::Private::OrchestratorReading::read_orchestrator_row, crate::specs::Private::Reading::read_text, crate::specs::Private::Reading::read_count))]
fn row(fields: &mut Fields<'_>, alloc: Global, version: RecordVersion) -> Result<Row, ValueStop>
    ensures read { IfOk result (λ row. read_orchestrator_row version fields.old.bytes.now ≡ Some (row_shown row, fields.new.bytes.now)) }
    ensures bad { IsErrOf result ValueStop.Bad → read_orchestrator_row version fields.old.bytes.now ≡ None }
{
    let name = Name::try_new(alloc, fields.text(1, Name::MAX_LEN)?)?;
    let arguments = arguments(fields, alloc, version)?;
    let id = id_if(fields)?;
    let exists = known(fields)?;
    let goal = goal(fields, alloc, version)?;
    let tries = fields.byte(3, FaultKind::BadCount)? as u64;
    let node_entries = node_entries(fields, alloc, version)?;
    Ok(Row {
        name,
        arguments,
        id,
        exists,
        goal,
        open_call: None,
        tries,
        node_entries,
    })
}

/// The row of which this is the whole value, in this version.
#[tactic(auto, unfolding(crate::specs::Private::Reading::read_whole))]
pub(crate) fn orchestrator_row_in(
    alloc: Global,
    version: RecordVersion,
    value: &[u8],
) -> Result<Row, ValueStop>
    ensures read { IfOk result (λ row. read_whole version (read_orchestrator_row version) value.now ≡ Some (row_shown row)) }
    ensures bad { IsErrOf result ValueStop.Bad → read_whole version (read_orchestrator_row version) value.now ≡ None }
    ensures bytes { AreBytes value.now }
{
    let mut fields = Fields { bytes: value };
    tag(&mut fields, version.number())?;
    let row = row(&mut fields, alloc, version)?;
    if fields.bytes.is_empty() {
        Ok(row)
    } else {
        Err(ValueStop::Bad)
    }
}
