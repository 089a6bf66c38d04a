//! What a controller's record was made of, as a line.
ghost use Rattle.std.specs.Prelude.{◌≡◌, ◌∷◌, ◌++◌, ◌≤◌, ℕ, List, map, IfOk, OnOk, string_bytes};
ghost use Rattle.json.specs.Tree.{json_tokens};
ghost use Rattle.serde_json.specs.Written.{outline};
ghost use Rattle.csi_reports.specs.Public.Rebuildings.{attachments_of, rebuilding_entry, IsRebuildingLine};

use crate::by_name::creating_by_name;
use crate::members::put_array;
use crate::writer::JsonWriter;
use csi_controller::{ControllerRecord, ControllerRow};
use csi_orchestrator::OrchestratorRecord;
use csi_types::{Name, NoMemory};
use std::alloc::{AllocError, Global};

// How often these volumes are attached.
fn attachments(rows: &[ControllerRow]) -> u64
    requires { attachments_of rows.now ≤ 262144 }
    ensures { result ≡ attachments_of rows.now }
{
    let mut count = 0;
    for row in rows {
        count += row.holdings.len() as u64;
    }
    count
}

// Writes what was made.
fn write_rebuilding(
    out: &mut JsonWriter,
    attached: u64,
    creating: &[&Name],
    next_id: u64,
    session: u64,
    volumes: u64,
) -> Result<(), AllocError>
    ensures { OnOk result (out.new ≡ out.old ++ json_tokens (outline (rebuilding_entry attached (map (λ name. name.now) creating.now) next_id session volumes))) }
{
    out.begin_object()?;
    out.put_number("attached", attached)?;
    put_array(out, "creating", creating)?;
    out.put_number("next", next_id)?;
    out.put_number("session", session)?;
    out.put_number("volumes", volumes)?;
    out.end_object()
}

/// What was made of an orchestrator's record where the controller's was lost, as one line of JSON in compact form, without its newline: how often
/// volumes are attached (`attached`), the names of which no id is known (`creating`), byte by byte, the next id (`next`), the session (`session`),
/// and how many volumes there are (`volumes`). An `Err` is an allocation that was refused. This profile's own.
pub fn rebuilding_line(
    alloc: Global,
    kept: &OrchestratorRecord,
    made: &ControllerRecord,
) -> Result<String, NoMemory>
    ensures { IfOk result (λ text. IsRebuildingLine kept.now made.now (string_bytes text)) }
{
    let creating = creating_by_name(alloc, kept.rows())?;
    let rows = made.rows();
    let attached = attachments(rows);
    let mut out = JsonWriter::new(alloc);
    write_rebuilding(
        &mut out,
        attached,
        &creating,
        made.next_id(),
        made.session(),
        rows.len() as u64,
    )?;
    Ok(out.into_string())
}
