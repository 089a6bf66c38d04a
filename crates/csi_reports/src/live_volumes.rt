//! The volumes that are there, in JSON.
ghost use Rattle.std.specs.Prelude.{◌≡◌, ◌++◌, OnOk};
ghost use Rattle.std.specs.List.{flat_map};
ghost use Rattle.json.specs.Tree.{json_tokens};
ghost use Rattle.serde_json.specs.Written.{outline};
ghost use Rattle.csi_reports.specs.Public.Entries.{entries, volume_entry};
ghost use Rattle.csi_reports.specs.Public.Listed.{live_rows};

use crate::writer::JsonWriter;
use csi_controller::ControllerRow;
use std::alloc::AllocError;

fn write_volume(out: &mut JsonWriter, row: &ControllerRow) -> Result<(), AllocError>
    ensures { OnOk result (out.new ≡ out.old ++ json_tokens (outline (volume_entry row.now))) }
{
    out.begin_object()?;
    out.put_number("capacity", row.capacity)?;
    out.put_number("id", row.id.number())?;
    out.put_text("name", row.name.as_str())?;
    out.end_object()
}

// Writes the volumes of the live rows, one after another.
fn write_all_live(out: &mut JsonWriter, rows: &[ControllerRow]) -> Result<(), AllocError>
    ensures { OnOk result (out.new ≡ out.old ++ flat_map (λ row. json_tokens (outline (volume_entry row))) (live_rows rows.now)) }
{
    for row in rows {
        if row.live {
            write_volume(out, row)?;
        }
    }
    Ok(())
}

/// Writes the volumes of the live rows, in their order, as an array.
#[tactic(auto, using(crate::proofs::WrittenLists::array_written))]
pub fn write_volumes(out: &mut JsonWriter, rows: &[ControllerRow]) -> Result<(), AllocError>
    ensures { OnOk result (out.new ≡ out.old ++ json_tokens (outline (entries volume_entry (live_rows rows.now)))) }
{
    out.begin_array()?;
    write_all_live(out, rows)?;
    out.end_array()
}
