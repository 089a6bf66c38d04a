//! What a controller's readers show.
ghost use Rattle.std.specs.Prelude.{◌≡◌, ◌==◌, None, find, map, IfOk, IsOk};
ghost use Rattle.csi_types.specs.Model.Same.{same_text};
ghost use Rattle.csi_fence.specs.Public.Rows.{AreRising};
ghost use Rattle.csi_controller.specs.Public.Names.{by_name, by_text};
ghost use Rattle.csi_controller.specs.Public.OneRow.{row_shown};
ghost use Rattle.csi_controller.specs.Public.Plan.{controller_plan};
ghost use Rattle.csi_controller.specs.Private.OneRow.{row_if_live};
ghost use Rattle.csi_controller.specs.Public.Views.{IsCopyOf};

use crate::names::{find_id, place_of_name};
use crate::row::ControllerRow;
use csi_fence::CoreFault;
use csi_types::VolumeId;
use indexmap::IndexMap;

/// Id and capacity of the volume of this name, unless it was deleted.
pub fn volume(
    ids: &IndexMap<String, VolumeId>,
    rows: &[ControllerRow],
    name: &str,
) -> Option<(VolumeId, u64)>
    requires { map by_text ids.now.entries ≡ map by_name (map row_shown rows.now) }
    ensures { result ≡ row_if_live (find (λ row. same_text row.name name.now) rows.now) }
{
    match place_of_name(ids, name) {
        Some(place) => {
            let row = &rows[place];
            if row.live {
                Some((row.id, row.capacity))
            } else {
                None
            }
        }
        None => None,
    }
}

/// A copy of the row of this id. Without one it takes no memory.
pub fn copied_row(rows: &[ControllerRow], id: VolumeId) -> Result<Option<ControllerRow>, CoreFault>
    requires { AreRising controller_plan.id (map row_shown rows.now) }
    ensures copy { IfOk result (IsCopyOf (find (λ row. row.id == id) rows.now)) }
    ensures succeeds { find (λ row. row.id == id) rows.now ≡ None → IsOk result }
{
    match find_id(rows, id) {
        Some(place) => {
            let copy = rows[place].clone()?;
            Ok(Some(copy))
        }
        None => Ok(None),
    }
}
