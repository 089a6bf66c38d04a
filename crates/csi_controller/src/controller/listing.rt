//! The rows of a controller, how many they are, and those of deleted volumes.
ghost use Rattle.std.specs.Prelude.{◌≡◌, ◌≤◌, [], ◌+◌, ◌==◌, IfOk, IsOk, count_by, filter, length, map, not};

use super::{Controller, current_law, sound_law};
use crate::row::ControllerRow;
use csi_fence::CoreFault;
use csi_types::VolumeId;
use std::alloc::Global;

// The ids of the rows of deleted volumes, in order. Where there is none it takes no memory.
fn forgettable_ids(rows: &[ControllerRow], alloc: Global) -> Result<Vec<VolumeId>, CoreFault>
    ensures ids { IfOk result (λ ids. ids.items ≡ map (λ row. row.id) (filter (λ row. not row.live) rows.now)) }
    ensures none { filter (λ row. not row.live) rows.now ≡ [] → IsOk result }
{
    let mut ids = Vec::new(alloc);
    for row in rows {
        if !row.live {
            ids.push(row.id)?;
        }
    }
    Ok(ids)
}

impl Controller {
    ghost use Rattle.csi_controller.specs.Public.Core.{AreSoundRows};

    /// The rows, each of a volume that is live, or was deleted and isn't forgotten, by rising id. It takes no memory.
    pub fn all_rows(&self) -> &[ControllerRow]
        ensures value { result.now ≡ self.now.rows }
        ensures sound { AreSoundRows self.now.next_id self.now.rows }
    {
        sound_law(self);
        self.rows.rows.as_slice()
    }

    /// How many rows there are: at most as many as there are live volumes, and as there are whose last call is of the greatest session
    /// that came. It takes no memory.
    pub fn row_count(&self) -> usize
        ensures value { result ≡ length self.now.rows }
        ensures few { result ≤ count_by (λ row. row.live) self.now.rows + count_by (λ row. row.last.session == self.now.session) self.now.rows }
    {
        current_law(self);
        self.rows.rows.as_slice().len()
    }

    /// The ids of the rows of volumes that were deleted, by rising id: those that are forgotten where a later session begins.
    /// Where there is none it takes no memory. An `Err` is an allocation that was refused.
    pub fn forgettable(&self) -> Result<Vec<VolumeId>, CoreFault>
        ensures ids { IfOk result (λ ids. ids.items ≡ map (λ row. row.id) (filter (λ row. not row.live) self.now.rows)) }
        ensures none { filter (λ row. not row.live) self.now.rows ≡ [] → IsOk result }
    {
        forgettable_ids(self.rows.rows.as_slice(), self.rows.alloc)
    }
}
