//! Which volumes a node would forget.
ghost use Rattle.std.specs.Prelude.{◌≡◌, [], map, filter, is_none, IfOk, IsOk};
ghost use Rattle.csi_node.specs.Model.Record.{parts};

use crate::row::NodeRow;
use csi_fence::CoreFault;
use csi_types::VolumeId;
use std::alloc::Global;

/// The ids of the rows of volumes that aren't staged, in their order. Where there is none it takes no memory.
pub(crate) fn forgettable_ids(alloc: Global, rows: &[NodeRow]) -> Result<Vec<VolumeId>, CoreFault>
    ensures ids { IfOk result (λ list. list.items ≡ map (λ row. row.id) (filter (λ row. is_none row.staged) (parts rows.now))) }
    ensures none { filter (λ row. is_none row.staged) (parts rows.now) ≡ [] → IsOk result }
{
    let mut list = Vec::new(alloc);
    for row in rows {
        if row.staged.is_none() {
            list.push(row.id)?;
        }
    }
    Ok(list)
}
