//! Where a row stands, by its id.
ghost use Rattle.std.specs.Prelude.{map, IfOk, IfErr};
ghost use Rattle.csi_fence.specs.Public.Rows.{AreRising, IsGapFor, IsPlaceOf};

use crate::table::Table;
use csi_types::VolumeId;

/// Where the row of this id is, or where it would go.
pub fn place_of<T: Table>(rows: &[T::Row], id: VolumeId) -> Result<usize, usize>
    requires rising { AreRising T.plan.id (map T.shown rows.now) }
    ensures found { IfOk result (IsPlaceOf T.plan.id (map T.shown rows.now) id) }
    ensures absent { IfErr result (IsGapFor T.plan.id (map T.shown rows.now) id) }
{
    rows.binary_search_by_key(&id.number(), |row| T::id(row).number())
}
