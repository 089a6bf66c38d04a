//! Rows that are taken out of a store.
ghost use Rattle.std.specs.Prelude.{◌≡◌, ◌++◌, map, OnOk};
ghost use Rattle.csi_stores.specs.Public.Part.{part_change, take_all};

use csi_stores::{Part, push_removal};
use csi_types::{NoMemory, VolumeId};

/// Puts at the end that the rows of these volumes are taken out. This profile's own.
pub fn push_removals(parts: &mut Vec<Part>, ids: &[VolumeId]) -> Result<(), NoMemory>
    ensures { OnOk result (map part_change parts.new.items ≡ map part_change parts.old.items ++ take_all ids.now) }
{
    for id in ids {
        push_removal(parts, id.number())?;
    }
    Ok(())
}
