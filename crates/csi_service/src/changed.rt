//! What a frame changed of a plugin's record, whichever plugin it is, and the parts that say so.
ghost use Rattle.std.specs.Prelude.{◌≡◌, [], false, None, IfOk, IfSome};
ghost use Rattle.std.specs.List.{AllByRecursion};
ghost use Rattle.csi_types.specs.Public.VolumeId.{IsVolumeId};
ghost use Rattle.csi_service.specs.Private.Plugins.{forgotten_by};
ghost use Rattle.csi_service.specs.Public.Plugins.{row_id};

use crate::plugin::Plugin;
use csi_types::{NoMemory, Number, VolumeId};
use std::alloc::Global;

/// What a frame changed of a plugin's record.
#[derive(Drop)]
pub(crate) struct Changed {
    /// Whether the head says something new: another session, or another next id of a controller.
    pub new_head: bool,
    /// The volumes whose rows were forgotten, since the frame began a session.
    pub forgotten: Vec<VolumeId>,
    /// Where the row is that was changed or made: its place among the plugin's rows.
    pub row: Option<usize>,
}

/// Nothing was changed. It takes no memory.
pub(crate) fn nothing(alloc: Global) -> Changed
    ensures head { result.new_head ≡ false }
    ensures forgotten { result.forgotten.items ≡ [] }
    ensures row { result.row ≡ None }
{
    Changed {
        new_head: false,
        forgotten: Vec::new(alloc),
        row: None,
    }
}

/// For the proof alone: the id of the row at a place is a number from 1.
pub(crate) fn id_law<P: Plugin>(plugin: &P, place: Option<usize>)
    ensures { IfSome (row_id P.view place plugin.now) IsVolumeId }
{
    if let Some(place) = place {
        if let Some(row) = plugin.row_at(place) {
            let _number = P::id_of(row).number();
        }
    }
}

/// The volumes that a call of this number makes the plugin forget. Where it begins no session there are none, and no memory is asked for.
pub(crate) fn forgotten<P: Plugin>(
    alloc: Global,
    plugin: &P,
    number: Number,
) -> Result<Vec<VolumeId>, NoMemory>
    ensures ids { IfOk result (λ ids. ids.items ≡ forgotten_by P.view number plugin.now) }
    ensures limits { IfOk result (λ ids. AllByRecursion IsVolumeId ids.items) }
{
    if number.session <= plugin.numbers().1 {
        return Ok(Vec::new(alloc));
    }
    match plugin.forgettable() {
        Ok(ids) => {
            ids_law(&ids);
            Ok(ids)
        }
        Err(_) => Err(NoMemory),
    }
}

// For the proof alone: ids are numbers from 1.
fn ids_law(ids: &[VolumeId])
    ensures { AllByRecursion IsVolumeId ids.now }
{
    for id in ids {
        let _number = id.number();
    }
}
