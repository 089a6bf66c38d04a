//! The names of rows, each with its id, in the order of the rows.
ghost use Rattle.std.specs.Prelude.{◌≡◌, ◌<◌, ◌==◌, List, map, filter, find, position, option_map, IfOk};
ghost use Rattle.indexmap.specs.IndexMap.{spare};
ghost use Rattle.csi_types.specs.Model.Same.{same_text};
ghost use Rattle.csi_fence.specs.Public.Rows.{AreRising, stays_in};
ghost use Rattle.csi_controller.specs.Public.Core.{AreSoundRows};
ghost use Rattle.csi_controller.specs.Public.WithoutSession.{stays_in as row_stays};
ghost use Rattle.csi_controller.specs.Public.Names.{by_name, by_text};
ghost use Rattle.csi_controller.specs.Public.OneRow.{RowShown, row_shown};
ghost use Rattle.csi_controller.specs.Public.Plan.{controller_plan};
ghost use Rattle.csi_controller.specs.Private.Plan.{is_kept};

use crate::row::ControllerRow;
use csi_fence::CoreFault;
use csi_types::VolumeId;
use indexmap::IndexMap;
use std::alloc::Global;

/// The names of these rows.
pub fn names_of(
    alloc: Global,
    next_id: u64,
    rows: &[ControllerRow],
) -> Result<IndexMap<String, VolumeId>, CoreFault>
    requires { AreSoundRows next_id rows.now }
    ensures { IfOk result (λ ids. map by_text ids.entries ≡ map by_name (map row_shown rows.now)) }
{
    let mut ids = IndexMap::new(alloc);
    for row in rows {
        let text = String::from_str(alloc, row.name.as_str())?;
        ids.reserve(1)?;
        ids.insert(text, row.id).unwrap();
    }
    Ok(ids)
}

/// Where the row of this name is.
#[inline]
pub fn place_of_name(ids: &IndexMap<String, VolumeId>, name: &str) -> Option<usize>
    ensures { (rows : List RowShown) → map by_text ids.now.entries ≡ map by_name rows →
        result ≡ position (λ row. same_text row.volume.name name.now) rows }
{
    ids.get_index_of(name)
}

/// The id of this name.
pub fn id_of_name(ids: &IndexMap<String, VolumeId>, name: &str) -> Option<VolumeId>
    ensures { (rows : List RowShown) → map by_text ids.now.entries ≡ map by_name rows →
        result ≡ option_map (λ row. row.volume.id) (find (λ row. same_text row.volume.name name.now) rows) }
{
    match ids.get(name) {
        Some(id) => Some(*id),
        None => None,
    }
}

/// Whether the row stays in this session: its volume is live, or its last call is of that session.
pub fn stays(row: &ControllerRow, session: u64) -> bool
    ensures { result ≡ row_stays session row.now }
{
    row.live || row.last.session == session
}

/// Where the row of this id is, if there is one.
#[inline]
pub fn find_id(rows: &[ControllerRow], id: VolumeId) -> Option<usize>
    requires { AreRising controller_plan.id (map row_shown rows.now) }
    ensures { result ≡ position (λ row. row.volume.id == id) (map row_shown rows.now) }
{
    rows.binary_search_by_key(&id.number(), |row| row.id.number())
        .ok()
}

// Whether the row of this id stays in this session.
fn is_id_kept(rows: &[ControllerRow], id: VolumeId, session: u64) -> bool
    requires { AreRising controller_plan.id (map row_shown rows.now) }
    ensures { result ≡ is_kept session id (map row_shown rows.now) }
{
    match find_id(rows, id) {
        Some(place) => stays(&rows[place], session),
        None => false,
    }
}

/// Leaves out the names of the rows that don't stay in this session. It takes no memory, and the room that there was stays.
pub fn forget_names(ids: &mut IndexMap<String, VolumeId>, rows: &[ControllerRow], session: u64)
    requires rising { AreRising controller_plan.id (map row_shown rows.now) }
    requires names { map by_text ids.old.entries ≡ map by_name (map row_shown rows.now) }
    ensures names { map by_text ids.new.entries ≡ map by_name (filter (stays_in controller_plan session) (map row_shown rows.now)) }
    ensures room { 0 < spare ids.old → 0 < spare ids.new }
{
    ids.retain(|_text, id| is_id_kept(rows, *id, session));
}
