//! Searches of lists that are in order, by halving.
ghost use Rattle.std.specs.Prelude.{◌≡◌, ◌==◌, find, position};
ghost use Rattle.std.specs.Option.{option_copied};
ghost use Rattle.csi_controller.specs.Public.Core.{AreRisingRows};
ghost use Rattle.csi_orchestrator.specs.Public.Listing.{IsInOrder};
ghost use Rattle.csi_world.specs.Private.Listed.{is_entry_of};

use csi_controller::ControllerRow;
use csi_orchestrator::{Known, Thing};
use csi_types::VolumeId;

// Where the row of this id is.
fn place_of_row(rows: &[ControllerRow], id: VolumeId) -> Option<usize>
    requires { AreRisingRows rows.now }
    ensures { result ≡ position (λ row. row.id == id) rows.now }
{
    rows.binary_search_by_key(&id.number(), |row| row.id.number())
        .ok()
}

/// The row of this id, of rows by rising id.
pub(crate) fn find_row(rows: &[ControllerRow], id: VolumeId) -> Option<&ControllerRow>
    requires { AreRisingRows rows.now }
    ensures { option_copied result ≡ find (λ row. row.id == id) rows.now }
{
    match place_of_row(rows, id) {
        Some(place) => Some(&rows[place]),
        None => None,
    }
}

/// Where something is noted of the thing in this list, which is in order.
pub(crate) fn place_of_noted(noted: &[(Thing, Known)], thing: &Thing) -> Option<usize>
    requires { IsInOrder noted.now }
    ensures { result ≡ position (is_entry_of thing.now) noted.now }
{
    noted.binary_search_by(|entry| entry.0.compare(thing)).ok()
}
