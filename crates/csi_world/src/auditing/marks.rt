//! Whether what the orchestrator knows is so.
ghost use Rattle.std.specs.Prelude.{◌≡◌, ◌↔◌, ◌&&◌, List, [], length, map, IfOk, IsTrue};
ghost use Rattle.std.specs.List.{list_all};
ghost use Rattle.csi_orchestrator.specs.Public.Listing.{IsInOrder};
ghost use Rattle.csi_orchestrator.specs.Model.Shown.{orchestrator_view};
ghost use Rattle.csi_orchestrator.specs.declared.thing.Thing.{Thing as ThingParts};
ghost use Rattle.csi_world.specs.Model.World.{World};
ghost use Rattle.csi_world.specs.Public.Audited.{AreMarkedRight};
ghost use Rattle.csi_world.specs.Private.Listed.{AreRowsApart, IsListed, is_affirmed, is_entry_listed, is_noted};

use super::halving::place_of_noted;
use super::lists::NodeLists;
use super::things::list_things;
use csi_controller::ControllerRow;
use csi_orchestrator::{Known, Orchestrator, Thing};
use csi_types::NoMemory;
use std::alloc::Global;

// Marks each entry whose thing is among these. Whether something is noted of each of them.
fn mark_noted(things: &[Thing], noted: &[(Thing, Known)], marks: &mut [bool]) -> bool
    requires ordered { IsInOrder noted.now }
    requires unmarked { marks.old ≡ map (is_entry_listed []) noted.now }
    ensures all { result ≡ list_all (is_noted noted.now) things.now }
    ensures marked { IsTrue result → marks.new ≡ map (is_entry_listed things.now) noted.now }
{
    for thing in things {
        match place_of_noted(noted, thing) {
            Some(place) => marks[place] = true,
            None => return false,
        }
    }
    true
}

// Whether each entry is marked whose thing is known to be so.
fn are_affirmed(noted: &[(Thing, Known)], marks: &[bool]) -> bool
    requires { length marks.now ≡ length noted.now }
    ensures { (things : List ThingParts) → marks.now ≡ map (is_entry_listed things) noted.now → result ≡ list_all (is_affirmed things) noted.now }
{
    for (place, entry) in noted.iter().enumerate() {
        if matches!(entry.1, Known::Yes) && !marks[place] {
            return false;
        }
    }
    true
}

// Whether each thing that is known to be so is among these, and something is noted of each of them.
fn are_right(alloc: Global, things: &[Thing], noted: &[(Thing, Known)]) -> Result<bool, NoMemory>
    requires { IsInOrder noted.now }
    ensures { IfOk result (λ right. right ≡ (list_all (is_affirmed things.now) noted.now && list_all (is_noted noted.now) things.now)) }
{
    let mut marks = vec![in alloc; false; noted.len()]?;
    if !mark_noted(things, noted, marks.as_mut_slice()) {
        return Ok(false);
    }
    Ok(are_affirmed(noted, &marks))
}

/// Whether what is known to be so is so and what is known not to be so isn't, in every world of which this is the list.
pub(crate) fn is_marked_right(
    alloc: Global,
    orchestrator: &Orchestrator,
    rows: &[ControllerRow],
    nodes: &[NodeLists],
) -> Result<bool, NoMemory>
    requires { AreRowsApart rows.now }
    ensures { (world : World) → IsListed (record { rows = rows.now; nodes = nodes.now }) world →
        IfOk result (λ right. IsTrue right ↔ AreMarkedRight (orchestrator_view orchestrator.now).marks world) }
{
    let Ok(noted) = orchestrator.things() else {
        return Err(NoMemory);
    };
    let things = list_things(alloc, rows, nodes)?;
    are_right(alloc, &things, &noted)
}
