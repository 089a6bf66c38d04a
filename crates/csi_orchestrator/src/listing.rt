//! What an orchestrator knows, as a list of things.
ghost use Rattle.std.specs.Prelude.{◌≡◌, ◌++◌, [], map, IfOk, IsOk, OnOk, IfErr};
ghost use Rattle.csi_orchestrator.specs.declared.fault.OrchFault.{OrchFault as Fault};
ghost use Rattle.csi_orchestrator.specs.Public.Shown.{node_entry_shown, row_shown};
ghost use Rattle.csi_orchestrator.specs.Public.Sound.{AreSoundRows};
ghost use Rattle.csi_orchestrator.specs.Private.Listing.{known_by_rows, lent_thing, noted, noted_of_node, noted_of_row, noted_in};
ghost use Rattle.csi_orchestrator.specs.Public.Listing.{ListsKnown, IsInOrder};

use crate::fault::OrchFault;
use crate::row::{NodeEntry, Row};
use crate::sorting::compare_entries;
use crate::thing::{Known, Thing, ThingRef};
use csi_types::Name;
use std::alloc::Global;

// Adds a thing with what is known of it, unless it is known not to be so. Where nothing is added, here and below, no memory is taken.
fn add(things: &mut Vec<(Thing, Known)>, thing: ThingRef<'_>, known: Known) -> Result<(), OrchFault>
    ensures ok { OnOk result (things.new.items ≡ things.old.items ++ noted (lent_thing thing.entry) known) }
    ensures err { IfErr result (λ fault. fault ≡ Fault.NoMemory) }
    ensures empty { noted (lent_thing thing.entry) known ≡ [] → IsOk result }
{
    if known.is_no() {
        return Ok(());
    }
    let thing = thing.to_thing()?;
    things.push((thing, known))?;
    Ok(())
}

// Adds what is known of the volume at a node, and at each target there.
fn add_node(
    things: &mut Vec<(Thing, Known)>,
    name: &Name,
    entry: &NodeEntry,
) -> Result<(), OrchFault>
    ensures ok { OnOk result (things.new.items ≡ things.old.items ++ noted_of_node name.now (node_entry_shown entry.now)) }
    ensures err { IfErr result (λ fault. fault ≡ Fault.NoMemory) }
    ensures empty { noted_of_node name.now (node_entry_shown entry.now) ≡ [] → IsOk result }
{
    let node = &entry.node;
    add(things, ThingRef::Attached { name, node }, entry.attached)?;
    add(things, ThingRef::Staged { name, node }, entry.staged)?;
    let target_entries = entry.target_entries.as_slice();
    for target_entry in target_entries {
        let target = &target_entry.target;
        let thing = ThingRef::Published { name, node, target };
        add(things, thing, target_entry.published)?;
    }
    Ok(())
}

// Adds what is known of a volume, and of it at each node.
fn add_row(things: &mut Vec<(Thing, Known)>, row: &Row) -> Result<(), OrchFault>
    ensures ok { OnOk result (things.new.items ≡ things.old.items ++ noted_of_row (row_shown row.now)) }
    ensures err { IfErr result (λ fault. fault ≡ Fault.NoMemory) }
    ensures empty { noted_of_row (row_shown row.now) ≡ [] → IsOk result }
{
    let name = &row.name;
    add(things, ThingRef::Exists { name }, row.exists)?;
    let entries = row.node_entries.as_slice();
    for entry in entries {
        add_node(things, name, entry)?;
    }
    Ok(())
}

// What these rows know, row by row.
fn things_by_rows(alloc: Global, rows: &[Row]) -> Result<Vec<(Thing, Known)>, OrchFault>
    ensures ok { IfOk result (λ things. things.items ≡ noted_in (map row_shown rows.now)) }
    ensures err { IfErr result (λ fault. fault ≡ Fault.NoMemory) }
    ensures empty { noted_in (map row_shown rows.now) ≡ [] → IsOk result }
{
    let mut things = Vec::new(alloc);
    for row in rows {
        add_row(&mut things, row)?;
    }
    Ok(things)
}

/// Each thing that these rows don't know as `No`, with what they know of it: by name; of one name `Exists` and then
/// node by node `Attached`, `Staged` and `Published` by target; texts by their bytes. An `Err` is an allocation that
/// was refused; where there is nothing to list none is asked for.
pub(crate) fn things_in(alloc: Global, rows: &[Row]) -> Result<Vec<(Thing, Known)>, OrchFault>
    ensures known { AreSoundRows (map row_shown rows.now) → IfOk result (λ things. ListsKnown (known_by_rows (map row_shown rows.now)) things.items) }
    ensures order { AreSoundRows (map row_shown rows.now) → IfOk result (λ things. IsInOrder things.items) }
    ensures err { IfErr result (λ fault. fault ≡ Fault.NoMemory) }
    ensures empty { noted_in (map row_shown rows.now) ≡ [] → IsOk result }
{
    let mut things = things_by_rows(alloc, rows)?;
    things.sort_unstable_by(compare_entries);
    Ok(things)
}
