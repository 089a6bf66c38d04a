//! Lists in JSON, read item by item.
ghost use Rattle.std.specs.Prelude.{◌≡◌, ◌∷◌, [], ◌++◌, option_map, map, IfOk, IfErr};
ghost use Rattle.serde_json.specs.View.{view};
ghost use Rattle.csi_json.specs.Private.Json.{Reads, WantsOnly, HasItems};
ghost use Rattle.csi_json.specs.Public.Json.{read_all, unless_bad, node_id_of};
ghost use Rattle.csi_json.specs.Public.Capabilities.{capability_of};
ghost use Rattle.csi_json.specs.Public.Configs.{node_slots_of};
ghost use Rattle.csi_json.specs.Public.Happenings.{happening_of};
ghost use Rattle.csi_json.specs.Public.Faults.{event_fault, IsScheduleFault};
ghost use Rattle.csi_json.specs.Public.Schedule.{happenings_or_fault};

use crate::access::capability;
use crate::configs::node;
use crate::fault::ScheduleFault;
use crate::happening::{Happening, what_happens};
use crate::texts::limited;
use crate::values::Flaw;
use csi_types::{Capability, NodeId, NodeSlots};
use serde_json::Value;
use std::alloc::Global;

// Reads a capability, and appends it. An `Err` appends nothing.
fn push_capability(alloc: Global, value: &Value, list: &mut Vec<Capability>) -> Result<(), Flaw>
    ensures { Reads (λ _. list.new.items) result (option_map (λ read. list.old.items ++ read ∷ []) (capability_of (view value.now))) }
{
    let capability = capability(alloc, value)?;
    list.push(capability)?;
    Ok(())
}

/// The capabilities that the items are read as, where each is.
pub fn read_capabilities(alloc: Global, items: &[Value]) -> Result<Vec<Capability>, Flaw>
    ensures { Reads (λ list. list.items) result (unless_bad (read_all capability_of 1 (map view items.now))) }
{
    let mut list = Vec::new(alloc);
    for item in items {
        push_capability(alloc, item, &mut list)?;
    }
    Ok(list)
}

// Reads a node, and appends it. An `Err` appends nothing.
fn push_node(alloc: Global, value: &Value, list: &mut Vec<NodeSlots>) -> Result<(), Flaw>
    ensures { Reads (λ _. list.new.items) result (option_map (λ read. list.old.items ++ read ∷ []) (node_slots_of (view value.now))) }
{
    let node = node(alloc, value)?;
    list.push(node)?;
    Ok(())
}

/// The nodes that the items are read as, where each is.
pub fn read_nodes(alloc: Global, items: &[Value]) -> Result<Vec<NodeSlots>, Flaw>
    ensures read { Reads (λ list. list.items) result (unless_bad (read_all node_slots_of 1 (map view items.now))) }
    ensures memory { WantsOnly result (HasItems (Some (map view items.now))) }
{
    let mut list = Vec::new(alloc);
    for item in items {
        push_node(alloc, item, &mut list)?;
    }
    Ok(list)
}

// Reads a node's id, and appends it. An `Err` appends nothing.
fn push_id(alloc: Global, value: &Value, list: &mut Vec<NodeId>) -> Result<(), Flaw>
    ensures { Reads (λ _. list.new.items) result (option_map (λ read. list.old.items ++ read ∷ []) (node_id_of (view value.now))) }
{
    let id = limited(alloc, value)?;
    list.push(id)?;
    Ok(())
}

/// The ids of nodes that the items are read as, where each is.
pub fn read_ids(alloc: Global, items: &[Value]) -> Result<Vec<NodeId>, Flaw>
    ensures { Reads (λ list. list.items) result (unless_bad (read_all node_id_of 1 (map view items.now))) }
{
    let mut list = Vec::new(alloc);
    for item in items {
        push_id(alloc, item, &mut list)?;
    }
    Ok(list)
}

// Reads what happens, and appends it. An `Err` appends nothing.
fn push_happening(alloc: Global, value: &Value, list: &mut Vec<Happening>) -> Result<(), Flaw>
    ensures { Reads (λ _. list.new.items) result (option_map (λ read. list.old.items ++ read ∷ []) (happening_of (view value.now))) }
{
    let happening = what_happens(alloc, value)?;
    list.push(happening)?;
    Ok(())
}

// The fault where the event of this place has a flaw.
fn fault_at(flaw: Flaw, place: u64) -> ScheduleFault
    ensures { result ≡ event_fault flaw place }
{
    match flaw {
        Flaw::Bad => ScheduleFault::BadSchedule { place },
        Flaw::NoMemory => ScheduleFault::NoMemory,
    }
}

/// What the items are read as, or the place of the first that is read as nothing that happens, counted from 1.
pub fn read_happenings(alloc: Global, items: &[Value]) -> Result<Vec<Happening>, ScheduleFault>
    ensures read { IfOk result (λ list. happenings_or_fault (read_all happening_of 1 (map view items.now)) ≡ Ok list.items) }
    ensures fault { IfErr result (IsScheduleFault (happenings_or_fault (read_all happening_of 1 (map view items.now)))) }
{
    let mut list = Vec::new(alloc);
    for (index, item) in items.iter().enumerate() {
        if let Err(flaw) = push_happening(alloc, item, &mut list) {
            return Err(fault_at(flaw, index as u64 + 1));
        }
    }
    Ok(list)
}
