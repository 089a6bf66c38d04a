//! A configuration, in JSON.
ghost use Rattle.std.specs.Prelude.{◌≡◌, IfOk, IfErr};
ghost use Rattle.serde_json.specs.View.{view};
ghost use Rattle.csi_json.specs.Private.Json.{Reads, WantsOnly, HasItems};
ghost use Rattle.csi_json.specs.Public.Json.{list_of, all_of};
ghost use Rattle.csi_json.specs.Public.Configs.{node_slots_of, config_of, config_or_fault, text_config};
ghost use Rattle.csi_json.specs.Private.Configs.{nodes_in};
ghost use Rattle.csi_json.specs.Public.Faults.{IsScheduleFault};

use crate::fault::ScheduleFault;
use crate::lists::read_nodes;
use crate::texts::limited;
use crate::values::{Flaw, list, member, number_at, sized_object};
use csi_types::{Config, NodeSlots};
use serde_json::Value;
use std::alloc::Global;

/// A node, and how many volumes it takes at once.
#[tactic(auto, unfolding(crate::specs::Public::Configs::node_slots_of))]
pub fn node(alloc: Global, value: &Value) -> Result<NodeSlots, Flaw>
    ensures { Reads (λ node. node) result (node_slots_of (view value.now)) }
{
    let object = sized_object(value, 2)?;
    let id = limited(alloc, member(object, "id")?)?;
    let slots = number_at(object, "slots")?;
    Ok(NodeSlots { id, slots })
}

#[tactic(auto, unfolding(crate::specs::Public::Json::all_of))]
fn nodes(alloc: Global, value: &Value) -> Result<Vec<NodeSlots>, Flaw>
    ensures read { Reads (λ nodes. nodes.items) result (all_of node_slots_of (view value.now)) }
    ensures memory { WantsOnly result (HasItems (list_of (view value.now))) }
{
    let items = list(value)?;
    read_nodes(alloc, items)
}

/// A configuration that has no fault. `NoMemory` only where it has nodes, and a greatest capacity before them that is a number.
#[tactic(auto, unfolding(crate::specs::Public::Configs::config_of, crate::specs::Private::Configs::nodes_in))]
pub fn config(alloc: Global, value: &Value) -> Result<Config, Flaw>
    ensures read { Reads (λ config. config) result (config_of (view value.now)) }
    ensures memory { WantsOnly result (HasItems (nodes_in (view value.now))) }
{
    let object = sized_object(value, 2)?;
    let greatest = number_at(object, "greatest")?;
    let nodes = nodes(alloc, member(object, "nodes")?)?;
    match Config::try_new(alloc, greatest, nodes) {
        Ok(config) => Ok(config),
        Err(_) => Err(Flaw::Bad),
    }
}

// The configuration that a value is.
fn config_alone(alloc: Global, value: &Value) -> Result<Config, ScheduleFault>
    ensures read { IfOk result (λ config. config_or_fault (config_of (view value.now)) ≡ Ok config) }
    ensures fault { IfErr result (IsScheduleFault (config_or_fault (config_of (view value.now)))) }
{
    Ok(config(alloc, value)?)
}

/// The configuration that a text says: alone, the object that a schedule has at `config`. `NotJson` where the text isn't JSON,
/// and `BadSchedule` at 0 where it isn't as the format says. `NoMemory` can come at any step.
pub fn read_config(alloc: Global, text: &str) -> Result<Config, ScheduleFault>
    ensures read { IfOk result (λ config. text_config text.now ≡ Ok config) }
    ensures fault { IfErr result (IsScheduleFault (text_config text.now)) }
{
    match Value::from_str(alloc, text) {
        Ok(value) => config_alone(alloc, &value),
        Err(error) if error.is_memory() => Err(ScheduleFault::NoMemory),
        Err(_other) => Err(ScheduleFault::NotJson),
    }
}
