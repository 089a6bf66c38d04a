//! Events, in JSON.
ghost use Rattle.std.specs.Prelude.{◌≡◌};
ghost use Rattle.serde_json.specs.View.{view};
ghost use Rattle.csi_json.specs.Private.Json.{Reads};
ghost use Rattle.csi_json.specs.Public.Json.{node_id_of, all_of};
ghost use Rattle.csi_json.specs.Public.Events.{create_of, use_of, stop_of, delete_of, timeout_of, deliver_of, restart_of, restart_node_of};
ghost use Rattle.csi_json.specs.Public.Events.{restart_controller_of, restart_orchestrator_of, join_of, lose_of, settle_of, event_at as at_key, event_of};

use crate::access::{capabilities_at, capability};
use crate::configs::config;
use crate::lists::read_ids;
use crate::texts::limited;
use crate::values::{
    Flaw, flag_at, list, member, number, number_at, only_member, sized_object, text,
};
use csi_types::{Event, NodeId, NodeList};
use serde_json::Value;
use std::alloc::Global;

#[tactic(auto, unfolding(crate::specs::Public::Events::create_of))]
fn create_event(alloc: Global, value: &Value) -> Result<Event, Flaw>
    ensures { Reads (λ event. event) result (create_of (view value.now)) }
{
    let object = sized_object(value, 4)?;
    let name = limited(alloc, member(object, "name")?)?;
    let required = number_at(object, "required")?;
    let limit = number_at(object, "limit")?;
    let capabilities = capabilities_at(alloc, object, "capabilities")?;
    Ok(Event::Create {
        name,
        required,
        limit,
        capabilities,
    })
}

#[tactic(auto, unfolding(crate::specs::Public::Events::use_of))]
fn use_event(alloc: Global, value: &Value) -> Result<Event, Flaw>
    ensures { Reads (λ event. event) result (use_of (view value.now)) }
{
    let object = sized_object(value, 5)?;
    let name = limited(alloc, member(object, "name")?)?;
    let node = limited(alloc, member(object, "node")?)?;
    let target = limited(alloc, member(object, "target")?)?;
    let capability = capability(alloc, member(object, "capability")?)?;
    let readonly = flag_at(object, "readonly")?;
    Ok(Event::Use {
        name,
        node,
        target,
        capability,
        readonly,
    })
}

#[tactic(auto, unfolding(crate::specs::Public::Events::stop_of))]
fn stop_event(alloc: Global, value: &Value) -> Result<Event, Flaw>
    ensures { Reads (λ event. event) result (stop_of (view value.now)) }
{
    let object = sized_object(value, 3)?;
    let name = limited(alloc, member(object, "name")?)?;
    let node = limited(alloc, member(object, "node")?)?;
    let target = limited(alloc, member(object, "target")?)?;
    Ok(Event::Stop { name, node, target })
}

#[tactic(auto, unfolding(crate::specs::Public::Events::delete_of))]
fn delete_event(alloc: Global, value: &Value) -> Result<Event, Flaw>
    ensures { Reads (λ event. event) result (delete_of (view value.now)) }
{
    let name = limited(alloc, value)?;
    Ok(Event::Delete(name))
}

#[tactic(auto, unfolding(crate::specs::Public::Events::timeout_of))]
fn timeout_event(alloc: Global, value: &Value) -> Result<Event, Flaw>
    ensures { Reads (λ event. event) result (timeout_of (view value.now)) }
{
    let name = limited(alloc, value)?;
    Ok(Event::Timeout(name))
}

#[tactic(auto, unfolding(crate::specs::Public::Events::deliver_of))]
fn deliver_event(value: &Value) -> Result<Event, Flaw>
    ensures { Reads (λ event. event) result (deliver_of (view value.now)) }
{
    let number = number(value)?;
    Ok(Event::Deliver(number))
}

#[tactic(auto, unfolding(crate::specs::Public::Events::restart_of))]
fn restart_event(value: &Value) -> Result<Event, Flaw>
    ensures { Reads (λ event. event) result (restart_of (view value.now)) }
{
    match text(value)? {
        "orchestrator" => Ok(Event::RestartOrchestrator),
        "controller" => Ok(Event::RestartController),
        _ => Err(Flaw::Bad),
    }
}

#[tactic(auto, unfolding(crate::specs::Public::Events::restart_node_of))]
fn restart_node_event(alloc: Global, value: &Value) -> Result<Event, Flaw>
    ensures { Reads (λ event. event) result (restart_node_of (view value.now)) }
{
    let id = limited(alloc, value)?;
    Ok(Event::RestartNode(id))
}

#[tactic(auto, unfolding(crate::specs::Public::Events::restart_controller_of))]
fn restart_controller_event(alloc: Global, value: &Value) -> Result<Event, Flaw>
    ensures { Reads (λ event. event) result (restart_controller_of (view value.now)) }
{
    let config = config(alloc, value)?;
    Ok(Event::RestartControllerWith(config))
}

/// The ids of nodes that an array has.
#[tactic(auto, unfolding(crate::specs::Public::Json::all_of))]
pub fn ids(alloc: Global, value: &Value) -> Result<Vec<NodeId>, Flaw>
    ensures { Reads (λ ids. ids.items) result (all_of node_id_of (view value.now)) }
{
    let items = list(value)?;
    read_ids(alloc, items)
}

#[tactic(auto, unfolding(crate::specs::Public::Events::restart_orchestrator_of))]
fn restart_orchestrator_event(alloc: Global, value: &Value) -> Result<Event, Flaw>
    ensures { Reads (λ event. event) result (restart_orchestrator_of (view value.now)) }
{
    let ids = ids(alloc, value)?;
    Ok(Event::RestartOrchestratorWith(NodeList::of(ids)))
}

#[tactic(auto, unfolding(crate::specs::Public::Events::join_of))]
fn join_event(alloc: Global, value: &Value) -> Result<Event, Flaw>
    ensures { Reads (λ event. event) result (join_of (view value.now)) }
{
    let id = limited(alloc, value)?;
    Ok(Event::Join(id))
}

#[tactic(auto, unfolding(crate::specs::Public::Events::lose_of))]
fn lose_event(alloc: Global, value: &Value) -> Result<Event, Flaw>
    ensures { Reads (λ event. event) result (lose_of (view value.now)) }
{
    let id = limited(alloc, value)?;
    Ok(Event::Lose(id))
}

#[tactic(auto, unfolding(crate::specs::Public::Events::settle_of))]
fn settle_event(alloc: Global, value: &Value) -> Result<Event, Flaw>
    ensures { Reads (λ event. event) result (settle_of (view value.now)) }
{
    let name = limited(alloc, value)?;
    Ok(Event::Settle(name))
}

/// The event at this key of an object.
#[tactic(auto, unfolding(crate::specs::Public::Events::event_at))]
pub fn event_at(alloc: Global, key: &str, value: &Value) -> Result<Event, Flaw>
    ensures { Reads (λ event. event) result (at_key key.now (view value.now)) }
{
    match key {
        "create" => create_event(alloc, value),
        "use" => use_event(alloc, value),
        "stop" => stop_event(alloc, value),
        "delete" => delete_event(alloc, value),
        "timeout" => timeout_event(alloc, value),
        "deliver" => deliver_event(value),
        "restart" => restart_event(value),
        "restart_node" => restart_node_event(alloc, value),
        "restart_controller" => restart_controller_event(alloc, value),
        "restart_orchestrator" => restart_orchestrator_event(alloc, value),
        "join" => join_event(alloc, value),
        "lose" => lose_event(alloc, value),
        "settle" => settle_event(alloc, value),
        _ => Err(Flaw::Bad),
    }
}

/// An event.
#[tactic(auto, unfolding(crate::specs::Public::Events::event_of))]
pub fn event(alloc: Global, value: &Value) -> Result<Event, Flaw>
    ensures { Reads (λ event. event) result (event_of (view value.now)) }
{
    match only_member(value) {
        Some((key, value)) => event_at(alloc, key, value),
        None => Err(Flaw::Bad),
    }
}
