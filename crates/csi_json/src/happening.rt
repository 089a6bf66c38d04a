//! What happens in a schedule, in JSON: an event, or a recovery.
ghost use Rattle.serde_json.specs.View.{view};
ghost use Rattle.csi_json.specs.Private.Json.{Reads};
ghost use Rattle.csi_json.specs.Public.Happenings.{recovery_of, recovery_at as at_key, recovery_in, happening_of};

use crate::events::{event, ids};
use crate::values::{Flaw, member, number_at, only_member, sized_object};
use csi_types::{Event, NodeList};
use serde_json::Value;
use std::alloc::Global;

/// A recovery: the orchestrator and its store are lost for good, and a new one is made of the controller's store and of those of the
/// nodes that are given; a node that isn't given is lost too. This profile's own.
#[derive(Drop)]
pub struct Recovery {
    /// The nodes whose stores are given.
    pub given: NodeList,
    /// The new orchestrator's list of nodes.
    pub nodes: NodeList,
    /// Its session, later than each that the lost one began.
    pub session: u64,
}

/// What happens in a schedule. This profile's own.
#[derive(Drop)]
pub enum Happening {
    /// An event.
    Occurs(Event),
    /// A recovery.
    Recovers(Recovery),
}

#[tactic(auto, unfolding(crate::specs::Public::Happenings::recovery_of))]
fn recover_event(alloc: Global, value: &Value) -> Result<Recovery, Flaw>
    ensures { Reads (λ recovery. recovery) result (recovery_of (view value.now)) }
{
    let object = sized_object(value, 3)?;
    let given = NodeList::of(ids(alloc, member(object, "given")?)?);
    let nodes = NodeList::of(ids(alloc, member(object, "nodes")?)?);
    let session = number_at(object, "session")?;
    Ok(Recovery {
        given,
        nodes,
        session,
    })
}

// The recovery at this key of an object.
#[tactic(auto, unfolding(crate::specs::Public::Happenings::recovery_at))]
fn recovery_at(alloc: Global, key: &str, value: &Value) -> Result<Recovery, Flaw>
    ensures { Reads (λ recovery. recovery) result (at_key key.now (view value.now)) }
{
    match key {
        "recover" => recover_event(alloc, value),
        _ => Err(Flaw::Bad),
    }
}

// A recovery.
#[tactic(auto, unfolding(crate::specs::Public::Happenings::recovery_in))]
fn only_recovery(alloc: Global, value: &Value) -> Result<Recovery, Flaw>
    ensures { Reads (λ recovery. recovery) result (recovery_in (view value.now)) }
{
    match only_member(value) {
        Some((key, value)) => recovery_at(alloc, key, value),
        None => Err(Flaw::Bad),
    }
}

/// An event, or a recovery.
pub fn what_happens(alloc: Global, value: &Value) -> Result<Happening, Flaw>
    ensures { Reads (λ happening. happening) result (happening_of (view value.now)) }
{
    match event(alloc, value) {
        Ok(event) => Ok(Happening::Occurs(event)),
        Err(Flaw::Bad) => match only_recovery(alloc, value) {
            Ok(recovery) => Ok(Happening::Recovers(recovery)),
            Err(flaw) => Err(flaw),
        },
        Err(Flaw::NoMemory) => Err(Flaw::NoMemory),
    }
}
