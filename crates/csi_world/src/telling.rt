//! Events, told by events that settle nothing.
ghost use Rattle.std.specs.Prelude.{◌≡◌, ◌+◌, ◌<◌, ◌^◌, ◌++◌, IfOk, OnOk};
ghost use Rattle.csi_world.specs.Model.World.{World};
ghost use Rattle.csi_world.specs.Model.After.{occurs, after};
ghost use Rattle.csi_world.specs.Public.Settling.{spelled, spelled_out};
ghost use Rattle.csi_world.specs.Model.Simulated.{ShowsWorld};
ghost use Rattle.csi_world.specs.Public.Simulating.{IsSoundWorld};
ghost use Rattle.csi_world.specs.Public.System.{world_parts};
ghost use Rattle.csi_world.specs.Private.Telling.{IsAt, counted_events};

use crate::simulation::new_system;
use crate::system::System;
use csi_types::{Config, Event, Name, NoMemory};
use std::alloc::Global;

// Tells so many events, by which the volume of this name came on its way to rest when so many frames were sent.
fn tell_settling(told: &mut Vec<Event>, name: &Name, first: u64, count: u64) -> Result<(), NoMemory>
    requires { first + count < 2 ^ 64 }
    ensures { OnOk result (told.new.items ≡ told.old.items ++ counted_events name.now first count) }
{
    if count == 0 {
        return Ok(());
    }
    told.push(Event::Timeout(name.clone()?))?;
    for number in 1..count {
        told.push(Event::Deliver(first + number))?;
    }
    Ok(())
}

// Lets an event happen, and tells it.
fn tell(
    system: &mut System,
    bytes: &mut Vec<u8>,
    told: &mut Vec<Event>,
    event: Event,
) -> Result<(), NoMemory>
    ensures at { (world : World) → IsAt (world_parts system.old) world → OnOk result (IsAt (world_parts system.new) (occurs world event).world) }
    ensures told { (world : World) → IsAt (world_parts system.old) world → OnOk result (told.new.items ≡ told.old.items ++ spelled world event) }
{
    match event {
        Event::Settle(name) => {
            let first = system.frames.len() as u64;
            let count = system.go_to_rest(bytes, &name)?;
            tell_settling(told, &name, first, count)
        }
        event => {
            system.occur(bytes, &event)?;
            told.push(event)?;
            Ok(())
        }
    }
}

/// The events of a run, told by events that settle nothing: what settles a volume is told by its timeout and its deliveries, one after
/// another, which lead to the same world. An `Err` is an allocation that was refused. This profile's own.
pub fn told_one_by_one(
    alloc: Global,
    config: &Config,
    events: Vec<Event>,
) -> Result<Vec<Event>, NoMemory>
    ensures told { IfOk result (λ told. told.items ≡ spelled_out config.now events.items) }
    ensures world { IfOk result (λ told. (after config.now told.items).world ≡ (after config.now events.items).world) }
{
    let mut system = new_system(alloc, config)?;
    let mut bytes = Vec::new(alloc);
    let mut told = Vec::new(alloc);
    for event in events {
        tell(&mut system, &mut bytes, &mut told, event)?;
    }
    Ok(told)
}
