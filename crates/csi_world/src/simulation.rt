//! Runs of events.
ghost use Rattle.std.specs.Prelude.{ℕ, [], take, IfOk, OnOk};
ghost use Rattle.csi_types.specs.Model.Config.{Config};
ghost use Rattle.csi_world.specs.Model.Safe.{Safe};
ghost use Rattle.csi_world.specs.Model.After.{after};
ghost use Rattle.csi_world.specs.Model.Simulated.{ShowsRun};
ghost use Rattle.csi_world.specs.Private.Simulating.{IsRun};
ghost use Rattle.csi_world.specs.Public.System.{world_parts};

use crate::laws::runs_law;
use crate::plugins::{copied_config, ids_of, new_nodes};
use crate::system::System;
use crate::world::World;
use csi_controller::Controller;
use csi_orchestrator::Orchestrator;
use csi_types::{Config, Event, NoMemory};
use std::alloc::Global;

/// A system in which nothing happened.
pub(crate) fn new_system(alloc: Global, config: &Config) -> Result<System, NoMemory>
    ensures { IfOk result (λ system. IsRun config.now [] (world_parts system)) }
{
    config.fit_law();
    let own = copied_config(config)?;
    let given = copied_config(config)?;
    let ids = ids_of(alloc, config.nodes())?;
    let nodes = new_nodes(alloc, config.nodes())?;
    let controller = Controller::new(alloc, given);
    let orchestrator = Orchestrator::new(alloc, ids);
    Ok(System {
        alloc,
        config: own,
        frames: Vec::new(alloc),
        outcomes: Vec::new(alloc),
        controller,
        nodes,
        orchestrator,
    })
}

// Lets these events happen, one after another.
fn occur_all(alloc: Global, system: &mut System, events: &[Event]) -> Result<(), NoMemory>
    ensures { (config : Config) → IsRun config [] (world_parts system.old) → OnOk result (IsRun config events.now (world_parts system.new)) }
{
    let mut bytes = Vec::new(alloc);
    for event in events {
        system.occur(&mut bytes, event)?;
    }
    Ok(())
}

/// The world after these events, one after another, from an empty one whose controller has this configuration, and whose nodes are
/// there and in the orchestrator's list. An event that can't happen changes nothing, and its outcome says so. Each frame that is
/// delivered is written as bytes and read from them. An `Err` is an allocation that was refused. The run is the definition's, and the
/// world is safe after every beginning of the events, as `safety_law` says it. This profile's own.
pub fn simulate(alloc: Global, config: &Config, events: &[Event]) -> Result<World, NoMemory>
    ensures run { IfOk result (λ world. ShowsRun world (after config.now events.now)) }
    ensures safe { (count : ℕ) → Safe (after config.now (take count events.now)).world }
{
    runs_law();
    let mut system = new_system(alloc, config)?;
    match occur_all(alloc, &mut system, events) {
        Ok(()) => Ok(World::of(system)),
        Err(NoMemory) => Err(NoMemory),
    }
}
