//! A schedule that is played: what happens, to an empty world.
ghost use Rattle.std.specs.Prelude.{IfOk};
ghost use Rattle.csi_json.specs.Public.Schedule.{schedule_shown};
ghost use Rattle.csi_world.specs.Public.Simulating.{IsOfWorld};
ghost use Rattle.csi_commands.specs.Public.Playing.{IsPlayed};
ghost use Rattle.csi_commands.specs.Private.Playing.{Happens};

use csi_json::{Happening, Schedule};
use csi_orchestrator::moves_law;
use csi_recovery::{recover_world, recovery_law};
use csi_types::NoMemory;
use csi_world::{World, simulate};
use std::alloc::Global;

/// Lets an event happen, or a recovery. An `Err` is an allocation that was refused.
pub(crate) fn happen(alloc: Global, world: World, happening: &Happening) -> Result<World, NoMemory>
    requires { IsOfWorld world }
    ensures { IfOk result (Happens happening.now world) }
{
    match happening {
        Happening::Occurs(event) => world.occur(event),
        Happening::Recovers(recovery) => {
            let nodes = recovery.nodes.as_slice();
            let given = recovery.given.as_slice();
            recover_world(alloc, world, nodes, recovery.session, given)
        }
    }
}

/// The world to which a schedule leads from an empty one of its configuration. An `Err` is an allocation that was refused.
pub(crate) fn played(alloc: Global, schedule: &Schedule) -> Result<World, NoMemory>
    ensures { IfOk result (λ world. IsPlayed (schedule_shown schedule.now) world) }
{
    moves_law();
    recovery_law();
    let mut world = simulate(alloc, &schedule.config, &schedule.events)?;
    for happening in &schedule.on {
        world = happen(alloc, world, happening)?;
    }
    Ok(world)
}
