//! What draws a run.
ghost use Rattle.std.specs.Prelude.{IfOk};
ghost use Rattle.csi_json.specs.Public.Schedule.{schedule_shown};
ghost use Rattle.csi_commands.specs.Public.Running.{Drawing};

use csi_json::Schedule;
use csi_types::NoMemory;
use csi_world::World;
use std::alloc::Global;

/// What draws a run: the caller's, so that commands needn't know how. This profile's own.
pub trait Draws {
    /// The bytes are the picture of this world, to which this schedule led.
    ghost draws: { Drawing };

    /// The picture of this world, to which this schedule led. An `Err` is an allocation that was refused.
    fn draw(alloc: Global, schedule: &Schedule, world: &World) -> Result<Vec<u8>, NoMemory>
        ensures { IfOk result (λ picture. draws (schedule_shown schedule.now) world.now picture.items) };
}
