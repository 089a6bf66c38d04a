//! How schedules are drawn.
ghost use Rattle.std.specs.Prelude.{⊤};

use csi_commands::Draws;
use csi_json::Schedule;
use csi_pictures::draw;
use csi_types::NoMemory;
use csi_world::World;
use std::alloc::Global;

/// Schedules are drawn as `csi_pictures` draws them: of what a picture shows nothing is proved.
pub struct Pictures;

impl Draws for Pictures {
    ghost draws = { λ schedule world picture. ⊤ };

    fn draw(alloc: Global, schedule: &Schedule, world: &World) -> Result<Vec<u8>, NoMemory> {
        draw(alloc, schedule, world)
    }
}
