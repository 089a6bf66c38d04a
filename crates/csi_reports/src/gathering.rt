//! What a report lists of a world.
ghost use Rattle.std.specs.Prelude.{IfOk};
ghost use Rattle.std.specs.List.{flat_map};
ghost use Rattle.csi_controller.specs.Public.Views.{attached_holdings};
ghost use Rattle.csi_orchestrator.specs.Public.Listing.{ListsKnown, IsInOrder};
ghost use Rattle.csi_orchestrator.specs.Model.Shown.{orchestrator_view};
ghost use Rattle.csi_reports.specs.Public.Order.{attached_place, staged_place, published_place, IsInPlace};
ghost use Rattle.csi_reports.specs.Public.Listed.{staged_on, published_on};
ghost use Rattle.csi_reports.specs.Public.Gathered.{IsGathered};
ghost use Rattle.csi_reports.specs.Private.Found.{gathered_of};

use crate::entries::{PublishedAt, StagedAt};
use crate::lists::{attached, published, staged};
use csi_orchestrator::{Known, Thing};
use csi_types::{Holding, NoMemory};
use csi_world::{Violation, World, audit};
use std::alloc::Global;

/// What is attached, known, published and staged, and what an audit finds.
#[derive(Drop)]
pub struct Findings {
    pub attached: Vec<Holding>,
    pub known: Vec<(Thing, Known)>,
    pub published: Vec<PublishedAt>,
    pub staged: Vec<StagedAt>,
    pub found: Option<Violation>,
}

// What its controller has attached, in place.
fn attached_in(world: &World) -> Result<Vec<Holding>, NoMemory>
    ensures { IfOk result (λ list. IsInPlace attached_place (attached_holdings ((world.now).controller).rows) list.items) }
{
    attached(world.controller())
}

// What its orchestrator knows.
fn known_in(world: &World) -> Result<Vec<(Thing, Known)>, NoMemory>
    ensures known { IfOk result (λ things. ListsKnown (orchestrator_view (world.now).orchestrator).marks things.items) }
    ensures order { IfOk result (λ things. IsInOrder things.items) }
{
    match world.orchestrator().things() {
        Ok(things) => Ok(things),
        Err(_) => Err(NoMemory),
    }
}

// What its nodes have published, in place.
fn published_in(alloc: Global, world: &World) -> Result<Vec<PublishedAt>, NoMemory>
    ensures { IfOk result (λ list. IsInPlace published_place (flat_map published_on (world.now).nodes) list.items) }
{
    published(alloc, world.nodes())
}

// What its nodes have staged, in place.
fn staged_in(alloc: Global, world: &World) -> Result<Vec<StagedAt>, NoMemory>
    ensures { IfOk result (λ list. IsInPlace staged_place (flat_map staged_on (world.now).nodes) list.items) }
{
    staged(alloc, world.nodes())
}

/// What a report lists of this world.
pub fn gathered(alloc: Global, world: &World) -> Result<Findings, NoMemory>
    ensures { IfOk result (λ findings. IsGathered world.now (gathered_of findings)) }
{
    let attached = attached_in(world)?;
    let known = known_in(world)?;
    let published = published_in(alloc, world)?;
    let staged = staged_in(alloc, world)?;
    let found = audit(alloc, world)?;
    Ok(Findings {
        attached,
        known,
        published,
        staged,
        found,
    })
}
