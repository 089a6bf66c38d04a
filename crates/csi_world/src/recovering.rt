//! Worlds that go on by one event, or whose orchestrator is made of what the plugins keep.
ghost use Rattle.std.specs.Prelude.{◌≡◌, ◌++◌, ◌∷◌, [], IfOk, OnOk};
ghost use Rattle.csi_orchestrator.specs.Model.History.{History};
ghost use Rattle.csi_orchestrator.specs.Model.Shown.{Shows as OrchestratorShows};
ghost use Rattle.csi_orchestrator.specs.Model.WellFormed.{IsWellFormed};
ghost use Rattle.csi_world.specs.declared.outcomes.Outcome.TheVariants as outcomes;
ghost use Rattle.csi_world.specs.Model.After.{occurs};
ghost use Rattle.csi_world.specs.Model.Simulated.{ShowsWorld};
ghost use Rattle.csi_world.specs.Model.World.{World as Shown};
ghost use Rattle.csi_world.specs.Private.Recovering.{IsRaised, HasRecovered};
ghost use Rattle.csi_world.specs.Public.Given.{AreThose};
ghost use Rattle.csi_world.specs.Public.Recovery.{recovered_world};
ghost use Rattle.csi_world.specs.Public.Simulating.{IsOfWorld};
ghost use Rattle.csi_world.specs.Public.System.{world_parts};

use crate::changing::is_listed;
use crate::outcomes::{Outcome, RecoveryRefusal};
use crate::system::System;
use crate::world::World;
use csi_node::Node;
use csi_orchestrator::Orchestrator;
use csi_types::{Event, NoMemory, NodeId};
use std::alloc::Global;
use std::mem::replace;

// Those of the nodes that are given, their sessions raised.
fn raised_nodes(
    alloc: Global,
    nodes: Vec<Node>,
    given: &[NodeId],
    session: u64,
) -> Result<Vec<Node>, NoMemory>
    ensures { IfOk result (λ kept. AreThose (IsRaised session) given.now nodes.items kept.items) }
{
    let mut kept = Vec::new(alloc);
    for node in nodes {
        let mut node = node;
        if is_listed(given, node.id()) {
            node.raise(session);
            kept.push(node)?;
        }
    }
    Ok(kept)
}

impl System {
    // The system after a recovery, which is logged. After an `Err` it is of no use.
    fn recover(
        &mut self,
        session: u64,
        given: &[NodeId],
        orchestrator: Orchestrator,
    ) -> Result<(), NoMemory>
        ensures { OnOk result (HasRecovered session given.now orchestrator (world_parts self.old) (world_parts self.new)) }
    {
        let alloc = self.alloc;
        let nodes = replace(&mut self.nodes, Vec::new(alloc));
        self.nodes = raised_nodes(alloc, nodes, given, session)?;
        self.controller.raise(session);
        self.orchestrator = orchestrator;
        self.outcomes.push(Outcome::Recovered)?;
        Ok(())
    }
}

impl World {
    /// Lets one event happen, as in `simulate`, which is logged. An `Err` is an allocation that was refused; the world is dropped then.
    /// This profile's own.
    pub fn occur(self, event: &Event) -> Result<World, NoMemory>
        requires { IsOfWorld self }
        ensures world { (world : Shown) → ShowsWorld self world → IfOk result (λ new. ShowsWorld new (occurs world event.now).world) }
        ensures outcome { (world : Shown) → ShowsWorld self world →
            IfOk result (λ new. new.outcomes ≡ self.outcomes ++ (occurs world event.now).outcome ∷ []) }
    {
        let mut system = self.into_system();
        let mut bytes = Vec::new(system.alloc);
        match system.occur(&mut bytes, event) {
            Ok(()) => Ok(World::of(system)),
            Err(NoMemory) => Err(NoMemory),
        }
    }

    /// The world after a recovery in this session, which is logged: this is its orchestrator, the plugins' sessions are raised, the nodes
    /// whose stores aren't given are no more, and each frame that was ever sent may come still. `csi_recovery` makes the orchestrator. An
    /// `Err` is an allocation that was refused; the world is dropped then. This profile's own.
    pub fn recovered(
        self,
        session: u64,
        given: &[NodeId],
        orchestrator: Orchestrator,
    ) -> Result<World, NoMemory>
        ensures world { (world : Shown) (history : History) → ShowsWorld self world → OrchestratorShows orchestrator history → IsWellFormed history →
            IfOk result (λ new. ShowsWorld new (recovered_world session given.now history world)) }
        ensures outcome { IfOk result (λ new. new.outcomes ≡ self.outcomes ++ outcomes.Recovered ∷ []) }
    {
        let mut system = self.into_system();
        match system.recover(session, given, orchestrator) {
            Ok(()) => Ok(World::of(system)),
            Err(NoMemory) => Err(NoMemory),
        }
    }

    /// The same world, and that no orchestrator was recovered is logged. An `Err` is an allocation that was refused; the world is dropped
    /// then. This profile's own.
    pub fn unrecovered(self, why: RecoveryRefusal) -> Result<World, NoMemory>
        ensures { IfOk result (λ new. new ≡ record self { outcomes = self.outcomes ++ outcomes.NotRecovered why ∷ [] }) }
    {
        let mut system = self.into_system();
        system.outcomes.push(Outcome::NotRecovered(why))?;
        Ok(World::of(system))
    }
}
