//! Parts of a world that restart, join and are lost.
ghost use Rattle.std.specs.Prelude.{◌≡◌, position};
ghost use Rattle.csi_world.specs.Model.World.{node_state};
ghost use Rattle.csi_world.specs.Model.After.{orchestrated, restarted_at, joined_at, lost_by, lost};
ghost use Rattle.csi_orchestrator.specs.Model.Moves.{Loses, Restarts, moves};
ghost use Rattle.csi_orchestrator.specs.Model.Readings.{nodes_of};
ghost use Rattle.csi_world.specs.Private.Simulating.{Does};
ghost use Rattle.csi_world.specs.Public.System.{world_parts};
ghost use Rattle.csi_world.specs.declared.outcomes.Outcome.TheVariants as outcomes;
ghost use Rattle.std.specs.List.{list_any};
ghost use Rattle.csi_types.specs.Model.Same.{same_text};

use crate::outcomes::Outcome;
use crate::plugins::{copied_config, copied_ids, place_of, restarted_controller, restarted_node};
use crate::sending::settled_restart;
use crate::system::System;
use csi_node::Node;
use csi_types::{Config, NoMemory, NodeId, NodeList};

/// Whether the node is one of these.
pub(crate) fn is_listed(nodes: &[NodeId], id: &NodeId) -> bool
    ensures { result ≡ list_any (same_text id.now) nodes.now }
{
    nodes.iter().any(|node| *id == *node)
}

impl System {
    // The orchestrator begins the next session, with these nodes.
    fn begin_session(&mut self, nodes: Vec<NodeId>) -> Result<Outcome, NoMemory>
        ensures { Does (world_parts self.old) (world_parts self.new) result (λ world. orchestrated world (Restarts nodes.items)) }
    {
        csi_orchestrator::form_law();
        settled_restart(self.orchestrator.restart(nodes))
    }

    /// The orchestrator restarts with its nodes.
    #[inline(never)]
    pub(crate) fn restart_orchestrator(&mut self) -> Result<Outcome, NoMemory>
        ensures { Does (world_parts self.old) (world_parts self.new) result (λ world. orchestrated world (Restarts (nodes_of world.history))) }
    {
        let nodes = copied_ids(self.alloc, self.orchestrator.nodes())?;
        self.begin_session(nodes)
    }

    /// The orchestrator restarts with these nodes.
    #[inline(never)]
    pub(crate) fn restart_orchestrator_with(
        &mut self,
        nodes: &NodeList,
    ) -> Result<Outcome, NoMemory>
        ensures { Does (world_parts self.old) (world_parts self.new) result (λ world. orchestrated world (Restarts nodes.now)) }
    {
        let nodes = copied_ids(self.alloc, nodes.as_slice())?;
        self.begin_session(nodes)
    }

    /// The controller restarts, from its record.
    #[inline(never)]
    pub(crate) fn restart_controller(&mut self) -> Result<Outcome, NoMemory>
        ensures { Does (world_parts self.old) (world_parts self.new) result (λ world. record { world = world; outcome = outcomes.Restarted }) }
    {
        let controller = restarted_controller(self.alloc, &self.controller, &self.config)?;
        self.controller = controller;
        Ok(Outcome::Restarted)
    }

    /// The controller restarts, from its record, with this configuration.
    #[inline(never)]
    pub(crate) fn restart_controller_with(&mut self, config: &Config) -> Result<Outcome, NoMemory>
        ensures { Does (world_parts self.old) (world_parts self.new) result (λ world. record { world = record world { config = config.now }; outcome = outcomes.Restarted }) }
    {
        config.fit_law();
        let own = copied_config(config)?;
        let controller = restarted_controller(self.alloc, &self.controller, config)?;
        self.controller = controller;
        self.config = own;
        Ok(Outcome::Restarted)
    }

    /// The node of this id restarts, from its record.
    #[inline(never)]
    pub(crate) fn restart_node(&mut self, id: &NodeId) -> Result<Outcome, NoMemory>
        ensures { Does (world_parts self.old) (world_parts self.new) result (λ world. restarted_at world (node_state id.now world)) }
    {
        match place_of(&self.nodes, id) {
            Some(place) => {
                let node = restarted_node(self.alloc, &self.nodes[place])?;
                self.nodes[place] = node;
                Ok(Outcome::Restarted)
            }
            None => Ok(Outcome::NoSuchNode),
        }
    }

    /// A node of this id joins, unless one is there, and is told the orchestrator's session.
    #[inline(never)]
    pub(crate) fn join(&mut self, id: &NodeId) -> Result<Outcome, NoMemory>
        ensures { Does (world_parts self.old) (world_parts self.new) result (λ world. joined_at world id.now (node_state id.now world)) }
    {
        match place_of(&self.nodes, id) {
            Some(_) => Ok(Outcome::NodeThere),
            None => {
                let own = id.clone()?;
                let session = self.orchestrator.session();
                self.nodes.push(Node::new(self.alloc, own, session))?;
                Ok(Outcome::Joined)
            }
        }
    }

    // The orchestrator gives the node of this id up, which is no more then; it stands at this place, if it is there.
    fn give_up(&mut self, id: &NodeId, place: Option<usize>) -> Result<Outcome, NoMemory>
        requires { place ≡ position (λ node. same_text node.id id.now) self.now.nodes.items }
        ensures { Does (world_parts self.old) (world_parts self.new) result (λ world. lost_by world id.now (moves world.history (Loses id.now))) }
    {
        csi_orchestrator::form_law();
        match self.orchestrator.lose(id) {
            Ok(()) => {
                if let Some(place) = place {
                    let _node = self.nodes.remove(place);
                }
                Ok(Outcome::Lost)
            }
            Err(fault) => Ok(Outcome::Refused(fault)),
        }
    }

    /// The node of this id is lost: it is no more, and the orchestrator begins a session without it.
    #[inline(never)]
    pub(crate) fn lose(&mut self, id: &NodeId) -> Result<Outcome, NoMemory>
        ensures { Does (world_parts self.old) (world_parts self.new) result (λ world. lost world id.now) }
    {
        let place = place_of(&self.nodes, id);
        if place.is_some() || is_listed(self.orchestrator.nodes(), id) {
            self.give_up(id, place)
        } else {
            Ok(Outcome::NoSuchNode)
        }
    }
}
