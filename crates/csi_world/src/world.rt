//! Simulated worlds.
ghost use Rattle.std.specs.Prelude.{◌≡◌, find, length};
ghost use Rattle.std.specs.Option.{option_copied};
ghost use Rattle.csi_types.specs.Model.Same.{same_text};
ghost use Rattle.csi_world.specs.Model.After.{frame_numbered};
ghost use Rattle.csi_world.specs.Model.Simulated.{ShowsWorld};
ghost use Rattle.csi_world.specs.Public.Simulating.{numbered, IsSoundWorld, ShowsNode};
ghost use Rattle.csi_world.specs.Public.System.{world_parts};

use crate::outcomes::Outcome;
use crate::plugins::node_with_id;
use crate::sending::frame_of;
use crate::system::System;
use csi_controller::Controller;
use csi_node::Node;
use csi_orchestrator::Orchestrator;
use csi_types::{Config, Frame, NodeId};
use std::marker::Model;

/// An orchestrator, a controller and its nodes, and every frame that was ever sent, as a run of events left them. A
/// contract sees the parts, and speaks of the world that they show. This profile's own.
pub struct World {
    system: System,
}

// Written out, so that a crate that drops a world doesn't prove again how each of its parts is dropped.
impl Drop for World {
    fn drop(self) {
        let World { system: _ } = self;
    }
}

impl Model for World {
    ghost use Rattle.csi_world.specs.Model.Simulated.{WorldParts};
    ghost use Rattle.csi_world.specs.Public.Simulating.{IsSoundWorld};
    ghost use Rattle.csi_world.specs.Public.System.{world_parts};

    ghost Value = { WorldParts };

    ghost view = { λ world. world_parts world.system };

    ghost invariant = { λ world. IsSoundWorld (world_parts world.system) };
}

impl World {
    ghost use Rattle.csi_world.specs.Model.World.{World as Shown, node_state};

    // The world of a system.
    pub(crate) fn of(system: System) -> World
        requires { IsSoundWorld (world_parts system) }
        ensures { result ≡ world_parts system }
    {
        World { system }
    }

    // The system of a world.
    pub(crate) fn into_system(self) -> System
        ensures parts { world_parts result ≡ self }
        ensures sound { IsSoundWorld (world_parts result) }
    {
        let World { system } = self;
        system
    }

    /// The controller's configuration. It takes no memory.
    pub fn config(&self) -> &Config
        ensures { result.now ≡ self.now.config }
    {
        &self.system.config
    }

    /// How many frames were sent. It takes no memory.
    pub fn frame_count(&self) -> u64
        ensures { result ≡ length self.now.frames }
    {
        self.system.frames.len() as u64
    }

    /// The frames in the order in which they were sent, replies too. It takes no memory.
    pub fn sent(&self) -> &[Frame]
        ensures { result.now ≡ self.now.frames }
    {
        self.system.frames.as_slice()
    }

    /// The frame of a number, from 1, in the order in which they were sent; `None` at 0 and above the last one. It takes
    /// no memory.
    pub fn frame(&self, number: u64) -> Option<&Frame>
        ensures value { option_copied result ≡ numbered self.now.frames number }
        ensures world { (world : Shown) → ShowsWorld self.now world → option_copied result ≡ frame_numbered world number }
    {
        frame_of(&self.system.frames, number)
    }

    /// What came of each event, in turn. It takes no memory.
    pub fn outcomes(&self) -> &[Outcome]
        ensures { result.now ≡ self.now.outcomes }
    {
        self.system.outcomes.as_slice()
    }

    /// The controller. It takes no memory.
    pub fn controller(&self) -> &Controller
        ensures { result.now ≡ self.now.controller }
    {
        &self.system.controller
    }

    /// The nodes that are there, in the order in which they joined. It takes no memory.
    pub fn nodes(&self) -> &[Node]
        ensures { result.now ≡ self.now.nodes }
    {
        self.system.nodes.as_slice()
    }

    /// A law, and nothing that runs: no two nodes are of one id, and the configuration has no fault.
    pub fn nodes_law(&self)
        ensures { IsSoundWorld self.now }
    {
        let _system = &self.system;
    }

    /// The node of this id, if it is there. It takes no memory.
    pub fn node(&self, id: &NodeId) -> Option<&Node>
        ensures value { option_copied result ≡ find (λ node. same_text node.id id.now) self.now.nodes }
        ensures world { (world : Shown) → ShowsWorld self.now world → ShowsNode (option_copied result) (node_state id.now world) }
    {
        node_with_id(&self.system.nodes, id)
    }

    /// The orchestrator. It takes no memory.
    pub fn orchestrator(&self) -> &Orchestrator
        ensures { result.now ≡ self.now.orchestrator }
    {
        &self.system.orchestrator
    }
}
