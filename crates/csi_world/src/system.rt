//! The parts of a world.
use crate::outcomes::Outcome;
use csi_controller::Controller;
use csi_node::Node;
use csi_orchestrator::Orchestrator;
use csi_types::{Config, Frame};
use std::alloc::Global;

/// The parts of a world, with all frames that were sent and what came of each event.
pub(crate) struct System {
    pub alloc: Global,
    pub config: Config,
    pub frames: Vec<Frame>,
    pub outcomes: Vec<Outcome>,
    pub controller: Controller,
    pub nodes: Vec<Node>,
    pub orchestrator: Orchestrator,
}

// Written out, so that what may drop a system doesn't prove again how each of its parts is dropped.
impl Drop for System {
    fn drop(self) {
        let System {
            alloc: _,
            config: _,
            frames: _,
            outcomes: _,
            controller: _,
            nodes: _,
            orchestrator: _,
        } = self;
    }
}
