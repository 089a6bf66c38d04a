//! The whole system of the volume lifecycle of the Container Storage Interface (CSI): an orchestrator, a
//! controller and its nodes, and a network that loses, repeats and reorders frames.
#![tactic(auto)]

mod assembling;
mod auditing;
mod carrying;
mod changing;
mod laws;
mod occurring;
mod outcomes;
mod plugins;
mod recovering;
mod sending;
mod settling;
mod simulation;
mod system;
mod telling;
mod violation;
mod worked;
mod world;

pub use assembling::AssembleFault;
pub use auditing::audit;
pub use csi_types::Event;
pub use laws::{audit_law, runs_law, safety_law, settling_law, table_law};
pub use outcomes::{Outcome, RecoveryRefusal, text_of};
pub use settling::Settled;
pub use simulation::simulate;
pub use telling::told_one_by_one;
pub use violation::Violation;
pub use world::World;
