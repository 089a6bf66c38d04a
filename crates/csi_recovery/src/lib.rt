//! Recovery: an orchestrator of the volume lifecycle of the Container Storage Interface (CSI) that lost its store is made of what its
//! plugins keep, and a controller of what its orchestrator keeps; and the law that every world stays safe then. This profile's own.
#![tactic(auto)]

mod agreeing;
mod entries;
mod fault;
mod finding;
mod judging;
mod laws;
mod opening;
mod rebuilding;
mod rebuilding_fault;
mod recovering;
mod rows;
mod session;
mod worked;
mod worlds;

pub use fault::RecoveryFault;
pub use judging::first_unlike;
pub use laws::{recovery_law, stale_law};
pub use rebuilding::rebuilt;
pub use rebuilding_fault::RebuildingFault;
pub use recovering::recovered;
pub use session::{SESSIONS_ABOVE, recovery_session};
pub use worlds::recover_world;
