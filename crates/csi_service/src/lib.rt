//! The plugins as services: each with its record, opened from a store and served over it, with a commit before each reply. And the
//! orchestrator with its record, opened from a store. What is public of stores is public here too.
#![tactic(auto)]

mod changed;
mod controller_service;
mod node_opening;
mod node_service;
mod node_unopened;
mod opening;
mod orchestrator_changes;
mod orchestrator_opening;
mod orchestrator_service;
mod orchestrator_unopened;
mod plugin;
mod plugin_core;
mod plugin_service;
mod raising;
mod renewed;
mod serving;
mod whole_records;
mod worked;

pub use controller_service::ControllerService;
pub use csi_records::{Record, write_record};
pub use csi_stores::{Counted, Keep, KeepFault, MemoryKeep, Part};
pub use node_service::NodeService;
pub use node_unopened::NodeUnopened;
pub use orchestrator_service::OrchestratorService;
pub use orchestrator_unopened::OrchestratorUnopened;
pub use plugin_core::Core;
pub use raising::raise;
pub use renewed::{Renewed, parts_raising, renewed_controller, renewed_node};
pub use serving::{ServeFault, ServeFaultKind, Served, serve};
pub use whole_records::read_record;
