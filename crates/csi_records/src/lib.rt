//! Records of the plugins and of an orchestrator: their parts, which a store keeps, and whole records as bytes, written and read
//! exactly.
#![tactic(auto)]

mod answered;
mod controller_record;
mod entries;
mod fault;
mod fields;
mod items;
mod known;
mod laws;
mod node_record;
mod orchestrator_bytes;
mod orchestrator_fields;
mod orchestrator_head;
mod orchestrator_parts;
mod orchestrator_record;
mod orchestrator_row;
mod orchestrator_rows;
mod orchestrator_values;
mod part_value;
mod plugin_rows;
mod record;
mod removals;
mod row_values;
mod splitting;
mod stored;
mod values;
mod version;
mod volumes;
mod worked;
mod writing;

pub use fault::RecordStop;
pub use laws::record_laws;
pub use orchestrator_bytes::write_orchestrator;
pub use orchestrator_parts::{push_orchestrator_row, push_orchestrator_rows};
pub use orchestrator_values::{orchestrator_head_value, orchestrator_row_value};
pub use record::{Record, read_record, record_of_node, write_record};
pub use removals::push_removals;
pub use row_values::{answered_value, controller_head_value, node_head_value, volume_value};
pub use stored::{Stored, is_present};
pub use version::RecordVersion;
