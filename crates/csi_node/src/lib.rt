//! The node plugin of the volume lifecycle of the Container Storage Interface (CSI): what it answers to each
//! call, and what it keeps.
#![tactic(auto)]

mod changes;
mod entries;
mod forgettable;
mod judging;
mod laws;
mod node;
mod record;
mod row;
mod row_table;
mod sound_row;
mod table;
mod views;
mod worked;

pub use csi_fence::{Answer, CoreFault, RecordFault};
pub use entries::{Published, Staged};
pub use laws::{
    delivery_law, joining_law, publishing_law, record_law, safety_law, sessions_law, showing_law,
    table_law,
};
pub use node::Node;
pub use record::NodeRecord;
pub use row::{NodeRow, NodeTarget};
