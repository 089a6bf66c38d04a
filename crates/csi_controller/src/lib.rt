//! The controller plugin of the volume lifecycle of the Container Storage Interface (CSI): what it answers
//! to each call, and what it keeps.
#![tactic(auto)]

mod catalog;
mod controller;
mod judging;
mod laws;
mod names;
mod record;
mod row;
mod sound_row;
mod table;
mod worked;

pub use controller::{Controller, current_law, sound_law};
pub use csi_fence::{Answer, CoreFault, RecordFault};
pub use laws::{
    delivery_law, exclusive_law, names_law, safety_law, sessions_law, showing_law, table_law,
};
pub use record::ControllerRecord;
pub use row::{ControllerRow, NodeHolding};
