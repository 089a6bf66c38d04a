//! The orchestrator of the volume lifecycle of the Container Storage Interface (CSI): what it is asked for,
//! what it knows, and which call it sends next.
#![tactic(auto)]

mod beginning;
mod calls;
mod catalog;
mod changes;
mod commands;
mod decision;
mod due;
mod entries;
mod fault;
mod judged_nodes;
mod judged_rows;
mod judging;
mod laws;
mod listing;
mod marks;
mod next_call;
mod orchestrator;
mod record;
mod replies;
mod request;
mod row;
mod sending;
mod sharing;
mod sorting;
mod state;
mod step;
mod thing;
mod worked;

pub use fault::{Heard, OrchFault, OrchRecordFault};
pub use judged_nodes::are_nodes_fit;
pub use laws::{
    bounds_law, entries_law, form_law, moves_law, records_law, restart_law, rows_law, showing_law,
};
pub use orchestrator::Orchestrator;
pub use record::OrchestratorRecord;
pub use request::{Arguments, Usage};
pub use row::{Goal, NodeEntry, OpenCall, Row, TargetEntry};
pub use thing::{Known, Thing};
