//! What machines have, in order, as JSON: the report of a simulated world, the line of a record, and the lines in which an orchestrator
//! answers. This profile's own.
#![tactic(auto)]

mod by_name;
mod document;
mod entries;
mod gathering;
mod goals;
mod laws;
mod lists;
mod live_volumes;
mod members;
mod orchestrator_records;
mod order;
mod outcomes;
mod rebuildings;
mod records;
mod recoveries;
mod responses;
mod things;
mod writer;

pub use document::report;
pub use entries::{Entry, PublishedAt, StagedAt};
pub use laws::{opened_line_law, orchestrator_line_law, report_law};
pub use lists::{attached, published, staged};
pub use live_volumes::write_volumes;
pub use members::put_array;
pub use orchestrator_records::orchestrator_line;
pub use rebuildings::rebuilding_line;
pub use records::{controller_line, node_line};
pub use recoveries::recovery_line;
pub use responses::{
    RequestOutcome, Sending, answer_line, fault_line, ignored_line, loss_line, opened_line,
};
pub use writer::JsonWriter;
