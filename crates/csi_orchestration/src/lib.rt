//! Lines, one request each, answered over a store: what each changed is committed, and then its answer is written. What the lines mean
//! says a type that implements a trait; and the orchestrator as a program, whose lines are commands, timeouts and frames that came. This
//! profile's own.
#![tactic(auto)]

mod ending;
mod lines_runs;
mod lines_serving;
mod nodes;
mod orchestrator_responder;
mod responder;
mod running;
mod telling;

pub use lines_runs::{StoredResponder, lines_runs_law};
pub use lines_serving::{LinesServeFault, LinesServeFaultKind, ServedLines, serve_lines};
pub use nodes::asked_nodes;
pub use orchestrator_responder::OrchestratorResponder;
pub use responder::Responder;
pub use running::{orchestrator, orchestrator_runs_law, orchestrator_three_runs_law, worlds_law};
