//! What is the same in both plugins of the Container Storage Interface (CSI): the fence in front of their tables, the rows
//! behind it, the laws that they keep, and their faults.
#![tactic(auto)]

mod answer;
mod fault;
mod fence;
mod line;
mod places;
mod rows;
mod table;
mod verdicts;
mod worked;

pub use answer::Answer;
pub use fault::{CoreFault, RecordFault};
pub use fence::{Verdict, verdict_of};
pub use line::Line;
pub use rows::Rows;
pub use table::{Absent, Table};
