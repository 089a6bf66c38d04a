//! What a process reads, writes and keeps records in: readers and writers that count their failures, stores of parts, one in memory, and
//! such as fail at a chosen call. This profile's own.
#![tactic(auto)]

mod counted;
mod entries;
mod failing;
mod keep;
mod memory_keep;
mod output;
mod part;
mod parts;

pub use counted::Counted;
pub use failing::keep::{FailingKeep, Left};
pub use failing::reader::FailingReader;
pub use failing::writer::FailingWriter;
pub use keep::{Keep, KeepFault};
pub use memory_keep::MemoryKeep;
pub use output::{WriteFailed, write_out};
pub use part::Part;
pub use parts::{push_removal, push_value};
