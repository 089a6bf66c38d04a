//! Stores in SQLite as tests have them: over two files in memory that stop to answer after so many calls, and over a database in memory. Both
//! are types without parameters, of which `Keep` promises nothing but the count of failures: a call at the store in SQLite itself costs many times
//! what a call at any other does, so the crates of tests make none.
#![tactic(auto)]

mod disk_keep;
mod file_keep;
mod image;
mod stop;
mod table_keep;

pub use disk_keep::{DiskKeep, Opened};
pub use image::Image;
pub use stop::{DiskStop, NO_STOP, Stopping};
pub use table_keep::TableKeep;
