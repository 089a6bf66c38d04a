//! A store in a SQLite database, in memory or in a file, and the SQL that it asks for. This profile's own.
#![tactic(auto)]

mod listed;
mod rows;
mod sqlite_keep;

pub use rows::{all_rows, has_other, has_table, make_table, put_row, remove_row};
pub use sqlite_keep::{
    BEGUN_LOG, OverStore, OverStores, SqliteKeep, close_file, close_found, copies, find_at,
    is_half_made, over_file, over_files_at, over_found,
};
