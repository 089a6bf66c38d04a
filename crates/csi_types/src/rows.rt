//! How many volumes a machine keeps.

/// The most volumes of which a controller, a node or an orchestrator keeps a row.
pub const MAX_ROWS: usize = 4096;
