//! Why a controller's record isn't made of an orchestrator's.
use thiserror::Error;

/// Why no controller's record is made of an orchestrator's: the first of these that holds, in this order, but that an allocation may be
/// refused once the ids were judged (this profile's own).
#[derive(Clone, Copy, Debug, PartialEq, Eq, Error)]
pub enum RebuildingFault {
    /// No session is after the orchestrator's.
    #[error("no session is left")]
    NumbersSpent,
    /// The place, counted from 1, of the first row whose id isn't below the next one; 0 where the next one is 0.
    #[error("the next id isn't above that of row {0}")]
    IdTaken(u64),
    /// The place, counted from 1 by rising id, of the first volume that can't have a row.
    #[error("no record has volume {0}")]
    BadRow(u64),
    /// An allocation was refused.
    #[error("out of memory")]
    NoMemory,
}
