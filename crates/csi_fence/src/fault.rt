//! Why a plugin refuses.
use csi_types::NoMemory;
use std::alloc::{AllocError, AllocFailed};
use thiserror::Error;

/// Why a call of a plugin failed. It has left the plugin as it was (this profile's own).
#[derive(Clone, Copy, Debug, PartialEq, Eq, Error)]
pub enum CoreFault {
    /// An allocation was refused.
    #[error("out of memory")]
    NoMemory = 1,
}

impl From<NoMemory> for CoreFault {
    fn from(_refused: NoMemory) -> CoreFault {
        CoreFault::NoMemory
    }
}

impl From<AllocError> for CoreFault {
    fn from(_refused: AllocError) -> CoreFault {
        CoreFault::NoMemory
    }
}

impl<T: Drop> From<AllocFailed<T>> for CoreFault {
    fn from(_refused: AllocFailed<T>) -> CoreFault {
        CoreFault::NoMemory
    }
}

/// Why a record isn't made of rows (this profile's own).
#[derive(Clone, Copy, Debug, PartialEq, Eq, Error)]
pub enum RecordFault {
    /// The place, counted from 1, of the first row that no record has there.
    #[error("no record has row {0}")]
    BadRow(u64),
    /// An allocation was refused.
    #[error("out of memory")]
    NoMemory,
}
