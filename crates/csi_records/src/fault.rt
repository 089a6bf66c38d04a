//! Why parts or bytes are no record.
use csi_stores::KeepFault;
use csi_types::{NoMemory, TextFault};
use std::alloc::{AllocError, AllocFailed};
use thiserror::Error;

/// Why no record was read. This profile's own.
#[derive(Clone, Copy, Debug, PartialEq, Eq, Error)]
pub enum RecordStop {
    /// The place, from 0, of the first part that is refused.
    #[error("no record, at part {0}")]
    BadRecord(u64),
    /// An allocation was refused.
    #[error("out of memory")]
    NoMemory,
}

impl From<NoMemory> for RecordStop {
    ghost use Rattle.std.specs.Prelude.{◌≡◌};
    ghost use Rattle.csi_records.specs.declared.fault.RecordStop.TheVariants.{NoMemory as Refused};

    ghost from_gives = { λ _ stop. stop ≡ Refused };

    fn from(_refused: NoMemory) -> RecordStop {
        RecordStop::NoMemory
    }
}

impl From<RecordStop> for KeepFault {
    ghost use Rattle.std.specs.Prelude.{◌≡◌};
    ghost use Rattle.csi_records.specs.Public.Refusing.{fault_of_stop};

    ghost from_gives = { λ stop fault. fault ≡ fault_of_stop stop };

    fn from(stop: RecordStop) -> KeepFault {
        match stop {
            RecordStop::BadRecord(place) => KeepFault::BadRecord(place),
            RecordStop::NoMemory => KeepFault::NoMemory,
        }
    }
}

/// Why a value wasn't read.
#[derive(Clone, Copy)]
pub(crate) enum ValueStop {
    /// Its bytes are none that spell one.
    Bad,
    /// An allocation was refused.
    NoMemory,
}

// Bytes that are no field of frames are none of records.
impl From<csi_frames::FieldStop> for ValueStop {
    ghost use Rattle.std.specs.Prelude.{◌≡◌};
    ghost use Rattle.csi_records.specs.declared.fault.ValueStop.TheVariants.{Bad as NotRead};

    ghost from_gives = { λ _ stop. stop ≡ NotRead };

    fn from(_stop: csi_frames::FieldStop) -> ValueStop {
        ValueStop::Bad
    }
}

// A text is within its limits when it was read, so that a copy of it can only want memory.
impl From<TextFault> for ValueStop {
    ghost use Rattle.std.specs.Prelude.{◌≡◌};
    ghost use Rattle.csi_records.specs.declared.fault.ValueStop.TheVariants.{NoMemory as Refused};

    ghost from_gives = { λ _ stop. stop ≡ Refused };

    fn from(_fault: TextFault) -> ValueStop {
        ValueStop::NoMemory
    }
}

impl From<AllocError> for ValueStop {
    ghost use Rattle.std.specs.Prelude.{◌≡◌};
    ghost use Rattle.csi_records.specs.declared.fault.ValueStop.TheVariants.{NoMemory as Refused};

    ghost from_gives = { λ _ stop. stop ≡ Refused };

    fn from(_refused: AllocError) -> ValueStop {
        ValueStop::NoMemory
    }
}

impl<T: Drop> From<AllocFailed<T>> for ValueStop {
    ghost use Rattle.std.specs.Prelude.{◌≡◌};
    ghost use Rattle.csi_records.specs.declared.fault.ValueStop.TheVariants.{NoMemory as Refused};

    ghost from_gives = { λ _ stop. stop ≡ Refused };

    fn from(_refused: AllocFailed<T>) -> ValueStop {
        ValueStop::NoMemory
    }
}
