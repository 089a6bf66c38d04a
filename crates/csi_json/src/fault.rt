//! Why a text was not read.
ghost use Rattle.std.specs.Prelude.{◌≡◌};
ghost use Rattle.csi_json.specs.Public.Faults.{schedule_fault_number, fault_place};

use crate::values::Flaw;
use thiserror::Error;

/// Why a text was not read as a schedule, or as a configuration alone.
#[derive(Clone, Copy, Debug, PartialEq, Eq, Error)]
pub enum ScheduleFault {
    /// The text isn't JSON.
    #[error("no JSON")]
    NotJson,
    /// The event of this place, counted from 1, isn't as the format says; 0 for the object itself and its configuration.
    #[error("bad schedule at {place}")]
    BadSchedule { place: u64 },
    /// There are more than 100,000 events.
    #[error("too many events")]
    TooMany,
    /// An allocation was refused.
    #[error("out of memory")]
    NoMemory,
}

impl ScheduleFault {
    /// The fault's number in the format.
    pub fn number(self) -> u8
        ensures { result ≡ schedule_fault_number self }
    {
        match self {
            ScheduleFault::NotJson => 1,
            ScheduleFault::BadSchedule { .. } => 2,
            ScheduleFault::TooMany => 3,
            ScheduleFault::NoMemory => 4,
        }
    }

    /// The place of the bad event; 0 where the fault has none.
    pub fn place(self) -> u64
        ensures { result ≡ fault_place self }
    {
        match self {
            ScheduleFault::BadSchedule { place } => place,
            _ => 0,
        }
    }
}

impl From<Flaw> for ScheduleFault {
    ghost use Rattle.std.specs.Prelude.{◌≡◌};
    ghost use Rattle.csi_json.specs.Public.Faults.{fault_of};

    ghost from_gives = { λ flaw fault. fault ≡ fault_of flaw };

    fn from(flaw: Flaw) -> ScheduleFault {
        match flaw {
            Flaw::Bad => ScheduleFault::BadSchedule { place: 0 },
            Flaw::NoMemory => ScheduleFault::NoMemory,
        }
    }
}
