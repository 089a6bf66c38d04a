//! When the files of a store stop to answer.

/// How many calls the log answers and how many the database file; and whether the power fails then, so that what wasn't synced is lost.
#[derive(Clone, Copy)]
pub struct DiskStop {
    /// The log's calls.
    pub log: u64,
    /// The database file's.
    pub db: u64,
    /// Whether the power fails.
    pub power_fails: bool,
}

/// Neither file stops.
pub const NO_STOP: DiskStop = DiskStop {
    log: u64::MAX,
    db: u64::MAX,
    power_fails: false,
};

/// The file that stops.
#[derive(Clone, Copy)]
pub enum Stopping {
    /// The log does.
    Log,
    /// The database file does.
    Database,
}

impl Stopping {
    /// The stop of this file after so many calls.
    pub fn after(self, calls: u64, power_fails: bool) -> DiskStop {
        match self {
            Stopping::Log => DiskStop {
                log: calls,
                power_fails,
                ..NO_STOP
            },
            Stopping::Database => DiskStop {
                db: calls,
                power_fails,
                ..NO_STOP
            },
        }
    }
}
