//! How serving lines ends.
use csi_stores::KeepFault;
use thiserror::Error;

/// The whole input was served. This profile's own.
#[derive(Clone, Copy, Debug, PartialEq, Eq)]
pub struct ServedLines {
    /// How many lines there were.
    pub lines: u64,
}

/// Why serving ended before the end of the input. This profile's own.
#[derive(Clone, Copy, Debug, PartialEq, Eq, Error)]
pub enum LinesServeFaultKind {
    /// The reader failed; all lines before that are answered.
    #[error("the input can't be read")]
    Input,
    /// The writer failed at the answers to the lines that were committed last.
    #[error("the output can't be written")]
    Output,
    /// The line with this number, from 1, has more than 65,536 bytes.
    #[error("line {0} of the input is too long")]
    Long(u64),
    /// The store refused what the next lines changed, whose answers are not written.
    #[error("{0}")]
    Keep(KeepFault),
    /// An allocation was refused.
    #[error("out of memory")]
    NoMemory,
    /// The next line tells that the store is an older one: nothing of it is answered.
    #[error("the store is an older one")]
    OlderStore,
    /// 2^63 bytes or more were read, and no end.
    #[error("the input has no end")]
    Endless,
}

/// Why serving ended, and how many lines were committed before. This profile's own.
#[derive(Clone, Copy, Debug, PartialEq, Eq, Error)]
#[error("{kind}, after {lines} lines")]
pub struct LinesServeFault {
    pub kind: LinesServeFaultKind,
    pub lines: u64,
}
