//! How serving ends.
use csi_frames::FaultKind;
use csi_stores::KeepFault;
use thiserror::Error;

/// The whole input was served. This profile's own.
#[derive(Clone, Copy, Debug, PartialEq, Eq)]
pub struct Served {
    /// How many frames there were.
    pub frames: u64,
    /// How many of them got a reply.
    pub replies: u64,
}

/// Why serving ended before the end of the input. This profile's own.
#[derive(Clone, Copy, Debug, PartialEq, Eq, Error)]
pub enum ServeFaultKind {
    /// The reader failed; all frames before that are answered.
    #[error("the input can't be read")]
    Input,
    /// The writer failed at the replies to the frames that were committed last.
    #[error("the output can't be written")]
    Output,
    /// The bytes after the last frame are no frame: the kind of their first fault, and its place from the front of the input.
    #[error("{0}, at byte {1} of the input")]
    Frame(FaultKind, u64),
    /// The store refused what the next frames changed, whose replies are not written.
    #[error("{0}")]
    Keep(KeepFault),
    /// An allocation was refused.
    #[error("out of memory")]
    NoMemory,
    /// 2^63 bytes or more were read, and no end.
    #[error("the input has no end")]
    Endless,
}

/// Why serving ended, and how many frames were committed before.
#[derive(Clone, Copy, Debug, PartialEq, Eq, Error)]
#[error("{kind}, after {frames} frames")]
pub struct ServeFault {
    pub kind: ServeFaultKind,
    pub frames: u64,
}
