//! Why bytes are no frame.
ghost use Rattle.std.specs.Prelude.{◌≡◌};
ghost use Rattle.csi_frames.specs.Public.FaultKind.{frame_fault_number};

use thiserror::Error;

/// What is wrong with the bytes, by the number that programs print. This profile's own.
#[derive(Clone, Copy, Debug, PartialEq, Eq, Error)]
pub enum FaultKind {
    #[error("the input ends within a frame")]
    Short = 1,
    #[error("the length is above 1280")]
    TooLong = 2,
    #[error("the version isn't known")]
    BadVersion = 3,
    #[error("the kind isn't known")]
    BadKind = 4,
    #[error("the party isn't the kind's")]
    BadParty = 5,
    #[error("a text is outside its limits or isn't UTF-8")]
    BadText = 6,
    #[error("the access mode isn't one of the version, or version 2 needs a newer one")]
    BadMode = 7,
    #[error("the access type isn't known")]
    BadAccess = 8,
    #[error("a flag is neither 0 nor 1")]
    BadFlag = 9,
    #[error("the status isn't known")]
    BadStatus = 10,
    #[error("the id is 0 in a call, or breaks the rule for replies")]
    BadId = 11,
    #[error("there are more than 8 capabilities, or none in version 2")]
    BadCount = 12,
    #[error("the fields don't end where the length says")]
    LengthDiffers = 13,
    #[error("out of memory")]
    NoMemory = 14,
}

impl FaultKind {
    /// The number that programs print.
    pub fn number(self) -> u8
        ensures { result ≡ frame_fault_number self }
    {
        self as u8
    }
}

/// The first fault of bytes that don't begin with a frame, and its place, counted from the first byte:
/// where the field at fault begins; for `TooLong` 0, where the length is; for `Short` the count of all
/// bytes; for `LengthDiffers` where the field begins that the body has no room for, or the first byte that
/// no field takes; and for `NoMemory` 0. This profile's own.
#[derive(Clone, Copy, Debug, PartialEq, Eq, Error)]
#[error("{kind}, at byte {place}")]
pub struct FrameFault {
    pub kind: FaultKind,
    pub place: usize,
}
