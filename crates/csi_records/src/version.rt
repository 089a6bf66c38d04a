//! Versions of records. What a version has is told here and nowhere else.
ghost use Rattle.std.specs.Prelude.{◌≡◌};
ghost use Rattle.csi_records.specs.Public.Version.{record_version_number, modes_of, has_session};
ghost use Rattle.csi_records.specs.Private.Version.{record_version_from_number};

use csi_frames::Version;

/// A version of records. The first byte of each value says which one it is. This profile's own.
#[derive(Clone, Copy, Debug, PartialEq, Eq)]
pub enum RecordVersion {
    /// The first one.
    One,
    /// The second one, which has all modes.
    Two,
    /// The third one, whose head has the greatest session that came too.
    Three,
}

/// The version in which records are written.
pub(crate) const PRESENT: RecordVersion = RecordVersion::Three;

impl RecordVersion {
    /// The byte that stands for the version.
    pub(crate) fn number(self) -> u8
        ensures { result ≡ record_version_number self }
    {
        match self {
            RecordVersion::One => 1,
            RecordVersion::Two => 2,
            RecordVersion::Three => 3,
        }
    }

    /// The version that a byte stands for, if there is one.
    pub(crate) fn from_number(number: u8) -> Option<RecordVersion>
        ensures { result ≡ record_version_from_number number }
    {
        match number {
            1 => Some(RecordVersion::One),
            2 => Some(RecordVersion::Two),
            3 => Some(RecordVersion::Three),
            _ => None,
        }
    }

    /// The version of frames that has the same modes.
    pub(crate) fn modes(self) -> Version
        ensures { result ≡ modes_of self }
    {
        match self {
            RecordVersion::One => Version::One,
            RecordVersion::Two | RecordVersion::Three => Version::Two,
        }
    }

    /// Whether the head has the greatest session that came.
    pub(crate) fn has_session(self) -> bool
        ensures { result ≡ has_session self }
    {
        match self {
            RecordVersion::One | RecordVersion::Two => false,
            RecordVersion::Three => true,
        }
    }
}
