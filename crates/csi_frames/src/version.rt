//! Versions of frames. What a version has is told here and nowhere else.
ghost use Rattle.std.specs.Prelude.{◌≡◌, false};
ghost use Rattle.csi_frames.specs.Public.Version.{version_number, version_from_number, version_with, least_count, owes_new_mode};
ghost use Rattle.csi_frames.specs.Public.Version.{has_mode, is_new_mode, mode_in, has_kind, kind_in_version};

use crate::body_kind::BodyKind;
use csi_types::{Kind, Mode};

/// A version of frames. Their bytes say which one it is. This profile's own.
#[derive(Clone, Copy, Debug, PartialEq, Eq)]
pub enum Version {
    /// The first one.
    One,
    /// The second one, which has all modes. A frame is written in it where one of its capabilities is in a mode that the first
    /// version hasn't.
    Two,
}

/// Whether the first version hasn't this mode.
#[inline]
pub(crate) fn is_new_mode(mode: Mode) -> bool
    ensures { result ≡ is_new_mode mode }
{
    !Version::One.has_mode(mode)
}

impl Version {
    /// The byte that stands for the version. It takes no memory.
    #[inline]
    pub fn number(self) -> u8
        ensures { result ≡ version_number self }
    {
        match self {
            Version::One => 1,
            Version::Two => 2,
        }
    }

    /// The version that a byte stands for, if there is one. It takes no memory.
    #[inline]
    pub fn from_number(number: u8) -> Option<Version>
        ensures { result ≡ version_from_number number }
    {
        match number {
            1 => Some(Version::One),
            2 => Some(Version::Two),
            _ => None,
        }
    }

    // Whether a capability may be in this mode.
    #[inline]
    fn has_mode(self, mode: Mode) -> bool
        ensures { result ≡ has_mode self mode }
    {
        match (self, mode) {
            (Version::One, Mode::SingleNodeWriter) => true,
            (Version::One, Mode::SingleNodeReaderOnly) => true,
            (Version::One, Mode::MultiNodeReaderOnly) => true,
            (Version::One, Mode::MultiNodeSingleWriter) => true,
            (Version::One, Mode::MultiNodeMultiWriter) => true,
            (Version::One, Mode::SingleNodeSingleWriter) => false,
            (Version::One, Mode::SingleNodeMultiWriter) => false,
            (Version::Two, _) => true,
        }
    }

    // Whether a frame may have a body of this kind: in the second version a call that has capabilities.
    #[inline]
    fn has_kind(self, kind: BodyKind) -> bool
        ensures { result ≡ has_kind self kind }
    {
        match (self, kind) {
            (Version::One, _) => true,
            (Version::Two, BodyKind::Call(Kind::CreateVolume)) => true,
            (Version::Two, BodyKind::Call(Kind::DeleteVolume)) => false,
            (Version::Two, BodyKind::Call(Kind::ControllerPublishVolume)) => true,
            (Version::Two, BodyKind::Call(Kind::ControllerUnpublishVolume)) => false,
            (Version::Two, BodyKind::Call(Kind::NodeStageVolume)) => true,
            (Version::Two, BodyKind::Call(Kind::NodeUnstageVolume)) => false,
            (Version::Two, BodyKind::Call(Kind::NodePublishVolume)) => true,
            (Version::Two, BodyKind::Call(Kind::NodeUnpublishVolume)) => false,
            (Version::Two, BodyKind::Reply(_)) => false,
        }
    }

    /// The fewest capabilities that a CreateVolume has. It takes no memory.
    #[inline]
    pub(crate) fn least_count(self) -> u8
        ensures { result ≡ least_count self }
    {
        match self {
            Version::One => 0,
            Version::Two => 1,
        }
    }

    /// Whether a frame owes a capability in a mode that the first version hasn't. It takes no memory.
    #[inline]
    pub(crate) fn owes_new_mode(self) -> bool
        ensures { result ≡ owes_new_mode self }
    {
        match self {
            Version::One => false,
            Version::Two => true,
        }
    }

    /// The version in which a frame is written, by whether one of its capabilities is in a mode that the first version hasn't. It
    /// takes no memory.
    #[inline]
    pub(crate) fn with_new_mode(has_new_mode: bool) -> Version
        ensures { result ≡ version_with has_new_mode }
    {
        if has_new_mode {
            Version::Two
        } else {
            Version::One
        }
    }

    /// The mode of this number in CSI, if a capability may be in it where one that the first version hasn't is owed, or isn't. It
    /// takes no memory.
    #[inline]
    pub(crate) fn mode_where(self, owed: bool, number: u8) -> Option<Mode>
        ensures { result ≡ mode_in self owed number }
    {
        match Mode::from_number(number) {
            Some(mode) if self.has_mode(mode) && (!owed || is_new_mode(mode)) => Some(mode),
            _ => None,
        }
    }

    /// The mode of this number in CSI, if the version has it. It takes no memory.
    #[inline]
    pub fn mode(self, number: u8) -> Option<Mode>
        ensures { result ≡ mode_in self false number }
    {
        self.mode_where(false, number)
    }

    /// What a kind byte stands for, if the version has it.
    #[inline]
    pub(crate) fn kind(self, number: u8) -> Option<BodyKind>
        ensures { result ≡ kind_in_version self number }
    {
        match BodyKind::from_number(number) {
            Some(kind) if self.has_kind(kind) => Some(kind),
            _ => None,
        }
    }
}
