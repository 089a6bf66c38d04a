//! A volume's id.
ghost use Rattle.std.specs.Prelude.{◌≡◌, ◌<◌};
ghost use Rattle.csi_types.specs.Public.Made.{IsGivenIf, Shows};
ghost use Rattle.csi_types.specs.Public.VolumeId.{IsVolumeId};

use std::marker::Model;

/// The id that the controller gives a volume (`Volume.volume_id` of CSI's spec.md, "CreateVolume"; in
/// this profile a number from 1). A contract sees it as the number.
#[derive(Clone, Copy, Debug, PartialEq, Eq, PartialOrd, Ord, Hash)]
pub struct VolumeId {
    number: u64,
}

impl Model for VolumeId {
    ghost use Rattle.std.specs.Prelude.{ℕ};
    ghost use Rattle.csi_types.specs.Public.VolumeId.{IsVolumeId};

    ghost Value = { ℕ };

    ghost view = { λ id. id.number };

    ghost invariant = { λ id. IsVolumeId id.number };

    ghost inverse = { λ number. record { number = number } };
}

impl VolumeId {
    /// The id of this number, or `None` for 0. It takes no memory.
    pub fn try_new(number: u64) -> Option<VolumeId>
        ensures { IsGivenIf (0 < number) number result }
    {
        if number == 0 {
            return None;
        }
        Some(VolumeId { number })
    }

    /// The id's number.
    pub fn number(self) -> u64
        ensures { Shows IsVolumeId self result }
    {
        self.number
    }

    /// The id, lent.
    pub fn lend(self) -> VolumeIdRef
        ensures { result.number ≡ self }
    {
        VolumeIdRef {
            number: self.number,
        }
    }
}

/// A `VolumeId`, lent: a type without a model, as all are that a frame lends.
#[derive(Clone, Copy)]
pub struct VolumeIdRef {
    pub number: u64,
    ghost from_one: { 0 < number },
}

impl VolumeIdRef {
    /// The id.
    pub fn volume_id(self) -> VolumeId
        ensures { result ≡ self.number }
    {
        VolumeId {
            number: self.number,
        }
    }
}
