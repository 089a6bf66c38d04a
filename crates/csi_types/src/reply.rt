//! What a plugin answers.
ghost use Rattle.std.specs.Prelude.{◌≡◌};
ghost use Rattle.csi_types.specs.Public.Reply.{has_id_by_rule};

use crate::call::Kind;
use crate::status::Status;
use crate::text::Detail;
use crate::volume_id::VolumeId;

/// What a plugin answers.
#[derive(Clone, Debug, PartialEq, Eq, Drop)]
pub struct Reply {
    pub status: Status,
    /// The id of the volume that was made or found, in an `Ok` to CreateVolume and nowhere else.
    pub id: Option<VolumeId>,
    /// What the status doesn't say; empty where it says all.
    pub detail: Detail,
}

impl Reply {
    // Whether it has an id exactly where a reply to a call of this kind must have one.
    pub(crate) fn has_id_by_rule(&self, kind: Kind) -> bool
        ensures { result ≡ has_id_by_rule kind self.now }
    {
        let must = kind == Kind::CreateVolume && self.status == Status::Ok;
        self.id.is_some() == must
    }
}
