//! What an audit finds.
ghost use Rattle.std.specs.Prelude.{◌≡◌};
ghost use Rattle.csi_world.specs.Public.Audited.{violation_number};

/// Which clause of safety fails first, in this order (CSI's spec.md, "CreateVolume", `AccessMode`, for the first, and "Volume
/// Lifecycle" for the others).
#[derive(Clone, Copy, Debug, PartialEq, Eq)]
pub enum Violation {
    /// Two holdings of one volume can't be held together.
    TwoNodes,
    /// A volume is staged at a node at which it isn't attached so.
    StagedUnattached,
    /// A volume is published where it isn't staged so.
    PublishedUnstaged,
    /// A volume that was deleted is attached.
    DeletedAttached,
    /// What the orchestrator knows isn't so.
    RecordedWrong,
}

impl Violation {
    /// The number of the clause. This profile's own.
    pub fn number(self) -> u8
        ensures { result ≡ violation_number self }
    {
        match self {
            Violation::TwoNodes => 1,
            Violation::StagedUnattached => 2,
            Violation::PublishedUnstaged => 3,
            Violation::DeletedAttached => 4,
            Violation::RecordedWrong => 5,
        }
    }
}
