//! Access modes.
ghost use Rattle.std.specs.Prelude.{◌≡◌};
ghost use Rattle.csi_types.specs.Model.Mode.{mode_number};
ghost use Rattle.csi_types.specs.Public.Mode.{mode_from_number};

/// How a volume may be used, and from how many nodes at once: `AccessMode` of CSI's spec.md,
/// "CreateVolume". `UNKNOWN`, 0, is never accepted.
#[derive(Clone, Copy, Debug, PartialEq, Eq)]
pub enum Mode {
    /// Published once, for reading and writing.
    SingleNodeWriter = 1,
    /// Published once, for reading.
    SingleNodeReaderOnly = 2,
    /// Published at several nodes, for reading.
    MultiNodeReaderOnly = 3,
    /// Published at several nodes, of which one may write.
    MultiNodeSingleWriter = 4,
    /// Published at several nodes, all of which may write.
    MultiNodeMultiWriter = 5,
    /// Published at one node and at one target there, for reading and writing.
    SingleNodeSingleWriter = 6,
    /// Published at one node and at several targets there, for reading and writing.
    SingleNodeMultiWriter = 7,
}

impl Mode {
    /// The mode's number in CSI.
    pub fn number(self) -> u8
        ensures { result ≡ mode_number self }
    {
        self as u8
    }

    /// The mode of a number, if it has one.
    pub fn from_number(number: u8) -> Option<Mode>
        ensures { result ≡ mode_from_number number }
    {
        match number {
            1 => Some(Mode::SingleNodeWriter),
            2 => Some(Mode::SingleNodeReaderOnly),
            3 => Some(Mode::MultiNodeReaderOnly),
            4 => Some(Mode::MultiNodeSingleWriter),
            5 => Some(Mode::MultiNodeMultiWriter),
            6 => Some(Mode::SingleNodeSingleWriter),
            7 => Some(Mode::SingleNodeMultiWriter),
            _ => None,
        }
    }
}
