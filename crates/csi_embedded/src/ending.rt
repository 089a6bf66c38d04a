//! How a call ends.
ghost use Rattle.std.specs.Prelude.{◌≡◌};
ghost use Rattle.csi_embedded.specs.Public.Endings.{ending_number};

use csi_types::NoMemory;

/// How a call ends: each has a number, which `include/tufayon.h` names. This profile's own.
#[derive(Clone, Copy, Debug, PartialEq, Eq)]
pub enum CallEnding {
    /// It was done.
    Done = 0,
    /// An allocation was refused.
    NoMemory = 1,
    /// The handle has nothing.
    Empty = 2,
    /// The handle has something already.
    Full = 3,
    /// The bytes are no configuration, or no id, name, target or capability.
    BadName = 4,
    /// The bytes are no record of what is asked for.
    BadRecord = 5,
    /// The bytes are the beginning of a frame.
    Short = 6,
    /// The bytes begin with no frame.
    BadFrame = 7,
    /// What is to be written doesn't fit.
    NoRoom = 8,
    /// It was done, and the record was one of an earlier version.
    Renewed = 9,
    /// It was done: the part is taken out.
    TakenOut = 10,
    /// There is no such part.
    NoMore = 11,
    /// The orchestrator refused, for a reason that has a number of its own.
    Refused = 12,
    /// The call is another kind's: a plugin's of an orchestrator's handle, or the other way round.
    OtherKind = 13,
    /// It was done: what is asked is so already, and nothing is sent.
    Met = 14,
    /// It was done: the frame is no reply to an open call, and nothing changed.
    Ignored = 15,
    /// The record is of an earlier session than that of the node's joining.
    EarlierSession = 16,
    /// A volume may be attached at a node of the record that the configuration leaves out.
    NodeInUse = 17,
    /// The frame says of an open call that it was stale: the store is an older one, and nothing changed.
    OlderStore = 18,
    /// Two nodes' records are of one node.
    SameNode = 19,
    /// The session isn't later than all that the plugins heard of.
    NotLater = 20,
    /// A node's record disagrees with the controller's.
    Disagrees = 21,
    /// A live volume can't have a row.
    BadRow = 22,
}

impl CallEnding {
    /// The ending's number. It takes no memory.
    pub fn number(self) -> u32
        ensures { result ≡ ending_number self }
    {
        self as u32
    }
}

impl From<NoMemory> for CallEnding {
    ghost use Rattle.std.specs.Prelude.{◌≡◌};
    ghost use Rattle.csi_embedded.specs.declared.ending.CallEnding.TheVariants.{NoMemory as Refused};

    ghost from_gives = { λ _ ending. ending ≡ Refused };

    fn from(_refused: NoMemory) -> CallEnding {
        CallEnding::NoMemory
    }
}
