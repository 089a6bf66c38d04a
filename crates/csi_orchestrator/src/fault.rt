//! Why an orchestrator refuses.
ghost use Rattle.std.specs.Prelude.{◌≡◌};
ghost use Rattle.csi_orchestrator.specs.declared.fault.OrchFault.TheVariants.{NoMemory as WantsMemory};

mod numbers;

use csi_types::{Frame, NoMemory};
use std::alloc::{AllocError, AllocFailed};
use thiserror::Error;

/// Why a command, a timeout, a reply or a restart is refused. A refusal leaves the orchestrator as it was.
#[derive(Clone, Copy, Debug, PartialEq, Eq, Error)]
pub enum OrchFault {
    /// The name has a row with an id or a goal.
    #[error("the name is used")]
    NameUsed,
    /// The name has no row.
    #[error("no such volume")]
    NoSuchVolume,
    /// The volume isn't known to be made.
    #[error("the volume isn't created")]
    NotCreated,
    /// The row has a goal.
    #[error("the volume is busy")]
    Busy,
    /// The node isn't in the orchestrator's list.
    #[error("no such node")]
    NoSuchNode,
    /// The capability isn't one that the volume was created with.
    #[error("the volume hasn't this capability")]
    NotCapable,
    /// The volume may be attached at another node, and one of the two modes is for one node.
    #[error("the volume is held at another node")]
    HeldElsewhere,
    /// The volume may be attached at another node, both write, and one of the two modes has one writer.
    #[error("the volume has a writer at another node")]
    WriterElsewhere,
    /// The volume may be attached at this node otherwise.
    #[error("the volume is held otherwise")]
    HeldOtherwise,
    /// The mode allows one target, and another target of the node may be published.
    #[error("another target is taken")]
    TargetTaken,
    /// Nothing may be published at the target.
    #[error("no such target")]
    NoSuchTarget,
    /// The volume may be attached at a node.
    #[error("the volume is in use")]
    InUse,
    /// The row has no goal.
    #[error("nothing to wait for")]
    Idle,
    /// The next call or session would have a number above 2^64 - 1.
    #[error("the numbers are spent")]
    NumbersSpent,
    /// There are 4,096 rows, 16 other targets of the node, or 64 other nodes of the volume.
    #[error("no room")]
    Full,
    /// An allocation was refused.
    #[error("out of memory")]
    NoMemory,
    /// A volume may be attached at a node that the new list leaves out.
    #[error("a node that is left out is in use")]
    NodeInUse,
}

impl From<NoMemory> for OrchFault {
    ghost from_gives = { λ _ fault. fault ≡ WantsMemory };

    fn from(_refused: NoMemory) -> OrchFault {
        OrchFault::NoMemory
    }
}

impl From<AllocError> for OrchFault {
    ghost from_gives = { λ _ fault. fault ≡ WantsMemory };

    fn from(_refused: AllocError) -> OrchFault {
        OrchFault::NoMemory
    }
}

impl<T: Drop> From<AllocFailed<T>> for OrchFault {
    ghost from_gives = { λ _ fault. fault ≡ WantsMemory };

    fn from(_refused: AllocFailed<T>) -> OrchFault {
        OrchFault::NoMemory
    }
}

/// Why an orchestrator's record isn't made (this profile's own).
#[derive(Clone, Copy, Debug, PartialEq, Eq, Error)]
pub enum OrchRecordFault {
    /// There are more than 64 nodes, or one stands there twice.
    #[error("no record has these nodes")]
    BadNodes,
    /// The place, counted from 1, of the first row that no record has there.
    #[error("no record has row {0}")]
    BadRow(u64),
    /// An allocation was refused.
    #[error("out of memory")]
    NoMemory,
}

/// What became of a frame that came.
#[derive(Debug, PartialEq, Eq, Drop)]
pub enum Heard {
    /// It isn't a reply to an open call. Nothing changed.
    Ignored,
    /// It closed its call; this is the next call to send, if there is one.
    Taken(Option<Frame>),
}
