//! Why an orchestrator isn't recovered.
ghost use Rattle.std.specs.Prelude.{◌≡◌};
ghost use Rattle.csi_recovery.specs.Private.Walks.{passed_on};

use csi_orchestrator::OrchRecordFault;
use thiserror::Error;

/// Why no orchestrator's record is made of what its plugins keep: the first of these that holds, in this order, but that an allocation
/// may be refused once the stores were judged (this profile's own).
#[derive(Clone, Copy, Debug, PartialEq, Eq, Error)]
pub enum RecoveryFault {
    /// The place, counted from 1, of the first node's record that is of the node of an earlier one.
    #[error("node record {0} is of the node of an earlier one")]
    SameNode(u64),
    /// The session isn't later than that of the controller's record and those of all nodes' records.
    #[error("the session isn't later than all that were heard of")]
    NotLater,
    /// The place, counted from 1, of the first node's record that disagrees with the controller's: a volume is staged there and isn't
    /// attached there in that capability, or is published with another flag than it is attached with.
    #[error("node record {0} disagrees with the controller's")]
    Disagrees(u64),
    /// There are more than 64 nodes, or one stands there twice.
    #[error("no record has these nodes")]
    BadNodes,
    /// The place, counted from 1, of the first live volume that can't have a row: it is staged at a node that isn't among these, or staged
    /// and published nowhere at two nodes.
    #[error("no record has row {0}")]
    BadRow(u64),
    /// An allocation was refused.
    #[error("out of memory")]
    NoMemory,
}

/// The fault by which the record wasn't made.
pub(crate) fn fault_of(fault: OrchRecordFault) -> RecoveryFault
    ensures { result ≡ passed_on fault }
{
    match fault {
        OrchRecordFault::BadNodes => RecoveryFault::BadNodes,
        OrchRecordFault::BadRow(place) => RecoveryFault::BadRow(place),
        OrchRecordFault::NoMemory => RecoveryFault::NoMemory,
    }
}
