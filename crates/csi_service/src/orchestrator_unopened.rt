//! Why an orchestrator isn't opened.
use csi_stores::KeepFault;
use thiserror::Error;

/// Why an orchestrator isn't opened from a store. This profile's own.
#[derive(Clone, Copy, Debug, PartialEq, Eq, Error)]
pub enum OrchestratorUnopened {
    /// The store refused a call, or what it has is no orchestrator's record, or an allocation was refused.
    #[error("{0}")]
    Keep(KeepFault),
    /// More than 64 nodes are asked for, or one of them twice.
    #[error("no orchestrator has these nodes")]
    BadNodes,
    /// The record's session is the last one.
    #[error("the numbers are spent")]
    NumbersSpent,
    /// A volume may be attached at a node of the record that isn't one of those that are asked for.
    #[error("a node that is left out is in use")]
    NodeInUse,
}
