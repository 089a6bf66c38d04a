//! Why a node isn't opened.
use csi_stores::KeepFault;
use thiserror::Error;

/// Why a node isn't opened from a store. This profile's own.
#[derive(Clone, Copy, Debug, PartialEq, Eq, Error)]
pub enum NodeUnopened {
    /// The store refused a call, or what it has is no record of this node, or an allocation was refused.
    #[error("{0}")]
    Keep(KeepFault),
    /// The record is of an earlier session than that of the node's joining: that of a lost node of this id.
    #[error("the record is of an earlier session")]
    EarlierSession,
}
