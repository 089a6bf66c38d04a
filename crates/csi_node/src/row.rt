//! A node's rows, as its record has them.
ghost use Rattle.std.specs.Prelude.{◌≡◌};
ghost use Rattle.csi_node.specs.Model.OneRow.{node_row_shown};

use csi_types::{Capability, Kind, Number, Reply, Target, VolumeId};
use std::alloc::AllocError;

/// A target at which a volume is published, in the capability in which it is staged.
#[derive(Debug, PartialEq, Eq, Drop)]
pub struct NodeTarget {
    pub target: Target,
    pub readonly: bool,
}

/// A volume for which the node answered a call: how it is staged, where it is published, and the last call
/// that was answered for it with the reply that was given.
#[derive(Debug, PartialEq, Eq, Drop)]
pub struct NodeRow {
    pub id: VolumeId,
    /// The capability in which it is staged, if it is.
    pub staged: Option<Capability>,
    /// In the order in which the volume was published.
    pub targets: Vec<NodeTarget>,
    pub last: Number,
    pub kind: Kind,
    pub reply: Reply,
}

impl Clone for NodeTarget {
    ghost is_clone = { λ there copy. copy ≡ there };

    fn clone(&self) -> Result<NodeTarget, AllocError> {
        let target = self.target.clone()?;
        Ok(NodeTarget {
            target,
            readonly: self.readonly,
        })
    }
}

impl Clone for NodeRow {
    ghost is_clone = { λ row copy. node_row_shown copy ≡ node_row_shown row };

    fn clone(&self) -> Result<NodeRow, AllocError> {
        let staged = self.staged.clone()?;
        let targets = self.targets.clone()?;
        let reply = self.reply.clone()?;
        Ok(NodeRow {
            id: self.id,
            staged,
            targets,
            last: self.last,
            kind: self.kind,
            reply,
        })
    }
}
