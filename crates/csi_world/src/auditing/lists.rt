//! What an audit reads of a node.
use csi_node::{Published, Staged};
use csi_types::NodeId;

/// What a node has staged and published.
#[derive(Drop)]
pub(crate) struct NodeLists {
    pub id: NodeId,
    pub staged: Vec<Staged>,
    pub published: Vec<Published>,
}
