//! A list of nodes.
ghost use Rattle.std.specs.Prelude.{◌≡◌};

use crate::text::NodeId;
use std::marker::Model;

/// The ids of nodes, in order: those of which an orchestrator is to have volumes used (this profile's own). A contract sees it as a
/// list.
#[derive(Clone, Debug)]
pub struct NodeList {
    ids: Vec<NodeId>,
}

impl Drop for NodeList {
    fn drop(self) {
        let NodeList { ids: _ } = self;
    }
}

impl Model for NodeList {
    ghost use Rattle.std.specs.Prelude.{ℕ, List};

    ghost Value = { List (List ℕ) };

    ghost view = { λ list. list.ids.items };
}

impl NodeList {
    /// The list of these ids. It takes no memory.
    pub fn of(ids: Vec<NodeId>) -> NodeList
        ensures { result ≡ ids.items }
    {
        NodeList { ids }
    }

    /// The ids in order.
    pub fn as_slice(&self) -> &[NodeId]
        ensures { result.now ≡ self.now }
    {
        self.ids.as_slice()
    }
}
