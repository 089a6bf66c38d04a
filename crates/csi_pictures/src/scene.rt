//! Where things of a run stand in its picture, by lanes; and how a delivery is drawn.

use csi_json::Recovery;
use csi_types::{Body, Frame, NodeId, Party, Status};
use csi_world::{Outcome, World};

/// The lane of the node of this id; behind the last where there is none.
pub fn node_lane(nodes: &[NodeId], id: &NodeId) -> usize {
    for (place, node) in nodes.iter().enumerate() {
        if node == id {
            return place + 3;
        }
    }
    nodes.len() + 3
}

/// Whether a recovery has the store of the node of this id.
pub fn is_given(recovery: &Recovery, id: &NodeId) -> bool {
    recovery.given.as_slice().contains(id)
}

/// The lane of a plugin: 1 is the orchestrator's, 2 the controller's, and from 3 on are the nodes'.
pub fn lane_of(nodes: &[NodeId], party: &Party) -> usize {
    match party {
        Party::Controller => 2,
        Party::Node(id) => node_lane(nodes, id),
    }
}

/// The lane that a frame is sent from.
pub fn sender(nodes: &[NodeId], frame: &Frame) -> usize {
    match frame.body() {
        Body::Call(_) => 1,
        Body::Reply(..) => lane_of(nodes, frame.party()),
    }
}

/// The lane that it is for.
pub fn receiver(nodes: &[NodeId], frame: &Frame) -> usize {
    match frame.body() {
        Body::Call(_) => lane_of(nodes, frame.party()),
        Body::Reply(..) => 1,
    }
}

/// The number of the frame that an event sent, if it sent one.
pub fn sent_number(outcome: Outcome) -> Option<u64> {
    match outcome {
        Outcome::Sent(number) | Outcome::Answered(number) | Outcome::Taken(Some(number)) => {
            Some(number)
        }
        _ => None,
    }
}

/// Whether an event was a call that its plugin answered with OK.
pub fn succeeded(world: &World, outcome: Outcome) -> bool {
    let Outcome::Answered(number) = outcome else {
        return false;
    };
    let Some(frame) = world.frame(number) else {
        return false;
    };
    match frame.body() {
        Body::Call(_) => false,
        Body::Reply(_, reply) => matches!(reply.status, Status::Ok),
    }
}

/// How a delivery is drawn: what was refused or found no node, a reply that was ignored, and what was carried out or taken.
pub fn way_of(world: &World, outcome: Outcome) -> &'static str {
    match outcome {
        Outcome::Ignored => "ignored",
        Outcome::Refused(_) | Outcome::NoSuchNode => "refused",
        Outcome::Answered(_) => {
            if succeeded(world, outcome) {
                "taken"
            } else {
                "refused"
            }
        }
        _ => "taken",
    }
}
