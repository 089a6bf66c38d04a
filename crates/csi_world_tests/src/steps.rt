//! What the tables of the tests are written in.
use csi_orchestrator::Known;
use csi_types::{Kind, Mode, Status};
use csi_world::Outcome;

pub(crate) const ONE: Mode = Mode::SingleNodeWriter;

/// What happens to the volume `v`, of at least 10 bytes and for a block device; node and target are told where they matter.
#[derive(Clone, Copy)]
pub(crate) enum Does {
    Create(Mode),
    Use(&'static str, &'static str, Mode, bool),
    Stop(&'static str, &'static str),
    Delete,
    Timeout,
    Settle,
    Deliver(u64),
    RestartOrchestrator,
    RestartController,
    RestartNode(&'static str),
    // The controller restarts with a configuration of these nodes, and the orchestrator with this list.
    Configures(&'static [(&'static str, u64)]),
    Lists(&'static [&'static str]),
    Join(&'static str),
    Lose(&'static str),
}

/// What is known of `v`: that it exists, and that it is attached and staged at a node, and published at `/a` there.
pub(crate) type AllKnown = (Known, Known, Known, Known);

/// A step of a test.
#[derive(Clone, Copy)]
pub(crate) enum Step {
    /// Here begins the row that says this, with a new world of these nodes and their slots.
    New(&'static str, &'static [(&'static str, u64)]),
    /// This happens, and that comes of it.
    On(Does, Outcome),
    /// `v` is made in this mode by frames 1 and 2.
    Makes(Mode),
    /// `v`, which isn't at this node, is published at `/a` there by the six frames from this one on.
    Publishes(u64, &'static str, Mode, bool),
    /// `v` is taken from `/a` and from this node by the six frames from this one on.
    Leaves(u64, &'static str),
    /// So many frames were sent.
    Frames(u64),
    /// There is no frame of this number.
    NoFrame(u64),
    /// This frame, which has this session's number, is this call, or a reply with this status and detail.
    Calls(u64, (u64, u64), Kind),
    Replies(u64, (u64, u64), Status, &'static str),
    /// So many volumes are attached, and at this node so many are staged and so many published.
    Has(usize, &'static str, usize, usize),
    /// There is no node of this id.
    NoNode(&'static str),
    /// The orchestrator knows this, of this node.
    Knows(&'static str, AllKnown),
    /// It is in this session.
    IsIn(u64),
}
