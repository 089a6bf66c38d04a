//! What the tables of the tests are written in.
use csi_orchestrator::{Known, OrchFault};
use csi_types::{Mode, Status};

// A mode for one node, one for several nodes of which one writes, and one for several that write.
pub(crate) const ONE: Mode = Mode::SingleNodeWriter;

pub(crate) const WRITER: Mode = Mode::MultiNodeSingleWriter;

pub(crate) const MANY: Mode = Mode::MultiNodeMultiWriter;

// Modes for one node, at which one writes, or several do.
pub(crate) const ONE_WRITER: Mode = Mode::SingleNodeSingleWriter;

pub(crate) const TWO_WRITERS: Mode = Mode::SingleNodeMultiWriter;

pub(crate) const OK: Status = Status::Ok;

// The nodes of each new orchestrator.
pub(crate) const NODES: &[&str] = &["n1", "n10", "n2", "n3", "n4"];

/// A call that an orchestrator sends, as a test writes it: about volume 1, for a block device. `Create` is of at least 10
/// bytes. The node comes first, which a node's call is for.
#[derive(Clone, Copy)]
pub(crate) enum Sent {
    Create(&'static str, Mode),
    Delete,
    Attach(&'static str, Mode, bool),
    Detach(&'static str),
    Stage(&'static str, Mode),
    Unstage(&'static str),
    Publish(&'static str, &'static str, Mode, bool),
    Unpublish(&'static str, &'static str),
}

/// What is asked of an orchestrator: a command about the volume `v`, unless another name is told, a restart with the same nodes or with
/// others, the loss of a node, or a frame that comes. `Hear` is the reply to a call under this session's number, with this status; `Echo`
/// is the call itself.
#[derive(Clone, Copy)]
pub(crate) enum Ask {
    Create(&'static str, Mode),
    Use(&'static str, &'static str, Mode, bool),
    Stop(&'static str, &'static str),
    Delete,
    Timeout,
    Restart,
    Lists(&'static [&'static str]),
    Lose(&'static str),
    Hear(u64, u64, Sent, Status),
    Echo(u64, u64, Sent),
}

/// What it gives: a call under this session's number, nothing to send, that the frame is ignored, or a refusal.
#[derive(Clone, Copy)]
pub(crate) enum Gives {
    Sends(u64, u64, Sent),
    Nothing,
    Ignores,
    Refuses(OrchFault),
}

/// A thing, as a test writes it: name, node and target.
#[derive(Clone, Copy)]
pub(crate) enum Fact {
    Exists(&'static str),
    Attached(&'static str, &'static str),
    Staged(&'static str, &'static str),
    Published(&'static str, &'static str, &'static str),
}

/// A step of a test.
#[derive(Clone, Copy)]
pub(crate) enum Step {
    /// Here begins the row that says this, with a new orchestrator.
    New(&'static str),
    /// The same, with its calls numbered after this session's number.
    After(&'static str, u64, u64),
    /// It is asked this, and gives that.
    On(Ask, Gives),
    /// It makes `v` in this mode by call 1 of session 1.
    Makes(Mode),
    /// It publishes `v` at `/a` of this node by the three calls of session 1 from this one on.
    Publishes(u64, &'static str, Mode, bool),
    /// It publishes `v` at this further target of `n1` by this call of session 1, in mode `MANY`.
    PublishesToo(u64, &'static str),
    /// It knows this of a thing.
    Knows(Fact, Known),
    /// It knows the same of `v`, of its use at `n1` and of `/a` there.
    KnowsOfEach(Known),
    /// It lists these things, in this order.
    Lists(&'static [(Fact, Known)]),
    /// It is in this session.
    IsIn(u64),
    /// It has noted so many calls.
    Notes(usize),
}
