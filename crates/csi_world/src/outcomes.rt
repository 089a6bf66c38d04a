//! What comes of an event, and its text.
ghost use Rattle.std.specs.Prelude.{◌≡◌, IfOk, string_bytes};
ghost use Rattle.csi_world.specs.Public.Outcomes.{refused_text as text_of_refusal, unrecovered_text, outcome_text};

use csi_orchestrator::OrchFault;
use std::alloc::{AllocError, Global};

/// Why no orchestrator was made of what a world's plugins keep; `RecoveryFault` of `csi_recovery` says of which node or volume.
#[derive(Clone, Copy, Debug, PartialEq, Eq)]
pub enum RecoveryRefusal {
    /// The session isn't later than that of the last call, and all that the plugins heard of.
    NotLater,
    /// Two stores are of one node.
    SameNode,
    /// A node's store disagrees with the controller's.
    Disagrees,
    /// There are more than 64 nodes, or one stands there twice.
    BadNodes,
    /// A volume can't have a row: it is staged at a node that isn't listed, or staged and published nowhere at two nodes.
    BadRow,
}

/// What came of an event.
#[derive(Clone, Copy, Debug, PartialEq, Eq)]
pub enum Outcome {
    /// A command or a timeout sent the frame of this number.
    Sent(u64),
    /// What was asked is so already.
    Met,
    /// The orchestrator refused, and nothing changed.
    Refused(OrchFault),
    /// A call came to its plugin, which replied by the frame of this number.
    Answered(u64),
    /// A reply was taken, and the frame of this number was sent, if there is one.
    Taken(Option<u64>),
    /// A reply was ignored.
    Ignored,
    /// There is no frame of that number.
    NoSuchFrame,
    /// A part of the system restarted.
    Restarted,
    /// There is no node of that id.
    NoSuchNode,
    /// A node joined.
    Joined,
    /// There is a node of that id, so none joined.
    NodeThere,
    /// A node was lost.
    Lost,
    /// A volume is at rest, after so many events: its timeout, and deliveries.
    Settled(u64),
    /// It isn't, after so many.
    NotSettled(u64),
    /// An orchestrator was made of what the plugins keep.
    Recovered,
    /// None was, and nothing changed.
    NotRecovered(RecoveryRefusal),
}

fn refused_text(alloc: Global, fault: OrchFault) -> Result<String, AllocError>
    ensures { IfOk result (λ text. string_bytes text ≡ text_of_refusal fault) }
{
    let number = fault.number();
    let name = fault.name();
    let mut text = format!(in alloc; "refused {number} ")?;
    text.push_str(name)?;
    Ok(text)
}

fn unrecovered(why: RecoveryRefusal) -> &'static str
    ensures { result.now ≡ unrecovered_text why }
{
    match why {
        RecoveryRefusal::NotLater => "not recovered NotLater",
        RecoveryRefusal::SameNode => "not recovered SameNode",
        RecoveryRefusal::Disagrees => "not recovered Disagrees",
        RecoveryRefusal::BadNodes => "not recovered BadNodes",
        RecoveryRefusal::BadRow => "not recovered BadRow",
    }
}

/// The text of an outcome, as a report has it: printable ASCII with no mark of XML's. This profile's own.
pub fn text_of(alloc: Global, outcome: Outcome) -> Result<String, AllocError>
    ensures { IfOk result (λ text. string_bytes text ≡ outcome_text outcome) }
{
    match outcome {
        Outcome::Sent(number) => format!(in alloc; "sent {number}"),
        Outcome::Met => String::from_str(alloc, "met"),
        Outcome::Refused(fault) => refused_text(alloc, fault),
        Outcome::Answered(number) => format!(in alloc; "answered {number}"),
        Outcome::Taken(None) => String::from_str(alloc, "taken"),
        Outcome::Taken(Some(number)) => format!(in alloc; "taken, sent {number}"),
        Outcome::Ignored => String::from_str(alloc, "ignored"),
        Outcome::NoSuchFrame => String::from_str(alloc, "no such frame"),
        Outcome::Restarted => String::from_str(alloc, "restarted"),
        Outcome::NoSuchNode => String::from_str(alloc, "no such node"),
        Outcome::Joined => String::from_str(alloc, "joined"),
        Outcome::NodeThere => String::from_str(alloc, "node there"),
        Outcome::Lost => String::from_str(alloc, "lost"),
        Outcome::Settled(count) => format!(in alloc; "settled {count}"),
        Outcome::NotSettled(count) => format!(in alloc; "not settled {count}"),
        Outcome::Recovered => String::from_str(alloc, "recovered"),
        Outcome::NotRecovered(why) => String::from_str(alloc, unrecovered(why)),
    }
}
