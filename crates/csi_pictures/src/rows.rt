//! What is written of an event in its row: its words and what came of it, a mark at the lane where it happened, and the frame
//! that it sent.

use crate::escaping::Escaped;
use crate::run::{Row, What};
use crate::scene::{lane_of, node_lane};
use csi_types::{Body, Frame, NodeId, Number, Reply, Status};
use csi_world::{Event, Outcome, text_of};
use std::alloc::{AllocError, Global};
use std::fmt;

// What an event is, in words.
fn verb_of(event: &Event) -> &'static str {
    match event {
        Event::Create { .. } => "create ",
        Event::Use { .. } => "use ",
        Event::Stop { .. } => "stop ",
        Event::Delete(_) => "delete ",
        Event::Timeout(_) => "timeout ",
        Event::Deliver(_) => "deliver ",
        Event::RestartOrchestrator => "restart orchestrator",
        Event::RestartOrchestratorWith(_) => "restart orchestrator with a list",
        Event::RestartController => "restart controller",
        Event::RestartControllerWith(_) => "restart controller with a configuration",
        Event::RestartNode(_) => "restart node ",
        Event::Join(_) => "join ",
        Event::Lose(_) => "lose ",
        Event::Settle(_) => "settle ",
    }
}

// The name of its volume, or the id of its node.
fn name_in(event: &Event) -> &str {
    match event {
        Event::Create { name, .. } | Event::Use { name, .. } | Event::Stop { name, .. } => {
            name.as_str()
        }
        Event::Delete(name) | Event::Timeout(name) | Event::Settle(name) => name.as_str(),
        Event::RestartNode(node) | Event::Join(node) | Event::Lose(node) => node.as_str(),
        _ => "",
    }
}

// What happens, in words.
#[derive(Drop)]
struct Words<'a>(What<'a>);

// An event, in words.
fn write_event<W: fmt::Write>(f: &mut fmt::Formatter<W>, event: &Event) -> fmt::Result {
    let verb = verb_of(event);
    let name = Escaped(name_in(event));
    write!(f, "{verb}{name}")?;
    match event {
        Event::Deliver(number) => write!(f, "{number}"),
        Event::Use { node, target, .. } | Event::Stop { node, target, .. } => {
            let node = Escaped(node.as_str());
            let target = Escaped(target.as_str());
            write!(f, " at {node} {target}")
        }
        _ => Ok(()),
    }
}

impl fmt::Display for Words<'_> {
    fn fmt<W: fmt::Write>(&self, f: &mut fmt::Formatter<W>) -> fmt::Result {
        match self.0 {
            What::Occurs(event) => write_event(f, event),
            What::Recovers(recovery) => {
                let session = recovery.session;
                write!(f, "recover {session}")
            }
        }
    }
}

// Whether what came of an event is that it couldn't happen, or didn't bring what it is for.
fn is_wrong(outcome: Outcome) -> bool {
    matches!(
        outcome,
        Outcome::Refused(_)
            | Outcome::NoSuchFrame
            | Outcome::NoSuchNode
            | Outcome::NodeThere
            | Outcome::NotSettled(_)
            | Outcome::NotRecovered(_)
    )
}

// How the words are drawn.
fn class_of(outcome: Outcome) -> &'static str {
    match outcome {
        Outcome::Ignored => "odd",
        outcome if is_wrong(outcome) => "wrong",
        _ => "plain",
    }
}

/// Appends the words of an event, and below them what came of it.
pub fn put_row_text(alloc: Global, out: &mut String, row: &Row<'_>) -> Result<(), AllocError> {
    let Row {
        number,
        what,
        outcome,
    } = *row;
    let class = class_of(outcome);
    let told = Words(what);
    let came = text_of(alloc, outcome)?;
    write!(
        out,
        "<svg y='{number}00' width='970' height='95'><text class='{class}' x='30' y='42'>{number} {told}</text><text class='{class} o' x='75' y='82'>{came}</text></svg>\n"
    )
}

// The shape of an event's mark.
fn shape_of(event: &Event) -> &'static str {
    match event {
        Event::Timeout(_) | Event::Settle(_) => "clock",
        Event::RestartOrchestrator
        | Event::RestartOrchestratorWith(_)
        | Event::RestartController
        | Event::RestartControllerWith(_)
        | Event::RestartNode(_)
        | Event::Join(_)
        | Event::Lose(_) => "restart",
        _ => "command",
    }
}

// The shape of a mark.
fn mark_of(what: What<'_>, outcome: Outcome) -> &'static str {
    if is_wrong(outcome) {
        return "cross";
    }
    match what {
        What::Occurs(event) => shape_of(event),
        What::Recovers(_) => "restart",
    }
}

// The lane of an event's mark.
fn event_lane(nodes: &[NodeId], event: &Event) -> usize {
    match event {
        Event::RestartController | Event::RestartControllerWith(_) => 2,
        Event::RestartNode(node) | Event::Join(node) | Event::Lose(node) => node_lane(nodes, node),
        _ => 1,
    }
}

// The lane of a mark.
fn mark_lane(nodes: &[NodeId], what: What<'_>) -> usize {
    match what {
        What::Occurs(event) => event_lane(nodes, event),
        What::Recovers(_) => 1,
    }
}

/// Appends an event's mark; a delivery has none but its arrow.
pub fn put_mark(out: &mut String, nodes: &[NodeId], row: &Row<'_>) -> Result<(), AllocError> {
    let Row {
        number,
        what,
        outcome,
    } = *row;
    if matches!(what, What::Occurs(Event::Deliver(_))) {
        return Ok(());
    }
    let shape = mark_of(what, outcome);
    let lane = mark_lane(nodes, what);
    write!(out, "<use href='#{shape}' x='{lane}045' y='{number}20'/>\n")
}

// Appends what is written of a call: to the right of the orchestrator's lane.
fn put_call_label(
    out: &mut String,
    row: usize,
    sent: u64,
    name: &str,
    number: Number,
) -> Result<(), AllocError> {
    let Number { session, call } = number;
    write!(
        out,
        "<svg x='1100' y='{row}20' width='895' height='55'><text class='label' x='10' y='44'>{sent} {name} {session}.{call}</text></svg>\n"
    )
}

// Appends what is written of a reply: to the left of its plugin's lane.
fn put_reply_label(
    out: &mut String,
    row: usize,
    lane: usize,
    sent: u64,
    name: &str,
    reply: &Reply,
) -> Result<(), AllocError> {
    let class = match reply.status {
        Status::Ok => "label",
        _ => "bad",
    };
    let status = reply.status.name();
    let detail = Escaped(reply.detail.as_str());
    write!(
        out,
        "<g transform='translate({lane}000 {row}20)'><svg x='-905' width='895' height='55'><text class='{class} b' x='885' y='44'>{sent} {name} {status} {detail}</text></svg></g>\n"
    )
}

/// Appends what is written of the frame that an event sent.
pub fn put_label(
    out: &mut String,
    nodes: &[NodeId],
    row: usize,
    sent: u64,
    frame: &Frame,
) -> Result<(), AllocError> {
    match frame.body() {
        Body::Call(call) => put_call_label(out, row, sent, call.kind().name(), frame.number()),
        Body::Reply(kind, reply) => {
            let lane = lane_of(nodes, frame.party());
            put_reply_label(out, row, lane, sent, kind.name(), reply)
        }
    }
}
