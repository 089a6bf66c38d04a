//! What a step comes to by the row of its volume, before anything changes, and why the first create of a name is refused: the
//! first reason that holds.
ghost use Rattle.std.specs.Prelude.{◌≡◌, ◌||◌, ◌&&◌, map, not, is_none, Some};
ghost use Rattle.csi_orchestrator.specs.Model.Thing.{is_no};
ghost use Rattle.csi_orchestrator.specs.Private.Decisions.{refused_or, decided_then, decided, decided_at, is_used_at};
ghost use Rattle.csi_orchestrator.specs.Public.Shown.{row_shown, node_entry_shown};
ghost use Rattle.csi_orchestrator.specs.Private.RowRefusals.{first_fault as first_refusal, again_fault as again_refusal, use_refusal};
ghost use Rattle.csi_orchestrator.specs.Private.RowRefusals.{stop_refusal, delete_refusal};

use crate::due::next_number;
use crate::fault::OrchFault;
use crate::marks::{Marks, marks_in, others_of};
use crate::request::Usage;
use crate::row::{Goal, NodeEntry, Row};
use crate::sharing::{
    has_node, is_attached_somewhere, is_held_elsewhere, is_held_otherwise, is_written_elsewhere,
    others_attached,
};
use crate::state::{node_entry_at, published_at};
use crate::step::Step;
use crate::thing::Known;
use csi_types::{MAX_ROWS, NodeId, Number, Target, VolumeId, allows_one_target, has_capability};

/// The most other targets of a node at which a volume may be published when it is to be published there.
pub(crate) const MAX_OTHERS: usize = 16;

/// The most other nodes at which a volume may be attached when it is to be attached to one.
pub(crate) const MAX_NODES: usize = 64;

/// What a step comes to, before anything changes.
#[derive(Clone, Copy)]
pub(crate) enum Decision {
    /// It is refused, for this reason.
    Refuse(OrchFault),
    /// What it asks for is so already.
    Met,
    /// Its call failed, and is sent again only once it times out.
    Wait,
    /// The row takes it, and the call that is due then is sent.
    Send,
}

/// Why the first create of a name is refused.
pub(crate) fn first_fault(rows: &[Row], last: Number) -> Option<OrchFault>
    ensures { result ≡ first_refusal last (map row_shown rows.now) }
{
    if next_number(last).is_none() {
        return Some(OrchFault::NumbersSpent);
    }
    if rows.len() >= MAX_ROWS {
        return Some(OrchFault::Full);
    }
    None
}

// What another create of this row's name comes to.
fn decide_create(last: Number, row: &Row) -> Decision
    ensures { result ≡ refused_or (again_refusal last (row_shown row.now)) Decision.Send }
{
    if row.id.is_some() || row.goal.is_some() {
        return Decision::Refuse(OrchFault::NameUsed);
    }
    if next_number(last).is_none() {
        return Decision::Refuse(OrchFault::NumbersSpent);
    }
    Decision::Send
}

// Whether no call is due for a use at this target of a node that has this entry. Without an id none is.
fn is_met(id: Option<VolumeId>, entry: &NodeEntry, target: &Target) -> bool
    ensures { result ≡ (is_none id || is_used_at target.now (Some (node_entry_shown entry.now))) }
{
    id.is_none()
        || (entry.attached.is_yes()
            && entry.staged.is_yes()
            && published_at(entry, target).is_yes())
}

// What a use comes to at a node that has this entry, beside so many others, where nothing else refuses it.
fn decide_at(
    last: Number,
    usage: &Usage,
    others_attached: usize,
    id: Option<VolumeId>,
    entry: &NodeEntry,
) -> Decision
    ensures { result ≡ decided_at last usage.now others_attached id (Some (node_entry_shown entry.now)) }
{
    if is_held_otherwise(entry, usage) {
        return Decision::Refuse(OrchFault::HeldOtherwise);
    }
    let others = others_of(&entry.target_entries, &usage.target);
    if allows_one_target(usage.capability.mode) && others > 0 {
        return Decision::Refuse(OrchFault::TargetTaken);
    }
    if is_met(id, entry, &usage.target) {
        return Decision::Met;
    }
    if next_number(last).is_none() {
        return Decision::Refuse(OrchFault::NumbersSpent);
    }
    if others >= MAX_OTHERS || others_attached >= MAX_NODES {
        return Decision::Refuse(OrchFault::Full);
    }
    Decision::Send
}

// What a use comes to. The entry of its node is looked up once.
fn decide_use(nodes: &[NodeId], last: Number, row: &Row, usage: &Usage) -> Decision
    ensures { result ≡ refused_or (use_refusal nodes.now usage.now (row_shown row.now)) (decided_then last (Step.Use usage.now) (row_shown row.now)) }
{
    if !matches!(row.exists, Known::Yes) {
        return Decision::Refuse(OrchFault::NotCreated);
    }
    if row.goal.is_some() {
        return Decision::Refuse(OrchFault::Busy);
    }
    if !has_node(nodes, &usage.node) {
        return Decision::Refuse(OrchFault::NoSuchNode);
    }
    if !has_capability(
        row.arguments.capabilities.as_slice(),
        usage.capability.lend(),
    ) {
        return Decision::Refuse(OrchFault::NotCapable);
    }
    if is_held_elsewhere(&row.node_entries, usage) {
        return Decision::Refuse(OrchFault::HeldElsewhere);
    }
    if is_written_elsewhere(&row.node_entries, usage) {
        return Decision::Refuse(OrchFault::WriterElsewhere);
    }
    let others = others_attached(&row.node_entries, &usage.node);
    match node_entry_at(row, &usage.node) {
        Some(entry) => decide_at(last, usage, others, row.id, entry),
        None if row.id.is_none() => Decision::Met,
        None if next_number(last).is_none() => Decision::Refuse(OrchFault::NumbersSpent),
        None if others >= MAX_NODES => Decision::Refuse(OrchFault::Full),
        None => Decision::Send,
    }
}

// Whether all that is left to be done is to detach the volume.
fn is_left(marks: Marks) -> bool
    ensures { result ≡ (not (is_no marks.attached) && (is_no marks.published && not marks.others)) }
{
    !marks.attached.is_no() && marks.published.is_no() && !marks.others
}

// What a stop comes to.
fn decide_stop(
    nodes: &[NodeId],
    last: Number,
    row: &Row,
    node: &NodeId,
    target: &Target,
) -> Decision
    ensures { result ≡ refused_or (stop_refusal nodes.now last node.now target.now (row_shown row.now)) Decision.Send }
{
    if !row.exists.is_yes() {
        return Decision::Refuse(OrchFault::NotCreated);
    }
    if row.goal.is_some() {
        return Decision::Refuse(OrchFault::Busy);
    }
    let marks = marks_in(row, node, target);
    let left = is_left(marks);
    if !left && !has_node(nodes, node) {
        return Decision::Refuse(OrchFault::NoSuchNode);
    }
    if !left && marks.published.is_no() {
        return Decision::Refuse(OrchFault::NoSuchTarget);
    }
    if next_number(last).is_none() {
        return Decision::Refuse(OrchFault::NumbersSpent);
    }
    Decision::Send
}

// What a delete comes to.
fn decide_delete(last: Number, row: &Row) -> Decision
    ensures { result ≡ refused_or (delete_refusal (row_shown row.now)) (decided_then last Step.Delete (row_shown row.now)) }
{
    if row.id.is_none() {
        return Decision::Refuse(OrchFault::NotCreated);
    }
    if is_attached_somewhere(&row.node_entries) {
        return Decision::Refuse(OrchFault::InUse);
    }
    if row.exists.is_no() {
        return Decision::Met;
    }
    if row.goal.is_some() {
        return Decision::Refuse(OrchFault::Busy);
    }
    if next_number(last).is_none() {
        return Decision::Refuse(OrchFault::NumbersSpent);
    }
    Decision::Send
}

/// What a step comes to, by the row of its volume.
pub(crate) fn decide(nodes: &[NodeId], last: Number, row: &Row, step: &Step) -> Decision
    ensures { result ≡ decided nodes.now last step.now (row_shown row.now) }
{
    match step {
        Step::Create(_) => decide_create(last, row),
        Step::Use(usage) => decide_use(nodes, last, row, usage),
        Step::Stop { node, target } => decide_stop(nodes, last, row, node, target),
        Step::Delete => decide_delete(last, row),
        Step::TimeOut => match row.goal {
            Some(_) => Decision::Send,
            None => Decision::Refuse(OrchFault::Idle),
        },
        Step::Succeed { .. } => Decision::Send,
        Step::Fail => match row.goal {
            Some(Goal::Create | Goal::Use(_)) => Decision::Send,
            _ => Decision::Wait,
        },
    }
}
