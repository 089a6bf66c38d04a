//! What becomes of the rows where a session begins, with a list of nodes or without a node that is lost.
ghost use Rattle.std.specs.Prelude.{◌≡◌, ◌+◌, ◌<◌, ◌^◌, map, not, false, Some, None, IfOk, IfErr, OnOk};
ghost use Rattle.csi_orchestrator.specs.declared.thing.Thing.TheVariants.{Attached};
ghost use Rattle.csi_orchestrator.specs.Model.Thing.{is_no};
ghost use Rattle.csi_orchestrator.specs.Model.Shown.{mark_of};
ghost use Rattle.csi_orchestrator.specs.Public.Beginning.{is_row_forgotten, is_used_in, leaves_out_used as leaves_out, restart_refusal};
ghost use Rattle.csi_orchestrator.specs.Public.Beginning.{loss_refusal, entry_at_loss, row_at_loss};
ghost use Rattle.csi_orchestrator.specs.Private.Beginning.{is_use_at as is_used_there};
ghost use Rattle.csi_orchestrator.specs.Public.Shown.{node_entry_shown, row_shown};

use crate::changes::stop_use;
use crate::fault::OrchFault;
use crate::row::{Goal, NodeEntry, Row};
use crate::sharing::has_node;
use crate::state::node_entry_at;
use crate::thing::Known;
use csi_types::NodeId;

/// Whether the row is forgotten: its volume isn't there, and nothing is wanted of it.
pub(crate) fn is_forgotten(row: &Row) -> bool
    ensures { result ≡ is_row_forgotten (row_shown row.now) }
{
    row.exists.is_no() && row.goal.is_none()
}

// Whether the row's volume may be attached at the node.
fn is_attached_at(row: &Row, node: &NodeId) -> bool
    ensures { result ≡ not (is_no (mark_of (Attached row.now.name node.now) (row_shown row.now))) }
{
    match node_entry_at(row, node) {
        Some(entry) => !entry.attached.is_no(),
        None => false,
    }
}

// Whether one of these volumes may be.
fn is_used(rows: &[Row], node: &NodeId) -> bool
    ensures { result ≡ is_used_in (map row_shown rows.now) node.now }
{
    for row in rows {
        if is_attached_at(row, node) {
            return true;
        }
    }
    false
}

// Whether some node of the one list isn't in the other, and one of these volumes may be attached there.
fn leaves_out_used(old: &[NodeId], new: &[NodeId], rows: &[Row]) -> bool
    ensures { result ≡ leaves_out old.now new.now (map row_shown rows.now) }
{
    for node in old {
        if !has_node(new, node) && is_used(rows, node) {
            return true;
        }
    }
    false
}

/// The session that begins with a new list of nodes, after one with the old list.
pub(crate) fn session_with(
    session: u64,
    old: &[NodeId],
    new: &[NodeId],
    rows: &[Row],
) -> Result<u64, OrchFault>
    ensures next { IfOk result (λ next. next ≡ session + 1) }
    ensures ok { OnOk result (restart_refusal session old.now new.now (map row_shown rows.now) ≡ None) }
    ensures err { IfErr result (λ fault. restart_refusal session old.now new.now (map row_shown rows.now) ≡ Some fault) }
{
    match session.checked_add(1) {
        Some(next) => {
            if leaves_out_used(old, new, rows) {
                Err(OrchFault::NodeInUse)
            } else {
                Ok(next)
            }
        }
        None => Err(OrchFault::NumbersSpent),
    }
}

/// The session that begins once a node was lost.
pub(crate) fn session_after_loss(session: u64) -> Result<u64, OrchFault>
    ensures next { IfOk result (λ next. next ≡ session + 1) }
    ensures ok { OnOk result (loss_refusal session ≡ None) }
    ensures err { IfErr result (λ fault. loss_refusal session ≡ Some fault) }
    ensures spent { IfErr result (λ fault. (fault ≡ OrchFault.NumbersSpent) × (session + 1 ≡ 2 ^ 64)) }
{
    match session.checked_add(1) {
        Some(next) => Ok(next),
        None => Err(OrchFault::NumbersSpent),
    }
}

// Of the entry of a node that is lost only the attachment stays.
fn lose_entry(entry: &mut NodeEntry, node: &NodeId)
    ensures { node_entry_shown entry.new ≡ entry_at_loss node.now (node_entry_shown entry.old) }
{
    if entry.node == *node {
        entry.staged = Known::No;
        entry.target_entries.clear();
    }
}

// So it is among these entries.
fn lose_entries(entries: &mut Vec<NodeEntry>, node: &NodeId)
    ensures { map node_entry_shown entries.new.items ≡ map (entry_at_loss node.now) (map node_entry_shown entries.old.items) }
{
    for entry in entries.iter_mut() {
        lose_entry(entry, node);
    }
}

// Whether what is wanted is a use at the node.
fn is_use_at(goal: &Option<Goal>, node: &NodeId) -> bool
    ensures { result ≡ is_used_there node.now goal.now }
{
    match goal {
        Some(Goal::Use(usage)) => usage.node == *node,
        _ => false,
    }
}

/// The row once a node was lost: nothing is staged or published there, and a use there becomes its stop. No call is open.
pub(crate) fn lose_at(row: &mut Row, node: &NodeId)
    ensures { row_shown row.new ≡ row_at_loss node.now (row_shown row.old) }
{
    lose_entries(&mut row.node_entries, node);
    if is_use_at(&row.goal, node) {
        stop_use(row);
    } else {
        row.open_call = None;
    }
}
