//! The rules of one row of a record.
ghost use Rattle.std.specs.Prelude.{◌≡◌, ◌==◌, ◌||◌, nat_le, length, true, Some, is_some, find};
ghost use Rattle.std.specs.List.{list_all};
ghost use Rattle.csi_orchestrator.specs.Private.Judging.{is_published as is_published_at, is_settled as is_in_use, is_left as is_what_is_left};
ghost use Rattle.csi_orchestrator.specs.Private.Judging.{is_resting as is_in_rest};
ghost use Rattle.csi_orchestrator.specs.Private.Judging.{is_other_target as is_another_target, are_targets_apart as are_apart};
ghost use Rattle.csi_orchestrator.specs.Private.Judging.{is_entry_fit as is_fit, are_beside as beside, are_entries_fit as are_fit};
ghost use Rattle.csi_orchestrator.specs.Private.Judging.{is_way as is_on_way, is_at_target as is_on_way_at, stops_here as is_stop_at};
ghost use Rattle.csi_orchestrator.specs.Private.Judging.{uses_here as is_use_at, is_stop_on_the_way as is_stop_somewhere};
ghost use Rattle.csi_orchestrator.specs.Private.Judging.{is_use_on_the_way as is_use_somewhere, has_tries as are_tries, is_tried as is_tried_or_left, is_untargeted as is_without_targets};
ghost use Rattle.csi_orchestrator.specs.Private.Judging.{fits_rest as is_rest, is_bare as is_without_entries, fits_goal as is_goal};
ghost use Rattle.csi_orchestrator.specs.Private.Judging.{fits_life as is_life, is_restorable as is_one_of_record};
ghost use Rattle.csi_types.specs.Model.Same.{same_text};
ghost use Rattle.csi_orchestrator.specs.Private.Judged.{PassingKeeps, KeepingPasses};

use crate::decision::MAX_NODES;
use crate::request::{Arguments, Usage};
use crate::row::{Goal, NodeEntry, Row, TargetEntry};
use crate::sharing::has_node;
use crate::state::node_entry_at;
use crate::thing::Known;
use csi_types::{
    NodeId, Target, allows_one_target, has_capability, same_capability, single_node, two_writers,
};

// Whether the volume is published at each of these targets.
fn are_published(target_entries: &[TargetEntry]) -> bool
    ensures { result ≡ list_all is_published_at target_entries.now }
{
    for target_entry in target_entries {
        if !target_entry.published.is_yes() {
            return false;
        }
    }
    true
}

// Whether it is attached and staged at the node, and published at each target, of which there is one at least.
fn is_settled(entry: &NodeEntry) -> bool
    ensures { result ≡ is_in_use entry.now }
{
    entry.attached.is_yes()
        && entry.staged.is_yes()
        && entry.target_entries.len() >= 1
        && are_published(entry.target_entries.as_slice())
}

// Whether it is what is left of a node that was lost: it may be attached there, and isn't staged or published.
fn is_left(entry: &NodeEntry) -> bool
    ensures { result ≡ is_what_is_left entry.now }
{
    !entry.attached.is_no() && entry.staged.is_no() && entry.target_entries.is_empty()
}

// Whether nothing is on the way at the node.
fn is_resting(entry: &NodeEntry) -> bool
    ensures { result ≡ is_in_rest entry.now }
{
    is_settled(entry) || is_left(entry)
}

// Whether it is so at each of these nodes.
fn are_resting(entries: &[NodeEntry]) -> bool
    ensures { result ≡ list_all is_in_rest entries.now }
{
    for entry in entries {
        if !is_resting(entry) {
            return false;
        }
    }
    true
}

// Whether the target is another one than each of these.
fn is_apart(target_entry: &TargetEntry, later: &[TargetEntry]) -> bool
    ensures { result ≡ list_all (is_another_target target_entry.now) later.now }
{
    for other in later {
        if target_entry.target == other.target {
            return false;
        }
    }
    true
}

// Whether each target is another one than all behind it.
fn are_targets_apart(target_entries: &[TargetEntry]) -> bool
    ensures { result ≡ are_apart target_entries.now }
{
    for (place, target_entry) in target_entries.iter().enumerate() {
        if !is_apart(target_entry, &target_entries[place + 1..]) {
            return false;
        }
    }
    true
}

// Whether the entry goes with the nodes and the arguments. Targets are compared where they are few.
fn is_entry_fit(nodes: &[NodeId], arguments: &Arguments, entry: &NodeEntry) -> bool
    ensures { result ≡ is_fit nodes.now arguments.now entry.now }
{
    entry.target_entries.len() <= 16
        && (!allows_one_target(entry.capability.mode) || entry.target_entries.len() <= 1)
        && (has_node(nodes, &entry.node) || entry.target_entries.is_empty())
        && has_capability(arguments.capabilities.as_slice(), entry.capability.lend())
        && are_targets_apart(entry.target_entries.as_slice())
}

// Whether the two are of different nodes, and may be held together.
fn are_beside(entry: &NodeEntry, other: &NodeEntry) -> bool
    ensures { result ≡ beside entry.now other.now }
{
    let mode = entry.capability.mode;
    let other_mode = other.capability.mode;
    entry.node != other.node
        && !(single_node(mode) || single_node(other_mode))
        && !two_writers(mode, entry.readonly, other_mode, other.readonly)
        && !two_writers(other_mode, other.readonly, mode, entry.readonly)
}

// Whether it is so beside each of these.
fn is_beside_each(entry: &NodeEntry, later: &[NodeEntry]) -> bool
    ensures { result ≡ list_all (beside entry.now) later.now }
{
    for other in later {
        if !are_beside(entry, other) {
            return false;
        }
    }
    true
}

// Whether each entry is fit, and beside all behind it.
fn are_entries_fit(nodes: &[NodeId], arguments: &Arguments, entries: &[NodeEntry]) -> bool
    ensures { result ≡ are_fit nodes.now arguments.now entries.now }
{
    for (place, entry) in entries.iter().enumerate() {
        if !is_entry_fit(nodes, arguments, entry) {
            return false;
        }
        if !is_beside_each(entry, &entries[place + 1..]) {
            return false;
        }
    }
    true
}

// Whether one of three calls is on its way, by what is known.
fn is_way(alone: bool, attached: Known, staged: Known, published: Known) -> bool
    ensures { result ≡ is_on_way alone attached staged published }
{
    match attached {
        Known::Maybe => alone && staged.is_no() && published.is_no(),
        Known::Yes => match staged {
            Known::Maybe => alone && published.is_no(),
            Known::Yes => matches!(published, Known::Maybe),
            Known::No => false,
        },
        Known::No => false,
    }
}

// Whether it is so at this target, and the volume is published at all others; the target is the last one where it must be.
fn is_at_target(must: bool, entry: &NodeEntry, target: &Target) -> bool
    ensures { result ≡ is_on_way_at must entry.now.attached entry.now.staged target.now true entry.now.target_entries.items }
{
    let target_entries = entry.target_entries.as_slice();
    for (place, target_entry) in target_entries.iter().enumerate() {
        if target_entry.target == *target {
            let later = &target_entries[place + 1..];
            let alone = place == 0 && later.is_empty();
            return is_way(alone, entry.attached, entry.staged, target_entry.published)
                && (!must || later.is_empty())
                && are_published(later);
        }
        if !target_entry.published.is_yes() {
            return false;
        }
    }
    false
}

// Whether a stop is on its way at this entry, or of what is left there.
fn stops_here(entry: &NodeEntry, target: &Target) -> bool
    ensures { result ≡ is_stop_at target.now entry.now }
{
    is_left(entry) || is_at_target(false, entry, target)
}

// Whether a use is on its way at this entry.
fn uses_here(usage: &Usage, entry: &NodeEntry) -> bool
    ensures { result ≡ is_use_at usage.now entry.now }
{
    same_capability(entry.capability.lend(), usage.capability.lend())
        && entry.readonly == usage.readonly
        && is_at_target(true, entry, &usage.target)
}

// Whether a stop is on its way at this node, and nothing at the others.
fn is_stop_on_the_way(node: &NodeId, target: &Target, entries: &[NodeEntry]) -> bool
    ensures { result ≡ is_stop_somewhere node.now target.now entries.now }
{
    for (place, entry) in entries.iter().enumerate() {
        if entry.node == *node {
            return stops_here(entry, target) && are_resting(&entries[place + 1..]);
        }
        if !is_resting(entry) {
            return false;
        }
    }
    false
}

// Whether a use is.
fn is_use_on_the_way(usage: &Usage, entries: &[NodeEntry]) -> bool
    ensures { result ≡ is_use_somewhere usage.now entries.now }
{
    for (place, entry) in entries.iter().enumerate() {
        if entry.node == usage.node {
            let later = &entries[place + 1..];
            return uses_here(usage, entry) && are_resting(later);
        }
        if !is_resting(entry) {
            return false;
        }
    }
    false
}

// Whether so many tries go with what is wanted.
fn has_tries(row: &Row) -> bool
    ensures { result ≡ are_tries row.now.goal row.now.tries }
{
    match row.goal {
        None => row.tries == 0,
        Some(Goal::Stop { .. }) => row.tries <= 3,
        Some(_) => row.tries >= 1 && row.tries <= 3,
    }
}

// Whether the entry has no targets.
fn has_no_targets(entry: &NodeEntry) -> bool
    ensures { result ≡ (length entry.now.target_entries.items == 0) }
{
    entry.target_entries.is_empty()
}

// Whether the node has no targets, as where it was lost.
fn is_untargeted(row: &Row, node: &NodeId) -> bool
    ensures { result ≡ is_without_targets (find (λ entry. same_text entry.node node.now) row.now.node_entries.items) }
{
    match node_entry_at(row, node) {
        Some(entry) => has_no_targets(entry),
        None => true,
    }
}

// Whether a stop at the node was tried, or the node has no targets.
fn is_stop_tried(row: &Row, node: &NodeId) -> bool
    ensures { result ≡ (nat_le 1 row.now.tries || is_without_targets (find (λ entry. same_text entry.node node.now) row.now.node_entries.items)) }
{
    row.tries >= 1 || is_untargeted(row, node)
}

// Whether this was tried, or is a stop at a node without targets.
fn is_goal_tried(goal: &Goal, row: &Row) -> bool
    ensures { result ≡ is_tried_or_left (Some goal.now) row.now.tries row.now.node_entries.items }
{
    match goal {
        Goal::Stop { node, .. } => is_stop_tried(row, node),
        Goal::Create | Goal::Use(_) | Goal::Delete => true,
    }
}

// Whether what is wanted was, if anything is.
fn is_tried(row: &Row) -> bool
    ensures { result ≡ is_tried_or_left row.now.goal row.now.tries row.now.node_entries.items }
{
    match &row.goal {
        None => true,
        Some(goal) => is_goal_tried(goal, row),
    }
}

// Whether the volume may be there, and has no entries.
fn is_bare(exists: Known, entries: &[NodeEntry]) -> bool
    ensures { result ≡ is_without_entries exists entries.now }
{
    match exists {
        Known::Maybe => entries.is_empty(),
        Known::Yes | Known::No => false,
    }
}

// Whether the entries go with the id and with what is known of the volume, where nothing is wanted of it.
fn fits_rest(has_id: bool, exists: Known, entries: &[NodeEntry]) -> bool
    ensures { result ≡ is_rest has_id exists entries.now }
{
    match exists {
        Known::Yes => has_id && are_resting(entries),
        Known::No => has_id && entries.is_empty(),
        Known::Maybe => !has_id && entries.is_empty(),
    }
}

// Whether they do where this is wanted.
fn fits_goal(goal: &Goal, has_id: bool, exists: Known, entries: &[NodeEntry]) -> bool
    ensures { result ≡ is_goal goal.now has_id exists entries.now }
{
    match goal {
        Goal::Create => !has_id && is_bare(exists, entries),
        Goal::Use(usage) => has_id && exists.is_yes() && is_use_on_the_way(usage, entries),
        Goal::Stop { node, target } => {
            has_id && exists.is_yes() && is_stop_on_the_way(node, target, entries)
        }
        Goal::Delete => has_id && is_bare(exists, entries),
    }
}

// Whether they do, whatever is wanted.
fn fits_life(row: &Row) -> bool
    ensures { result ≡ is_life row.now.goal (is_some row.now.id) row.now.exists row.now.node_entries.items }
{
    let entries = row.node_entries.as_slice();
    match &row.goal {
        None => fits_rest(row.id.is_some(), row.exists, entries),
        Some(goal) => fits_goal(goal, row.id.is_some(), row.exists, entries),
    }
}

/// Whether the row may be one of a record of these nodes, whichever rows are before it. Entries are compared where they are few.
pub(crate) fn is_restorable(nodes: &[NodeId], row: &Row) -> bool
    ensures { result ≡ is_one_of_record nodes.now row.now }
{
    row.node_entries.len() <= MAX_NODES
        && row.open_call.is_none()
        && has_tries(row)
        && is_tried(row)
        && are_entries_fit(nodes, &row.arguments, row.node_entries.as_slice())
        && fits_life(row)
}

// A row passes the test exactly where it keeps the rules of a record's.
fn tests_tell()
    ensures passing { PassingKeeps }
    ensures keeping { KeepingPasses }
{}
