//! What is known of what a goal names.
ghost use Rattle.std.specs.Prelude.{◌≡◌, count_by, not, ◌&&◌};
ghost use Rattle.csi_types.specs.Model.Same.{same_text};
ghost use Rattle.csi_orchestrator.specs.Model.Thing.{is_no};
ghost use Rattle.csi_orchestrator.specs.Public.Shown.{row_shown};
ghost use Rattle.csi_orchestrator.specs.Public.RowDue.{marks_of_volume, marks_at, marks_for};

use crate::row::{Goal, Row, TargetEntry};
use crate::state::{node_entry_at, published_at};
use crate::thing::Known;
use csi_types::{NodeId, Target};

/// What is known of a volume, of how it is at a node, and of a target there.
#[derive(Clone, Copy)]
pub(crate) struct Marks {
    pub exists: Known,
    pub attached: Known,
    pub staged: Known,
    pub published: Known,
    /// Whether it may be published at another target of the node.
    pub others: bool,
}

/// At how many of these targets, other than this one, the volume may be published.
pub(crate) fn others_of(target_entries: &[TargetEntry], target: &Target) -> usize
    ensures { result ≡ count_by (λ target_entry. not (same_text target_entry.target target.now) && not (is_no target_entry.published)) target_entries.now }
{
    let mut count = 0;
    for target_entry in target_entries {
        if target_entry.target != *target && !target_entry.published.is_no() {
            count += 1;
        }
    }
    count
}

/// What is known of the volume alone: of no node, or of one that has no entry.
pub(crate) fn of_volume(row: &Row) -> Marks
    ensures { result ≡ marks_of_volume (row_shown row.now) }
{
    Marks {
        exists: row.exists,
        attached: Known::No,
        staged: Known::No,
        published: Known::No,
        others: false,
    }
}

/// How the volume is at a node and at a target there.
pub(crate) fn marks_in(row: &Row, node: &NodeId, target: &Target) -> Marks
    ensures { result ≡ marks_at (row_shown row.now) node.now target.now }
{
    match node_entry_at(row, node) {
        Some(entry) => Marks {
            exists: row.exists,
            attached: entry.attached,
            staged: entry.staged,
            published: published_at(entry, target),
            others: others_of(&entry.target_entries, target) > 0,
        },
        None => of_volume(row),
    }
}

/// What is known of what this goal of the row names.
pub(crate) fn known_for(row: &Row, goal: &Goal) -> Marks
    ensures { result ≡ marks_for (row_shown row.now) goal.now }
{
    match goal {
        Goal::Create | Goal::Delete => of_volume(row),
        Goal::Use(usage) => marks_in(row, &usage.node, &usage.target),
        Goal::Stop { node, target } => marks_in(row, node, target),
    }
}
