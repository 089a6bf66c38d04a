//! Which call of a row is open, and which is due, now and once it took a step.
ghost use Rattle.std.specs.Prelude.{◌≡◌, Some, option_map};
ghost use Rattle.csi_orchestrator.specs.Public.Shown.{row_shown};
ghost use Rattle.csi_orchestrator.specs.Public.RowDue.{due_by, due_in, due_open};
ghost use Rattle.csi_orchestrator.specs.Private.RowChanges.{succeeded_row};
ghost use Rattle.csi_orchestrator.specs.Private.RowSteps.{is_given_up as gives_up, timed_out, failed, row_before_call};
ghost use Rattle.csi_orchestrator.specs.Private.Found.{due_shown, kind_due};
ghost use Rattle.csi_orchestrator.specs.Private.Hearing.{marks_heard, IsDueSuccess};
ghost use Rattle.csi_orchestrator.specs.Public.Sound.{IsSoundRow};

use crate::changes::{id_told, told};
use crate::due::{Due, create_due, delete_due, due_for, stop_due, use_due};
use crate::marks::{Marks, known_for, marks_in, of_volume};
use crate::request::Usage;
use crate::row::{Goal, Row};
use crate::step::Step;
use csi_types::{Kind, NodeId, Target, VolumeId};

/// The call that is due for the row's goal, if it has one.
pub(crate) fn due_now(row: &Row) -> Option<Due<'_>>
    ensures { option_map due_shown result ≡ due_in (row_shown row.now) }
{
    let goal = row.goal.as_ref()?;
    due_for(row, goal, row.id, known_for(row, goal))
}

/// The row's open call, if it has one.
pub(crate) fn open_due(row: &Row) -> Option<Due<'_>>
    ensures { option_map due_shown result ≡ due_open (row_shown row.now) }
{
    match (row.open_call?.kind, &row.goal, row.id) {
        (Kind::CreateVolume, Some(Goal::Create), _) => Some(Due::Create {
            name: &row.name,
            arguments: &row.arguments,
        }),
        (Kind::ControllerPublishVolume, Some(Goal::Use(usage)), Some(id)) => {
            Some(Due::Attach { id, usage })
        }
        (Kind::NodeStageVolume, Some(Goal::Use(usage)), Some(id)) => Some(Due::Stage { id, usage }),
        (Kind::NodePublishVolume, Some(Goal::Use(usage)), Some(id)) => {
            Some(Due::Publish { id, usage })
        }
        (Kind::NodeUnpublishVolume, Some(Goal::Stop { node, target }), Some(id)) => {
            Some(Due::Unpublish { id, node, target })
        }
        (Kind::NodeUnstageVolume, Some(Goal::Stop { node, .. }), Some(id)) => {
            Some(Due::Unstage { id, node })
        }
        (Kind::ControllerUnpublishVolume, Some(Goal::Stop { node, .. }), Some(id)) => {
            Some(Due::Detach { id, node })
        }
        (Kind::DeleteVolume, Some(Goal::Delete), Some(id)) => Some(Due::Delete { id }),
        _ => None,
    }
}

// The call that is due for a stop of the row's use at this node and target.
fn due_to_stop<'a>(row: &'a Row, node: &'a NodeId, target: &'a Target) -> Option<Due<'a>>
    ensures { option_map due_shown result ≡ due_by (row_shown row.now) (Some (Goal.Stop node.now target.now)) }
{
    let id = row.id?;
    stop_due(id, marks_in(row, node, target), node, target)
}

/// Whether the row's open call leads to a use, and was tried three times.
pub(crate) fn is_given_up(row: &Row) -> bool
    ensures { result ≡ gives_up (row_shown row.now) }
{
    match due_now(row) {
        Some(due) => due.is_forward() && row.tries == 3,
        None => false,
    }
}

// The call that is due once the open call timed out.
fn due_timed_out(row: &Row) -> Option<Due<'_>>
    ensures { option_map due_shown result ≡ due_in (timed_out (row_shown row.now) row.now.goal) }
{
    match &row.goal {
        Some(Goal::Use(usage)) if is_given_up(row) => due_to_stop(row, &usage.node, &usage.target),
        _ => due_now(row),
    }
}

// The call that is due once the open call had another status than `Ok`.
fn due_failed(row: &Row) -> Option<Due<'_>>
    ensures { option_map due_shown result ≡ due_in (failed (row_shown row.now) row.now.goal) }
{
    match &row.goal {
        Some(Goal::Use(usage)) => due_to_stop(row, &usage.node, &usage.target),
        Some(Goal::Create) => None,
        Some(Goal::Stop { .. } | Goal::Delete) | None => due_now(row),
    }
}

// What is known once the call of this kind that was due succeeded.
fn marks_after(marks: Marks, kind: Kind) -> Marks
    ensures { result ≡ marks_heard kind marks }
{
    let known = told(kind);
    match kind {
        Kind::CreateVolume | Kind::DeleteVolume => Marks {
            exists: known,
            ..marks
        },
        Kind::ControllerPublishVolume | Kind::ControllerUnpublishVolume => Marks {
            attached: known,
            ..marks
        },
        Kind::NodeStageVolume | Kind::NodeUnstageVolume => Marks {
            staged: known,
            ..marks
        },
        Kind::NodePublishVolume | Kind::NodeUnpublishVolume => Marks {
            published: known,
            ..marks
        },
    }
}

// The call that is due once the row's due call of this kind succeeded, and brought this id.
fn due_after(row: &Row, kind: Kind, id: Option<VolumeId>) -> Option<Due<'_>>
    requires sound { IsSoundRow (row_shown row.now) }
    requires due { kind_due (due_in (row_shown row.now)) ≡ Some kind }
    ensures { option_map due_shown result ≡ due_in (succeeded_row kind id (row_shown row.now)) }
{
    match &row.goal {
        Some(goal) => {
            let id = id_told(kind, id).or(row.id);
            let marks = marks_after(known_for(row, goal), kind);
            due_for(row, goal, id, marks)
        }
        None => None,
    }
}

/// The call that is due once the row took this step.
pub(crate) fn due_then<'a>(row: &'a Row, step: &'a Step) -> Option<Due<'a>>
    requires { IsDueSuccess step.now (row_shown row.now) }
    ensures { option_map due_shown result ≡ due_in (row_before_call step.now (row_shown row.now)) }
{
    match step {
        Step::Create(arguments) => create_due(&row.name, arguments, of_volume(row)),
        Step::Use(usage) => use_due(row.id?, marks_in(row, &usage.node, &usage.target), usage),
        Step::Stop { node, target } => due_to_stop(row, node, target),
        Step::Delete => delete_due(row.id?, of_volume(row)),
        Step::TimeOut => due_timed_out(row),
        Step::Succeed { kind, id } => due_after(row, *kind, *id),
        Step::Fail => due_failed(row),
    }
}
