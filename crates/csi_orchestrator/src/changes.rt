//! What becomes of a row.
ghost use Rattle.std.specs.Prelude.{◌≡◌, Some, None};
ghost use Rattle.csi_orchestrator.specs.Public.Shown.{row_shown};
ghost use Rattle.csi_orchestrator.specs.Private.RowChanges.{marked_row, known_by_success_of, id_told as id_by_kind, succeeded_row};
ghost use Rattle.csi_orchestrator.specs.Private.RowChanges.{wanted_row, stopped_goal, dropped_row, new_row as new_row_shown};

use crate::entries::{mark_at, tidy};
use crate::request::{Arguments, Usage};
use crate::row::{Goal, Row};
use crate::thing::Known;
use csi_types::{Kind, Name, VolumeId};
use std::alloc::Global;

/// Marks what a call of this kind for the row's goal does or undoes.
pub(crate) fn mark(row: &mut Row, kind: Kind, known: Known)
    ensures { row_shown row.new ≡ marked_row known kind (row_shown row.old) }
{
    match kind {
        Kind::CreateVolume | Kind::DeleteVolume => row.exists = known,
        Kind::ControllerPublishVolume
        | Kind::ControllerUnpublishVolume
        | Kind::NodeStageVolume
        | Kind::NodeUnstageVolume
        | Kind::NodePublishVolume
        | Kind::NodeUnpublishVolume => match &row.goal {
            Some(Goal::Use(usage)) => {
                mark_at(
                    &mut row.node_entries,
                    &usage.node,
                    &usage.target,
                    kind,
                    known,
                )
            }
            Some(Goal::Stop { node, target }) => {
                mark_at(&mut row.node_entries, node, target, kind, known)
            }
            Some(Goal::Create | Goal::Delete) | None => {}
        },
    }
}

/// What a success of a call of this kind tells.
pub(crate) fn told(kind: Kind) -> Known
    ensures { result ≡ known_by_success_of kind }
{
    match kind {
        Kind::CreateVolume
        | Kind::ControllerPublishVolume
        | Kind::NodeStageVolume
        | Kind::NodePublishVolume => Known::Yes,
        Kind::DeleteVolume
        | Kind::ControllerUnpublishVolume
        | Kind::NodeUnstageVolume
        | Kind::NodeUnpublishVolume => Known::No,
    }
}

/// The id that it brings.
pub(crate) fn id_told(kind: Kind, id: Option<VolumeId>) -> Option<VolumeId>
    ensures { result ≡ id_by_kind kind id }
{
    match kind {
        Kind::CreateVolume => id,
        _ => None,
    }
}

/// Keeps that a call of this kind succeeded, with this id.
pub(crate) fn succeed(row: &mut Row, kind: Kind, id: Option<VolumeId>)
    ensures { row_shown row.new ≡ succeeded_row kind id (row_shown row.old) }
{
    mark(row, kind, told(kind));
    row.id = id_told(kind, id).or(row.id);
    row.open_call = None;
    row.tries = 0;
}

/// Sets the goal. No call is open.
pub(crate) fn want(row: &mut Row, goal: Goal)
    ensures { row_shown row.new ≡ wanted_row goal (row_shown row.old) }
{
    drop(row.goal.replace(goal));
    row.open_call = None;
    row.tries = 0;
}

/// Gives the goal up: a use is stopped. Without a goal nothing changes.
pub(crate) fn stop_use(row: &mut Row)
    ensures goal { (goal : Goal) → row.old.goal ≡ Some goal → row_shown row.new ≡ wanted_row (stopped_goal goal) (row_shown row.old) }
    ensures none { row.old.goal ≡ None → row_shown row.new ≡ row_shown row.old }
{
    match row.goal.take() {
        Some(Goal::Use(usage)) => {
            let Usage { node, target, .. } = usage;
            want(row, Goal::Stop { node, target });
        }
        Some(other) => want(row, other),
        None => {}
    }
}

/// Drops the goal. No call is open, and only entries of which something may be so are kept.
pub(crate) fn drop_goal(row: &mut Row)
    ensures { row_shown row.new ≡ dropped_row (row_shown row.old) }
{
    drop(row.goal.take());
    row.open_call = None;
    row.tries = 0;
    tidy(&mut row.node_entries);
}

/// A row with creation as its goal. It takes no memory.
pub(crate) fn new_row(alloc: Global, name: Name, arguments: Arguments) -> Row
    ensures { row_shown result ≡ new_row_shown name arguments }
{
    Row {
        name,
        arguments,
        id: None,
        exists: Known::No,
        goal: Some(Goal::Create),
        open_call: None,
        tries: 0,
        node_entries: Vec::new(alloc),
    }
}
