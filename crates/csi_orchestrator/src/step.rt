//! What is asked of a volume or comes for it, and what becomes of its row.
ghost use Rattle.std.specs.Prelude.{◌≡◌, false, Some, IfErr, IsOk, OnOk, OnErr};
ghost use Rattle.csi_orchestrator.specs.Private.RowChanges.{Becomes};
ghost use Rattle.csi_orchestrator.specs.Private.RowSteps.{timed_out, failed, row_before_call, needs_entry, row_sends_due, row_step, MovesRow};
ghost use Rattle.csi_orchestrator.specs.Private.Hearing.{IsDueSuccess};
ghost use Rattle.csi_orchestrator.specs.Public.Shown.{row_shown};

use crate::changes::{stop_use, succeed, want};
use crate::decision::{Decision, decide};
use crate::entries::add_node;
use crate::fault::OrchFault;
use crate::next_call::{due_then, is_given_up};
use crate::request::{Arguments, Usage};
use crate::row::{Goal, Row};
use crate::sending::{Outgoing, discard, note_sent_or_drop, outgoing_for};
use csi_types::{Kind, NodeId, Number, Target, VolumeId};
use std::alloc::Global;

/// What is asked of a volume, or comes for it.
#[derive(Drop)]
pub(crate) enum Step {
    /// That it is created by these arguments, though its name has a row.
    Create(Arguments),
    /// That it is published so.
    Use(Usage),
    /// That it isn't published there, and then isn't at the node.
    Stop { node: NodeId, target: Target },
    /// That it is deleted.
    Delete,
    /// Its open call timed out.
    TimeOut,
    /// Its open call, of this kind, succeeded; the id that the reply brought.
    Succeed { kind: Kind, id: Option<VolumeId> },
    /// Its open call had another status.
    Fail,
}

// The open call timed out: it is given up, and after three tries the use that it is for is too.
fn time_out(row: &mut Row)
    ensures { row_shown row.new ≡ timed_out (row_shown row.old) row.old.goal }
{
    if is_given_up(row) {
        stop_use(row);
    } else {
        row.open_call = None;
    }
}

// The open call had another status than `Ok`: a use that didn't come about is stopped.
fn fail(row: &mut Row)
    ensures { row_shown row.new ≡ failed (row_shown row.old) row.old.goal }
{
    match &row.goal {
        Some(goal) => match goal {
            Goal::Create => drop(row.goal.take()),
            Goal::Use(_) => stop_use(row),
            Goal::Stop { .. } | Goal::Delete => row.open_call = None,
        },
        None => row.open_call = None,
    }
}

// The row takes the step. A refusal changes nothing; only a use takes memory.
fn change(alloc: Global, row: &mut Row, step: Step) -> Result<(), OrchFault>
    ensures changed { Becomes (row_before_call step (row_shown row.old)) (row_shown row.old) (row_shown row.new) result }
    ensures memory { IfErr result (λ fault. fault ≡ OrchFault.NoMemory) }
    ensures sure { needs_entry step ≡ false → IsOk result }
{
    match step {
        Step::Create(arguments) => {
            row.arguments = arguments;
            want(row, Goal::Create);
        }
        Step::Use(usage) => {
            add_node(alloc, &mut row.node_entries, &usage)?;
            want(row, Goal::Use(usage));
        }
        Step::Stop { node, target } => want(row, Goal::Stop { node, target }),
        Step::Delete => want(row, Goal::Delete),
        Step::TimeOut => time_out(row),
        Step::Succeed { kind, id } => succeed(row, kind, id),
        Step::Fail => fail(row),
    }
    Ok(())
}

// The row takes the step, and its due call is sent.
fn send_due(
    alloc: Global,
    row: &mut Row,
    last: Number,
    step: Step,
) -> Result<Option<Outgoing>, OrchFault>
    requires { IsDueSuccess step (row_shown row.old) }
    ensures { MovesRow (row_sends_due last (row_before_call step (row_shown row.old))) step (needs_entry step)
        (row_shown row.old) (row_shown row.new) result }
{
    let next = match outgoing_for(last, &due_then(row, &step)) {
        Ok(next) => next,
        Err(fault) => {
            drop(step);
            return Err(fault);
        }
    };
    if let Err(fault) = change(alloc, row, step) {
        discard(next);
        return Err(fault);
    }
    note_sent_or_drop(row, &next);
    Ok(next)
}

/// What a step makes of the row, and what is sent for it. A refusal changes nothing. Where nothing is sent, and for a delete,
/// it takes no memory.
pub(crate) fn take(
    alloc: Global,
    row: &mut Row,
    nodes: &[NodeId],
    last: Number,
    step: Step,
) -> Result<Option<Outgoing>, OrchFault>
    requires { IsDueSuccess step (row_shown row.old) }
    ensures { MovesRow (row_step nodes.now last step (row_shown row.old)) step false (row_shown row.old) (row_shown row.new) result }
{
    match decide(nodes, last, row, &step) {
        Decision::Refuse(fault) => {
            drop(step);
            Err(fault)
        }
        Decision::Met => {
            drop(step);
            Ok(None)
        }
        Decision::Wait => {
            drop(step);
            row.open_call = None;
            Ok(None)
        }
        Decision::Send => send_due(alloc, row, last, step),
    }
}
