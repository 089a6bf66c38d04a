//! A call to send, and what its row keeps of it.
ghost use Rattle.std.specs.Prelude.{◌≡◌, None, Ok, option_map, IfOk, IfErr, IsOk};
ghost use Rattle.csi_orchestrator.specs.Model.Commands.{next_number as number_after};
ghost use Rattle.csi_orchestrator.specs.Public.Shown.{row_shown};
ghost use Rattle.csi_orchestrator.specs.Private.Found.{due_shown, IsQuiet};
ghost use Rattle.csi_orchestrator.specs.Public.RowMoves.{IsRefusal};
ghost use Rattle.csi_orchestrator.specs.Private.RowSteps.{outgoing_by, sent_or_dropped};

use crate::calls::call_of;
use crate::changes::{drop_goal, mark};
use crate::due::{Due, next_number};
use crate::fault::OrchFault;
use crate::row::{OpenCall, Row};
use crate::thing::Known;
use csi_types::{Frame, Kind, Number, Party};

/// A call to send: its frame, and what the row keeps of it.
#[derive(Drop)]
pub(crate) struct Outgoing {
    pub frame: Frame,
    pub number: Number,
    pub kind: Kind,
}

/// The call to send, if one is due and a number is left. For a delete it takes no memory.
pub(crate) fn outgoing_for(
    last: Number,
    due: &Option<Due<'_>>,
) -> Result<Option<Outgoing>, OrchFault>
    ensures ok { IfOk result (λ next. outgoing_by (option_map due_shown due.now) (number_after last) ≡ Ok next) }
    ensures err { IfErr result (IsRefusal (outgoing_by (option_map due_shown due.now) (number_after last))) }
    ensures quiet { outgoing_by (option_map due_shown due.now) (number_after last) ≡ Ok None → IsOk result }
    ensures delete { IsQuiet (option_map due_shown due.now) → IfErr result (λ fault. fault ≡ OrchFault.NoMemory → ⊥) }
{
    let Some(due) = due else {
        return Ok(None);
    };
    let Some(number) = next_number(last) else {
        return Err(OrchFault::NumbersSpent);
    };
    let party = match due.node() {
        Some(node) => Party::Node(node.clone()?),
        None => Party::Controller,
    };
    let call = call_of(due)?;
    Ok(Some(Outgoing {
        frame: Frame::call(number, party, call).unwrap(),
        number,
        kind: due.kind(),
    }))
}

/// Drops what isn't sent after all.
pub(crate) fn discard(_next: Option<Outgoing>) {}

/// Keeps that the call is sent. Where none is due, the goal is dropped.
pub(crate) fn note_sent_or_drop(row: &mut Row, next: &Option<Outgoing>)
    ensures { row_shown row.new ≡ sent_or_dropped next.now (row_shown row.old) }
{
    match next {
        Some(next) => {
            mark(row, next.kind, Known::Maybe);
            row.open_call = Some(OpenCall {
                number: next.number,
                kind: next.kind,
            });
            row.tries = row.tries.saturating_add(1).min(3);
        }
        None => drop_goal(row),
    }
}
