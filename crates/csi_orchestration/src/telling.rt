//! The lines in which an orchestrator tells what it answered.
ghost use Rattle.std.specs.Prelude.{◌≡◌, Some, None, option_and_then, Err, IfOk, OnOk, string_bytes};
ghost use Rattle.serde_json.specs.Written.{compact_text};
ghost use Rattle.csi_orchestrator.specs.Model.Shown.{goal_in};
ghost use Rattle.csi_orchestrator.specs.Public.Changed.{place_by_name};
ghost use Rattle.csi_orchestrator.specs.Public.Shown.{row_shown};
ghost use Rattle.csi_reports.specs.Public.Responses.{goal_now, answer_entry};
ghost use Rattle.csi_orchestration.specs.Public.OrchestratorLines.{row_at, with_bytes, command_entry, reply_entry, heard_entry, lost_entry};

use csi_frames::encode;
use csi_orchestrator::{Heard, OrchFault, Orchestrator, Row};
use csi_reports::{RequestOutcome, Sending, answer_line, ignored_line, loss_line};
use csi_types::{Frame, Name, NoMemory, NodeId};
use std::alloc::Global;

// The line about the volume of a name, with a call that is to be sent.
fn sending_line(
    alloc: Global,
    name: &Name,
    row: Option<&Row>,
    outcome: RequestOutcome,
    frame: &Frame,
) -> Result<String, NoMemory>
    ensures { IfOk result (λ text. string_bytes text ≡ compact_text (answer_entry name.now (goal_now row.entry) outcome (Some (with_bytes frame.now)))) }
{
    let mut bytes = Vec::new(alloc);
    encode(frame, &mut bytes)?;
    let sending = Sending {
        frame,
        bytes: &bytes,
    };
    Ok(answer_line(alloc, name, row, outcome, Some(sending))?)
}

// The line of a command or a timeout about the volume of a name, which has this row then, if it has one.
fn told_line(
    alloc: Global,
    name: &Name,
    row: Option<&Row>,
    told: Result<Option<Frame>, OrchFault>,
) -> Result<String, NoMemory>
    ensures line { IfOk result (λ text. string_bytes text ≡ compact_text (command_entry name.now (goal_now row.entry) told)) }
    ensures memory { OnOk result (told ≡ Err OrchFault.NoMemory → ⊥) }
{
    match told {
        Ok(Some(frame)) => sending_line(alloc, name, row, RequestOutcome::Sent, &frame),
        Ok(None) => Ok(answer_line(alloc, name, row, RequestOutcome::Met, None)?),
        Err(OrchFault::NoMemory) => Err(NoMemory),
        Err(fault) => Ok(answer_line(alloc, name, row, RequestOutcome::Refused(fault), None)?),
    }
}

/// The line of a command or a timeout about the volume of a name. Out of memory has none.
pub(crate) fn command_line(
    alloc: Global,
    orchestrator: &Orchestrator,
    name: &Name,
    told: Result<Option<Frame>, OrchFault>,
) -> Result<String, NoMemory>
    ensures line { IfOk result (λ text. string_bytes text ≡ compact_text (command_entry name.now
        (option_and_then goal_in (row_at orchestrator.now.rows (place_by_name name.now orchestrator.now.rows))) told)) }
    ensures memory { OnOk result (told ≡ Err OrchFault.NoMemory → ⊥) }
{
    match orchestrator.place_of(name) {
        Some(place) => match orchestrator.rows().get(place) {
            Some(row) => told_line(alloc, name, Some(row), told),
            None => told_line(alloc, name, None, told),
        },
        None => told_line(alloc, name, None, told),
    }
}

// The line of a reply to the call of this row, or of one that was refused.
fn reply_line(
    alloc: Global,
    row: &Row,
    heard: Result<Option<Frame>, OrchFault>,
) -> Result<String, NoMemory>
    ensures line { IfOk result (λ text. string_bytes text ≡ compact_text (reply_entry (row_shown row.now) heard)) }
    ensures memory { OnOk result (heard ≡ Err OrchFault.NoMemory → ⊥) }
{
    let name = &row.name;
    match heard {
        Ok(Some(frame)) => sending_line(alloc, name, Some(row), RequestOutcome::Taken, &frame),
        Ok(None) => Ok(answer_line(alloc, name, Some(row), RequestOutcome::Taken, None)?),
        Err(OrchFault::NoMemory) => Err(NoMemory),
        Err(fault) => Ok(answer_line(
            alloc,
            name,
            Some(row),
            RequestOutcome::Refused(fault),
            None,
        )?),
    }
}

// The line of a frame that came, by the row whose call it was.
fn row_line(alloc: Global, row: &Row, heard: Result<Heard, OrchFault>) -> Result<String, NoMemory>
    ensures line { IfOk result (λ text. string_bytes text ≡ compact_text (heard_entry (Some (row_shown row.now)) heard)) }
    ensures memory { OnOk result (heard ≡ Err OrchFault.NoMemory → ⊥) }
{
    match heard {
        Ok(Heard::Ignored) => Ok(ignored_line(alloc)?),
        Ok(Heard::Taken(sent)) => reply_line(alloc, row, Ok(sent)),
        Err(fault) => reply_line(alloc, row, Err(fault)),
    }
}

// The line of a frame that came and has no row.
fn no_row_line(alloc: Global, heard: Result<Heard, OrchFault>) -> Result<String, NoMemory>
    ensures line { IfOk result (λ text. string_bytes text ≡ compact_text (heard_entry None heard)) }
    ensures memory { OnOk result (heard ≡ Err OrchFault.NoMemory → ⊥) }
{
    match heard {
        Err(OrchFault::NoMemory) => Err(NoMemory),
        _ => Ok(ignored_line(alloc)?),
    }
}

/// The line of a frame that came, about the row at the place where its call's row was found. Out of memory has none.
pub(crate) fn heard_line(
    alloc: Global,
    orchestrator: &Orchestrator,
    place: Option<usize>,
    heard: Result<Heard, OrchFault>,
) -> Result<String, NoMemory>
    ensures line { IfOk result (λ text. string_bytes text ≡ compact_text (heard_entry (row_at orchestrator.now.rows place) heard)) }
    ensures memory { OnOk result (heard ≡ Err OrchFault.NoMemory → ⊥) }
{
    match place {
        Some(place) => match orchestrator.rows().get(place) {
            Some(row) => row_line(alloc, row, heard),
            None => no_row_line(alloc, heard),
        },
        None => no_row_line(alloc, heard),
    }
}

/// The line of a node that was to be taken as lost, in this session then. Out of memory has none, and is no answer to a loss.
pub(crate) fn loss_told(
    alloc: Global,
    node: &NodeId,
    told: Result<(), OrchFault>,
    session: u64,
) -> Result<String, NoMemory>
    ensures { IfOk result (λ text. string_bytes text ≡ compact_text (lost_entry node.now told session)) }
{
    match told {
        Ok(()) => Ok(loss_line(alloc, node, RequestOutcome::Lost, session)?),
        Err(fault) => Ok(loss_line(alloc, node, RequestOutcome::Refused(fault), session)?),
    }
}
