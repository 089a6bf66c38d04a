//! What a call changes of an orchestrator's record, and the parts that say so.
ghost use Rattle.std.specs.Prelude.{◌≡◌, ◌≤◌, ◌+◌, ◌-◌, ◌++◌, map, slice_get, if◌then◌else◌, length, IfSome, OnOk};
ghost use Rattle.std.specs.List.{AllByRecursion, position_or_len};
ghost use Rattle.csi_types.specs.Model.Same.{same_text};
ghost use Rattle.csi_types.specs.Public.Text.{IsNodeId};
ghost use Rattle.csi_orchestrator.specs.Public.Changed.{place_by_name};
ghost use Rattle.csi_stores.specs.Public.Part.{part_change, take_all};
ghost use Rattle.csi_records.specs.Public.OrchestratorRows.{IsOrchestratorRow};
ghost use Rattle.csi_records.specs.Public.Spelling.{present};
ghost use Rattle.csi_service.specs.Private.OrchestratorServices.{changed_at, heard_at};
ghost use Rattle.csi_service.specs.Public.OrchestratorServices.{orchestrator_row_change, keys_from, session_change as changed_by_session, IsOneRow};

use csi_orchestrator::{Heard, Orchestrator};
use csi_records::push_orchestrator_row;
use csi_stores::{Part, push_removal};
use csi_types::{Name, NoMemory, NodeId};
use std::alloc::Global;

/// What was changed of an orchestrator's record.
#[derive(Clone, Copy)]
pub(crate) enum OrchestratorChanged {
    /// Nothing.
    Nothing,
    /// The head: a session began.
    Head,
    /// The row at this place among the rows, from 0, which was changed or made.
    Row(usize),
    /// All of it, where there were so many rows before: a session began, and rows were forgotten, or a node was lost.
    Whole(usize),
}

/// What a session that began changed, where there were so many rows before, and there are so many now.
pub(crate) fn session_change(before: usize, now: usize) -> OrchestratorChanged
    ensures { result ≡ changed_by_session before now }
{
    if before == now {
        OrchestratorChanged::Head
    } else {
        OrchestratorChanged::Whole(before)
    }
}

/// The row at this place, if one was found.
fn row_at(place: Option<usize>) -> OrchestratorChanged
    ensures value { result ≡ changed_at place }
    ensures one { IsOneRow result }
{
    match place {
        Some(place) => OrchestratorChanged::Row(place),
        None => OrchestratorChanged::Nothing,
    }
}

/// The row of this name, unless the call left all as it was.
pub(crate) fn row_named(
    orchestrator: &Orchestrator,
    name: &Name,
    is_changed: bool,
) -> OrchestratorChanged
    ensures value { result ≡ (if is_changed then changed_at (place_by_name name.now orchestrator.now.rows) else OrchestratorChanged.Nothing) }
    ensures one { IsOneRow result }
{
    if is_changed {
        row_at(orchestrator.place_of(name))
    } else {
        OrchestratorChanged::Nothing
    }
}

/// The row at this place, unless the frame was ignored.
pub(crate) fn row_heard(place: Option<usize>, heard: &Heard) -> OrchestratorChanged
    ensures value { result ≡ heard_at place heard.now }
    ensures one { IsOneRow result }
{
    match heard {
        Heard::Ignored => OrchestratorChanged::Nothing,
        Heard::Taken(_) => row_at(place),
    }
}

/// Where the row of this name is, or will be once it is created.
pub(crate) fn place_for(orchestrator: &Orchestrator, name: &Name) -> usize
    ensures { result ≡ position_or_len (λ row. same_text row.name name.now) orchestrator.now.rows }
{
    match orchestrator.place_of(name) {
        Some(place) => place,
        None => orchestrator.rows().len(),
    }
}

/// Puts the part of the row at a place at the end, if one is there. It is no search.
pub(crate) fn push_row(
    alloc: Global,
    parts: &mut Vec<Part>,
    orchestrator: &Orchestrator,
    place: usize,
) -> Result<(), NoMemory>
    requires { length orchestrator.now.nodes ≤ 64 }
    ensures parts { OnOk result (map part_change parts.new.items ≡ map part_change parts.old.items
        ++ orchestrator_row_change place (slice_get orchestrator.now.rows place)) }
    ensures fit { OnOk result (IfSome (slice_get orchestrator.now.rows place) (IsOrchestratorRow present)) }
{
    match orchestrator.rows().get(place) {
        Some(row) => push_orchestrator_row(alloc, parts, place as u64 + 1, row),
        None => Ok(()),
    }
}

/// Puts at the end that what stands under the keys behind so many rows is taken out, where there were so many before.
pub(crate) fn push_removals_behind(
    parts: &mut Vec<Part>,
    now: usize,
    before: usize,
) -> Result<(), NoMemory>
    ensures { OnOk result (map part_change parts.new.items ≡ map part_change parts.old.items ++ take_all (keys_from (now + 1) (before - now))) }
{
    for place in now..before {
        push_removal(parts, place as u64 + 1)?;
    }
    Ok(())
}

/// For the proof alone: nodes are texts within their limits.
pub(crate) fn nodes_law(nodes: &[NodeId])
    ensures { AllByRecursion IsNodeId nodes.now }
{
    for node in nodes {
        let _text = node.as_str();
    }
}
