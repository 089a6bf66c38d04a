//! The values of the parts of an orchestrator's record, written in the present version: of its head and of its rows.
ghost use Rattle.std.specs.Prelude.{◌≡◌, ◌≤◌, IfOk, length};
ghost use Rattle.std.specs.List.{AllByRecursion};
ghost use Rattle.csi_types.specs.Public.Text.{IsNodeId};
ghost use Rattle.csi_orchestrator.specs.Public.Bounds.{IsRowFew};
ghost use Rattle.csi_orchestrator.specs.Public.Shown.{row_shown};
ghost use Rattle.csi_records.specs.Public.Spelling.{present};
ghost use Rattle.csi_records.specs.Public.OrchestratorSpelling.{orchestrator_head, orchestrator_row};
ghost use Rattle.csi_records.specs.Public.OrchestratorRows.{IsOrchestratorRow};

use crate::entries::put_entries;
use crate::items::put_list;
use crate::known::{put_arguments, put_goal, put_id, put_known};
use crate::version::PRESENT;
use csi_frames::{append_byte, append_text, append_word};
use csi_orchestrator::Row;
use csi_types::{NoMemory, NodeId};
use std::alloc::Global;

/// The value of the head of an orchestrator's record, of at most 64 nodes: a version, that it is the orchestrator's, the session and
/// the nodes (this profile's own).
pub fn orchestrator_head_value(
    alloc: Global,
    session: u64,
    nodes: &[NodeId],
) -> Result<Vec<u8>, NoMemory>
    requires { length nodes.now ≤ 64 }
    ensures value { IfOk result (λ value. value.items ≡ (orchestrator_head present session nodes.now).value) }
    ensures fits { IfOk result (λ value. AllByRecursion IsNodeId nodes.now) }
{
    let mut out = Vec::new(alloc);
    out.extend_from_slice(&[PRESENT.number(), 2])?;
    append_word(&mut out, session)?;
    put_list(&mut out, nodes)?;
    Ok(out)
}

/// The value of an orchestrator's row: a version, the name, what the volume was to be created with, its id, what is known of it, its
/// goal, the tries, and the nodes' entries (this profile's own).
pub fn orchestrator_row_value(alloc: Global, row: &Row) -> Result<Vec<u8>, NoMemory>
    requires { IsRowFew row.now }
    ensures value { IfOk result (λ value. value.items ≡ orchestrator_row present (row_shown row.now)) }
    ensures fits { IfOk result (λ value. IsOrchestratorRow present (row_shown row.now)) }
{
    let mut out = Vec::new(alloc);
    append_byte(&mut out, PRESENT.number())?;
    append_text(&mut out, &row.name)?;
    put_arguments(&mut out, &row.arguments)?;
    put_id(&mut out, row.id)?;
    put_known(&mut out, row.exists)?;
    put_goal(&mut out, &row.goal)?;
    append_byte(&mut out, row.tries as u8)?;
    put_entries(&mut out, &row.node_entries)?;
    Ok(out)
}
