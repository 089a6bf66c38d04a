//! What an orchestrator's record has, each thing with its value in JSON.
ghost use Rattle.std.specs.Prelude.{◌≡◌, ◌++◌, map, IfOk, OnOk, string_bytes};
ghost use Rattle.json.specs.Tree.{json_tokens};
ghost use Rattle.serde_json.specs.Data.{string};
ghost use Rattle.serde_json.specs.Written.{outline};
ghost use Rattle.csi_orchestrator.specs.Public.Shown.{node_entry_shown, row_shown};
ghost use Rattle.csi_reports.specs.Public.OrchestratorRecords.{kept_target_entry, kept_node_entry, kept_entry, id_entry};
ghost use Rattle.csi_reports.specs.Public.OrchestratorRecords.{orchestrator_entry, IsOrchestratorLine};

use crate::by_name::rows_by_name;
use crate::entries::Entry;
use crate::goals::write_goal;
use crate::members::put_array;
use crate::things::known_text;
use crate::writer::JsonWriter;
use csi_orchestrator::{NodeEntry, OrchestratorRecord, Row, TargetEntry};
use csi_types::{NodeId, VolumeId};
use std::alloc::{AllocError, Global};

impl Entry for NodeId {
    ghost entry = { string };

    fn write(&self, out: &mut JsonWriter) -> Result<(), AllocError> {
        out.text(self.as_str())
    }
}

impl Entry for TargetEntry {
    ghost entry = { kept_target_entry };

    fn write(&self, out: &mut JsonWriter) -> Result<(), AllocError> {
        out.begin_object()?;
        out.put_text("known", known_text(self.published))?;
        out.put_text("target", self.target.as_str())?;
        out.end_object()
    }
}

impl Entry for NodeEntry {
    ghost entry = { λ entry. kept_node_entry (node_entry_shown entry) };

    fn write(&self, out: &mut JsonWriter) -> Result<(), AllocError> {
        out.begin_object()?;
        out.put_text("attached", known_text(self.attached))?;
        out.key("capability")?;
        self.capability.write(out)?;
        out.put_text("node", self.node.as_str())?;
        put_array(out, "published", &self.target_entries)?;
        out.put_flag("readonly", self.readonly)?;
        out.put_text("staged", known_text(self.staged))?;
        out.end_object()
    }
}

// Writes a volume's id, if it has one.
fn write_id(out: &mut JsonWriter, id: Option<VolumeId>) -> Result<(), AllocError>
    ensures { OnOk result (out.new ≡ out.old ++ json_tokens (outline (id_entry id))) }
{
    match id {
        Some(id) => out.number(id.number()),
        None => out.null(),
    }
}

impl Entry for &Row {
    ghost entry = { λ row. kept_entry (row_shown row.now) };

    fn write(&self, out: &mut JsonWriter) -> Result<(), AllocError> {
        let row = *self;
        out.begin_object()?;
        put_array(out, "at", &row.node_entries)?;
        put_array(out, "capabilities", row.arguments.capabilities.as_slice())?;
        out.put_text("exists", known_text(row.exists))?;
        out.key("goal")?;
        write_goal(out, &row.name, row)?;
        out.key("id")?;
        write_id(out, row.id)?;
        out.put_number("limit", row.arguments.limit)?;
        out.put_text("name", row.name.as_str())?;
        out.put_number("required", row.arguments.required)?;
        out.put_number("tries", row.tries)?;
        out.end_object()
    }
}

// Writes a record of these nodes, this session and these rows.
fn write_record(
    out: &mut JsonWriter,
    nodes: &[NodeId],
    session: u64,
    rows: &[&Row],
) -> Result<(), AllocError>
    ensures { OnOk result (out.new ≡ out.old ++ json_tokens (outline (orchestrator_entry nodes.now session (map (λ row. row_shown row.now) rows.now)))) }
{
    out.begin_object()?;
    put_array(out, "nodes", nodes)?;
    out.put_text("plugin", "orchestrator")?;
    out.put_number("session", session)?;
    put_array(out, "volumes", rows)?;
    out.end_object()
}

/// An orchestrator's record as one line of JSON in compact form, without its newline: whose it is (`plugin`), its nodes (`nodes`),
/// the session (`session`), and the volumes that it knows, by name, byte by byte (`volumes`); what a volume has is in kept order.
/// An `Err` is an allocation that was refused. This profile's own.
pub fn orchestrator_line(alloc: Global, kept: &OrchestratorRecord) -> Result<String, AllocError>
    ensures { IfOk result (λ text. IsOrchestratorLine kept.now (string_bytes text)) }
{
    let rows = rows_by_name(alloc, kept.rows())?;
    let mut out = JsonWriter::new(alloc);
    write_record(&mut out, kept.nodes(), kept.session(), &rows)?;
    Ok(out.into_string())
}
