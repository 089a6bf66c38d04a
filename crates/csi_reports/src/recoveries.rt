//! What a recovery made, as a line.
ghost use Rattle.std.specs.Prelude.{◌≡◌, ◌∷◌, ◌++◌, [], ℕ, List, map, IfOk, OnOk, string_bytes};
ghost use Rattle.std.specs.List.{list_any};
ghost use Rattle.json.specs.Tree.{json_tokens};
ghost use Rattle.serde_json.specs.Written.{outline};
ghost use Rattle.csi_types.specs.Model.Same.{same_text};
ghost use Rattle.csi_orchestrator.specs.Public.Shown.{node_entry_shown, row_shown};
ghost use Rattle.csi_reports.specs.Public.Recoveries.{has_node, once, lost_among, lost_of_entries, lost_of_rows, recovery_entry, IsRecoveryLine};
ghost use Rattle.csi_reports.specs.Public.ByName.{name_place};
ghost use Rattle.csi_reports.specs.Public.Order.{IsInPlace};

use crate::by_name::wanted_by_name;
use crate::members::put_array;
use crate::order::put_in_place;
use crate::writer::JsonWriter;
use csi_node::NodeRecord;
use csi_orchestrator::{NodeEntry, OrchestratorRecord, Row};
use csi_types::{Name, NoMemory, NodeId};
use std::alloc::{AllocError, Global};

// Whether one of these records is of the node.
fn is_given(given: &[NodeRecord], node: &NodeId) -> bool
    ensures { result ≡ list_any (λ kept. same_text kept.id node.now) given.now }
{
    given.iter().any(|kept| kept.id().as_str() == node.as_str())
}

// Whether the node is one of these.
fn is_listed(nodes: &[NodeId], node: &NodeId) -> bool
    ensures { result ≡ has_node node.now nodes.now }
{
    nodes.iter().any(|other| other.as_str() == node.as_str())
}

// Adds the node, unless it is given or there.
fn add_node(lost: &mut Vec<NodeId>, given: &[NodeRecord], node: &NodeId) -> Result<(), NoMemory>
    ensures { (seen : List (List ℕ)) → lost.old.items ≡ once seen →
        OnOk result (lost.new.items ≡ once (seen ++ lost_among (map (λ kept. kept.id) given.now) (node.now ∷ []))) }
{
    if is_given(given, node) {
        return Ok(());
    }
    if is_listed(lost, node) {
        return Ok(());
    }
    let copy = node.clone()?;
    lost.push(copy)?;
    Ok(())
}

// Adds the nodes of these entries that aren't given, each once.
fn add_lost(
    lost: &mut Vec<NodeId>,
    given: &[NodeRecord],
    entries: &[NodeEntry],
) -> Result<(), NoMemory>
    ensures { (seen : List (List ℕ)) → lost.old.items ≡ once seen →
        OnOk result (lost.new.items ≡ once (seen ++ lost_of_entries (map (λ kept. kept.id) given.now) (map node_entry_shown entries.now))) }
{
    for entry in entries {
        add_node(lost, given, &entry.node)?;
    }
    Ok(())
}

// The nodes of these rows that aren't given, each once.
fn lost_in(alloc: Global, given: &[NodeRecord], rows: &[Row]) -> Result<Vec<NodeId>, NoMemory>
    ensures { IfOk result (λ lost. lost.items ≡ once (lost_of_rows (map (λ kept. kept.id) given.now) (map row_shown rows.now))) }
{
    let mut lost = Vec::new(alloc);
    for row in rows {
        add_lost(&mut lost, given, &row.node_entries)?;
    }
    Ok(lost)
}

// These nodes, byte by byte.
fn lost_by_name(alloc: Global, given: &[NodeRecord], rows: &[Row]) -> Result<Vec<NodeId>, NoMemory>
    ensures { IfOk result (λ lost. IsInPlace name_place (once (lost_of_rows (map (λ kept. kept.id) given.now) (map row_shown rows.now))) lost.items) }
{
    let mut lost = lost_in(alloc, given, rows)?;
    put_in_place(&mut lost);
    Ok(lost)
}

// Writes what was made.
fn write_recovery(
    out: &mut JsonWriter,
    lost: &[NodeId],
    session: u64,
    volumes: u64,
    wanted: &[&Name],
) -> Result<(), AllocError>
    ensures { OnOk result (out.new ≡ out.old ++ json_tokens (outline (recovery_entry lost.now session volumes (map (λ name. name.now) wanted.now)))) }
{
    out.begin_object()?;
    put_array(out, "lost", lost)?;
    out.put_number("session", session)?;
    out.put_number("volumes", volumes)?;
    put_array(out, "wanted", wanted)?;
    out.end_object()
}

/// What a recovery made of the records of these nodes, as one line of JSON in compact form, without its newline: the nodes at which a volume
/// is attached and whose records weren't given (`lost`), byte by byte, the session (`session`), how many volumes there are (`volumes`), and
/// the names of those of which something is wanted, byte by byte (`wanted`). An `Err` is an allocation that was refused. This profile's own.
pub fn recovery_line(
    alloc: Global,
    kept: &OrchestratorRecord,
    given: &[NodeRecord],
) -> Result<String, NoMemory>
    ensures { IfOk result (λ text. IsRecoveryLine (map (λ kept. kept.id) given.now) kept.now (string_bytes text)) }
{
    let rows = kept.rows();
    let lost = lost_by_name(alloc, given, rows)?;
    let wanted = wanted_by_name(alloc, rows)?;
    let mut out = JsonWriter::new(alloc);
    write_recovery(&mut out, &lost, kept.session(), rows.len() as u64, &wanted)?;
    Ok(out.into_string())
}
