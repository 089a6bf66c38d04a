//! What an orchestrator's rows have lists of: nodes' entries, and targets' entries. Each is read from bytes and written as bytes, and so
//! is a list of them.
ghost use Rattle.std.specs.Prelude.{◌≡◌, ◌≤◌, ◌++◌, Some, None, IfOk, IsErrOf, OnOk, length, map};
ghost use Rattle.std.specs.List.{AllByRecursion};
ghost use Rattle.csi_orchestrator.specs.Public.Bounds.{AreTargetsFew};
ghost use Rattle.csi_orchestrator.specs.Public.Shown.{node_entry_shown};
ghost use Rattle.csi_records.specs.Public.Spelling.{list_spelling, present};
ghost use Rattle.csi_records.specs.Public.OrchestratorSpelling.{node_entry_bytes};
ghost use Rattle.csi_records.specs.Public.OrchestratorRows.{IsNodeEntry};
ghost use Rattle.csi_records.specs.Private.Reading.{read_counted};
ghost use Rattle.csi_records.specs.Private.OrchestratorReading.{read_node_entry};
ghost use Rattle.csi_records.specs.Private.Writes.{Writes};

use crate::fault::ValueStop;
use crate::items::{Item, list, put_list};
use crate::known::put_known;
use crate::orchestrator_fields::known;
use crate::version::RecordVersion;
use csi_frames::{FaultKind, Fields, append_byte, append_flag, append_text};
use csi_orchestrator::{NodeEntry, TargetEntry};
use csi_types::{Capability, NoMemory, NodeId, Target};
use std::alloc::Global;

impl Item for TargetEntry {
    ghost use Rattle.csi_records.specs.Private.OrchestratorReading.{read_target_entry};
    ghost use Rattle.csi_records.specs.Public.OrchestratorSpelling.{target_entry_bytes};
    ghost use Rattle.csi_records.specs.Public.OrchestratorRows.{IsTargetEntry};

    ghost item_in = { λ version. read_target_entry };

    ghost item_bytes = { target_entry_bytes };

    ghost is_item = { λ version. IsTargetEntry };

    #[tactic(auto, unfolding(crate::specs::Private::OrchestratorReading::read_target_entry, crate::specs::Private::Reading::read_text))]
    fn read(
        fields: &mut Fields<'_>,
        alloc: Global,
        _version: RecordVersion,
    ) -> Result<TargetEntry, ValueStop> {
        let target = Target::try_new(alloc, fields.text(1, Target::MAX_LEN)?)?;
        let published = known(fields)?;
        Ok(TargetEntry { target, published })
    }

    fn put(&self, out: &mut Vec<u8>) -> Result<(), NoMemory> {
        append_text(out, &self.target)?;
        put_known(out, self.published)
    }
}

// A node's entry.
#[tactic(auto, unfolding(crate::specs::Private::OrchestratorReading::read_node_entry, crate::specs::Private::Reading::read_text, crate::specs::Private::Reading::read_flag))]
fn node_entry(
    fields: &mut Fields<'_>,
    alloc: Global,
    version: RecordVersion,
) -> Result<NodeEntry, ValueStop>
    ensures read { IfOk result (λ entry. read_node_entry version fields.old.bytes.now ≡ Some (node_entry_shown entry, fields.new.bytes.now)) }
    ensures bad { IsErrOf result ValueStop.Bad → read_node_entry version fields.old.bytes.now ≡ None }
{
    let node = NodeId::try_new(alloc, fields.text(1, NodeId::MAX_LEN)?)?;
    let capability = Capability::read(fields, alloc, version)?;
    let readonly = fields.flag()?;
    let attached = known(fields)?;
    let staged = known(fields)?;
    let target_entries = list(fields, alloc, version, 16)?;
    Ok(NodeEntry {
        node,
        capability,
        readonly,
        attached,
        staged,
        target_entries,
    })
}

/// A count of at most 64, and as many nodes' entries.
#[tactic(auto, unfolding(crate::specs::Private::Reading::read_counted, crate::specs::Private::Reading::read_count))]
pub(crate) fn node_entries(
    fields: &mut Fields<'_>,
    alloc: Global,
    version: RecordVersion,
) -> Result<Vec<NodeEntry>, ValueStop>
    ensures read { IfOk result (λ entries. read_counted 64 (read_node_entry version) fields.old.bytes.now
        ≡ Some (map node_entry_shown entries.items, fields.new.bytes.now)) }
    ensures bad { IsErrOf result ValueStop.Bad → read_counted 64 (read_node_entry version) fields.old.bytes.now ≡ None }
{
    let count = fields.byte(64, FaultKind::BadCount)?;
    let mut list = Vec::with_capacity(alloc, count as usize)?;
    for _ in 0..count {
        let one = node_entry(fields, alloc, version)?;
        list.push(one)?;
    }
    Ok(list)
}

fn put_entry(out: &mut Vec<u8>, entry: &NodeEntry) -> Result<(), NoMemory>
    requires { AreTargetsFew entry.now }
    ensures { Writes out.old.items out.new.items (node_entry_bytes (node_entry_shown entry.now)) (IsNodeEntry present (node_entry_shown entry.now)) result }
{
    append_text(out, &entry.node)?;
    entry.capability.put(out)?;
    append_flag(out, entry.readonly)?;
    put_known(out, entry.attached)?;
    put_known(out, entry.staged)?;
    put_list(out, &entry.target_entries)
}

// The count of the nodes' entries, and each of them, by the entries themselves.
fn put_each(out: &mut Vec<u8>, entries: &[NodeEntry]) -> Result<(), NoMemory>
    requires count { length entries.now ≤ 64 }
    requires few { AllByRecursion AreTargetsFew entries.now }
    ensures { Writes out.old.items out.new.items (list_spelling (λ entry. node_entry_bytes (node_entry_shown entry)) entries.now) (AllByRecursion (λ entry. IsNodeEntry present (node_entry_shown entry)) entries.now) result }
{
    append_byte(out, entries.len() as u8)?;
    for one in entries {
        put_entry(out, one)?;
    }
    Ok(())
}

/// The count of the nodes' entries of a row, and each of them.
pub(crate) fn put_entries(out: &mut Vec<u8>, entries: &[NodeEntry]) -> Result<(), NoMemory>
    requires count { length entries.now ≤ 64 }
    requires few { AllByRecursion AreTargetsFew entries.now }
    ensures { Writes out.old.items out.new.items (list_spelling node_entry_bytes (map node_entry_shown entries.now)) (AllByRecursion (IsNodeEntry present) (map node_entry_shown entries.now)) result }
{
    put_each(out, entries)
}
