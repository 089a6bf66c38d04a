//! Records of the plugins and of an orchestrator: as parts, as bytes, and back.
ghost use Rattle.std.specs.Prelude.{◌≡◌, List, Some, map, IfOk};
ghost use Rattle.csi_records.specs.declared.version.RecordVersion.{RecordVersion};
ghost use Rattle.std.specs.Option.{option_copied};
ghost use Rattle.csi_stores.specs.Public.Part.{StoredPart, all_stored_in, part_change, put_all};
ghost use Rattle.csi_records.specs.Public.Spelling.{present, record_bytes};
ghost use Rattle.csi_records.specs.Public.Records.{node_layout, IsNodeOf, IsRecordOf};
ghost use Rattle.csi_records.specs.Private.Reading.{version_in_parts};
ghost use Rattle.csi_records.specs.Public.Places.{ReadsParts, ReadsStored, ReadsBytes};
ghost use Rattle.csi_records.specs.Public.Writing.{CanBeWritten};

use crate::controller_record::controller_record;
use crate::fault::{RecordStop, ValueStop};
use crate::node_record::node_record;
use crate::orchestrator_parts::keyed_parts;
use crate::orchestrator_record::orchestrator_record;
use crate::orchestrator_values::orchestrator_head_value;
use crate::part_value::value_of;
use crate::plugin_rows::parts_with;
use crate::row_values::{controller_head_value, node_head_value};
use crate::splitting::{SplitParts, split};
use crate::stored::Stored;
use crate::version::RecordVersion;
use crate::writing::bytes_of;
use csi_controller::ControllerRecord;
use csi_node::NodeRecord;
use csi_orchestrator::OrchestratorRecord;
use csi_stores::Part;
use csi_types::{NoMemory, NodeId};
use std::alloc::Global;

/// The record of a plugin or of an orchestrator, which is known by its parts. It is read in any version, and written in the present one. This profile's own.
pub trait Record: Drop {
    /// These are the parts of such a record, in this version.
    ghost is_record: { RecordVersion → List StoredPart → Type 0 };

    /// The record's parts in the present version, by rising key.
    ghost parts_of: { Self → List StoredPart };

    /// The parts of such a record, in this version, are read as this one: in the present version its own; in an earlier one, which has no
    /// session, those of rows of which not all need be its.
    ghost is_of: { RecordVersion → List StoredPart → Self → Type 0 };

    /// The record's parts in the present version, by rising key: what puts each of them into a store.
    fn to_parts(&self, alloc: Global) -> Result<Vec<Part>, NoMemory>
        ensures changes { IfOk result (λ parts. map part_change parts.items ≡ put_all (parts_of self.now)) }
        ensures stored { IfOk result (λ parts. all_stored_in parts.items ≡ parts_of self.now) }
        ensures parts { IfOk result (λ parts. is_record present (parts_of self.now)) }
        ensures writable { IfOk result (λ parts. CanBeWritten (parts_of self.now)) };

    /// The record of these parts in this version, or the first of them that is refused.
    fn in_version(alloc: Global, version: RecordVersion, parts: &[Part]) -> Result<Self, RecordStop>
        ensures { ReadsParts (is_record version) (is_of version) (all_stored_in parts.now) result };

    /// The record of these parts, and their version, which the head tells; or the first of them that is refused.
    fn of_parts(alloc: Global, parts: &[Part]) -> Result<Stored<Self>, RecordStop>
        ensures { ReadsStored is_record is_of (all_stored_in parts.now) result };
}

// The version of the head.
fn version_of(parts: &[Part]) -> Option<RecordVersion>
    ensures { result ≡ version_in_parts (all_stored_in parts.now) }
{
    let [head, ..] = parts else {
        return None;
    };
    let [byte, ..] = value_of(head) else {
        return None;
    };
    RecordVersion::from_number(*byte)
}

impl Record for ControllerRecord {
    ghost use Rattle.std.specs.Prelude.{map, Some};
    ghost use Rattle.csi_records.specs.Public.Spelling.{present, controller_parts, volume_row};
    ghost use Rattle.csi_records.specs.Public.Records.{controller_layout, IsControllerOf, IsRecordOf};

    ghost is_record = { λ version. IsRecordOf (controller_layout version) };

    ghost parts_of = { λ kept. controller_parts present kept.next_id (Some kept.session) (map volume_row kept.rows) };

    ghost is_of = { IsControllerOf };

    fn to_parts(&self, alloc: Global) -> Result<Vec<Part>, NoMemory> {
        let head = controller_head_value(alloc, self.next_id(), self.session())?;
        parts_with(alloc, head, self.rows())
    }

    fn in_version(
        alloc: Global,
        version: RecordVersion,
        parts: &[Part],
    ) -> Result<ControllerRecord, RecordStop> {
        controller_record(alloc, version, parts)
    }

    fn of_parts(alloc: Global, parts: &[Part]) -> Result<Stored<ControllerRecord>, RecordStop> {
        let Some(version) = version_of(parts) else {
            return Err(RecordStop::BadRecord(0));
        };
        match controller_record(alloc, version, parts) {
            Ok(kept) => Ok(Stored { kept, version }),
            Err(stop) => Err(stop),
        }
    }
}

impl Record for NodeRecord {
    ghost use Rattle.std.specs.Prelude.{map, Some, None};
    ghost use Rattle.csi_node.specs.Model.OneRow.{node_row_shown};
    ghost use Rattle.csi_records.specs.Public.Spelling.{present, node_parts};
    ghost use Rattle.csi_records.specs.Public.Records.{node_layout, IsNodeOf, IsRecordOf};

    ghost is_record = { λ version. IsRecordOf (node_layout version None) };

    ghost parts_of = { λ kept. node_parts present kept.id (Some kept.session) (map node_row_shown kept.rows) };

    ghost is_of = { λ version. IsNodeOf version None };

    fn to_parts(&self, alloc: Global) -> Result<Vec<Part>, NoMemory> {
        let head = node_head_value(alloc, self.id(), self.session())?;
        parts_with(alloc, head, self.rows())
    }

    fn in_version(
        alloc: Global,
        version: RecordVersion,
        parts: &[Part],
    ) -> Result<NodeRecord, RecordStop> {
        node_record(alloc, version, None, parts)
    }

    fn of_parts(alloc: Global, parts: &[Part]) -> Result<Stored<NodeRecord>, RecordStop> {
        node_of_parts(alloc, None, parts)
    }
}

impl Record for OrchestratorRecord {
    ghost use Rattle.csi_records.specs.Public.Records.{IsRecordOf};
    ghost use Rattle.csi_records.specs.Public.OrchestratorRecords.{orchestrator_layout, kept_parts, IsOrchestratorOf};

    ghost is_record = { λ version. IsRecordOf (orchestrator_layout version) };

    ghost parts_of = { kept_parts };

    ghost is_of = { IsOrchestratorOf };

    fn to_parts(&self, alloc: Global) -> Result<Vec<Part>, NoMemory> {
        let head = orchestrator_head_value(alloc, self.session(), self.nodes())?;
        keyed_parts(alloc, head, self.rows())
    }

    fn in_version(
        alloc: Global,
        version: RecordVersion,
        parts: &[Part],
    ) -> Result<OrchestratorRecord, RecordStop> {
        orchestrator_record(alloc, version, parts)
    }

    fn of_parts(alloc: Global, parts: &[Part]) -> Result<Stored<OrchestratorRecord>, RecordStop> {
        let Some(version) = version_of(parts) else {
            return Err(RecordStop::BadRecord(0));
        };
        match orchestrator_record(alloc, version, parts) {
            Ok(kept) => Ok(Stored { kept, version }),
            Err(stop) => Err(stop),
        }
    }
}

// The record of a node, of the one that is asked for, if one is, and the version of its parts.
fn node_of_parts(
    alloc: Global,
    wanted: Option<&NodeId>,
    parts: &[Part],
) -> Result<Stored<NodeRecord>, RecordStop>
    ensures { ReadsStored (λ version. IsRecordOf (node_layout version (option_copied wanted.entry))) (λ version. IsNodeOf version
        (option_copied wanted.entry)) (all_stored_in parts.now) result }
{
    let Some(version) = version_of(parts) else {
        return Err(RecordStop::BadRecord(0));
    };
    match node_record(alloc, version, wanted, parts) {
        Ok(kept) => Ok(Stored { kept, version }),
        Err(stop) => Err(stop),
    }
}

/// The bytes of a whole record, in the present version: its byte, the number of parts, and of each part the key, the length of its
/// value and the value (this profile's own). A refusal is one of memory.
pub fn write_record<T: Record>(alloc: Global, kept: &T) -> Result<Vec<u8>, NoMemory>
    ensures bytes { IfOk result (λ bytes. bytes.items ≡ record_bytes present (T.parts_of kept.now)) }
    ensures parts { IfOk result (λ bytes. T.is_record present (T.parts_of kept.now)) }
{
    let parts = kept.to_parts(alloc)?;
    bytes_of(alloc, &parts)
}

/// The record whose bytes these are, all of them, and their version; or the place of the first part that is refused (this profile's own).
pub fn read_record<T: Record>(alloc: Global, bytes: &[u8]) -> Result<Stored<T>, RecordStop>
    ensures { ReadsBytes T.is_record T.is_of bytes.now result }
{
    let SplitParts {
        version,
        parts,
        all,
    } = match split(alloc, bytes) {
        Ok(read) => read,
        Err(ValueStop::Bad) => return Err(RecordStop::BadRecord(0)),
        Err(ValueStop::NoMemory) => return Err(RecordStop::NoMemory),
    };
    let place = parts.len() as u64;
    match T::in_version(alloc, version, &parts) {
        Ok(kept) if all => Ok(Stored { kept, version }),
        Ok(_) => Err(RecordStop::BadRecord(place)),
        Err(stop) => Err(stop),
    }
}

/// The record of the node of this id whose parts these are, and their version; or the first of them that is refused: the head, where it
/// is another node's (this profile's own).
pub fn record_of_node(
    alloc: Global,
    id: &NodeId,
    parts: &[Part],
) -> Result<Stored<NodeRecord>, RecordStop>
    ensures { ReadsStored (λ version. IsRecordOf (node_layout version (Some id.now))) (λ version. IsNodeOf version (Some id.now))
        (all_stored_in parts.now) result }
{
    node_of_parts(alloc, Some(id), parts)
}
