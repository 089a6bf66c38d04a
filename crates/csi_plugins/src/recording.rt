//! What a store has, as a line: the record of a plugin or of an orchestrator.
ghost use Rattle.std.specs.Prelude.{◌≡◌, ◌++◌, ℕ, List, codes, map, IfOk, IfErr, OnOk, string_bytes};
ghost use Rattle.serde_json.specs.Written.{compact_text};
ghost use Rattle.csi_stores.specs.Public.Part.{StoredPart, all_stored_in};
ghost use Rattle.csi_stores.specs.Public.Stores.{Found, IsOnly, FindsSome};
ghost use Rattle.csi_reports.specs.Public.Records.{controller_entry, node_entry};
ghost use Rattle.csi_plugins.specs.Public.Ending.{EndsAt};
ghost use Rattle.csi_plugins.specs.Public.Recording.{IsLineOf, IsOrchestratorRecord, IsNodeOrOrchestrator, IsSomeRecord};
ghost use Rattle.csi_plugins.specs.Public.Recording.{IsRecordTold, IsNotTold, WritesRecordLine, written_by};
ghost use Rattle.csi_plugins.specs.Private.Recording.{IsOrchestratorText, HasNoLine, IsNotGivenAt};

use crate::ending::ending_of_store;
use csi_controller::ControllerRecord;
use csi_node::NodeRecord;
use csi_orchestrator::OrchestratorRecord;
use csi_records::{Record, RecordStop, Stored};
use csi_reports::{controller_line, node_line, orchestrator_line};
use csi_service::{Keep, Part};
use csi_stores::{Counted, write_out};
use csi_streams::Ending;
use std::alloc::Global;
use std::io::Write;

// A controller's record as a line.
fn controller_text(alloc: Global, kept: &ControllerRecord) -> Result<String, Ending>
    ensures line { IfOk result (λ text. string_bytes text ≡ compact_text (controller_entry kept.now) ++ codes "\n") }
    ensures refused { IfErr result (λ ending. ending ≡ Ending.Memory) }
{
    let mut text = controller_line(alloc, kept)?;
    text.push_str("\n")?;
    Ok(text)
}

// A node's.
fn node_text(alloc: Global, kept: &NodeRecord) -> Result<String, Ending>
    ensures line { IfOk result (λ text. string_bytes text ≡ compact_text (node_entry kept.now) ++ codes "\n") }
    ensures refused { IfErr result (λ ending. ending ≡ Ending.Memory) }
{
    let mut text = node_line(alloc, kept)?;
    text.push_str("\n")?;
    Ok(text)
}

// An orchestrator's.
fn orchestrator_text(alloc: Global, kept: &OrchestratorRecord) -> Result<String, Ending>
    ensures line { IfOk result (λ text. IsOrchestratorText kept.now (string_bytes text)) }
    ensures refused { IfErr result (λ ending. ending ≡ Ending.Memory) }
{
    let mut text = orchestrator_line(alloc, kept)?;
    text.push_str("\n")?;
    Ok(text)
}

// The line of these parts, of which the record of a plugin refuses the first.
fn line_of_orchestrator(alloc: Global, parts: &[Part]) -> Result<String, Ending>
    ensures line { IfOk result (λ text. IsLineOf (all_stored_in parts.now) (string_bytes text)) }
    ensures refused { IfErr result (HasNoLine IsOrchestratorRecord (all_stored_in parts.now)) }
{
    match OrchestratorRecord::of_parts(alloc, parts) {
        Ok(Stored { kept, .. }) => orchestrator_text(alloc, &kept),
        Err(RecordStop::BadRecord(place)) => Err(Ending::RecordFault(place)),
        Err(RecordStop::NoMemory) => Err(Ending::Memory),
    }
}

// The line of these parts, of which a controller's record refuses the first.
fn line_of_node(alloc: Global, parts: &[Part]) -> Result<String, Ending>
    ensures line { IfOk result (λ text. IsLineOf (all_stored_in parts.now) (string_bytes text)) }
    ensures refused { IfErr result (HasNoLine IsNodeOrOrchestrator (all_stored_in parts.now)) }
{
    match NodeRecord::of_parts(alloc, parts) {
        Ok(Stored { kept, .. }) => node_text(alloc, &kept),
        Err(RecordStop::NoMemory) => Err(Ending::Memory),
        Err(RecordStop::BadRecord(place)) => {
            if place > 0 {
                return Err(Ending::RecordFault(place));
            }
            line_of_orchestrator(alloc, parts)
        }
    }
}

// The line of these parts, if they are a record.
fn line_of(alloc: Global, parts: &[Part]) -> Result<String, Ending>
    ensures line { IfOk result (λ text. IsLineOf (all_stored_in parts.now) (string_bytes text)) }
    ensures refused { IfErr result (HasNoLine IsSomeRecord (all_stored_in parts.now)) }
{
    match ControllerRecord::of_parts(alloc, parts) {
        Ok(Stored { kept, .. }) => controller_text(alloc, &kept),
        Err(RecordStop::NoMemory) => Err(Ending::Memory),
        Err(RecordStop::BadRecord(place)) => {
            if place > 0 {
                return Err(Ending::RecordFault(place));
            }
            line_of_node(alloc, parts)
        }
    }
}

// The line of what the store has.
fn recorded<K: Keep>(alloc: Global, keep: &mut K) -> Result<String, Ending>
    ensures line { IfOk result (λ text. IsRecordTold (K.store keep.old) (K.store keep.new) (string_bytes text)) }
    ensures refused { IfErr result (IsNotTold (K.store keep.old) (K.store keep.new)) }
    ensures foreign { (K.store keep.new).honest → (place : ℕ) → (K.store keep.old).foreign place → IsNotGivenAt place result }
    ensures left { (K.store keep.new).honest → (found : Found) → (K.store keep.new).leaves found → (K.store keep.old).leaves found }
    ensures some { (K.store keep.new).honest → (found : Found) → IsOnly (K.store keep.old) found → FindsSome (K.store keep.new) }
{
    match keep.load() {
        Ok(parts) => line_of(alloc, &parts),
        Err(fault) => Err(ending_of_store(fault)),
    }
}

/// Writes what the store has, and flushes: the record of a controller, of a node or of an orchestrator, in any version, as one line of
/// JSON, with a newline. Nothing is committed: opening the store again finds nothing that it wouldn't have found before, and something,
/// where it had found one thing. `RecordFault` says that its parts are the record of none of these, with the place of the first that is
/// refused, and 0 where there are none; `Device` that the store's device or the writer failed, which is counted, and then a front of the line
/// is written; `Memory` that an allocation was refused. This profile's own.
pub fn record<K: Keep, W: Write>(alloc: Global, keep: &mut K, out: &mut Counted<W>) -> Ending
    ensures records { WritesRecordLine (K.store keep.old) (K.store keep.new) (written_by W.contents out.old) (written_by W.contents out.new) result }
    ensures foreign { (K.store keep.new).honest → (place : ℕ) → (K.store keep.old).foreign place → EndsAt place result }
    ensures left { (K.store keep.new).honest → (found : Found) → (K.store keep.new).leaves found → (K.store keep.old).leaves found }
    ensures some { (K.store keep.new).honest → (found : Found) → IsOnly (K.store keep.old) found → FindsSome (K.store keep.new) }
{
    let line = match recorded(alloc, keep) {
        Ok(line) => line,
        Err(ending) => return ending,
    };
    match write_out(out, line.as_bytes()) {
        Ok(()) => Ending::Done,
        Err(_) => Ending::Device,
    }
}
