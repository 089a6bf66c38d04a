//! A controller's record, made of the orchestrator's.
ghost use Rattle.std.specs.Prelude.{◌≡◌, ◌++◌, ◌∷◌, [], ◌+◌, ◌<◌, ◌^◌, not, map, filter_map, IfOk, IfErr, OnOk, MatchOption, nat_lt};
ghost use Rattle.std.specs.List.{cons_option};
ghost use Rattle.std.specs.Ordering.{nat_cmp};
ghost use Rattle.csi_types.specs.Model.Replies.{ok_reply_with};
ghost use Rattle.csi_controller.specs.Model.Shown.{volume_of_row};
ghost use Rattle.csi_orchestrator.specs.Model.Thing.{is_no};
ghost use Rattle.csi_orchestrator.specs.Public.Judging.{IsFirstRefused};
ghost use Rattle.csi_orchestrator.specs.Public.Shown.{node_entry_shown, row_shown};
ghost use Rattle.csi_recovery.specs.declared.rebuilding_fault.RebuildingFault.{RebuildingFault as Fault};
ghost use Rattle.csi_recovery.specs.Public.Rebuilt.{volume_with};
ghost use Rattle.csi_recovery.specs.Public.Rebuilding.{AreBelow, IsMadeOf, IsRebuiltOf, MayRebuild, IsRebuildingRefusal, is_below as below, kept_holding, kept_holdings, made_shown, row_made};
ghost use Rattle.csi_recovery.specs.Private.Rebuilding.{passed_on_record, IsReady, IsUnready};

use crate::rebuilding_fault::RebuildingFault;
use crate::rows::copied_capabilities;
use csi_controller::{ControllerRecord, ControllerRow, NodeHolding, RecordFault};
use csi_orchestrator::{Known, NodeEntry, OrchestratorRecord, Row};
use csi_types::{Detail, Kind, NoMemory, Number, Reply, Status, VolumeId, wanted_capacity};
use std::alloc::Global;
use std::cmp::Ordering;

// Whether it may be so.
fn may_be(known: Known) -> bool
    ensures { result ≡ not (is_no known) }
{
    !matches!(known, Known::No)
}

// Whether the row's id, if it has one, is below this one.
fn is_below(next_id: u64, row: &Row) -> bool
    ensures { result ≡ below next_id (row_shown row.now) }
{
    match row.id {
        Some(id) => id.number() < next_id,
        None => true,
    }
}

// The place, counted from 1, of the first of these rows of which that isn't so.
fn first_taken(next_id: u64, rows: &[Row]) -> Option<u64>
    ensures { MatchOption result (AreBelow next_id (map row_shown rows.now)) (IsFirstRefused (AreBelow next_id) (map row_shown rows.now)) }
{
    for (index, row) in rows.iter().enumerate() {
        let place = index as u64 + 1;
        if !is_below(next_id, row) {
            return Some(place);
        }
    }
    None
}

// How the volume is held at the node of an entry.
fn holding(entry: &NodeEntry) -> Result<NodeHolding, NoMemory>
    ensures { IfOk result (λ made. made ≡ kept_holding (node_entry_shown entry.now)) }
{
    let node = entry.node.clone()?;
    let capability = entry.capability.clone()?;
    Ok(NodeHolding {
        node,
        capability,
        readonly: entry.readonly,
    })
}

// Adds how it is held at the node of an entry, where it may be attached there.
fn add_holding(made: &mut Vec<NodeHolding>, entry: &NodeEntry) -> Result<(), NoMemory>
    ensures { OnOk result (made.new.items ≡ made.old.items ++ kept_holdings (node_entry_shown entry.now ∷ [])) }
{
    if !may_be(entry.attached) {
        return Ok(());
    }
    let held = holding(entry)?;
    made.push(held)?;
    Ok(())
}

// Where the volume may be attached, in the order of the entries.
fn holdings(alloc: Global, entries: &[NodeEntry]) -> Result<Vec<NodeHolding>, NoMemory>
    ensures { IfOk result (λ made. made.items ≡ kept_holdings (map node_entry_shown entries.now)) }
{
    let mut made = Vec::new(alloc);
    for entry in entries {
        add_holding(&mut made, entry)?;
    }
    Ok(made)
}

// The reply that a create of this volume got.
fn created(alloc: Global, id: VolumeId) -> Reply
    ensures { result ≡ ok_reply_with id }
{
    Reply {
        status: Status::Ok,
        id: Some(id),
        detail: Detail::try_new(alloc, "").unwrap(),
    }
}

// The row of the volume of this id.
fn volume(alloc: Global, id: VolumeId, row: &Row) -> Result<ControllerRow, NoMemory>
    ensures volume { IfOk result (λ made. volume_of_row made ≡ volume_with id (row_shown row.now)) }
    ensures holdings { IfOk result (λ made. made.holdings.items ≡ kept_holdings (row_shown row.now).node_entries) }
{
    let name = row.name.clone()?;
    let capabilities = copied_capabilities(&row.arguments.capabilities)?;
    let holdings = holdings(alloc, &row.node_entries)?;
    let capacity = wanted_capacity(row.arguments.required, row.arguments.limit);
    Ok(ControllerRow {
        id,
        live: true,
        name,
        capacity,
        capabilities,
        holdings,
        last: Number {
            session: 0,
            call: 0,
        },
        kind: Kind::CreateVolume,
        reply: created(alloc, id),
    })
}

// Adds the row of the volume of this one, where it has an id and may be there.
fn add_volume(alloc: Global, made: &mut Vec<ControllerRow>, row: &Row) -> Result<(), NoMemory>
    ensures { OnOk result (map made_shown made.new.items ≡ map made_shown made.old.items ++ cons_option (row_made (row_shown row.now)) []) }
{
    let Some(id) = row.id else {
        return Ok(());
    };
    if !may_be(row.exists) {
        return Ok(());
    }
    let one = volume(alloc, id, row)?;
    made.push(one)?;
    Ok(())
}

// The rows of the volumes that may be there, as the orchestrator's stand.
fn volumes(alloc: Global, rows: &[Row]) -> Result<Vec<ControllerRow>, NoMemory>
    ensures { IfOk result (λ made. map made_shown made.items ≡ filter_map row_made (map row_shown rows.now)) }
{
    let mut made = Vec::new(alloc);
    for row in rows {
        add_volume(alloc, &mut made, row)?;
    }
    Ok(made)
}

// Which of the two has the lower id.
fn compare_ids(a: &ControllerRow, b: &ControllerRow) -> Ordering
    ensures { result ≡ nat_cmp a.now.id b.now.id }
{
    a.id.number().cmp(&b.id.number())
}

// The same by rising id.
fn rising(alloc: Global, rows: &[Row]) -> Result<Vec<ControllerRow>, NoMemory>
    ensures { IfOk result (λ made. IsMadeOf (map row_shown rows.now) made.items) }
{
    let mut made = volumes(alloc, rows)?;
    made.sort_unstable_by(compare_ids);
    Ok(made)
}

// The fault by which the record wasn't made.
fn fault_of(fault: RecordFault) -> RebuildingFault
    ensures { result ≡ passed_on_record fault }
{
    match fault {
        RecordFault::BadRow(place) => RebuildingFault::BadRow(place),
        RecordFault::NoMemory => RebuildingFault::NoMemory,
    }
}

// The session after the orchestrator's, where this next id is above all that it knows.
fn session_for(next_id: u64, kept: &OrchestratorRecord) -> Result<u64, RebuildingFault>
    ensures session { IfOk result (λ session. session ≡ kept.now.session + 1) }
    ensures ready { OnOk result (IsReady next_id kept.now) }
    ensures refused { IfErr result (IsUnready next_id kept.now) }
{
    let last = kept.session();
    if last == u64::MAX {
        return Err(RebuildingFault::NumbersSpent);
    }
    if next_id == 0 {
        return Err(RebuildingFault::IdTaken(0));
    }
    match first_taken(next_id, kept.rows()) {
        Some(place) => Err(RebuildingFault::IdTaken(place)),
        None => Ok(last + 1),
    }
}

/// The record of a controller whose store was lost, made of the orchestrator's record, in the session after it, which the orchestrator begins at
/// its next start (this profile's own). `next_id` has to be above each id that the lost controller gave. Each row that has an id, and whose volume
/// may be there, has a live one, by rising id: with its name, the capacity that its arguments are granted, its capabilities, a create as the
/// last call, before all that were ever sent, and a holding for each entry that may be attached, in their order.
///
/// It is refused, and the first of these that holds is told: with `NumbersSpent` where no session is after the record's; with `IdTaken` where
/// `next_id` is 0, and at the first row whose id isn't below it, whether its volume may be there or not; with `BadRow` at the first volume,
/// counted by rising id, that no controller's record has there: an earlier one has its id, it has no capability, or its capacity is 0 or above
/// 2^63 - 1. It is refused with `NoMemory` where an allocation was.
pub fn rebuilt(
    alloc: Global,
    next_id: u64,
    kept: &OrchestratorRecord,
) -> Result<ControllerRecord, RebuildingFault>
    ensures value { IfOk result (IsRebuiltOf (kept.now.session + 1) next_id kept.now.rows) }
    ensures next { IfOk result (λ made. made.next_id ≡ next_id) }
    ensures refused { IfErr result (IsRebuildingRefusal next_id kept.now) }
    ensures accepted { MayRebuild next_id kept.now → IfErr result (λ fault. fault ≡ Fault.NoMemory) }
{
    let session = match session_for(next_id, kept) {
        Ok(session) => session,
        Err(fault) => return Err(fault),
    };
    match rising(alloc, kept.rows()) {
        Ok(rows) => match ControllerRecord::try_new(alloc, next_id, rows, session) {
            Ok(made) => Ok(made),
            Err(fault) => Err(fault_of(fault)),
        },
        Err(NoMemory) => Err(RebuildingFault::NoMemory),
    }
}
