//! Whether a controller is made of an orchestrator's record, and how a process ends where none is.
ghost use Rattle.std.specs.Prelude.{length, IfOk, IfErr};
ghost use Rattle.csi_plugins.specs.Public.Rebuilding.{IsRebuiltFrom, IsNoRebuilding};
ghost use Rattle.csi_plugins.specs.Private.Rebuilding.{EndsRebuilding, EndsUnlike};

use csi_controller::ControllerRecord;
use csi_node::NodeRecord;
use csi_orchestrator::{Known, OrchestratorRecord, Row};
use csi_recovery::{RebuildingFault, RecoveryFault, first_unlike, rebuilt};
use csi_streams::Ending;
use csi_types::{MAX_CAPACITY, wanted_capacity};
use std::alloc::Global;

// Whether a controller gets a volume of this row.
fn is_made(row: &Row) -> bool {
    row.id.is_some() && !matches!(row.exists, Known::No)
}

// Whether it gets one of the same id of one of these.
fn has_id(rows: &[Row], row: &Row) -> bool {
    rows.iter()
        .any(|other| is_made(other) && other.id == row.id)
}

// Whether a controller can't have the volume of a row, by its arguments.
fn is_unfit(row: &Row) -> bool {
    let capacity = wanted_capacity(row.arguments.required, row.arguments.limit);
    row.arguments.capabilities.as_slice().is_empty() || capacity == 0 || capacity > MAX_CAPACITY
}

// The place of the first row whose volume a controller can't have, counted as its part is, from 1; 0 where there is none.
fn place_of_unfit(rows: &[Row]) -> u64 {
    for (index, row) in rows.iter().enumerate() {
        if is_made(row) && (is_unfit(row) || has_id(&rows[..index], row)) {
            return index as u64 + 1;
        }
    }
    0
}

// The ending where nothing is made of the orchestrator's record.
fn ending_of_rebuilding(fault: RebuildingFault, kept: &OrchestratorRecord) -> Ending
    ensures { EndsRebuilding fault result }
{
    match fault {
        RebuildingFault::NumbersSpent => Ending::NumbersSpent,
        RebuildingFault::IdTaken(_) => Ending::IdTaken,
        RebuildingFault::BadRow(_) => Ending::StoreFault(place_of_unfit(kept.rows()), 1),
        RebuildingFault::NoMemory => Ending::Memory,
    }
}

// The ending where the nodes' records don't go with what was made.
fn ending_of_unlike(fault: RecoveryFault, given: &[NodeRecord]) -> Ending
    ensures { EndsUnlike (length given.now) fault result }
{
    let count = given.len() as u64;
    match fault {
        RecoveryFault::SameNode(place) => Ending::StoresDisagree(place.min(count) + 1),
        RecoveryFault::NotLater => Ending::OlderStore,
        RecoveryFault::Disagrees(place) => Ending::StoresDisagree(place.min(count) + 1),
        RecoveryFault::BadNodes | RecoveryFault::BadRow(_) => Ending::Memory,
        RecoveryFault::NoMemory => Ending::Memory,
    }
}

/// The controller's record, in the session after the orchestrator's.
pub(crate) fn judged_again(
    alloc: Global,
    next_id: u64,
    kept: &OrchestratorRecord,
    given: &[NodeRecord],
) -> Result<ControllerRecord, Ending>
    ensures made { IfOk result (IsRebuiltFrom next_id kept.now given.now) }
    ensures refused { IfErr result (IsNoRebuilding next_id kept.now given.now) }
{
    let made = match rebuilt(alloc, next_id, kept) {
        Ok(made) => made,
        Err(fault) => return Err(ending_of_rebuilding(fault, kept)),
    };
    match first_unlike(&made, given) {
        None => Ok(made),
        Some(fault) => Err(ending_of_unlike(fault, given)),
    }
}
