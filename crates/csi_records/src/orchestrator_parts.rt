//! The parts of an orchestrator's rows, written in the present version: of one row, and of all rows of a record.
ghost use Rattle.std.specs.Prelude.{◌≡◌, ◌++◌, [], ◌∷◌, map, IfOk, OnErr, OnOk};
ghost use Rattle.std.specs.List.{AllByRecursion};
ghost use Rattle.csi_orchestrator.specs.Public.Bounds.{IsRowFew};
ghost use Rattle.csi_orchestrator.specs.Public.Shown.{row_shown};
ghost use Rattle.csi_stores.specs.Public.Part.{part_change, put_all};
ghost use Rattle.csi_records.specs.Public.Spelling.{present};
ghost use Rattle.csi_records.specs.Public.OrchestratorSpelling.{orchestrator_part};
ghost use Rattle.csi_records.specs.Public.OrchestratorRows.{IsOrchestratorRow};
ghost use Rattle.csi_records.specs.Public.OrchestratorRecords.{keyed_from};

use crate::orchestrator_values::orchestrator_row_value;
use csi_orchestrator::Row;
use csi_stores::{Part, push_value};
use csi_types::NoMemory;
use std::alloc::Global;

/// Puts the part of an orchestrator's row at the end, under the row's place among all rows, counted from 1. An open call of the row
/// isn't in its part. A refusal, one of memory, leaves the parts as they were (this profile's own).
pub fn push_orchestrator_row(
    alloc: Global,
    parts: &mut Vec<Part>,
    place: u64,
    row: &Row,
) -> Result<(), NoMemory>
    requires { IsRowFew row.now }
    ensures pushed { OnOk result (map part_change parts.new.items ≡ map part_change parts.old.items
        ++ put_all (orchestrator_part present (record { key = place; row = row_shown row.now }) ∷ [])) }
    ensures fits { OnOk result (IsOrchestratorRow present (row_shown row.now)) }
    ensures err { OnErr result (parts.new.items ≡ parts.old.items) }
{
    let value = orchestrator_row_value(alloc, row)?;
    push_value(parts, place, value)
}

/// Puts the parts of all rows of an orchestrator at the end, each under its place, counted from 1 (this profile's own).
pub fn push_orchestrator_rows(
    alloc: Global,
    parts: &mut Vec<Part>,
    rows: &[Row],
) -> Result<(), NoMemory>
    requires { AllByRecursion IsRowFew rows.now }
    ensures pushed { OnOk result (map part_change parts.new.items ≡ map part_change parts.old.items
        ++ put_all (map (orchestrator_part present) (keyed_from 1 (map row_shown rows.now)))) }
    ensures fit { OnOk result (AllByRecursion (IsOrchestratorRow present) (map row_shown rows.now)) }
{
    for (index, row) in rows.iter().enumerate() {
        push_orchestrator_row(alloc, parts, index as u64 + 1, row)?;
    }
    Ok(())
}

/// The parts of the record with a head of this value and these rows.
pub(crate) fn keyed_parts(alloc: Global, head: Vec<u8>, rows: &[Row]) -> Result<Vec<Part>, NoMemory>
    requires { AllByRecursion IsRowFew rows.now }
    ensures parts { IfOk result (λ parts. map part_change parts.items ≡ put_all (record {
      key = 0;
      value = head.items;
    } ∷ map (orchestrator_part present) (keyed_from 1 (map row_shown rows.now)))) }
    ensures fit { IfOk result (λ parts. AllByRecursion (IsOrchestratorRow present) (map row_shown rows.now)) }
{
    let mut parts = Vec::new(alloc);
    push_value(&mut parts, 0, head)?;
    push_orchestrator_rows(alloc, &mut parts, rows)?;
    Ok(parts)
}
