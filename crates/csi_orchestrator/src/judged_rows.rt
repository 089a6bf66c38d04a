//! Which of the rows that a record is to be made of is the first that no record has there.
ghost use Rattle.std.specs.Prelude.{◌≡◌, ◌||◌, ◌≤◌, ℕ, List, length, map, not, IfOk, OnOk, MatchOption};
ghost use Rattle.std.specs.BTreeSet.{contains_by};
ghost use Rattle.std.specs.Cmp.Lexicographic.{slice_cmp};
ghost use Rattle.std.specs.Ordering.{nat_cmp};
ghost use Rattle.csi_types.specs.Model.Same.{same_text};
ghost use Rattle.csi_orchestrator.specs.Public.Judging.{IsFirstRefused};
ghost use Rattle.csi_orchestrator.specs.Public.Restored.{AreRestorable};
ghost use Rattle.csi_orchestrator.specs.Public.Shown.{row_shown};
ghost use Rattle.csi_orchestrator.specs.Private.Judging.{may_follow as is_fit_after};

use crate::judging::is_restorable;
use crate::row::Row;
use csi_types::{MAX_ROWS, NoMemory, NodeId};
use std::alloc::Global;
use std::collections::BTreeSet;

// Whether the row may follow so many others, whatever their names are.
fn may_follow(nodes: &[NodeId], count: usize, row: &Row) -> bool
    ensures { result ≡ is_fit_after nodes.now count row.now }
{
    count < MAX_ROWS && is_restorable(nodes, row)
}

// Adds a name, and says whether it is new.
fn add_name<'a>(names: &mut BTreeSet<&'a str>, name: &'a str) -> Result<bool, NoMemory>
    ensures is_new { IfOk result (λ is_new. is_new ≡ not (contains_by (λ known. slice_cmp nat_cmp name.now known.now) names.old)) }
    ensures names { OnOk result ((other : List ℕ) → contains_by (λ known. slice_cmp nat_cmp other known.now) names.new
        ≡ (same_text name.now other || contains_by (λ known. slice_cmp nat_cmp other known.now) names.old)) }
{
    match names.insert(name) {
        Ok(is_new) => Ok(is_new),
        Err(_) => Err(NoMemory),
    }
}

/// The place, counted from 1, of the first row that no record of these nodes has there; `None` where all these rows are a record's.
/// The names are kept in order, so that each row is compared with few others.
pub(crate) fn first_refused(
    alloc: Global,
    nodes: &[NodeId],
    rows: &[Row],
) -> Result<Option<u64>, NoMemory>
    ensures { IfOk result (λ found. MatchOption found (AreRestorable nodes.now (map row_shown rows.now))
        (IsFirstRefused (AreRestorable nodes.now) (map row_shown rows.now))) }
{
    let mut names = BTreeSet::new(alloc);
    for (index, row) in rows.iter().enumerate() {
        let place = index as u64 + 1;
        if !may_follow(nodes, index, row) {
            return Ok(Some(place));
        }
        if !add_name(&mut names, row.name.as_str())? {
            return Ok(Some(place));
        }
    }
    Ok(None)
}
