//! Which of the rows that a record is to be made of is the first that no record has there.
ghost use Rattle.std.specs.Prelude.{◌≡◌, ◌||◌, ℕ, List, not, IfOk, OnOk, MatchOption};
ghost use Rattle.std.specs.BTreeSet.{contains_by};
ghost use Rattle.std.specs.Cmp.Lexicographic.{slice_cmp};
ghost use Rattle.std.specs.Ordering.{nat_cmp};
ghost use Rattle.csi_types.specs.Model.Same.{same_text};
ghost use Rattle.csi_controller.specs.Public.Core.{AreSoundRows, IsCurrent};
ghost use Rattle.csi_controller.specs.Public.Judging.{AreRecorded, IsFirstRefused};
ghost use Rattle.csi_controller.specs.Private.Judging.{earlier_of, may_follow as is_fit_after};

use crate::names::stays;
use crate::row::ControllerRow;
use crate::sound_row::is_sound_row;
use csi_types::{MAX_ROWS, NoMemory};
use std::alloc::Global;
use std::collections::BTreeSet;

// Whether the row may follow so many others, the last of which has this id, whatever their names are.
fn may_follow(next_id: u64, count: usize, last: u64, row: &ControllerRow) -> bool
    ensures { result ≡ is_fit_after next_id count last row.now }
{
    count < MAX_ROWS && last < row.id.number() && is_sound_row(next_id, row)
}

// Adds a name, and says whether it is new.
fn add_name<'a>(names: &mut BTreeSet<&'a str>, name: &'a str) -> Result<bool, NoMemory>
    ensures is_new { IfOk result (λ is_new. is_new ≡ not (contains_by (λ known. slice_cmp nat_cmp name.now known.now) names.old)) }
    ensures names { OnOk result ((other : List ℕ) → contains_by (λ known. slice_cmp nat_cmp other known.now) names.new
        ≡ (same_text name.now other || contains_by (λ known. slice_cmp nat_cmp other known.now) names.old)) }
{
    match names.insert(name) {
        Ok(is_new) => Ok(is_new),
        Err(_) => Err(NoMemory),
    }
}

/// The place, counted from 1, of the first row that no record with this next id has there, whatever its session is; `None` where
/// all these rows are a record's. The names are kept in order, so that each row is compared with few others.
pub(crate) fn first_refused(
    alloc: Global,
    next_id: u64,
    rows: &[ControllerRow],
) -> Result<Option<u64>, NoMemory>
    ensures { IfOk result (λ found. MatchOption found (AreSoundRows next_id rows.now) (IsFirstRefused (AreSoundRows next_id) rows.now)) }
{
    let mut names = BTreeSet::new(alloc);
    let mut last = 0;
    for (index, row) in rows.iter().enumerate() {
        let id = row.id.number();
        let place = index as u64 + 1;
        if !may_follow(next_id, index, last, row) {
            return Ok(Some(place));
        }
        if !add_name(&mut names, row.name.as_str())? {
            return Ok(Some(place));
        }
        last = id;
    }
    Ok(None)
}

// The place, counted from 1, of the first row that isn't one of this session: its last call is of a later one, or its volume was
// deleted and its last call is of an earlier one.
fn first_not_current(session: u64, rows: &[ControllerRow]) -> Option<u64>
    ensures { MatchOption result (IsCurrent session rows.now) (IsFirstRefused (IsCurrent session) rows.now) }
{
    for (index, row) in rows.iter().enumerate() {
        let is_current = row.last.session <= session && stays(row, session);
        if !is_current {
            return Some(index as u64 + 1);
        }
    }
    None
}

// The earlier of two places, of which neither, one or both may be there.
fn earlier(first: Option<u64>, second: Option<u64>) -> Option<u64>
    ensures { result ≡ earlier_of first second }
{
    match (first, second) {
        (Some(first), Some(second)) => {
            if first <= second {
                Some(first)
            } else {
                Some(second)
            }
        }
        (Some(first), None) => Some(first),
        (None, second) => second,
    }
}

/// The place, counted from 1, of the first row that no record with this next id and this session has there; `None` where all these
/// rows are a record's.
pub(crate) fn first_unfit(
    alloc: Global,
    next_id: u64,
    session: u64,
    rows: &[ControllerRow],
) -> Result<Option<u64>, NoMemory>
    ensures { IfOk result (λ found. MatchOption found (AreRecorded next_id session rows.now) (IsFirstRefused (AreRecorded next_id session) rows.now)) }
{
    let found = first_refused(alloc, next_id, rows)?;
    Ok(earlier(found, first_not_current(session, rows)))
}
