//! Volumes of an orchestrator in the order of their names.
ghost use Rattle.std.specs.Prelude.{◌≡◌, map, IfOk};
ghost use Rattle.csi_orchestrator.specs.Public.Shown.{row_shown};
ghost use Rattle.csi_reports.specs.Public.ByName.{creating_names, name_place, row_place, wanted_names};
ghost use Rattle.csi_reports.specs.Public.Order.{IsInPlace};

use crate::order::{Placed, put_in_place};
use csi_orchestrator::Row;
use csi_types::Name;
use std::alloc::{AllocError, Global};
use std::cmp::Ordering;

impl Placed for &Row {
    ghost place = { λ row. name_place row.now.name };

    #[tactic(auto, using(crate::proofs::Places::name_places))]
    fn compare(&self, other: &&Row) -> Ordering {
        self.name.as_str().cmp(other.name.as_str())
    }
}

impl Placed for &Name {
    ghost place = { λ name. name_place name.now };

    #[tactic(auto, using(crate::proofs::Places::name_places))]
    fn compare(&self, other: &&Name) -> Ordering {
        self.as_str().cmp(other.as_str())
    }
}

// The rows, as they stand.
fn lent_rows(alloc: Global, rows: &[Row]) -> Result<Vec<&Row>, AllocError>
    ensures { IfOk result (λ lent. map (λ row. row.now) lent.items ≡ rows.now) }
{
    let mut lent = Vec::new(alloc);
    for row in rows {
        lent.push(row)?;
    }
    Ok(lent)
}

// The names of which something is wanted, as their rows stand.
fn lent_names(alloc: Global, rows: &[Row]) -> Result<Vec<&Name>, AllocError>
    ensures { IfOk result (λ lent. map (λ name. name.now) lent.items ≡ wanted_names (map row_shown rows.now)) }
{
    let mut lent = Vec::new(alloc);
    for row in rows {
        if row.goal.is_some() {
            lent.push(&row.name)?;
        }
    }
    Ok(lent)
}

// The names of which no id is known, as their rows stand.
fn lent_creating(alloc: Global, rows: &[Row]) -> Result<Vec<&Name>, AllocError>
    ensures { IfOk result (λ lent. map (λ name. name.now) lent.items ≡ creating_names (map row_shown rows.now)) }
{
    let mut lent = Vec::new(alloc);
    for row in rows {
        if row.id.is_none() {
            lent.push(&row.name)?;
        }
    }
    Ok(lent)
}

/// The rows by name.
pub(crate) fn rows_by_name(alloc: Global, rows: &[Row]) -> Result<Vec<&Row>, AllocError>
    ensures { IfOk result (λ lent. IsInPlace row_place (map row_shown rows.now) (map (λ row. row_shown row.now) lent.items)) }
{
    let mut lent = lent_rows(alloc, rows)?;
    put_in_place(&mut lent);
    Ok(lent)
}

/// The names of which something is wanted, in order.
pub(crate) fn wanted_by_name(alloc: Global, rows: &[Row]) -> Result<Vec<&Name>, AllocError>
    ensures { IfOk result (λ lent. IsInPlace name_place (wanted_names (map row_shown rows.now)) (map (λ name. name.now) lent.items)) }
{
    let mut lent = lent_names(alloc, rows)?;
    put_in_place(&mut lent);
    Ok(lent)
}

/// The names of which no id is known, in order.
pub(crate) fn creating_by_name(alloc: Global, rows: &[Row]) -> Result<Vec<&Name>, AllocError>
    ensures { IfOk result (λ lent. IsInPlace name_place (creating_names (map row_shown rows.now)) (map (λ name. name.now) lent.items)) }
{
    let mut lent = lent_creating(alloc, rows)?;
    put_in_place(&mut lent);
    Ok(lent)
}
