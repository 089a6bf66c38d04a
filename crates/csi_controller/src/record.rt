//! A controller's record.
ghost use Rattle.std.specs.Prelude.{◌≡◌, List, filter, IfOk, IfErr, OnOk};
ghost use Rattle.csi_controller.specs.Public.WithoutSession.{latest_session as latest};

use crate::catalog::Catalog;
use crate::judging::{first_refused, first_unfit};
use crate::row::ControllerRow;
use csi_fence::{CoreFault, RecordFault};
use csi_types::NoMemory;
use std::alloc::Global;
use std::marker::Model;

/// All that a controller has to keep (this profile's own): the next id, 0 once all were given, the greatest session of which a call
/// came, and its rows by rising id. It is what `Controller::record` gives, or is made of rows by `ControllerRecord::try_new`, and by
/// `ControllerRecord::without_session` of those that were kept without a session.
#[derive(Drop)]
pub struct ControllerRecord {
    next_id: u64,
    session: u64,
    catalog: Catalog,
}

// The greatest session of a last call, 0 where there is no row.
fn latest_session(rows: &[ControllerRow]) -> u64
    ensures { result ≡ latest rows.now }
{
    let mut session = 0;
    for row in rows {
        session = session.max(row.last.session);
    }
    session
}

impl Model for ControllerRecord {
    ghost use Rattle.csi_controller.specs.Public.Core.{AreSoundRows, IsCurrent};
    ghost use Rattle.csi_controller.specs.Public.Catalog.{IsIndexed};
    ghost use Rattle.csi_controller.specs.Public.Views.{RecordParts};

    ghost Value = { RecordParts };

    ghost view = { λ record_. record { next_id = record_.next_id; session = record_.session; rows = record_.catalog.rows.items } };

    ghost invariant = { λ record_. AreSoundRows record_.next_id record_.catalog.rows.items ×
        IsCurrent record_.session record_.catalog.rows.items × IsIndexed record_.catalog };
}

impl ControllerRecord {
    ghost use Rattle.csi_controller.specs.Public.Catalog.{IsIndexed};
    ghost use Rattle.csi_controller.specs.Public.Core.{AreSoundRows, IsCurrent};
    ghost use Rattle.csi_controller.specs.declared.row.ControllerRow.{ControllerRow as OneRow};
    ghost use Rattle.csi_controller.specs.Public.Judging.{AreRecorded, IsRecordRefusal};
    ghost use Rattle.csi_controller.specs.Public.WithoutSession.{stays_in, without_session as kept_without};
    ghost use Rattle.csi_controller.specs.Public.Views.{AreSameRows};

    // The record of this catalog.
    pub(crate) fn new(next_id: u64, session: u64, catalog: Catalog) -> ControllerRecord
        requires sound { AreSoundRows next_id catalog.rows.items }
        requires current { IsCurrent session catalog.rows.items }
        requires indexed { IsIndexed catalog }
        ensures { result ≡ record { next_id = next_id; session = session; rows = catalog.rows.items } }
    {
        ControllerRecord {
            next_id,
            session,
            catalog,
        }
    }

    /// The record of these rows, which stand by rising id, with this next id, 0 for all that were given, and this session (this
    /// profile's own). It is refused with `BadRow` at the first row that no record has there: its id isn't above the one before it, or
    /// isn't below the next id; its capacity is 0 or above 2^63 - 1; it has no capability; its name stands in an earlier row; it was
    /// deleted and has holdings, or has more than 64; two of its holdings name one node or can't be held together, or one is in
    /// a capability that the row lacks; its kept reply isn't one of a controller; its last call is of a later session, or it was
    /// deleted and its last call is of an earlier one; or 4,096 rows stand before it. It is refused with `NoMemory` where an allocation
    /// was: it takes memory for the maps of ids and names. Copies of a record's rows are a record's.
    pub fn try_new(
        alloc: Global,
        next_id: u64,
        rows: Vec<ControllerRow>,
        session: u64,
    ) -> Result<ControllerRecord, RecordFault>
        ensures value { IfOk result (λ made. made ≡ record { next_id = next_id; session = session; rows = rows.items }) }
        ensures sound { OnOk result (AreSoundRows next_id rows.items) }
        ensures current { OnOk result (IsCurrent session rows.items) }
        ensures refused { IfErr result (IsRecordRefusal (AreRecorded next_id session) rows.items) }
        ensures accepted { AreRecorded next_id session rows.items → IfErr result (λ fault. fault ≡ RecordFault.NoMemory) }
        ensures copies { (kept : List OneRow) → AreRecorded next_id session kept → AreSameRows kept rows.items →
            IfErr result (λ fault. fault ≡ RecordFault.NoMemory) }
    {
        match first_unfit(alloc, next_id, session, rows.as_slice()) {
            Ok(None) => match Catalog::of_rows(alloc, next_id, rows) {
                Ok(catalog) => Ok(ControllerRecord {
                    next_id,
                    session,
                    catalog,
                }),
                Err(CoreFault::NoMemory) => Err(RecordFault::NoMemory),
            },
            Ok(Some(place)) => Err(RecordFault::BadRow(place)),
            Err(NoMemory) => Err(RecordFault::NoMemory),
        }
    }

    /// The record of rows that were kept without a session, as `try_new` makes it, by the rules that ask for none (this profile's own). Its
    /// session is the greatest of all their last calls, 0 where there is no row, and the rows of deleted volumes whose last calls are of
    /// earlier sessions are left out.
    pub fn without_session(
        alloc: Global,
        next_id: u64,
        rows: Vec<ControllerRow>,
    ) -> Result<ControllerRecord, RecordFault>
        ensures value { IfOk result (λ made. made ≡ kept_without next_id rows.items) }
        ensures sound { OnOk result (AreSoundRows next_id rows.items) }
        ensures current { IfOk result (λ made. IsCurrent made.session made.rows) }
        ensures refused { IfErr result (IsRecordRefusal (AreSoundRows next_id) rows.items) }
        ensures accepted { AreSoundRows next_id rows.items → IfErr result (λ fault. fault ≡ RecordFault.NoMemory) }
        ensures copies { (kept : List OneRow) → AreSoundRows next_id kept → AreSameRows kept rows.items → IfErr result (λ fault. fault ≡ RecordFault.NoMemory) }
    {
        match first_refused(alloc, next_id, rows.as_slice()) {
            Ok(None) => {
                let session = latest_session(rows.as_slice());
                match Catalog::of_rows(alloc, next_id, rows) {
                    Ok(catalog) => Ok(ControllerRecord::of_session(next_id, session, catalog)),
                    Err(CoreFault::NoMemory) => Err(RecordFault::NoMemory),
                }
            }
            Ok(Some(place)) => Err(RecordFault::BadRow(place)),
            Err(NoMemory) => Err(RecordFault::NoMemory),
        }
    }

    // The record of what stays of this catalog in a session that none of its rows is after.
    fn of_session(next_id: u64, session: u64, mut catalog: Catalog) -> ControllerRecord
        requires sound { AreSoundRows next_id catalog.rows.items }
        requires latest { session ≡ latest catalog.rows.items }
        requires indexed { IsIndexed catalog }
        ensures { result ≡ record { next_id = next_id; session = session; rows = filter (stays_in session) catalog.rows.items } }
    {
        catalog.forget(session);
        ControllerRecord::new(next_id, session, catalog)
    }

    /// The next id, 0 once all were given.
    pub fn next_id(&self) -> u64
        ensures { result ≡ self.now.next_id }
    {
        self.next_id
    }

    /// The greatest session of which a call came, 0 before any did. It takes no memory.
    pub fn session(&self) -> u64
        ensures { result ≡ self.now.session }
    {
        self.session
    }

    /// The rows by rising id.
    pub fn rows(&self) -> &[ControllerRow]
        ensures value { result.now ≡ self.now.rows }
        ensures sound { AreSoundRows self.now.next_id self.now.rows }
        ensures current { IsCurrent self.now.session self.now.rows }
    {
        self.catalog.rows.as_slice()
    }

    // The rows by id and by name.
    pub(crate) fn into_catalog(self) -> Catalog
        ensures value { result.rows.items ≡ self.rows }
        ensures sound { AreSoundRows self.next_id self.rows }
        ensures indexed { IsIndexed result }
    {
        let ControllerRecord {
            next_id: _,
            session: _,
            catalog,
        } = self;
        catalog
    }
}
