//! A record's rows by id and by name.
ghost use Rattle.std.specs.Prelude.{◌≡◌, [], filter, IfOk};
ghost use Rattle.csi_controller.specs.Public.Core.{AreSoundRows, AreRisingRows, IsCurrent};
ghost use Rattle.csi_controller.specs.Public.WithoutSession.{stays_in};
ghost use Rattle.csi_controller.specs.Public.Views.{AreSameRows};
ghost use Rattle.csi_controller.specs.Public.Catalog.{IsIndexed};
ghost use Rattle.csi_controller.specs.Public.Plan.{AreControllerRows};

use crate::controller::counts::counted;
use crate::names::{forget_names, names_of, stays};
use crate::row::ControllerRow;
use crate::table::ControllerTable;
use csi_fence::{CoreFault, Rows};
use csi_types::{Config, VolumeId};
use indexmap::IndexMap;
use std::alloc::Global;

/// The rows by rising id, and the id of each name, in the order of the rows.
pub struct Catalog {
    pub rows: Vec<ControllerRow>,
    pub ids: IndexMap<String, VolumeId>,
}

impl Drop for Catalog {
    fn drop(self) {
        let Catalog { rows: _, ids: _ } = self;
    }
}

// The same rows again.
fn copied_rows(alloc: Global, rows: &[ControllerRow]) -> Result<Vec<ControllerRow>, CoreFault>
    ensures { IfOk result (λ copies. AreSameRows rows.now copies.items) }
{
    let mut copies = Vec::new(alloc);
    for row in rows {
        let copy = row.clone()?;
        copies.push(copy)?;
    }
    Ok(copies)
}

impl Catalog {
    /// No rows. It takes no memory.
    pub fn new(alloc: Global) -> Catalog
        ensures rows { result.rows.items ≡ [] }
        ensures indexed { IsIndexed result }
    {
        Catalog {
            rows: Vec::new(alloc),
            ids: IndexMap::new(alloc),
        }
    }

    /// The catalog of these rows.
    pub fn of_rows(
        alloc: Global,
        next_id: u64,
        rows: Vec<ControllerRow>,
    ) -> Result<Catalog, CoreFault>
        requires { AreSoundRows next_id rows.items }
        ensures rows { IfOk result (λ catalog. catalog.rows.items ≡ rows.items) }
        ensures indexed { IfOk result IsIndexed }
    {
        match names_of(alloc, next_id, rows.as_slice()) {
            Ok(ids) => Ok(Catalog { rows, ids }),
            Err(fault) => Err(fault),
        }
    }

    /// The catalog of copies of these rows.
    pub fn copied(alloc: Global, next_id: u64, rows: &[ControllerRow]) -> Result<Catalog, CoreFault>
        requires { AreSoundRows next_id rows.now }
        ensures rows { IfOk result (λ copy. AreSameRows rows.now copy.rows.items) }
        ensures indexed { IfOk result IsIndexed }
    {
        let copies = copied_rows(alloc, rows)?;
        Catalog::of_rows(alloc, next_id, copies)
    }

    /// Forgets the volumes that were deleted and whose last calls are of other sessions than this one. The other rows keep their
    /// order. It takes no memory.
    pub fn forget(&mut self, session: u64)
        requires indexed { IsIndexed self.old }
        requires rising { AreRisingRows self.old.rows.items }
        ensures rows { self.new.rows.items ≡ filter (stays_in session) self.old.rows.items }
        ensures indexed { IsIndexed self.new }
    {
        forget_names(&mut self.ids, self.rows.as_slice(), session);
        self.rows.retain(|row| stays(row, session));
    }
    /// The rows, as a controller of this configuration keeps them. It takes no memory.
    pub fn into_rows(
        self,
        alloc: Global,
        config: Config,
        next_id: u64,
        session: u64,
    ) -> Rows<ControllerTable>
        requires sound { AreSoundRows next_id self.rows.items }
        requires current { IsCurrent session self.rows.items }
        requires indexed { IsIndexed self }
        ensures config { result.table.config ≡ config }
        ensures next_id { result.table.next_id ≡ next_id }
        ensures session { result.session ≡ session }
        ensures rows { result.rows.items ≡ self.rows.items }
        ensures kept { AreControllerRows result.table result.session result.rows.items result.empty }
    {
        let Catalog { rows, ids } = self;
        config.fit_law();
        let counts = counted(config.nodes(), rows.as_slice());
        let table = ControllerTable {
            config,
            next_id,
            ids,
            counts,
        };
        Rows::new(alloc, session, rows, table)
    }
}
