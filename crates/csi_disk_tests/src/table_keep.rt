//! A store in SQLite, in memory.
use csi_sqlite::SqliteKeep;
use csi_stores::{Keep, KeepFault, Part};
use sqlite::{Connection, MemStore};
use std::alloc::Global;

/// A store in SQLite over a database in memory.
pub struct TableKeep {
    alloc: Global,
    inner: SqliteKeep<MemStore>,
}

impl Drop for TableKeep {
    fn drop(self) {
        let TableKeep { alloc: _, inner: _ } = self;
    }
}

// The store in this database, which is dropped where there is none.
fn over(alloc: Global, connection: Connection<MemStore>) -> Result<TableKeep, KeepFault> {
    match SqliteKeep::new(alloc, connection) {
        Ok(inner) => Ok(TableKeep { alloc, inner }),
        Err((fault, _connection)) => Err(fault),
    }
}

impl TableKeep {
    /// A store in a new database, in which these statements are done first, and whose later ones may take so many steps.
    pub fn made_by(
        alloc: Global,
        statements: &str,
        steps: Option<u64>,
    ) -> Result<TableKeep, KeepFault> {
        let Ok(mut connection) = Connection::open_in_memory(alloc) else {
            return Err(KeepFault::NoMemory);
        };
        if connection.execute_batch(statements).is_err() {
            return Err(KeepFault::Device);
        }
        connection.set_step_limit(steps);
        over(alloc, connection)
    }

    /// The same store in its database, taken anew.
    pub fn taken_anew(self) -> Result<TableKeep, KeepFault> {
        let TableKeep { alloc, inner } = self;
        over(alloc, inner.into_connection())
    }
}

impl Keep for TableKeep {
    ghost use Rattle.csi_disk_tests.specs.Public.Unpromised.{unpromised};

    ghost store = { λ keep. unpromised keep.inner.faults };

    fn load(&mut self) -> Result<Vec<Part>, KeepFault> {
        self.inner.load()
    }

    fn commit(&mut self, parts: &[Part]) -> Result<(), KeepFault> {
        self.inner.commit(parts)
    }

    fn faults(&self) -> u64 {
        self.inner.faults()
    }
}
