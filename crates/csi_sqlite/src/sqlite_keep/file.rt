//! A store in a file.
ghost use Rattle.std.specs.Prelude.{◌≡◌, ◌⊎◌, List, [], codes, IsTrue, IsErr, IfOk, IfErr, OnOk};
ghost use Rattle.sqlite_wal.specs.Files.{image_at};
ghost use Rattle.sqlite_trees.specs.Tree.{Trees};
ghost use Rattle.sqlite_trees.specs.View.{IsClean};
ghost use Rattle.sqlite_store.specs.FileStore.{view, recovers};
ghost use Rattle.sqlite.specs.Held.{state};
ghost use Rattle.sqlite.specs.State.{HasCleanDisk};
ghost use Rattle.sqlite.specs.Files.{over_files, file_state, FailsToClose};
ghost use Rattle.csi_stores.specs.Public.Part.{StoredPart};
ghost use Rattle.csi_sqlite.specs.Public.Opening.{IsNotKept, IsOpenedOver};
ghost use Rattle.csi_sqlite.specs.Public.Rows.{IsBlank};
ghost use Rattle.csi_sqlite.specs.Public.Tables.{StoresParts, HoldsParts, OpensOver};
ghost use Rattle.csi_sqlite.specs.Public.Refusals.{IsToldFault};
ghost use Rattle.csi_sqlite.specs.Public.Closing.{PutsBack, IsPutBack, IsNotPutBack};

use crate::rows::has_table;
use crate::sqlite_keep::found::look_at;
use crate::sqlite_keep::{SqliteKeep, is_memory, told};
use csi_stores::KeepFault;
use sqlite::{Alter, Connection, FileFrom, FileStore, Files, Start, Unknown};
use sqlite_disk::Disk;
use std::alloc::Global;

// The store in this database, in which the table `parts` is made where nothing is listed, unless it has to be there; then the database
// is as it was. At a refusal the database is closed.
fn kept<S: Alter + Drop>(
    alloc: Global,
    connection: Connection<S>,
    has_to_be_there: bool,
) -> Result<SqliteKeep<S>, KeepFault>
    ensures found { IfOk result (λ keep. OpensOver (state S.Store connection) (state S.Store keep.connection)
        × (HasCleanDisk (state S.Store keep.connection) → (content : List StoredPart) → IsTrue (state S.Store connection).is_open →
        StoresParts (state S.Store connection).now.trees content → HoldsParts (state S.Store keep.connection) content)
        × (HasCleanDisk (state S.Store keep.connection) → IsBlank (state S.Store connection) → HoldsParts (state S.Store keep.connection) [])) }
    ensures there { IsTrue has_to_be_there → IfOk result (λ keep. keep.connection ≡ connection) }
    ensures faults { IfOk result (λ keep. keep.faults ≡ 0) }
    ensures cause { IfErr result (λ fault. (fault ≡ KeepFault.Device) ⊎ (fault ≡ KeepFault.NoMemory)) }
    ensures told { IfErr result (IsNotKept S.Store connection) }
{
    if has_to_be_there && !has_table(&connection) {
        return Err(KeepFault::Device);
    }
    match SqliteKeep::new(alloc, connection) {
        Ok(keep) => Ok(keep),
        Err((fault, _connection)) => Err(fault),
    }
}

/// The same of a database in files: what has to be known of such a database is known here once.
pub(crate) fn kept_files<D: Disk + Drop>(
    alloc: Global,
    connection: Connection<FileStore<D>>,
    has_to_be_there: bool,
) -> Result<SqliteKeep<FileStore<D>>, KeepFault>
    ensures found { IfOk result (λ keep. OpensOver (file_state connection) (file_state keep.connection)
        × (HasCleanDisk (file_state keep.connection) → (content : List StoredPart) → IsTrue (file_state connection).is_open →
        StoresParts (file_state connection).now.trees content → HoldsParts (file_state keep.connection) content)
        × (HasCleanDisk (file_state keep.connection) → IsBlank (file_state connection) → HoldsParts (file_state keep.connection) [])) }
    ensures there { IsTrue has_to_be_there → IfOk result (λ keep. keep.connection ≡ connection) }
    ensures faults { IfOk result (λ keep. keep.faults ≡ 0) }
    ensures cause { IfErr result (λ fault. (fault ≡ KeepFault.Device) ⊎ (fault ≡ KeepFault.NoMemory)) }
    ensures told { IfErr result (IsNotKept over_files connection) }
{
    kept(alloc, connection, has_to_be_there)
}

impl<S: Start> SqliteKeep<FileStore<FileFrom<S>>> {
    /// The store in the SQLite file at this path, which is made where there is none, as is the table `parts`. `S` stands for what the
    /// file and its log held, and for how a crash is read. It has no part where the file was new, or empty. `Device` stands for all refusals
    /// but out of memory: the path can't be opened, another process has the file, or it is no database that may be a store. Such a file is
    /// left as it is, as is what lies beside it: both are looked at in copies first. `:memory:` names no file.
    pub fn open_file(
        rt: &HostRuntime,
        path: &str,
        start: S,
    ) -> Result<SqliteKeep<FileStore<FileFrom<S>>>, KeepFault>
        ensures found { IfOk result (λ keep. HasCleanDisk (file_state keep.connection) → IsOpenedOver (image_at S.Start) (file_state keep.connection)) }
        ensures blank { IfOk result (λ keep. HasCleanDisk (file_state keep.connection) → (image_at S.Start).db ≡ [] →
            HoldsParts (file_state keep.connection) []) }
        ensures memory { path.now ≡ codes ":memory:" → IsErr result }
        ensures faults { IfOk result (λ keep. keep.faults ≡ 0) }
        ensures cause { IfErr result (λ fault. (fault ≡ KeepFault.Device) ⊎ (fault ≡ KeepFault.NoMemory)) }
    {
        look_at(rt, path)?;
        let connection = match Connection::open_from(rt, path, false, start) {
            Ok(connection) => connection,
            Err((error, _left)) => return Err(told(&error)),
        };
        kept_files(rt.alloc(), connection, false)
    }
}

impl<D: Disk + Drop> SqliteKeep<FileStore<D>> {
    /// Puts the log back into the database file, and gives the two files back: then that file alone has the parts, also after a
    /// crash. Where a device fails, or memory is wanted, the store under the connection comes back: the parts are in the file and
    /// its log, as they were.
    pub fn close_files(self) -> Result<Files<D>, (KeepFault, FileStore<D>)>
        ensures whole { IfOk result (PutsBack self.connection) }
        ensures left { IfErr result (λ refusal. (db : Trees) → recovers refusal.1 db → (file_state self.connection).may_leave db) }
        ensures told { IfErr result (λ refusal. IsClean (view refusal.1) → IsToldFault (FailsToClose self.connection refusal.1) refusal.0) }
    {
        let SqliteKeep {
            alloc: _,
            connection: back,
            faults: _,
        } = self;
        match back.close_files() {
            Ok(files) => Ok(files),
            Err((error, store)) if is_memory(&error) => Err((KeepFault::NoMemory, store)),
            Err((_, store)) => Err((KeepFault::Device, store)),
        }
    }

    /// The same, and the files are closed. Where the log couldn't be put back, every commit is in the one or in the two.
    pub fn close(self) -> Result<(), KeepFault>
        ensures whole { OnOk result (IsPutBack self.connection) }
        ensures told { IfErr result (IsNotPutBack self.connection) }
    {
        match self.close_files() {
            Ok(_files) => Ok(()),
            Err((fault, _store)) => Err(fault),
        }
    }
}

/// Closes a store in a file of which nothing is supposed, as `SqliteKeep::close` does. A program that closes its store by this function
/// proves nothing of how files are dropped.
pub fn close_file(keep: SqliteKeep<FileStore<FileFrom<Unknown>>>) -> Result<(), KeepFault>
    ensures whole { OnOk result (IsPutBack keep.connection) }
    ensures told { IfErr result (IsNotPutBack keep.connection) }
{
    keep.close()
}
