//! A store in a SQLite database.
ghost use Rattle.std.specs.Prelude.{◌≡◌, ◌≤◌, ◌⊎◌, ◌↔◌, ℕ, List, [], map, false, IsTrue, IfOk, IfErr, IsOk, IsErrAnd, OnOk, OnErr};
ghost use Rattle.sqlite.specs.Held.{Held, state};
ghost use Rattle.sqlite.specs.State.{HasCleanDisk};
ghost use Rattle.sqlite.specs.Order.{Row};
ghost use Rattle.sqlite.specs.Tree.{Trees};
ghost use Rattle.sqlite_wal.specs.Recovery.{Image};
ghost use Rattle.csi_sqlite.specs.Public.Declared.{parts_schema};
ghost use Rattle.csi_sqlite.specs.Public.Listed.{ListsOther};
ghost use Rattle.csi_sqlite.specs.Public.Rows.{IsBlank, HasColumns};
ghost use Rattle.csi_stores.specs.Public.Part.{StoredPart, part_change, put_all};
ghost use Rattle.csi_stores.specs.Public.Content.{all_changed};
ghost use Rattle.csi_stores.specs.Public.Keeping.{RefusesAt};
ghost use Rattle.csi_stores.specs.Public.Stores.{Found, IsOnly, IsSettled, FindsSome, IsLoadFault, CommitsChanges};
ghost use Rattle.csi_stores.specs.Public.Stores.Found.{Parts};
ghost use Rattle.csi_sqlite.specs.Public.Statements.{RefusesToMake};
ghost use Rattle.csi_sqlite.specs.Public.Kept.{sqlite_store};
ghost use Rattle.csi_sqlite.specs.Public.Opening.{FindsLeft, IsOpenedOver};
ghost use Rattle.csi_sqlite.specs.Public.Refusals.{IsToldFault, IsNotLoaded, RefusesChanges};
ghost use Rattle.csi_sqlite.specs.Public.Running.{ChangesAtOnce};
ghost use Rattle.csi_sqlite.specs.Public.Loading.{IsLoaded, IsForeign, LeavesFound};
ghost use Rattle.csi_sqlite.specs.Public.Tables.{StoresParts, HoldsParts, OpensOver, CountsFault, CountsOnce};
ghost use Rattle.csi_sqlite.specs.Private.Tables.{IsCounted};

use crate::rows::{all_rows, make_table};
use csi_stores::{Keep, KeepFault, Part};
use sqlite::{Alter, Connection, Error, ErrorCode};
use std::alloc::Global;

mod changing;
mod file;
mod found;
mod half_made;
mod over;
mod reading;

use changing::change_at_once;
pub use file::close_file;
pub use found::{close_found, copies, find_at};
pub use half_made::{BEGUN_LOG, is_half_made};
pub use over::{OverStore, OverStores, over_file, over_files_at, over_found};
use reading::parts_of;

/// A store in a SQLite database: a part is a row of the table `parts`, its key in eight bytes, the greatest first. A commit is
/// one transaction, and costs what it changes. It never answers `Full`. This profile's own.
///
/// Its promises hold while the disk gives back what was written and nobody else writes the database. A database with another table,
/// index, view or trigger is refused, and so is one whose table `parts` isn't declared as the one that `new` makes.
pub struct SqliteKeep<S: Alter> {
    alloc: Global,
    connection: Connection<S>,
    faults: u64,
}

impl<S: Alter + Drop> Drop for SqliteKeep<S> {
    fn drop(self) {
        let SqliteKeep {
            alloc: _,
            connection: _,
            faults: _,
        } = self;
    }
}

// Whether an allocation was refused.
fn is_memory(error: &Error) -> bool
    ensures { IsTrue result ↔ (error.now ≡ Error.SqliteFailure ErrorCode.OutOfMemory) }
{
    matches!(error, Error::SqliteFailure(ErrorCode::OutOfMemory))
}

// What an error at opening is to the keeper: out of memory, or a failing device.
fn told(error: &Error) -> KeepFault
    ensures memory { (result ≡ KeepFault.NoMemory) ↔ (error.now ≡ Error.SqliteFailure ErrorCode.OutOfMemory) }
    ensures cause { (result ≡ KeepFault.Device) ⊎ (result ≡ KeepFault.NoMemory) }
{
    if is_memory(error) {
        KeepFault::NoMemory
    } else {
        KeepFault::Device
    }
}

// What a refusal is to the keeper; all but out of memory is a failure, and counted. A count of 2^64 - 1 stays.
fn refused(faults: &mut u64, error: &Error) -> KeepFault
    ensures counted { IsCounted faults.old faults.new result }
    ensures once { CountsFault faults.old faults.new result }
    ensures memory { (result ≡ KeepFault.NoMemory) ↔ (error.now ≡ Error.SqliteFailure ErrorCode.OutOfMemory) }
    ensures rises { faults.old ≤ faults.new }
{
    if is_memory(error) {
        return KeepFault::NoMemory;
    }
    *faults = faults.saturating_add(1);
    KeepFault::Device
}

impl<S: Alter> SqliteKeep<S> {
    /// A store in this database, in which the table `parts` is made where nothing is listed. A database that lists that table as it is
    /// declared, alone, is taken as it is, and one that lists anything else is refused, as it is. At a refusal the connection comes back:
    /// `Device` stands for all but out of memory, as for a transaction that is open; where none is open, and nothing else is listed, it
    /// is what SQLite answers to the statement that makes the table.
    pub fn new(
        alloc: Global,
        mut connection: Connection<S>,
    ) -> Result<SqliteKeep<S>, (KeepFault, Connection<S>)>
        ensures blank { IfOk result (λ keep. HasCleanDisk (state S.Store keep.connection) → IsBlank (state S.Store connection) →
            HoldsParts (state S.Store keep.connection) []) }
        ensures found { IfOk result (λ keep. HasCleanDisk (state S.Store keep.connection) → (content : List StoredPart) →
            IsTrue (state S.Store connection).is_open → StoresParts (state S.Store connection).now.trees content →
            HoldsParts (state S.Store keep.connection) content) }
        ensures there { IfOk result (λ keep. (state S.Store connection).now.schema ≡ parts_schema → keep.connection ≡ connection) }
        ensures other { ListsOther (state S.Store connection).now.schema →
            IsErrAnd result (λ refusal. (refusal.0 ≡ KeepFault.Device) × (refusal.1 ≡ connection)) }
        ensures left { IfOk result (λ keep. OpensOver (state S.Store connection) (state S.Store keep.connection)) }
        ensures faults { IfOk result (λ keep. keep.faults ≡ 0) }
        ensures back { IfErr result (λ refusal. OpensOver (state S.Store connection) (state S.Store refusal.1)) }
        ensures cause { IfErr result (λ refusal. (refusal.0 ≡ KeepFault.Device) ⊎ (refusal.0 ≡ KeepFault.NoMemory)) }
        ensures device { IfErr result (λ refusal. HasCleanDisk (state S.Store refusal.1) → (state S.Store connection).in_transaction ≡ false →
            ¬ ListsOther (state S.Store connection).now.schema → IsToldFault (RefusesToMake (state S.Store connection) (state S.Store refusal.1)) refusal.0) }
        ensures opens { (state S.Store connection).in_transaction ≡ false → (state S.Store connection).now.schema ≡ parts_schema → IsOk result }
    {
        if !connection.is_autocommit() {
            return Err((KeepFault::Device, connection));
        }
        match make_table(&mut connection) {
            Ok(()) => Ok(SqliteKeep {
                alloc,
                connection,
                faults: 0,
            }),
            Err(error) if is_memory(&error) => Err((KeepFault::NoMemory, connection)),
            Err(_) => Err((KeepFault::Device, connection)),
        }
    }

    /// A law, and nothing that runs: the parts that a store has are all that opening it again may find.
    pub fn settled_law()
        ensures { (connection : Held S) (faults : ℕ) → IsSettled (sqlite_store (state S.Store connection) faults) }
    {}

    /// A law, and nothing that runs, of two stores in one file, each opened by a process of its own and so of its own kind: where the second
    /// one's files hold a database that the first may have left, which has these parts (`FindsLeft`; that is what the file system does
    /// between the two, and asked of it), and the second was opened over what its files hold (`open_file`, `found`), it has these parts alone.
    pub fn reopened_law<T: Alter>()
        ensures { (left : Held S) (now : Held T) (faults rises : ℕ) (image : Image) (content : List StoredPart) →
            FindsLeft (state S.Store left) image (Parts content) → IsOpenedOver image (state T.Store now) →
            (sqlite_store (state S.Store left) faults).leaves (Parts content)
            × (HasCleanDisk (state T.Store now) → IsOnly (sqlite_store (state T.Store now) rises) (Parts content)) }
    {
        SqliteKeep::<T>::settled_law();
    }

    /// The connection. It takes no memory.
    pub fn into_connection(self) -> Connection<S>
        ensures { result ≡ self.connection }
    {
        let SqliteKeep {
            alloc: _,
            connection: back,
            faults: _,
        } = self;
        back
    }
}

impl<S: Alter> Keep for SqliteKeep<S> {
    ghost store = { λ keep. sqlite_store (state S.Store keep.connection) keep.faults };

    /// All parts, by rising key, where the table is as declared and each of its rows is a part. A row that is none is `BadRecord`,
    /// with the position, from 0, of the first such row in SQLite's order of keys. Nothing is written: whatever the database has,
    /// a crash leaves nothing new, and no transaction is left open. `Device` stands for what SQLite answers, to the statement that reads
    /// the table.
    fn load(&mut self) -> Result<Vec<Part>, KeepFault>
        ensures honest { HasCleanDisk (state S.Store self.new.connection) → HasCleanDisk (state S.Store self.old.connection) }
        ensures parts { HasCleanDisk (state S.Store self.new.connection) → (content : List StoredPart) →
            HoldsParts (state S.Store self.old.connection) content → IfOk result (λ parts. map part_change parts.items ≡ put_all content) }
        ensures stays { HasCleanDisk (state S.Store self.new.connection) → (content : List StoredPart) →
            HoldsParts (state S.Store self.old.connection) content →
            OnOk result (IsOnly (sqlite_store (state S.Store self.new.connection) self.new.faults) (Parts content)) }
        ensures left { HasCleanDisk (state S.Store self.new.connection) → (found : Found) → LeavesFound (state S.Store self.new.connection) found →
            LeavesFound (state S.Store self.old.connection) found }
        ensures some { HasCleanDisk (state S.Store self.new.connection) → (found : Found) →
            IsOnly (sqlite_store (state S.Store self.old.connection) self.old.faults) found →
            FindsSome (sqlite_store (state S.Store self.new.connection) self.new.faults) }
        ensures faults { self.old.faults ≤ self.new.faults }
        ensures foreign { HasCleanDisk (state S.Store self.new.connection) → (place : ℕ) → IsForeign (state S.Store self.old.connection) place →
            RefusesAt place result }
        ensures counted { CountsOnce self.old.faults self.new.faults result }
        ensures crash { HasCleanDisk (state S.Store self.new.connection) → (db : Trees) → (state S.Store self.new.connection).may_leave db →
            (state S.Store self.old.connection).may_leave db }
        ensures cause { IfErr result (λ fault. IsLoadFault (sqlite_store (state S.Store self.old.connection) self.old.faults) (sqlite_store
            (state S.Store self.new.connection) self.new.faults) fault) }
        ensures judged { HasCleanDisk (state S.Store self.new.connection) → (columns : List Row) →
            HasColumns (state S.Store self.old.connection) columns → IsLoaded (state S.Store self.old.connection) columns result }
        ensures told { HasCleanDisk (state S.Store self.new.connection) →
            IfErr result (IsNotLoaded (state S.Store self.old.connection) (state S.Store self.new.connection)) }
        ensures outside { (state S.Store self.old.connection).in_transaction ≡ false → (state S.Store self.new.connection).in_transaction ≡ false }
    {
        match all_rows(&mut self.connection) {
            Ok(rows) => parts_of(self.alloc, &rows),
            Err(Error::SqlInputError(_)) => Err(KeepFault::BadRecord(0)),
            Err(error) => Err(refused(&mut self.faults, &error)),
        }
    }

    /// One transaction. Whatever it answers, a crash leaves what it would have left before, or a database whose one table has the
    /// parts as they are to be, and no transaction is left open. It is never `Full`: a refusal is what SQLite answers to one of the
    /// changes, or to their commit.
    fn commit(&mut self, parts: &[Part]) -> Result<(), KeepFault>
        ensures keeps { CommitsChanges (sqlite_store (state S.Store self.old.connection) self.old.faults) (sqlite_store
            (state S.Store self.new.connection) self.new.faults) (map part_change parts.now) result }
        ensures counted { CountsOnce self.old.faults self.new.faults result }
        ensures whole { ChangesAtOnce S.Store (map part_change parts.now) (IsToldFault (RefusesChanges S.Store (map part_change parts.now)
            self.old.connection self.new.connection)) self.old.connection self.new.connection result }
    {
        if parts.is_empty() {
            return Ok(());
        }
        match change_at_once(&mut self.connection, parts) {
            Ok(()) => Ok(()),
            Err(error) => Err(refused(&mut self.faults, &error)),
        }
    }

    fn faults(&self) -> u64 {
        self.faults
    }
}
