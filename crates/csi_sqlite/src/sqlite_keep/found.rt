//! Files that are looked at in copies, and a store that is found there: the files are only read.
ghost use Rattle.std.specs.Prelude.{◌≡◌, ◌⊎◌, ◌↔◌, List, IsTrue, IfOk, IfErr, OnOk};
ghost use Rattle.sqlite_disk.specs.Memory.{memory_bytes, memory_is_usable};
ghost use Rattle.sqlite_trees.specs.Tree.{Trees};
ghost use Rattle.sqlite.specs.Held.{state};
ghost use Rattle.sqlite.specs.State.{HasCleanDisk};
ghost use Rattle.sqlite.specs.Files.{file_state, image_of, Finds, HoldsDatabase};
ghost use Rattle.csi_stores.specs.Public.Part.{StoredPart};
ghost use Rattle.csi_sqlite.specs.Private.Looking.{ListsTableAtMost, IsJudged};
ghost use Rattle.csi_sqlite.specs.Public.Listed.{ListsOther};
ghost use Rattle.csi_sqlite.specs.Public.Opening.{IsNotFound, IsFoundIn};
ghost use Rattle.csi_sqlite.specs.Public.Refusals.{WantsMemory};
ghost use Rattle.csi_sqlite.specs.Public.Tables.{StoresParts, HoldsParts};

use crate::rows::has_other;
use crate::sqlite_keep::SqliteKeep;
use crate::sqlite_keep::file::kept_files;
use crate::sqlite_keep::half_made::{begin_log, is_half_made};
use csi_stores::KeepFault;
use csi_types::NoMemory;
use sqlite::{Alter, Connection, Error, ErrorCode, FileStore, Files, Options};
use sqlite_disk::{Disk, Memory};
use std::alloc::Global;
use std::fs;
use std::io::ErrorKind;
use std::rt::Files as Reads;

// What an error at opening copies in memory is to the keeper. Nothing of their disks fails but an allocation.
fn told_of_copies(error: &Error) -> KeepFault
    ensures memory { (result ≡ KeepFault.NoMemory) ↔ WantsMemory error.now }
    ensures cause { (result ≡ KeepFault.Device) ⊎ (result ≡ KeepFault.NoMemory) }
{
    match error {
        Error::SqliteFailure(ErrorCode::OutOfMemory) => KeepFault::NoMemory,
        Error::SqliteFailure(ErrorCode::SystemIoFailure) => KeepFault::NoMemory,
        _ => KeepFault::Device,
    }
}

impl<D: Disk + Drop> SqliteKeep<FileStore<D>> {
    /// The store that these two files have, copies in memory of a database file and its log, where they are a database that lists the table
    /// `parts` alone; no table is made. `Device` stands for all refusals but out of memory, and in memory a disk fails for nothing else.
    pub fn find(alloc: Global, files: Files<D>) -> Result<SqliteKeep<FileStore<D>>, KeepFault>
        requires log { IsTrue (D.Disk.is_usable files.log) }
        requires db { IsTrue (D.Disk.is_usable files.db) }
        ensures finds { IfOk result (λ keep. HasCleanDisk (file_state keep.connection) → Finds files keep.connection) }
        ensures found { IfOk result (λ keep. HasCleanDisk (file_state keep.connection) → (db : Trees) → (content : List StoredPart) →
            HoldsDatabase (image_of D.Disk files) db → StoresParts db content → HoldsParts (file_state keep.connection) content) }
        ensures faults { IfOk result (λ keep. keep.faults ≡ 0) }
        ensures cause { IfErr result (λ fault. (fault ≡ KeepFault.Device) ⊎ (fault ≡ KeepFault.NoMemory)) }
        ensures told { IfErr result (IsNotFound D.Disk files) }
    {
        let connection = match Connection::open_files(alloc, files, Options::new(1)) {
            Ok(connection) => connection,
            Err((error, _left)) => return Err(told_of_copies(&error)),
        };
        kept_files(alloc, connection, true)
    }

    // Lets it go.
    fn let_go(self) {
        let SqliteKeep {
            alloc: _,
            connection: back,
            faults: _,
        } = self;
        let _ = files_listed_other(back);
    }
}

// A file in memory that has these bytes.
fn copied(alloc: Global, bytes: &[u8]) -> Result<Memory, NoMemory>
    ensures bytes { IfOk result (λ file. memory_bytes file ≡ bytes.now) }
    ensures usable { IfOk result (λ file. IsTrue (memory_is_usable file)) }
{
    let mut file = Memory::new(alloc);
    if bytes.is_empty() {
        return Ok(file);
    }
    match file.write_at(0, bytes) {
        Ok(()) => Ok(file),
        Err(_) => Err(NoMemory),
    }
}

/// A database file and its log, in memory, which have these bytes: what is done to them is done to no file.
pub fn copies(alloc: Global, db: &[u8], log: &[u8]) -> Result<Files<Memory>, NoMemory>
    ensures db { IfOk result (λ files. memory_bytes files.db ≡ db.now) }
    ensures log { IfOk result (λ files. memory_bytes files.log ≡ log.now) }
    ensures db_usable { IfOk result (λ files. IsTrue (memory_is_usable files.db)) }
    ensures log_usable { IfOk result (λ files. IsTrue (memory_is_usable files.log)) }
{
    let db = copied(alloc, db)?;
    let log = copied(alloc, log)?;
    Ok(Files { log, db })
}

/// What a file that can't be read is to the keeper.
pub(crate) fn unread(kind: ErrorKind) -> KeepFault
    ensures { (result ≡ KeepFault.Device) ⊎ (result ≡ KeepFault.NoMemory) }
{
    match kind {
        ErrorKind::OutOfMemory => KeepFault::NoMemory,
        _ => KeepFault::Device,
    }
}

// The bytes of the file beside a database that has this name behind it; none where there is no such file.
fn beside(rt: &(impl Reads + AllocGlobal), path: &str, name: &str) -> Result<Vec<u8>, KeepFault>
    ensures { IfErr result (λ fault. (fault ≡ KeepFault.Device) ⊎ (fault ≡ KeepFault.NoMemory)) }
{
    let Ok(path) = format!(in rt.alloc(); "{path}{name}") else {
        return Err(KeepFault::NoMemory);
    };
    match fs::read(rt, path.as_str()) {
        Ok(bytes) => Ok(bytes),
        Err(error) if error.kind() == ErrorKind::NotFound => Ok(Vec::new(rt.alloc())),
        Err(error) => Err(unread(error.kind())),
    }
}

// The bytes of a database file and of the log beside it. The log is read before the file and again after it, and has to be the
// same: so the two go together, whoever writes them meanwhile.
fn read_both(rt: &(impl Reads + AllocGlobal), path: &str) -> Result<(Vec<u8>, Vec<u8>), KeepFault>
    ensures { IfErr result (λ fault. (fault ≡ KeepFault.Device) ⊎ (fault ≡ KeepFault.NoMemory)) }
{
    let log = beside(rt, path, "-wal")?;
    let db = match fs::read(rt, path) {
        Ok(bytes) => bytes,
        Err(error) => return Err(unread(error.kind())),
    };
    let after = beside(rt, path, "-wal")?;
    if log.as_slice() != after.as_slice() {
        return Err(KeepFault::Device);
    }
    Ok((db, log))
}

// The bytes of the database file at this real path and of the log beside it, as they are now. There are none of what is no file, and where
// SQLite left a rollback journal; one that begins with a 0 has nothing to play back.
fn bytes_at(rt: &(impl Reads + AllocGlobal), real: &str) -> Result<(Vec<u8>, Vec<u8>), KeepFault>
    ensures { IfErr result (λ fault. (fault ≡ KeepFault.Device) ⊎ (fault ≡ KeepFault.NoMemory)) }
{
    match fs::metadata(rt, real) {
        Ok(found) if found.is_file() => {}
        Ok(_) => return Err(KeepFault::Device),
        Err(error) => return Err(unread(error.kind())),
    }
    let journal = beside(rt, real, "-journal")?;
    if !journal.is_empty() && journal[0] != 0 {
        return Err(KeepFault::Device);
    }
    read_both(rt, real)
}

// Copies of the two.
fn copies_of(alloc: Global, db: &[u8], log: &[u8]) -> Result<Files<Memory>, KeepFault>
    ensures db_usable { IfOk result (λ files. IsTrue (memory_is_usable files.db)) }
    ensures log_usable { IfOk result (λ files. IsTrue (memory_is_usable files.log)) }
    ensures cause { IfErr result (λ fault. (fault ≡ KeepFault.Device) ⊎ (fault ≡ KeepFault.NoMemory)) }
{
    match copies(alloc, db, log) {
        Ok(files) => Ok(files),
        Err(_) => Err(KeepFault::NoMemory),
    }
}

// Copies of the database file at this path, and of the log beside it.
fn copies_at(rt: &(impl Reads + AllocGlobal), path: &str) -> Result<Files<Memory>, KeepFault>
    ensures db_usable { IfOk result (λ files. IsTrue (memory_is_usable files.db)) }
    ensures log_usable { IfOk result (λ files. IsTrue (memory_is_usable files.log)) }
    ensures cause { IfErr result (λ fault. (fault ≡ KeepFault.Device) ⊎ (fault ≡ KeepFault.NoMemory)) }
{
    let real = match fs::canonicalize(rt, path) {
        Ok(real) => real,
        Err(error) => return Err(unread(error.kind())),
    };
    let (db, log) = bytes_at(rt, real.as_str())?;
    copies_of(rt.alloc(), &db, &log)
}

/// The store in the SQLite file at this path, as the file and the log beside it are now, in copies of the two: nothing is written
/// to them, and where there is no file none is made; the store is as SQLite finds it in the copies. `Device` stands for all refusals but want
/// of memory: a file can't be read, or was written meanwhile, it is no database that lists the table `parts` alone, or SQLite left a rollback
/// journal beside it.
pub fn find_at(
    rt: &(impl Reads + AllocGlobal),
    path: &str,
) -> Result<SqliteKeep<FileStore<Memory>>, KeepFault>
    ensures finds { IfOk result (λ keep. IsFoundIn keep.connection) }
    ensures faults { IfOk result (λ keep. keep.faults ≡ 0) }
    ensures cause { IfErr result (λ fault. (fault ≡ KeepFault.Device) ⊎ (fault ≡ KeepFault.NoMemory)) }
{
    let files = copies_at(rt, path)?;
    SqliteKeep::find(rt.alloc(), files)
}

// Whether a database, which may be a store, lists anything but the table `parts`; it is let go.
fn listed_other<S: Alter + Drop>(connection: Connection<S>) -> bool
    ensures { IsTrue result ↔ ListsOther (state S.Store connection).now.schema }
{
    has_other(&connection)
}

// The same of a database in files. A function that lets one go by this one proves nothing of how it is let go.
fn files_listed_other<D: Disk + Drop>(connection: Connection<FileStore<D>>) -> bool
    ensures { IsTrue result ↔ ListsOther (file_state connection).now.schema }
{
    listed_other(connection)
}

// Refuses copies that are no database, or one that lists anything but the table `parts`.
fn judge<D: Disk + Drop>(alloc: Global, files: Files<D>) -> Result<(), KeepFault>
    requires log { IsTrue (D.Disk.is_usable files.log) }
    requires db { IsTrue (D.Disk.is_usable files.db) }
    ensures taken { OnOk result (ListsTableAtMost D.Disk files) }
    ensures cause { IfErr result (λ fault. (fault ≡ KeepFault.Device) ⊎ (fault ≡ KeepFault.NoMemory)) }
    ensures told { IfErr result (IsJudged D.Disk files) }
{
    match Connection::open_files(alloc, files, Options::new(1)) {
        Ok(connection) => {
            if files_listed_other(connection) {
                return Err(KeepFault::Device);
            }
            Ok(())
        }
        Err((error, _left)) => Err(told_of_copies(&error)),
    }
}

// Looks at a file that is there.
fn look_at_file(rt: &(impl Reads + AllocGlobal), path: &str) -> Result<(), KeepFault>
    ensures cause { IfErr result (λ fault. (fault ≡ KeepFault.Device) ⊎ (fault ≡ KeepFault.NoMemory)) }
{
    let real = match fs::canonicalize(rt, path) {
        Ok(real) => real,
        Err(error) => return Err(unread(error.kind())),
    };
    let (db, log) = bytes_at(rt, real.as_str())?;
    if is_half_made(&db, &log) {
        return begin_log(rt, real.as_str());
    }
    judge(rt.alloc(), copies_of(rt.alloc(), &db, &log)?)
}

/// Looks at the file at this path and at the log beside it, in copies of the two, before they are opened to be written: opening
/// makes a log and changes it, and what is no store has to stay as it is. Where there is no file nothing is done; and a new file that got its
/// first page in part and lost its log gets one again, so that it is opened as a new one.
pub(crate) fn look_at(rt: &(impl Reads + AllocGlobal), path: &str) -> Result<(), KeepFault>
    ensures cause { IfErr result (λ fault. (fault ≡ KeepFault.Device) ⊎ (fault ≡ KeepFault.NoMemory)) }
{
    match fs::metadata(rt, path) {
        Err(error) if error.kind() == ErrorKind::NotFound => Ok(()),
        _ => look_at_file(rt, path),
    }
}

/// Lets a store go that `find_at` found, with its copies, as `close_file` does with a store in a file.
pub fn close_found(keep: SqliteKeep<FileStore<Memory>>) {
    keep.let_go();
}
