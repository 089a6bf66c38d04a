//! A store in SQLite over two files of any kind. Over files of one kind each of these functions would cost its proof twice as much, and
//! most of that is paid once for each call at SQLite: so what calls it twice does so over any kind of database.
ghost use Rattle.std.specs.Prelude.{IsTrue};

use crate::image::Image;
use csi_sqlite::SqliteKeep;
use csi_stores::{Keep, KeepFault, Part};
use csi_types::NoMemory;
use sqlite::{Alter, Connection, FileStore, Files, Options};
use sqlite_disk::{Crash, Disk};
use std::alloc::Global;

/// A file that may stop to answer, and whose power may fail.
pub(crate) trait Held: Crash {
    /// What it holds.
    fn content(&self) -> &[u8];
}

/// A store over a log and a database file.
pub(crate) struct FileKeep<D: Disk> {
    alloc: Global,
    power_fails: bool,
    inner: SqliteKeep<FileStore<D>>,
}

impl<D: Disk + Drop> Drop for FileKeep<D> {
    fn drop(self) {
        let FileKeep {
            alloc: _,
            power_fails: _,
            inner: _,
        } = self;
    }
}

// What the files hold, or, where the power failed, what was synced.
fn image_of<D: Held + Drop>(
    alloc: Global,
    mut files: Files<D>,
    power_fails: bool,
) -> Result<Image, NoMemory> {
    if power_fails {
        files.log.crash();
        files.db.crash();
    }
    let log = Vec::from_slice(alloc, files.log.content())?;
    let db = Vec::from_slice(alloc, files.db.content())?;
    Ok(Image { log, db })
}

// The store over this database, or else the database.
fn kept<S: Alter + Drop>(alloc: Global, connection: Connection<S>) -> Result<SqliteKeep<S>, S> {
    match SqliteKeep::new(alloc, connection) {
        Ok(keep) => Ok(keep),
        Err((_, connection)) => Err(connection.into_store()),
    }
}

// The same of a database in files: this call costs what ten others do, so it stands alone.
fn kept_files<D: Disk + Drop>(
    alloc: Global,
    connection: Connection<FileStore<D>>,
) -> Result<SqliteKeep<FileStore<D>>, Files<D>> {
    match kept(alloc, connection) {
        Ok(keep) => Ok(keep),
        Err(database) => Err(database.close()),
    }
}

// The store in these files, or else the files.
fn opened_files<D: Disk + Drop>(
    alloc: Global,
    files: Files<D>,
) -> Result<SqliteKeep<FileStore<D>>, Files<D>>
    requires log { IsTrue (D.Disk.is_usable files.log) }
    requires db { IsTrue (D.Disk.is_usable files.db) }
{
    match Connection::open_files(alloc, files, Options::new(1)) {
        Ok(connection) => kept_files(alloc, connection),
        Err((_, left)) => Err(left.into_files()),
    }
}

/// The store in these files, none of which failed a sync, or else what they hold then.
pub(crate) fn opened<D: Held + Drop>(
    alloc: Global,
    files: Files<D>,
    power_fails: bool,
) -> Result<Result<FileKeep<D>, Image>, NoMemory>
    requires log { IsTrue (D.Disk.is_usable files.log) }
    requires db { IsTrue (D.Disk.is_usable files.db) }
{
    match opened_files(alloc, files) {
        Ok(inner) => Ok(Ok(FileKeep {
            alloc,
            power_fails,
            inner,
        })),
        Err(files) => Ok(Err(image_of(alloc, files, power_fails)?)),
    }
}

// The files of a store that is closed, and whether its log could be put back.
fn closed_files<D: Disk + Drop>(keep: SqliteKeep<FileStore<D>>) -> (bool, Files<D>) {
    match keep.close_files() {
        Ok(files) => (true, files),
        Err((_, store)) => (false, store.close()),
    }
}

impl<D: Held + Drop> FileKeep<D> {
    /// What the files hold once the store is closed, and whether its log could be put back.
    pub(crate) fn closed(self) -> Result<(bool, Image), NoMemory> {
        let FileKeep {
            alloc,
            power_fails,
            inner,
        } = self;
        let (is_put_back, files) = closed_files(inner);
        Ok((is_put_back, image_of(alloc, files, power_fails)?))
    }
}

impl<D: Disk + Drop> Keep for FileKeep<D> {
    ghost use Rattle.csi_disk_tests.specs.Public.Unpromised.{unpromised};

    ghost store = { λ keep. unpromised keep.inner.faults };

    fn load(&mut self) -> Result<Vec<Part>, KeepFault> {
        self.inner.load()
    }

    fn commit(&mut self, parts: &[Part]) -> Result<(), KeepFault> {
        self.inner.commit(parts)
    }

    fn faults(&self) -> u64 {
        self.inner.faults()
    }
}
