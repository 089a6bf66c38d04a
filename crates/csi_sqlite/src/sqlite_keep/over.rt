//! What is done over a store in a file, from its opening to its closing. What has to be known of such a store for that is known here, so
//! that programs needn't prove it.
ghost use Rattle.std.specs.Prelude.{◌≡◌, ◌⊎◌, codes, IsErr, IfErr};

use crate::sqlite_keep::{SqliteKeep, close_file, close_found, find_at};
use csi_stores::{Keep, KeepFault};
use sqlite::{Alter, FileFrom, FileStore, Unknown};
use sqlite_disk::Disk;

/// What is done over a store: the caller's. This profile's own.
pub trait OverStore<T> {
    /// Does it over this store, and answers what came of it.
    fn run<K: Keep>(self, rt: &HostRuntime, keep: &mut K) -> T;
}

/// What is done over several stores: the caller's. This profile's own.
pub trait OverStores<T> {
    /// Does it over these stores, in the order of their paths, and answers what came of it.
    fn run<K: Keep>(self, rt: &HostRuntime, keeps: &mut [K]) -> T;
}

// Does it over this store.
fn over<S: Alter, T, P: OverStore<T>>(rt: &HostRuntime, process: P, keep: &mut SqliteKeep<S>) -> T {
    process.run(rt, keep)
}

// The same of a store in files.
fn over_files<D: Disk + Drop, T, P: OverStore<T>>(
    rt: &HostRuntime,
    process: P,
    keep: &mut SqliteKeep<FileStore<D>>,
) -> T {
    over(rt, process, keep)
}

/// Does this over the store in the SQLite file at this path, as `SqliteKeep::open_file` opens it, of which nothing is supposed: after a
/// crash it is read as SQLite reads it, and a write that was cut short left each byte old or new. The answer is what came of it,
/// and what closing the store by `close_file` then answered. Where the store can't be opened, nothing is done.
pub fn over_file<T, P: OverStore<T> + Drop>(
    rt: &HostRuntime,
    path: &str,
    process: P,
) -> Result<(T, Result<(), KeepFault>), KeepFault>
    ensures memory { path.now ≡ codes ":memory:" → IsErr result }
    ensures cause { IfErr result (λ fault. (fault ≡ KeepFault.Device) ⊎ (fault ≡ KeepFault.NoMemory)) }
{
    let mut keep = match SqliteKeep::open_file(rt, path, Unknown) {
        Ok(keep) => keep,
        Err(fault) => return Err(fault),
    };
    let answer = over_files(rt, process, &mut keep);
    Ok((answer, close_file(keep)))
}

/// Does this over the store that `find_at` finds at this path, which is only read. Where none is found, nothing is done.
pub fn over_found<T, P: OverStore<T> + Drop>(
    rt: &HostRuntime,
    path: &str,
    process: P,
) -> Result<T, KeepFault>
    ensures cause { IfErr result (λ fault. (fault ≡ KeepFault.Device) ⊎ (fault ≡ KeepFault.NoMemory)) }
{
    let mut keep = match find_at(rt, path) {
        Ok(keep) => keep,
        Err(fault) => return Err(fault),
    };
    let answer = over_files(rt, process, &mut keep);
    close_found(keep);
    Ok(answer)
}

// A store in a file, as programs have it. What is done to several of them is done to any kind of these: to this one kind a loop costs its proof a minute.
trait InFile: Keep + Drop {
    // The store in the file at this path.
    fn open_at(rt: &HostRuntime, path: &str) -> Result<Self, KeepFault>
        ensures { IfErr result (λ fault. (fault ≡ KeepFault.Device) ⊎ (fault ≡ KeepFault.NoMemory)) };

    fn close_it(self) -> Result<(), KeepFault>;
}

impl InFile for SqliteKeep<FileStore<FileFrom<Unknown>>> {
    fn open_at(
        rt: &HostRuntime,
        path: &str,
    ) -> Result<SqliteKeep<FileStore<FileFrom<Unknown>>>, KeepFault> {
        SqliteKeep::open_file(rt, path, Unknown)
    }

    fn close_it(self) -> Result<(), KeepFault> {
        close_file(self)
    }
}

// The stores at these paths, in order. Where one can't be opened, those before it are closed.
fn opened<K: InFile>(rt: &HostRuntime, paths: &[&str]) -> Result<Vec<K>, KeepFault>
    ensures cause { IfErr result (λ fault. (fault ≡ KeepFault.Device) ⊎ (fault ≡ KeepFault.NoMemory)) }
{
    let mut keeps = match Vec::with_capacity(rt.alloc(), paths.len()) {
        Ok(keeps) => keeps,
        Err(_) => return Err(KeepFault::NoMemory),
    };
    for path in paths {
        let keep = match K::open_at(rt, path) {
            Ok(keep) => keep,
            Err(fault) => {
                let _ = close_all(keeps);
                return Err(fault);
            }
        };
        match keeps.push(keep) {
            Ok(()) => {}
            Err(_) => {
                let _ = close_all(keeps);
                return Err(KeepFault::NoMemory);
            }
        }
    }
    Ok(keeps)
}

// Closes them, and answers what the first of them answered that can't be closed.
fn close_all<K: InFile>(keeps: Vec<K>) -> Result<(), KeepFault> {
    let mut closing = Ok(());
    for keep in keeps {
        let one = keep.close_it();
        if closing.is_ok() {
            closing = one;
        }
    }
    closing
}

// Opens stores, does this over them, and closes them.
fn over_each<K: InFile, T, P: OverStores<T> + Drop>(
    rt: &HostRuntime,
    paths: &[&str],
    process: P,
) -> Result<(T, Result<(), KeepFault>), KeepFault>
    ensures cause { IfErr result (λ fault. (fault ≡ KeepFault.Device) ⊎ (fault ≡ KeepFault.NoMemory)) }
{
    let mut keeps = match opened::<K>(rt, paths) {
        Ok(keeps) => keeps,
        Err(fault) => return Err(fault),
    };
    let answer = process.run(rt, keeps.as_mut_slice());
    Ok((answer, close_all(keeps)))
}

/// Does this over the stores in the SQLite files at these paths, as `over_file` does over one: all are open before it is done, and are closed
/// then. Where one of them can't be opened, nothing is done.
pub fn over_files_at<T, P: OverStores<T> + Drop>(
    rt: &HostRuntime,
    paths: &[&str],
    process: P,
) -> Result<(T, Result<(), KeepFault>), KeepFault>
    ensures cause { IfErr result (λ fault. (fault ≡ KeepFault.Device) ⊎ (fault ≡ KeepFault.NoMemory)) }
{
    over_each::<SqliteKeep<FileStore<FileFrom<Unknown>>>, T, P>(rt, paths, process)
}
