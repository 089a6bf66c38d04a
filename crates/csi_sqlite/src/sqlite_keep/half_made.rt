//! A new file that got its first page in part, and lost its log.
ghost use Rattle.std.specs.Prelude.{◌≡◌, ◌⊎◌, ◌↔◌, IsTrue, IfErr};
ghost use Rattle.csi_sqlite.specs.Public.HalfMade.{IsHalfMade};

use crate::sqlite_keep::found::unread;
use csi_stores::KeepFault;
use std::fs::{OpenFile, OpenOptions};
use std::io::Write;
use std::rt::Files;
use std::{fs, io};

/// The bytes of a page.
const PAGE: usize = 4096;

/// The log with which a file begins to be made: the header of one without a frame, for pages of 4,096 bytes, whose count of checkpoints is one
/// that no later log has. By it SQLite tells a new file that got its first page in part from one that is damaged.
pub const BEGUN_LOG: [u8; 32] = [
    55, 127, 6, 130, 0, 45, 226, 24, 0, 0, 16, 0, 255, 255, 255, 255, 0, 0, 0, 0, 0, 0, 0, 0, 212,
    231, 3, 18, 140, 206, 218, 182,
];

/// Whether these are a new file that got its first page in part, without a log: 2 to 4,096 bytes, of which the first is 0. The first byte is
/// written last, so no table was ever in it, which has a page of its own; and what was only in the log is gone with it.
pub fn is_half_made(db: &[u8], log: &[u8]) -> bool
    ensures { IsTrue result ↔ IsHalfMade db.now log.now }
{
    db.len() > 1 && db.len() <= PAGE && db[0] == 0 && log.is_empty()
}

// Puts that log, with the file's permissions, behind what is there.
fn put_log(rt: &impl Files, file: &str, log: &str) -> io::Result<()> {
    let permissions = fs::metadata(rt, file)?.permissions();
    let mut log = OpenOptions::new().append(true).create(true).open(rt, log)?;
    log.set_permissions(permissions)?;
    log.write_all(&BEGUN_LOG)?;
    log.sync_all()
}

/// Gives such a file, at this real path, the log that it lost, so that opening it makes a new database of it. The file stays as it is. Where
/// another process was faster, the log is behind what is there, where it is no frame and says nothing.
pub(crate) fn begin_log(rt: &(impl Files + AllocGlobal), file: &str) -> Result<(), KeepFault>
    ensures cause { IfErr result (λ fault. (fault ≡ KeepFault.Device) ⊎ (fault ≡ KeepFault.NoMemory)) }
{
    let Ok(log) = format!(in rt.alloc(); "{file}-wal") else {
        return Err(KeepFault::NoMemory);
    };
    match put_log(rt, file, log.as_str()) {
        Ok(()) => Ok(()),
        Err(error) => Err(unread(error.kind())),
    }
}
