//! A store in SQLite over files that stop to answer.
use crate::file_keep::{FileKeep, Held, opened};
use crate::image::Image;
use crate::stop::DiskStop;
use csi_sqlite::copies;
use csi_stores::{Keep, KeepFault, Part};
use csi_types::NoMemory;
use sqlite::Files;
use sqlite_disk::{Disk, Fuse, Memory};
use std::alloc::Global;

/// A store in SQLite over a log and a database file, each in memory, which stop to answer after so many calls.
pub struct DiskKeep {
    inner: FileKeep<Fuse<Memory>>,
}

impl Drop for DiskKeep {
    fn drop(self) {
        let DiskKeep { inner: _ } = self;
    }
}

impl Held for Fuse<Memory> {
    fn content(&self) -> &[u8] {
        self.inner().bytes()
    }
}

/// What comes of opening a store.
#[derive(Drop)]
pub enum Opened {
    /// It is open.
    Open(DiskKeep),
    /// A file stopped: what the two hold then.
    Stopped(Image),
}

impl DiskKeep {
    /// A store in files that hold this, all of it synced, and that stop so.
    pub fn open(alloc: Global, image: &Image, stop: DiskStop) -> Result<Opened, NoMemory> {
        let Files { mut log, mut db } = copies(alloc, &image.db, &image.log)?;
        let Ok(_) = log.sync() else {
            return Err(NoMemory);
        };
        let Ok(_) = db.sync() else {
            return Err(NoMemory);
        };
        let files = Files {
            log: Fuse::new(log, stop.log),
            db: Fuse::new(db, stop.db),
        };
        match opened(alloc, files, stop.power_fails)? {
            Ok(inner) => Ok(Opened::Open(DiskKeep { inner })),
            Err(image) => Ok(Opened::Stopped(image)),
        }
    }

    /// What the files hold once the store is closed, and whether its log could be put back. A file that stopped is as it was then.
    pub fn closed(self) -> Result<(bool, Image), NoMemory> {
        let DiskKeep { inner } = self;
        inner.closed()
    }
}

impl Keep for DiskKeep {
    ghost use Rattle.csi_disk_tests.specs.Public.Unpromised.{unpromised};

    ghost store = { λ keep. unpromised keep.inner.inner.faults };

    fn load(&mut self) -> Result<Vec<Part>, KeepFault> {
        self.inner.load()
    }

    fn commit(&mut self, parts: &[Part]) -> Result<(), KeepFault> {
        self.inner.commit(parts)
    }

    fn faults(&self) -> u64 {
        self.inner.faults()
    }
}
