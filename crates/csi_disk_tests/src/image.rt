//! What the files of a store hold.
use csi_types::NoMemory;
use std::alloc::Global;

/// What a log and a database file hold.
pub struct Image {
    pub(crate) log: Vec<u8>,
    pub(crate) db: Vec<u8>,
}

impl Drop for Image {
    fn drop(self) {
        let Image { log: _, db: _ } = self;
    }
}

impl Image {
    /// That of new files. It takes no memory.
    pub fn new(alloc: Global) -> Image {
        Image {
            log: Vec::new(alloc),
            db: Vec::new(alloc),
        }
    }

    /// The database file alone. It takes no memory.
    pub fn without_log(self, alloc: Global) -> Image {
        let Image { log: _, db } = self;
        Image {
            log: Vec::new(alloc),
            db,
        }
    }
}
