//! Stores in memory, readers and writers, each of which fails at one call, or at none. All tests take these: each other type of a store, a reader or a
//! writer at which a program is called is linked once more.
use csi_stores::{Counted, FailingKeep, FailingReader, FailingWriter, Left, MemoryKeep};
use std::alloc::Global;
use std::process::Abort;

/// The load and the commit that fail, and what that commit leaves; how many bytes a read gives and a write takes at most; and the read, the write and
/// the flush that fail.
#[derive(Clone, Copy)]
pub(crate) struct Devices {
    pub(crate) load: Option<u64>,
    pub(crate) commit: Option<u64>,
    pub(crate) left: Left,
    pub(crate) most: usize,
    pub(crate) read: Option<u64>,
    pub(crate) write: Option<u64>,
    pub(crate) flush: Option<u64>,
}

/// None fails.
pub(crate) const SOUND: Devices = Devices {
    load: None,
    commit: None,
    left: Left::Old,
    most: 4096,
    read: None,
    write: None,
    flush: None,
};

pub(crate) type Store = FailingKeep<MemoryKeep>;

pub(crate) type Input<'a> = Counted<FailingReader<&'a [u8]>>;

pub(crate) type Output = Counted<FailingWriter<Vec<u8>>>;

/// A store of so many bytes.
pub(crate) fn new_store(alloc: Global, limit: u64, devices: Devices) -> Store {
    let inner = MemoryKeep::new(alloc, limit);
    FailingKeep::new(inner, devices.load, devices.commit, devices.left)
}

pub(crate) fn reader(given: &[u8], devices: Devices) -> Input<'_> {
    Counted::new(FailingReader::new(given, devices.most, devices.read))
}

pub(crate) fn writer(rt: &(impl Abort + AllocGlobal), devices: Devices) -> Output {
    let (most, write, flush) = (devices.most, devices.write, devices.flush);
    Counted::new(FailingWriter::new(room(rt, 8192), most, write, flush))
}

/// Room for so many bytes. Where memory is refused it is made the second time.
pub(crate) fn room(rt: &(impl Abort + AllocGlobal), count: usize) -> Vec<u8> {
    match Vec::with_capacity(rt.alloc(), count) {
        Ok(bytes) => bytes,
        Err(_) => Vec::with_capacity(rt.alloc(), count).expect(rt, "memory"),
    }
}
