//! All that was read is replied, and the replies flushed, before more is read: a reader and a writer that tell one another of it.
use crate::script::{CUTS, SCRIPT, replied, whole_frames};
use crate::serving::{End, run, stream};
use csi_service::{Counted, MemoryKeep};
use std::cell::Cell;
use std::io;
use std::io::{Read, Write};
use std::process::Abort;

// How many bytes were written, how many of them before the last flush, and whether anything was read where a reply to what was read before wasn't.
#[derive(Drop)]
struct Notes {
    written: Cell<usize>,
    flushed: Cell<usize>,
    is_late: Cell<bool>,
}

// A reader of the script's frames, so many bytes a call at most, of which so many were given.
#[derive(Drop)]
struct Source<'a> {
    rest: &'a [u8],
    most: usize,
    given: usize,
    notes: &'a Notes,
}

impl Read for Source<'_> {
    fn read(&mut self, buf: &mut [u8]) -> io::Result<usize> {
        if self.notes.flushed.get() != replied(whole_frames(self.given)) {
            self.notes.is_late.set(true);
        }
        let size = self.rest.len().min(self.most).min(buf.len());
        let (front, rest) = self.rest.split_at(size);
        buf[..size].copy_from_slice(front);
        self.rest = rest;
        self.given = self.given.saturating_add(size);
        Ok(size)
    }
}

// A writer that takes all bytes.
#[derive(Drop)]
struct Sink<'a> {
    notes: &'a Notes,
}

impl Write for Sink<'_> {
    fn write(&mut self, buf: &[u8]) -> io::Result<usize> {
        let written = self.notes.written.get().saturating_add(buf.len());
        self.notes.written.set(written);
        Ok(buf.len())
    }

    fn flush(&mut self) -> io::Result<()> {
        self.notes.flushed.set(self.notes.written.get());
        Ok(())
    }
}

// Whether the script is served by this reader, which gives so many bytes a call, and this writer.
fn is_served(rt: &(impl Abort + AllocGlobal), notes: &Notes, most: usize) -> bool {
    let (frames, replies) = stream(rt, SCRIPT, (0, 6));
    drop(replies);
    let mut keep = MemoryKeep::new(rt.alloc(), 1000);
    let mut reader = Counted::new(Source {
        rest: frames.as_slice(),
        most,
        given: 0,
        notes,
    });
    let mut writer = Counted::new(Sink { notes });
    let end = run(rt, SCRIPT.plugin, &mut keep, &mut reader, &mut writer);
    end == End::Served(6)
}

#[test]
fn all_that_was_read_is_replied_before_more_is_read(rt: HostRuntime) {
    for (most, _, _) in CUTS {
        let notes = Notes {
            written: Cell::new(0),
            flushed: Cell::new(0),
            is_late: Cell::new(false),
        };
        assert!(&rt; is_served(&rt, &notes, *most));
        assert!(&rt; notes.flushed.get() == 200 && !notes.is_late.get());
        drop(notes);
    }
}
