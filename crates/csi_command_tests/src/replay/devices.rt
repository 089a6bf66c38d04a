//! Commands on readers that give little at once or fail, and on writers that take little or nothing, or can't be flushed.
use super::drawing::Pictures;
use csi_commands::stream;
use csi_stores::Counted;
use csi_streams::{Ending, FileCommand};
use std::alloc::Global;
use std::io;
use std::io::{ErrorKind, Read, Write};

/// How a reader and a writer do: how many bytes they give and take at once, how many reads succeed, for how many bytes there is
/// room, and whether a flush succeeds.
#[derive(Clone, Copy)]
pub(super) struct Ways {
    pub gives: usize,
    pub reads: usize,
    pub takes: usize,
    pub room: usize,
    pub flushes: bool,
}

pub(super) const AT_ONCE: Ways = Ways {
    gives: 1_000_000,
    reads: 1_000_000,
    takes: 1_000_000,
    room: 1_000_000,
    flushes: true,
};

pub(super) const BYTE_BY_BYTE: Ways = Ways {
    gives: 1,
    takes: 1,
    ..AT_ONCE
};

/// Gives what is left, and counts the reads, and the most bytes that it gave at once.
#[derive(Drop)]
pub(super) struct Giver<'a> {
    left: &'a [u8],
    ways: Ways,
    pub reads: usize,
    pub largest: usize,
}

impl Read for Giver<'_> {
    fn read(&mut self, buf: &mut [u8]) -> io::Result<usize> {
        if self.reads >= self.ways.reads {
            return Err(io::Error::from(ErrorKind::BrokenPipe));
        }
        self.reads = self.reads.saturating_add(1);
        let n = buf.len().min(self.left.len()).min(self.ways.gives);
        let (front, back) = self.left.split_at(n);
        buf[..n].copy_from_slice(front);
        self.left = back;
        self.largest = self.largest.max(n);
        Ok(n)
    }
}

/// Compares what it takes with what is wanted next, and counts its bytes, those that were never flushed, and the most that
/// waited for a flush at one time.
#[derive(Drop)]
pub(super) struct Taker<'a> {
    wanted: &'a [u8],
    ways: Ways,
    pub is_wanted: bool,
    pub taken: usize,
    pub waiting: usize,
    pub most_waiting: usize,
}

impl Write for Taker<'_> {
    fn write(&mut self, buf: &[u8]) -> io::Result<usize> {
        let room = self.ways.room.saturating_sub(self.taken);
        let n = buf.len().min(room).min(self.ways.takes);
        let front = buf.get(..n).unwrap_or(buf);
        match self.wanted.strip_prefix(front) {
            Some(rest) => self.wanted = rest,
            None => self.is_wanted = false,
        }
        self.taken = self.taken.saturating_add(n);
        self.waiting = self.waiting.saturating_add(n);
        self.most_waiting = self.most_waiting.max(self.waiting);
        Ok(n)
    }

    fn flush(&mut self) -> io::Result<()> {
        if !self.ways.flushes {
            return Err(io::Error::from(ErrorKind::BrokenPipe));
        }
        self.waiting = 0;
        Ok(())
    }
}

/// A reader of these bytes.
pub(super) fn reader_of(left: &[u8], ways: Ways) -> Counted<Giver<'_>> {
    Counted::new(Giver {
        left,
        ways,
        reads: 0,
        largest: 0,
    })
}

/// A writer that is to get these bytes.
pub(super) fn writer_of(wanted: &[u8], ways: Ways) -> Counted<Taker<'_>> {
    Counted::new(Taker {
        wanted,
        ways,
        is_wanted: true,
        taken: 0,
        waiting: 0,
        most_waiting: 0,
    })
}

/// What came of a command: how it ended; how often was read, and the most bytes at once; whether only what is wanted was written, how many bytes of
/// it, how many of them were never flushed, and the most that waited for a flush at one time.
#[derive(Clone, Copy)]
pub(super) struct Outcome {
    pub ending: Ending,
    pub reads: usize,
    pub largest: usize,
    pub is_wanted: bool,
    pub taken: usize,
    pub waiting: usize,
    pub most_waiting: usize,
}

fn once(
    alloc: Global,
    command: FileCommand,
    (input, wanted): (&[u8], &[u8]),
    ways: Ways,
) -> Outcome {
    let mut reader = reader_of(input, ways);
    let mut writer = writer_of(wanted, ways);
    let ending = stream::<Pictures, _, _>(alloc, command, &mut reader, &mut writer);
    let reader = reader.into_inner();
    let writer = writer.into_inner();
    Outcome {
        ending,
        reads: reader.reads,
        largest: reader.largest,
        is_wanted: writer.is_wanted,
        taken: writer.taken,
        waiting: writer.waiting,
        most_waiting: writer.most_waiting,
    }
}

/// What comes of a command on this input, of which that is wanted. Where memory was refused after a front of it, the command is given again.
pub(super) fn outcome_of(
    alloc: Global,
    command: FileCommand,
    (input, wanted): (&[u8], &[u8]),
    ways: Ways,
) -> Outcome {
    let first = once(alloc, command, (input, wanted), ways);
    if first.ending == Ending::Memory && first.is_wanted {
        once(alloc, command, (input, wanted), ways)
    } else {
        first
    }
}
