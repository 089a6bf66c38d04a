//! The lines of a stream, handled one after another.
ghost use Rattle.std.specs.Prelude.{◌≡◌, ◌<◌, ◌+◌, ◌-◌, ◌^◌, ℕ, min, List, [], length};
ghost use Rattle.csi_streams.specs.Public.State.{State};
ghost use Rattle.csi_streams.specs.Public.Driving.{TellsReader, MayRead};
ghost use Rattle.csi_streams.specs.Public.LinesOf.{LinesOf};
ghost use Rattle.csi_streams.specs.Public.Lining.{ReachesLines, RestsLines, StopsInLines};
ghost use Rattle.csi_streams.specs.Private.Lining.{HandlesNextLine, HandlesLast};
ghost use Rattle.csi_streams.specs.Public.Lines.{HasReadNothing, ReadsLines, EndsLines, RestsAtLines};

use crate::consumer::Consumer;
use crate::driver::{DriveStop, drive, drive_slice};
use crate::line_buffer::{Front, LineBuffer};
use crate::line_handler::LineHandler;
use crate::source::Source;
use csi_types::NoMemory;
use std::alloc::Global;

/// Why no more lines are handled.
pub enum LinesFault<F> {
    /// The line with this number, from 1, has more than 65,536 bytes without its newline.
    Long(u64),
    /// There is no memory for a piece.
    NoMemory,
    /// What handles the lines stopped.
    Handler(F),
}

/// A stream that is split into its lines, what handles them, and how many it handled, up to 2^64 - 1. What it keeps of the stream is at most
/// a line that isn't too long, and a piece.
#[derive(Drop)]
pub struct Lines<H> {
    buffer: LineBuffer,
    count: u64,
    handler: H,
}

// Handles the next line, which has this number, and says whether it was there.
fn handle_next<S, O, H: LineHandler<S, O>>(
    buffer: &mut LineBuffer,
    handler: &mut H,
    store: &mut S,
    out: &mut O,
    number: u64,
) -> Result<bool, LinesFault<H::Fault>>
    ensures { HandlesNextLine H.handles H.flushes H.is_flushed H.stops number buffer.old buffer.new
        (record { own = handler.old; store = store.old; out = out.old })
        (record { own = handler.new; store = store.new; out = out.new }) result }
{
    match buffer.front() {
        Front::Line(len) => match handler.handle(store, out, number, buffer.first(len)) {
            Ok(()) => {
                buffer.skip(len + 1);
                Ok(true)
            }
            Err(fault) => Err(LinesFault::Handler(fault)),
        },
        Front::Part => match handler.flush(store, out) {
            Ok(()) => Ok(false),
            Err(fault) => Err(LinesFault::Handler(fault)),
        },
        Front::Long => match handler.flush(store, out) {
            Ok(()) => Err(LinesFault::Long(number)),
            Err(fault) => Err(LinesFault::Handler(fault)),
        },
    }
}

impl<S, O, H: LineHandler<S, O>> Consumer<S, O> for Lines<H> {
    type Fault = LinesFault<H::Fault>;

    ghost reaches = { ReachesLines H.handles H.flushes };

    ghost rests = { RestsLines H.handles H.flushes H.is_flushed };

    ghost stops = { StopsInLines H.handles H.flushes H.is_flushed H.stops };

    ghost kept = { λ lines. length lines.buffer };

    fn feed(&mut self, piece: &[u8]) -> Result<(), LinesFault<H::Fault>> {
        match self.buffer.feed(piece) {
            Ok(()) => Ok(()),
            Err(NoMemory) => Err(LinesFault::NoMemory),
        }
    }

    fn next(&mut self, store: &mut S, out: &mut O) -> Result<bool, LinesFault<H::Fault>> {
        let number = self.count.saturating_add(1);
        match handle_next(&mut self.buffer, &mut self.handler, store, out, number) {
            Ok(true) => {
                self.count = number;
                Ok(true)
            }
            Ok(false) => Ok(false),
            Err(fault) => Err(fault),
        }
    }
}

impl<H> Lines<H> {
    /// Nothing was read yet.
    pub fn new(alloc: Global, handler: H) -> Lines<H>
        ensures buffer { result.buffer ≡ [] }
        ensures count { result.count ≡ 0 }
        ensures handler { result.handler ≡ handler }
    {
        Lines {
            buffer: LineBuffer::new(alloc),
            count: 0,
            handler,
        }
    }

    /// How many lines were handled, up to 2^64 - 1.
    pub fn count(&self) -> u64
        ensures { result ≡ self.now.count }
    {
        self.count
    }

    /// What handles the lines.
    pub fn handler(&self) -> &H
        ensures { result.now ≡ self.now.handler }
    {
        &self.handler
    }

    // Handles the last line, if bytes are left that no newline ends, and writes what waits.
    fn end<S, O>(&mut self, store: &mut S, out: &mut O) -> Result<(), LinesFault<H::Fault>>
    where
        H: LineHandler<S, O>,
        ensures { HandlesLast H.handles H.flushes H.is_flushed H.stops
            (min (self.old.count + 1) (2 ^ 64 - 1)) self.old.buffer self.old.count
            (record { own = self.old.handler; store = store.old; out = out.old })
            self.new.count (record { own = self.new.handler; store = store.new; out = out.new }) result }
    {
        let len = self.buffer.len();
        if len == 0 {
            return Ok(());
        }
        let number = self.count.saturating_add(1);
        match self
            .handler
            .handle(store, out, number, self.buffer.first(len))
        {
            Ok(()) => {
                self.count = number;
                match self.handler.flush(store, out) {
                    Ok(()) => Ok(()),
                    Err(fault) => Err(LinesFault::Handler(fault)),
                }
            }
            Err(fault) => Err(LinesFault::Handler(fault)),
        }
    }

    /// Handles the lines that the reader has, of which it reads as many bytes at a time as `piece` has; all lines that are there are
    /// handled, and what waits is written, before it reads on; the reader is asked nowhere else. The last line needs no newline, and an empty line
    /// is a line. The reader failed at `Input` and at no other end.
    pub fn read<S, O, R: Source<S, O>>(
        &mut self,
        store: &mut S,
        out: &mut O,
        reader: &mut R,
        piece: &mut [u8],
    ) -> Result<(), DriveStop<LinesFault<H::Fault>>>
    where
        H: LineHandler<S, O>,
        requires { MayRead R.remaining R.may_read (RestsAtLines H.handles H.flushes H.is_flushed) (HasReadNothing H.is_flushed self.old)
            (record { own = self.old.handler; store = store.old; out = out.old }) reader.old piece.old }
        ensures reads { ReadsLines H.handles H.flushes H.is_flushed H.stops
            (record { own = self.old.handler; store = store.old; out = out.old })
            (record { own = self.new.handler; store = store.new; out = out.new })
            self.new.count (R.remaining reader.old) (R.remaining reader.new) result }
        ensures reader { TellsReader (R.faults reader.old) (R.faults reader.new) result }
    {
        match drive(self, store, out, reader, piece) {
            Ok(()) => match self.end(store, out) {
                Ok(()) => Ok(()),
                Err(fault) => Err(DriveStop::Consumer(fault)),
            },
            Err(stop) => Err(stop),
        }
    }

    /// Handles the lines of a slice.
    pub fn read_slice<S, O>(
        &mut self,
        store: &mut S,
        out: &mut O,
        input: &[u8],
    ) -> Result<(), LinesFault<H::Fault>>
    where
        H: LineHandler<S, O>,
        ensures { HasReadNothing H.is_flushed self.old → (lines : List (List ℕ)) (rest : List ℕ) → LinesOf input.now lines rest →
            EndsLines H.handles H.flushes H.is_flushed H.stops
            (record { own = self.old.handler; store = store.old; out = out.old })
            (record { own = self.new.handler; store = store.new; out = out.new })
            self.new.count lines rest (Unit {0}) result }
    {
        match drive_slice(self, store, out, input) {
            Ok(()) => self.end(store, out),
            Err(fault) => Err(fault),
        }
    }
}
