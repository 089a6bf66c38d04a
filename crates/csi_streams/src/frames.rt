//! The frames of a stream, handled one after another.
ghost use Rattle.std.specs.Prelude.{◌≡◌, ◌<◌, ◌+◌, ◌-◌, ◌++◌, ◌^◌, ℕ, min, List, [], length, true, Ok};
ghost use Rattle.csi_types.specs.Model.Frame.{Frame as FrameParts};
ghost use Rattle.csi_frames.specs.Public.Bytes.{AreBytes};
ghost use Rattle.csi_frames.specs.Public.Splitting.{new_splitting};
ghost use Rattle.csi_frames.specs.Public.Stream.{FramesOf};
ghost use Rattle.csi_streams.specs.Public.State.{State};
ghost use Rattle.csi_streams.specs.Public.Driving.{TellsReader, MayRead};
ghost use Rattle.csi_streams.specs.Public.Framing.{Reaches, Rests, StopsIn};
ghost use Rattle.csi_streams.specs.Private.Framing.{HandlesNext, EndsIn};
ghost use Rattle.csi_streams.specs.Public.Frames.{HasReadNothing, ReadsFrames, EndsFrames, RestsAtFrames};

use crate::consumer::Consumer;
use crate::driver::{DriveStop, drive, drive_slice};
use crate::frame_handler::FrameHandler;
use crate::source::Source;
use csi_frames::{FaultKind, FrameFault, Splitter};
use csi_types::NoMemory;
use std::alloc::Global;

/// Why no more frames are handled.
pub enum FramesFault<F> {
    /// The bytes after the last whole frame are no frame: the kind of their first fault, and its place, counted from the front of the
    /// stream.
    Frame(FaultKind, u64),
    /// There is no memory for a piece.
    NoMemory,
    /// What handles the frames stopped.
    Handler(F),
}

/// A stream that is split into its frames, what handles them, and how many it handled, up to 2^64 - 1.
#[derive(Drop)]
pub struct Frames<H> {
    splitter: Splitter,
    count: u64,
    handler: H,
}

// A frame's fault, in a stream of which frames took so many bytes before it.
fn in_stream<F>(taken: u64, fault: FrameFault) -> FramesFault<F>
    ensures { result ≡ FramesFault.Frame fault.kind (min (taken + fault.place) (2 ^ 64 - 1)) }
{
    FramesFault::Frame(fault.kind, taken.saturating_add(fault.place as u64))
}

// Handles the next frame, and says whether it was there.
fn handle_next<S, O, H: FrameHandler<S, O>>(
    splitter: &mut Splitter,
    handler: &mut H,
    store: &mut S,
    out: &mut O,
) -> Result<bool, FramesFault<H::Fault>>
    ensures { HandlesNext H.handles H.flushes H.is_flushed H.stops splitter.old splitter.new (record {
      own = handler.old;
      store = store.old;
      out = out.old;
    }) (record { own = handler.new; store = store.new; out = out.new }) result }
{
    let place = splitter.taken();
    match splitter.next() {
        Ok(Some(frame)) => match handler.handle(store, out, place, &frame) {
            Ok(()) => Ok(true),
            Err(fault) => Err(FramesFault::Handler(fault)),
        },
        Ok(None) => match handler.flush(store, out) {
            Ok(()) => Ok(false),
            Err(fault) => Err(FramesFault::Handler(fault)),
        },
        Err(fault) => match handler.flush(store, out) {
            Ok(()) => Err(in_stream(place, fault)),
            Err(fault) => Err(FramesFault::Handler(fault)),
        },
    }
}

impl<S, O, H: FrameHandler<S, O>> Consumer<S, O> for Frames<H> {
    type Fault = FramesFault<H::Fault>;

    ghost reaches = { Reaches H.handles H.flushes };

    ghost rests = { Rests H.handles H.flushes H.is_flushed };

    ghost stops = { StopsIn H.handles H.flushes H.is_flushed H.stops };

    ghost kept = { λ frames. length frames.splitter.kept };

    fn feed(&mut self, piece: &[u8]) -> Result<(), FramesFault<H::Fault>> {
        match self.splitter.feed(piece) {
            Ok(()) => Ok(()),
            Err(NoMemory) => Err(FramesFault::NoMemory),
        }
    }

    /// Where no byte is kept it looks for no frame, so that one that comes alone costs less.
    fn next(&mut self, store: &mut S, out: &mut O) -> Result<bool, FramesFault<H::Fault>> {
        if self.splitter.kept() == 0 {
            return match self.handler.flush(store, out) {
                Ok(()) => Ok(false),
                Err(fault) => Err(FramesFault::Handler(fault)),
            };
        }
        match handle_next(&mut self.splitter, &mut self.handler, store, out) {
            Ok(true) => {
                self.count = self.count.saturating_add(1);
                Ok(true)
            }
            Ok(false) => Ok(false),
            Err(fault) => Err(fault),
        }
    }
}

impl<H> Frames<H> {
    /// Nothing was read yet.
    pub fn new(alloc: Global, handler: H) -> Frames<H>
        ensures splitter { result.splitter ≡ new_splitting }
        ensures count { result.count ≡ 0 }
        ensures handler { result.handler ≡ handler }
    {
        Frames {
            splitter: Splitter::new(alloc),
            count: 0,
            handler,
        }
    }

    /// How many frames were handled, up to 2^64 - 1.
    pub fn count(&self) -> u64
        ensures { result ≡ self.now.count }
    {
        self.count
    }

    /// What handles the frames.
    pub fn handler(&self) -> &H
        ensures { result.now ≡ self.now.handler }
    {
        &self.handler
    }

    // Whether the stream may end here.
    fn end<F>(&self) -> Result<(), FramesFault<F>>
        ensures { EndsIn self.now.splitter result }
    {
        match self.splitter.end() {
            Ok(()) => Ok(()),
            Err(fault) => Err(in_stream(self.splitter.taken(), fault)),
        }
    }

    /// Handles the frames that the reader has, of which it reads as many bytes at a time as `piece` has; all frames that are there are
    /// handled, and what waits is written, before it reads on; the reader is asked nowhere else. The reader failed at `Input` and at no other end.
    pub fn read<S, O, R: Source<S, O>>(
        &mut self,
        store: &mut S,
        out: &mut O,
        reader: &mut R,
        piece: &mut [u8],
    ) -> Result<(), DriveStop<FramesFault<H::Fault>>>
    where
        H: FrameHandler<S, O>,
        requires { MayRead R.remaining R.may_read (RestsAtFrames H.handles H.flushes H.is_flushed) (HasReadNothing H.is_flushed self.old)
            (record { own = self.old.handler; store = store.old; out = out.old }) reader.old piece.old }
        ensures reads { ReadsFrames H.handles H.flushes H.is_flushed H.stops
            (record { own = self.old.handler; store = store.old; out = out.old })
            (record { own = self.new.handler; store = store.new; out = out.new })
            self.new.count (R.remaining reader.old) (R.remaining reader.new) result }
        ensures reader { TellsReader (R.faults reader.old) (R.faults reader.new) result }
    {
        match drive(self, store, out, reader, piece) {
            Ok(()) => match self.end() {
                Ok(()) => Ok(()),
                Err(fault) => Err(DriveStop::Consumer(fault)),
            },
            Err(stop) => Err(stop),
        }
    }

    /// Handles the frames of a slice.
    pub fn read_slice<S, O>(
        &mut self,
        store: &mut S,
        out: &mut O,
        input: &[u8],
    ) -> Result<(), FramesFault<H::Fault>>
    where
        H: FrameHandler<S, O>,
        ensures bytes { AreBytes input.now }
        ensures reads { HasReadNothing H.is_flushed self.old → (frames : List FrameParts) (rest : List ℕ) → FramesOf input.now frames rest →
            EndsFrames H.handles H.flushes H.is_flushed H.stops
            (record { own = self.old.handler; store = store.old; out = out.old })
            (record { own = self.new.handler; store = store.new; out = out.new })
            self.new.count frames rest (Unit {0}) result }
    {
        match drive_slice(self, store, out, input) {
            Ok(()) => self.end(),
            Err(fault) => Err(fault),
        }
    }
}
