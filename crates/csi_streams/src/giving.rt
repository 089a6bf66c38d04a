//! What is given for frames: appended, or written together where no frame is there.
ghost use Rattle.std.specs.Prelude.{◌≡◌, []};
ghost use Rattle.csi_streams.specs.Public.State.{State};
ghost use Rattle.csi_streams.specs.Private.Handling.{Gives, WritesGiven, StopsGiving};

use crate::frame_handler::FrameHandler;
use crate::handler::Handler;
use csi_frames::FrameRef;
use csi_stores::{Counted, WriteFailed, write_out};
use csi_types::NoMemory;
use std::alloc::Global;
use std::io::Write;

/// What is given for the frames of a slice is appended at once.
#[derive(Drop)]
pub(crate) struct Appending<H> {
    pub alloc: Global,
    pub handler: H,
}

impl<H: Handler> FrameHandler<(), Vec<u8>> for Appending<H> {
    type Fault = NoMemory;

    ghost handles = { λ old place frame new. Gives H.has_handled H.gives old.own.handler place frame new.own.handler old.out.items new.out.items };

    ghost flushes = { λ old new. new ≡ old };

    ghost is_flushed = { λ appending. Unit {0} };

    ghost stops = { λ old frame new fault. new.out.items ≡ old.out.items };

    fn handle(
        &mut self,
        _store: &mut (),
        out: &mut Vec<u8>,
        place: u64,
        frame: &FrameRef<'_>,
    ) -> Result<(), NoMemory> {
        self.handler.handle(self.alloc, place, frame, out)?;
        Ok(())
    }

    fn flush(&mut self, _store: &mut (), _out: &mut Vec<u8>) -> Result<(), NoMemory> {
        Ok(())
    }
}

/// Why no more is given.
pub(crate) enum GivingFault {
    NoMemory,
    Output,
}

/// What is given for the frames of a reader waits in `out`, and is written and flushed where no frame is there.
#[derive(Drop)]
pub(crate) struct Writing<H> {
    pub alloc: Global,
    pub handler: H,
    pub out: Vec<u8>,
}

impl<H: Handler, W: Write> FrameHandler<(), Counted<W>> for Writing<H> {
    type Fault = GivingFault;

    ghost handles = { λ old place frame new.
        Gives H.has_handled H.gives old.own.handler place frame new.own.handler old.own.out.items new.own.out.items ×
        (new.out ≡ old.out) };

    ghost flushes = { λ old new.
        WritesGiven old.own.handler new.own.handler old.own.out.items new.own.out.items
        (W.contents old.out.inner) (W.contents new.out.inner) old.out.faults new.out.faults };

    ghost is_flushed = { λ writing. writing.out.items ≡ [] };

    ghost stops = { λ old frame new. StopsGiving old.own.out.items (W.contents old.out.inner) (W.contents new.out.inner) old.out.faults new.out.faults };

    fn handle(
        &mut self,
        _store: &mut (),
        writer: &mut Counted<W>,
        place: u64,
        frame: &FrameRef<'_>,
    ) -> Result<(), GivingFault> {
        match self.handler.handle(self.alloc, place, frame, &mut self.out) {
            Ok(()) => Ok(()),
            Err(NoMemory) => match write_out(writer, &self.out) {
                Ok(()) => Err(GivingFault::NoMemory),
                Err(WriteFailed) => Err(GivingFault::Output),
            },
        }
    }

    fn flush(&mut self, _store: &mut (), writer: &mut Counted<W>) -> Result<(), GivingFault> {
        match write_out(writer, &self.out) {
            Ok(()) => {
                self.out.clear();
                Ok(())
            }
            Err(WriteFailed) => Err(GivingFault::Output),
        }
    }
}
