//! A stream that is read and written in pieces.
ghost use Rattle.std.specs.Prelude.{◌≡◌, []};
ghost use Rattle.csi_streams.specs.Public.Failing.{TellsReader, TellsWriter};
ghost use Rattle.csi_streams.specs.Private.Handling.{stream_fault};
ghost use Rattle.csi_streams.specs.Public.Streaming.{IsStreamed};

use crate::driver::DriveStop;
use crate::frames::{Frames, FramesFault};
use crate::giving::{GivingFault, Writing};
use crate::handler::Handler;
use csi_frames::FaultKind;
use csi_stores::Counted;
use std::alloc::Global;
use std::io::{Read, Write};
use thiserror::Error;

/// The most bytes that are read at once: as many as a pipe of Linux holds.
const READ: usize = 65_536;

/// Why a stream wasn't taken to its end. This profile's own.
#[derive(Clone, Copy, Debug, PartialEq, Eq, Error)]
pub enum StreamFault {
    /// The bytes after the last whole frame are no frame: the kind of their first fault, and its place, counted from the
    /// front of the stream.
    #[error("{0}, at byte {1} of the stream")]
    Frame(FaultKind, u64),
    /// An allocation was refused.
    #[error("out of memory")]
    NoMemory,
    /// The reader failed.
    #[error("the input can't be read")]
    Input,
    /// The writer failed, or took no byte.
    #[error("the output can't be written")]
    Output,
    /// 2^63 bytes or more were read, and no end.
    #[error("the input has no end")]
    Endless,
}

// Why the frames of a reader weren't handled to their end.
fn fault_of(stop: DriveStop<FramesFault<GivingFault>>) -> StreamFault
    ensures { result ≡ stream_fault stop }
{
    match stop {
        DriveStop::Input => StreamFault::Input,
        DriveStop::Endless => StreamFault::Endless,
        DriveStop::Consumer(fault) => match fault {
            FramesFault::Frame(kind, place) => StreamFault::Frame(kind, place),
            FramesFault::NoMemory => StreamFault::NoMemory,
            FramesFault::Handler(GivingFault::NoMemory) => StreamFault::NoMemory,
            FramesFault::Handler(GivingFault::Output) => StreamFault::Output,
        },
    }
}

/// Handles the frames that the reader has, writes what is given for those that are there before it reads on, and gives their
/// count.
pub(crate) fn handle_stream<H: Handler, R: Read, W: Write>(
    alloc: Global,
    handler: H,
    reader: &mut Counted<R>,
    writer: &mut Counted<W>,
) -> Result<u64, StreamFault>
    requires handled { H.has_handled handler [] }
    requires gave { H.gives [] [] }
    ensures streams { IsStreamed H.gives (R.remaining reader.old.inner) (R.remaining reader.new.inner) (W.contents writer.old.inner)
        (W.contents writer.new.inner) result }
    ensures reader { TellsReader reader.old.faults reader.new.faults result }
    ensures writer { TellsWriter writer.old.faults writer.new.faults result }
{
    let out = Vec::new(alloc);
    let mut frames = Frames::new(
        alloc,
        Writing {
            alloc,
            handler,
            out,
        },
    );
    let mut piece = [0; READ];
    match frames.read(&mut (), writer, reader, &mut piece) {
        Ok(()) => Ok(frames.count()),
        Err(stop) => Err(fault_of(stop)),
    }
}
