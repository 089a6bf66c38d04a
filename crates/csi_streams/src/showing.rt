//! A stream of frames, shown in lines.
ghost use Rattle.std.specs.Prelude.{◌≡◌, ◌++◌, ℕ, List, [], IfErr, OnOk, OnErr};
ghost use Rattle.csi_types.specs.Model.Frame.{Frame as FrameParts};
ghost use Rattle.csi_frames.specs.Public.Stream.{FramesOf};
ghost use Rattle.csi_streams.specs.Public.FrameLines.{frame_line, lines as lines_of};
ghost use Rattle.csi_streams.specs.Public.Replay.{AppendsAll, Fails};
ghost use Rattle.csi_streams.specs.Private.Showing.{HasShown};
ghost use Rattle.csi_streams.specs.Public.Failing.{TellsReader, TellsWriter};
ghost use Rattle.csi_streams.specs.Public.Streaming.{AreLines, IsStreamed};

use crate::answers::SliceFault;
use crate::handler::Handler;
use crate::shown::ShownFrame;
use crate::slices::handle_slice;
use crate::streaming::{StreamFault, handle_stream};
use csi_frames::FrameRef;
use csi_stores::Counted;
use csi_types::{Frame, NoMemory};
use std::alloc::Global;
use std::io::{Read, Write};

// Appends the line of the frame in this place, which is spelled in `line`. An `Err` appends nothing.
fn append_line(
    line: &mut String,
    place: u64,
    frame: &Frame,
    out: &mut Vec<u8>,
) -> Result<(), NoMemory>
    ensures ok { OnOk result (out.new.items ≡ out.old.items ++ frame_line place frame.now) }
    ensures err { OnErr result (out.new.items ≡ out.old.items) }
{
    let frame = ShownFrame(frame);
    line.clear();
    writeln!(line, "{place}{frame}")?;
    out.extend_from_slice(line.as_bytes())?;
    Ok(())
}

// Each frame is shown in a line, which has its place. The lines are spelled one after another in the same text.
#[derive(Drop)]
struct Lines {
    line: String,
}

impl Handler for Lines {
    ghost has_handled = { HasShown };

    ghost gives = { AreLines };

    fn handle(
        &mut self,
        alloc: Global,
        place: u64,
        frame: &FrameRef<'_>,
        out: &mut Vec<u8>,
    ) -> Result<(), NoMemory> {
        let frame = frame.to_frame(alloc)?;
        append_line(&mut self.line, place, &frame, out)
    }
}

// No line was spelled yet.
fn new_lines(alloc: Global) -> Lines {
    let line = String::new(alloc);
    Lines { line }
}

/// Appends the line of each frame of `input`, in order: the place of its first byte, its number, its party and its body. What was
/// appended before an `Err` stays: at `Frame` the lines of all frames before the fault, at `NoMemory` those of some of the first frames.
/// The lines are this profile's own.
pub fn show(alloc: Global, input: &[u8], out: &mut Vec<u8>) -> Result<(), SliceFault>
    // The input is frames and a rest that begins with none,
    ensures stream { (frames : List FrameParts) × (rest : List ℕ) × FramesOf input.now frames rest }
    // and of these frames are the lines.
    ensures ok { (frames : List FrameParts) (rest : List ℕ) → FramesOf input.now frames rest →
        OnOk result (AppendsAll lines_of frames rest out.old.items out.new.items) }
    ensures fault { (frames : List FrameParts) (rest : List ℕ) → FramesOf input.now frames rest →
        IfErr result (Fails lines_of frames rest out.old.items out.new.items) }
{
    match handle_slice(alloc, new_lines(alloc), input, out) {
        Ok(_) => Ok(()),
        Err(fault) => Err(fault),
    }
}

/// The same of the frames that `reader` has, and gives the count of the frames: reads at most 65,536 bytes at a time, and writes
/// and flushes the lines of the frames that are there before it reads on, so that it takes no more memory however long the
/// stream. The lines of the frames before an `Err` are written, at `Output` a front of them. The reader failed at `Input` and at no other
/// end, the writer at `Output`. Of a reader or a writer that
/// doesn't tell its bytes nothing is said.
pub fn show_from<R: Read, W: Write>(
    alloc: Global,
    reader: &mut Counted<R>,
    writer: &mut Counted<W>,
) -> Result<u64, StreamFault>
    ensures streams { IsStreamed AreLines (R.remaining reader.old.inner) (R.remaining reader.new.inner) (W.contents writer.old.inner)
        (W.contents writer.new.inner) result }
    // A device that failed is told, and no other: the reader failed at `Input` and at no other end, the writer at `Output`.
    ensures reader { TellsReader reader.old.faults reader.new.faults result }
    ensures writer { TellsWriter writer.old.faults writer.new.faults result }
{
    handle_stream(alloc, new_lines(alloc), reader, writer)
}
