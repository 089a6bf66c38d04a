//! The commands on a reader and a writer.
ghost use Rattle.std.specs.Prelude.{◌≡◌};
ghost use Rattle.csi_commands.specs.Public.Streaming.{StreamsAs, TellsDevice};
ghost use Rattle.csi_commands.specs.Private.Streaming.{ReadsWhole, ending_of_stream, ending_of_written};
ghost use Rattle.csi_streams.specs.declared.command.FileCommand.TheVariants as commands;

use crate::drawing::Draws;
use crate::running::play;
use csi_stores::{Counted, WriteFailed, write_out};
use csi_streams::{Ending, FileCommand, ScheduleCommand, StreamFault, answer_from, show_from};
use std::alloc::Global;
use std::io::{Read, Write};

/// The most bytes that are read at once: as many as a pipe of Linux holds.
const READ: usize = 65_536;

// The ending where a stream of frames ended so.
fn ended(streamed: Result<u64, StreamFault>) -> Ending
    ensures { result ≡ ending_of_stream streamed }
{
    match streamed {
        Ok(_) => Ending::Done,
        Err(StreamFault::Frame(kind, place)) => Ending::FrameFault(kind, place),
        Err(StreamFault::NoMemory) => Ending::Memory,
        Err(StreamFault::Input) | Err(StreamFault::Output) => Ending::Device,
        Err(StreamFault::Endless) => Ending::Endless,
    }
}

// The ending where what a schedule gives was written, or not.
fn written(given: Result<(), WriteFailed>) -> Ending
    ensures { result ≡ ending_of_written given }
{
    match given {
        Ok(()) => Ending::Done,
        Err(WriteFailed) => Ending::Device,
    }
}

// Appends all bytes that a reader has.
fn read_whole<R: Read>(input: &mut Counted<R>, bytes: &mut Vec<u8>) -> Result<(), Ending>
    ensures { ReadsWhole (R.remaining input.old.inner) (R.remaining input.new.inner) input.old.faults input.new.faults bytes.old.items bytes.new.items result }
{
    let mut piece = [0; READ];
    'pieces: loop {
        match input.read(&mut piece) {
            Ok(0) => return Ok(()),
            Ok(n) => bytes.extend_from_slice(piece.split_at(n).0)?,
            Err(_) => return Err(Ending::Device),
        }
    }
}

// Runs the schedule that a reader has.
fn play_from<D: Draws, R: Read, W: Write>(
    alloc: Global,
    command: ScheduleCommand,
    input: &mut Counted<R>,
    out: &mut Counted<W>,
) -> Ending
    ensures streams { StreamsAs D.draws (commands.Schedule command) (R.remaining input.old.inner) (R.remaining input.new.inner)
        (W.contents out.old.inner) (W.contents out.new.inner) result }
    ensures device { TellsDevice input.old.faults input.new.faults out.old.faults out.new.faults result }
{
    let mut bytes = Vec::new(alloc);
    match read_whole(input, &mut bytes) {
        Ok(()) => {}
        Err(ending) => return ending,
    }
    let mut given = Vec::new(alloc);
    match play::<D>(alloc, command, &bytes, &mut given) {
        Ok(()) => written(write_out(out, &given)),
        Err(ending) => ending,
    }
}

/// Does with the bytes of a reader what `file` does with the bytes of a file, and writes to `out`, and flushes, what `file`
/// appends. Frames are read in pieces of at most 65,536 bytes, and what is given for the frames that are there is written before
/// more is read; a schedule is read whole, and what it gives is written at the end. `Device` says that the reader or the writer
/// failed, as neither did at any other ending, and then a front of what `file` would append is written; `Endless` that the
/// frames' reader gave 2^63 bytes, and then all is written that is given for the frames that are there; the ending is never
/// `Usage`. Of a reader or a writer that doesn't tell its bytes nothing is said.
pub fn stream<D: Draws, R: Read, W: Write>(
    alloc: Global,
    command: FileCommand,
    input: &mut Counted<R>,
    out: &mut Counted<W>,
) -> Ending
    ensures streams { StreamsAs D.draws command (R.remaining input.old.inner) (R.remaining input.new.inner) (W.contents out.old.inner)
        (W.contents out.new.inner) result }
    ensures device { TellsDevice input.old.faults input.new.faults out.old.faults out.new.faults result }
{
    match command {
        FileCommand::Answer => ended(answer_from(alloc, input, out)),
        FileCommand::Show => ended(show_from(alloc, input, out)),
        FileCommand::Schedule(command) => play_from::<D, R, W>(alloc, command, input, out),
    }
}
