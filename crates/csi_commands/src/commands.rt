//! The commands that read a file.
ghost use Rattle.std.specs.Prelude.{List, ℕ, ◌≡◌};
ghost use Rattle.csi_types.specs.Model.Frame.{Frame};
ghost use Rattle.csi_frames.specs.Public.Stream.{FramesOf};
ghost use Rattle.csi_commands.specs.Public.Ending.{EndsAs, RunsAs};
ghost use Rattle.csi_commands.specs.Private.Ending.{ending_of_answer};

use crate::drawing::Draws;
use crate::running::play;
use csi_streams::{Ending, FileCommand, SliceFault, answer, show};
use std::alloc::Global;

// The ending where not all frames were answered or shown.
fn ending_of(fault: SliceFault) -> Ending
    ensures { result ≡ ending_of_answer fault }
{
    match fault {
        SliceFault::Frame(kind, place) => Ending::FrameFault(kind, place),
        SliceFault::NoMemory => Ending::Memory,
    }
}

/// Carries the command out on the bytes of a file, and appends to `out` what goes to standard output. What was appended
/// before a fault stays; of a schedule that is all that the command gives, or nothing. The ending is never `Usage` nor
/// `Device`.
pub fn file<D: Draws>(
    alloc: Global,
    command: FileCommand,
    input: &[u8],
    out: &mut Vec<u8>,
) -> Ending
    ensures frames { (frames : List Frame) (rest : List ℕ) → FramesOf input.now frames rest →
        EndsAs command frames rest out.old.items out.new.items result }
    ensures run { RunsAs D.draws command input.now out.old.items out.new.items result }
{
    match command {
        FileCommand::Answer => match answer(alloc, input, out) {
            Ok(_) => Ending::Done,
            Err(fault) => ending_of(fault),
        },
        FileCommand::Show => match show(alloc, input, out) {
            Ok(()) => Ending::Done,
            Err(fault) => ending_of(fault),
        },
        FileCommand::Schedule(command) => match play::<D>(alloc, command, input, out) {
            Ok(()) => Ending::Done,
            Err(ending) => ending,
        },
    }
}
