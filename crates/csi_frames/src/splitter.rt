//! A stream that comes in pieces, split into its frames.
ghost use Rattle.std.specs.Prelude.{◌≡◌, ◌≤◌, ◌*◌, Option, Result, length, IfOk, IfNone, OnOk, OnErr, IsOk, IsSome, vec_len};
ghost use Rattle.std.specs.Borrow.{sem};
ghost use Rattle.std.specs.Io.BufRead.{Rests};
ghost use Rattle.csi_types.specs.Model.Frame.{Frame as Parts};
ghost use Rattle.csi_frames.specs.declared.fault.FrameFault.{FrameFault as Fault};
ghost use Rattle.csi_frames.specs.Public.Progress.{progress_shown};
ghost use Rattle.csi_frames.specs.Public.Splitting.{new_splitting, after_feed, after_next, end_of, most_held, IsNextFrame};

use crate::fault::{FaultKind, FrameFault};
use crate::frame_ref::FrameRef;
use crate::progress::Progress;
use csi_types::NoMemory;
use std::alloc::Global;
use std::marker::Model;

/// The frames of a stream that comes in pieces: fed any pieces, it gives the frames of all of them together, wherever they
/// were cut. A contract sees the bytes that it keeps, the count of those that frames took, and the fault that it answered. Its
/// buffer never holds more than twice the bytes that it keeps, and 2,568. This profile's own.
#[derive(Drop)]
pub struct Splitter {
    buffer: Vec<u8>,
    progress: Progress,
}

impl Model for Splitter {
    ghost use Rattle.std.specs.Prelude.{vec_len};
    ghost use Rattle.csi_frames.specs.Public.Splitting.{Splitting, IsHeldInFew};
    ghost use Rattle.csi_frames.specs.Public.Progress.{progress_shown};

    ghost Value = { Splitting };

    ghost view = { λ splitter. progress_shown splitter.progress splitter.buffer.items };

    ghost invariant = { λ splitter. IsHeldInFew splitter.progress.start (vec_len splitter.buffer) };
}

// Moves what is kept to the front once the frames before it took no fewer bytes. So all moves together move no more bytes
// than frames took.
fn compact(buffer: &mut Vec<u8>, progress: &mut Progress)
    requires { progress.old.start ≤ vec_len buffer.old }
    ensures same { progress_shown progress.new buffer.new.items ≡ progress_shown progress.old buffer.old.items }
    ensures few { 2 * progress.new.start ≤ vec_len buffer.new }
{
    let start = progress.start;
    let left = buffer.len() - start;
    if left <= start {
        buffer.copy_within(start.., 0);
        buffer.truncate(left);
        progress.start = 0;
    }
}

impl Splitter {
    ghost use Rattle.csi_frames.specs.contracts.splitter.Splitter.{the_row};
    ghost use Rattle.csi_frames.specs.Public.Lent.{lent_answer};

    /// Nothing was fed yet. It takes no memory.
    pub fn new(alloc: Global) -> Splitter
        ensures { result ≡ new_splitting }
    {
        Splitter {
            buffer: Vec::new(alloc),
            progress: Progress {
                start: 0,
                taken: 0,
                fault: None,
            },
        }
    }

    /// Puts a piece of the stream, of any length, behind the bytes that are kept. Once `next` answered a fault it succeeds, keeps
    /// nothing of the piece and takes no memory. A refusal leaves the splitter as it was.
    pub fn feed(&mut self, piece: &[u8]) -> Result<(), NoMemory>
        ensures ok { OnOk result (self.new ≡ after_feed self.old piece.now) }
        ensures err { OnErr result (self.new ≡ self.old) }
        ensures faulty { IsSome self.old.fault → IsOk result }
    {
        if self.progress.fault.is_some() {
            return Ok(());
        }
        compact(&mut self.buffer, &mut self.progress);
        self.buffer.extend_from_slice(piece)?;
        Ok(())
    }

    /// The frame that the kept bytes begin with, which it takes off their front; `None` where they are fewer than a length
    /// and its body take, of which only a length above 1280 is judged before they are whole, and then at most 1,283 are
    /// kept; or their first fault, never `Short`, with its place counted from the first of them, and that fault
    /// from then on. It takes no memory.
    #[inline(always)]
    pub fn next(&mut self) -> Result<Option<FrameRef<'_>>, FrameFault>
        ensures* rests { sem 𝓛 (Rests the_row self.entry (λ new. new ≡ after_next self.old (lent_answer result))) }
        ensures next { IsNextFrame self.old.fault self.old.kept (lent_answer result) }
        ensures only { (other : Result (Option Parts) Fault) → IsNextFrame self.old.fault self.old.kept other → lent_answer result ≡ other }
        ensures few { IfOk result (λ next. IfNone next (length self.old.kept ≤ 1283)) }
    {
        compact(&mut self.buffer, &mut self.progress);
        let buffer = self.buffer.as_slice();
        self.progress.next(buffer)
    }

    /// Whether the stream may end here: `Short` where bytes are kept, with their count as its place, also once `next` answered a
    /// fault. It takes no memory.
    pub fn end(&self) -> Result<(), FrameFault>
        ensures { result ≡ end_of self.now.kept }
    {
        match self.kept() {
            0 => Ok(()),
            place => Err(FrameFault {
                kind: FaultKind::Short,
                place,
            }),
        }
    }

    /// How many bytes the frames took that were given, up to 2^64 - 1. It takes no memory.
    pub fn taken(&self) -> u64
        ensures { result ≡ self.now.taken }
    {
        self.progress.taken
    }

    /// How many bytes are kept: those that no frame took, without those that were fed once `next` had answered a fault. It takes
    /// no memory.
    pub fn kept(&self) -> usize
        ensures { result ≡ length self.now.kept }
    {
        self.buffer.len() - self.progress.start
    }

    /// How many bytes its buffer holds: those that are kept, and those of frames that were given, which aren't moved away at once. It
    /// takes no memory.
    pub fn held(&self) -> usize
        ensures held { length self.now.kept ≤ result }
        ensures few { result ≤ most_held (length self.now.kept) }
    {
        self.buffer.len()
    }
}
