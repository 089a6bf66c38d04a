//! Serving: the frames of the input that are there are answered, what they changed is committed, and then their replies are written.
ghost use Rattle.std.specs.Prelude.{◌≤◌, ◌^◌, ℕ, List, length};
ghost use Rattle.std.specs.Io.KnownBytes.{Consumes, IsAtEnd};
ghost use Rattle.csi_stores.specs.Public.Counting.{HasRisen};
ghost use Rattle.csi_service.specs.Public.Answering.{AnswersInRecord};
ghost use Rattle.csi_service.specs.Public.Failing.{Stays, ReaderStaysAt, WriterStaysAt};
ghost use Rattle.csi_stores.specs.Public.Stores.{FollowsStore};
ghost use Rattle.csi_service.specs.Public.Serving.{Serves, IsAllAnswered};

mod fault;
mod handling;

use crate::plugin_core::Core;
use csi_stores::{Counted, Keep};
use csi_streams::{Frames, Source, Waiting};
pub use fault::{ServeFault, ServeFaultKind, Served};
use handling::{CoreHandler, stopped};
use std::alloc::Global;
use std::io::Write;

/// The most bytes that are read at once.
const PIECE: usize = 4096;

/// Serves the frames that the reader has. At most 4,096 bytes are read at once, and all frames that are there are answered before more is
/// read: one after another by the core, then what they changed is committed, in one transaction, and then their replies are written and
/// flushed. Where 1,024 parts wait, or there is no memory for a frame, the frames before are committed and written first. Nothing is read once
/// serving stops. What is kept of the input is a rest that waits, so memory doesn't grow with the number of frames. The core is spent at an
/// `Err`: the store is opened again.
///
/// Some bytes were read, which are frames and a rest; as many of the first frames were answered, one after another, as the
/// result counts, and each led to the parts of a record, which can be opened again, where all in the
/// first core was within its limits. Where the store had the first core's parts alone:
/// - at `Ok` these are all frames, nothing is left over nor unread, the store has the last core's parts, and all replies are
///   written;
/// - at `Input`, `Frame` and `Endless` too all frames are answered, committed and written; the reader failed in this call, the
///   rest is at fault, or 2^63 bytes were read (at `Input` and `Endless` nothing is left over but what may begin a frame); where
///   the fault is `Short` nothing is left unread;
/// - at `Output` the frames that are counted are committed, and of the replies to those that were committed last a front is written;
/// - at `Keep` opening the store again finds the parts of the last core, or those that the next frames would have led to, all of them, whose
///   replies aren't written, and nothing else; the device failed in this call, or those parts don't fit;
/// - at `NoMemory` what is counted is committed and written, and nothing of the next frame.
///
/// The reader failed at no end but `Input`, the writer at none but `Output`. A store that is honest after the call was before. The reader is
/// asked for more only where all that it gave is answered, committed and written: it may have a peer that waits for a reply.
pub fn serve<C: Core, K: Keep, R: Source<K, Counted<W>>, W: Write>(
    alloc: Global,
    core: C,
    keep: &mut K,
    reader: &mut R,
    writer: &mut Counted<W>,
) -> Result<Served, ServeFault>
    requires asks { (gone : R) (read : List ℕ) (kept : K) (written : Counted W) → Consumes (R.remaining reader.old) (R.remaining gone) read →
        IsAllAnswered (AnswersInRecord C.is_fit C.spells C.parts_of C.answers) C.parts_of core (K.store keep.old) (K.store kept)
        (W.contents writer.old.inner) (W.contents written.inner) read → R.may_read gone kept written }
    ensures serves { (bytes : List ℕ) × Consumes (R.remaining reader.old) (R.remaining reader.new) bytes
        × Serves (record {
          answers = AnswersInRecord C.is_fit C.spells C.parts_of C.answers;
          parts_of = C.parts_of;
          core = core;
          before = K.store keep.old;
          after = K.store keep.new;
          written_before = W.contents writer.old.inner;
          written_after = W.contents writer.new.inner;
          at_end = IsAtEnd (R.remaining reader.new);
          reader_failed = HasRisen (R.faults reader.old) (R.faults reader.new);
          writer_failed = HasRisen writer.old.faults writer.new.faults;
          endless = 2 ^ 63 ≤ length bytes;
        }) bytes result }
    ensures reader { Stays ReaderStaysAt (R.faults reader.old) (R.faults reader.new) result }
    ensures writer { Stays WriterStaysAt writer.old.faults writer.new.faults result }
    ensures follows { FollowsStore (K.store keep.old) (K.store keep.new) }
{
    let handler = CoreHandler {
        core,
        waiting: Waiting::new(alloc),
    };
    let mut frames = Frames::new(alloc, handler);
    let mut piece = [0; PIECE];
    match frames.read(keep, writer, reader, &mut piece) {
        Ok(()) => Ok(Served {
            frames: frames.handler().waiting.committed,
            replies: frames.handler().waiting.answers,
        }),
        Err(stop) => Err(stopped(stop, frames.handler().waiting.committed)),
    }
}
