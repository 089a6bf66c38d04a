//! Serving lines: the lines of the input that are there are answered, what they changed is committed, and then their answers are written.
ghost use Rattle.std.specs.Prelude.{◌≤◌, ◌^◌, ℕ, List, length};
ghost use Rattle.std.specs.Io.KnownBytes.{Consumes, IsAtEnd};
ghost use Rattle.csi_stores.specs.Public.Counting.{HasRisen};
ghost use Rattle.csi_stores.specs.Public.Stores.{FollowsStore};
ghost use Rattle.csi_service.specs.Public.Failing.{Stays};
ghost use Rattle.csi_orchestration.specs.Public.LinesAnswering.{AnswersInRecord};
ghost use Rattle.csi_orchestration.specs.Public.LinesFailing.{ReaderStaysAt, WriterStaysAt};
ghost use Rattle.csi_orchestration.specs.Public.LinesServing.{ServesLines, IsAllAnswered};

mod fault;
mod handling;

use crate::responder::Responder;
use csi_stores::{Counted, Keep};
use csi_streams::{Lines, Source, Waiting};
pub use fault::{LinesServeFault, LinesServeFaultKind, ServedLines};
use handling::{ResponderHandler, stopped};
use std::alloc::Global;
use std::io::Write;

/// The most bytes that are read at once.
const PIECE: usize = 16384;

/// Serves the lines that the reader has, without their newlines. The last line needs no newline, if it isn't empty; an empty line is a line.
/// At most 16,384 bytes are read at once, and all lines that are there are answered before more is read: one after another by the responder,
/// then what they changed is committed, in one transaction, and then their answers are written, each with a newline, and flushed. Where 1,024
/// parts wait, or there is no memory for a line, the lines before are committed and written first. Nothing is read once serving stops. What is
/// kept of the input is at most a line and a piece, so memory doesn't grow with the number of lines. The responder is spent at an `Err`: the
/// store is opened again.
///
/// Some bytes were read, which are lines and a rest; as many of the first lines were answered, one after another, as the result counts,
/// none of them longer than 65,536 bytes, and each led to the parts of a record, where all in the first responder was within its
/// limits. Where the store had the first responder's parts alone:
/// - at `Ok` these are all lines, the rest too, if it isn't empty; nothing is unread, the store has the last responder's parts, and
///   all answers are written;
/// - at `Input` and `Endless` too all lines are answered, committed and written, but for the rest, which is not too long; the reader
///   failed in this call, or 2^63 bytes were read;
/// - at `Long` all lines before that one;
/// - at `Output` the lines that are counted are committed, and of the answers to those that were committed last a front is written;
/// - at `Keep` opening the store again finds the parts of the last responder, or those that the next lines would have led to, all of them,
///   whose answers aren't written, and nothing else; the device failed in this call, or those parts don't fit;
/// - at `NoMemory` what is counted is committed and written, and nothing of the next line;
/// - at `OlderStore` too, and the next line told the responder that its store is an older one.
///
/// The reader failed at no end but `Input`, the writer at none but `Output`. A store that is honest after the call was before. The reader is
/// asked for more only where all lines that it gave are answered, committed and written: it may have a peer that waits for an answer. This
/// profile's own.
pub fn serve_lines<C: Responder, K: Keep, R: Source<K, Counted<W>>, W: Write>(
    alloc: Global,
    responder: C,
    keep: &mut K,
    reader: &mut R,
    writer: &mut Counted<W>,
) -> Result<ServedLines, LinesServeFault>
    requires asks { (gone : R) (read : List ℕ) (kept : K) (written : Counted W) → Consumes (R.remaining reader.old) (R.remaining gone) read →
        IsAllAnswered (AnswersInRecord C.is_fit C.spells C.parts_of C.answers) C.parts_of responder (K.store keep.old) (K.store kept)
        (W.contents writer.old.inner) (W.contents written.inner) read → R.may_read gone kept written }
    ensures serves { (bytes : List ℕ) × Consumes (R.remaining reader.old) (R.remaining reader.new) bytes
        × ServesLines (record {
          answers = AnswersInRecord C.is_fit C.spells C.parts_of C.answers;
          parts_of = C.parts_of;
          is_older = C.is_older;
          responder = responder;
          before = K.store keep.old;
          after = K.store keep.new;
          written_before = W.contents writer.old.inner;
          written_after = W.contents writer.new.inner;
          at_end = IsAtEnd (R.remaining reader.new);
          reader_failed = HasRisen (R.faults reader.old) (R.faults reader.new);
          writer_failed = HasRisen writer.old.faults writer.new.faults;
          endless = 2 ^ 63 ≤ length bytes;
        }) bytes result }
    ensures reader { Stays ReaderStaysAt (R.faults reader.old) (R.faults reader.new) result }
    ensures writer { Stays WriterStaysAt writer.old.faults writer.new.faults result }
    ensures follows { FollowsStore (K.store keep.old) (K.store keep.new) }
{
    let handler = ResponderHandler {
        responder,
        waiting: Waiting::new(alloc),
        is_older: false,
    };
    let mut lines = Lines::new(alloc, handler);
    let mut piece = [0; PIECE];
    match lines.read(keep, writer, reader, &mut piece) {
        Ok(()) => Ok(ServedLines {
            lines: lines.handler().waiting.committed,
        }),
        Err(stop) => {
            let handler = lines.handler();
            Err(stopped(stop, handler.is_older, handler.waiting.committed))
        }
    }
}
