//! Two runs over one store.
ghost use Rattle.std.specs.Prelude.{List};
ghost use Rattle.csi_stores.specs.Public.Part.{StoredPart};
ghost use Rattle.csi_orchestration.specs.Public.LinesAnswering.{AnswersInRecord};
ghost use Rattle.csi_orchestration.specs.Public.LinesRuns.{LinesRunsLaw};

use crate::responder::Responder;
use csi_stores::Keep;
use std::io::{Read, Write};

/// A responder that can be opened again from its store. This profile's own.
pub trait StoredResponder: Responder {
    /// Of a store with this content opening makes this, whose parts the store has then.
    ghost opens: { List StoredPart → Self → Type 0 };
}

/// A law, and nothing that runs: two runs over one store, one after another, each by a process of its own and so over a keeper of its own,
/// however each ended, are one run, in which the responder was opened again between: as many of the first run's lines as were committed, or
/// those too that were answered behind them, where their commit was refused, led to some parts, and the second run's responder is what
/// opening makes of these. It asks that the store had a content, and is honest after each run, and that the responder was opened for each;
/// and of the file system, that between the two the second process finds one of the contents that the first may have left (`Reopens`).
/// This profile's own.
pub fn lines_runs_law<C: StoredResponder, K: Keep, L: Keep, R: Read, W: Write>()
    ensures { LinesRunsLaw (record {
      opens = C.opens;
      answers = AnswersInRecord C.is_fit C.spells C.parts_of C.answers;
      parts_of = C.parts_of;
      is_older = C.is_older;
      seen = K.store;
      remaining = R.remaining;
      contents = W.contents;
    }) L.store }
{}
