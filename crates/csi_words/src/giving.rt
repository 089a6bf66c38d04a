//! A text, written out.
ghost use Rattle.csi_words.specs.Public.Giving.{GivesText};

use csi_stores::{Counted, write_out};
use csi_streams::Ending;
use std::io::Write;

/// Writes this text, and flushes. `Device` says that the writer failed, which is counted, and then a front of the text is written. This
/// profile's own.
pub fn give_text<W: Write>(text: &str, out: &mut Counted<W>) -> Ending
    ensures { GivesText (W.contents out.old.inner) (W.contents out.new.inner) out.old.faults out.new.faults text.now result }
{
    match write_out(out, text.as_bytes()) {
        Ok(()) => Ending::Done,
        Err(_) => Ending::Device,
    }
}
