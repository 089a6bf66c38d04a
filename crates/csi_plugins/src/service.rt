//! A plugin, served.
ghost use Rattle.csi_service.specs.Public.Answering.{AnswersInRecord};
ghost use Rattle.csi_plugins.specs.Public.Service.{IsServed, streams};

use crate::ending::ending_of_serving;
use csi_service::{Core, Counted, Keep, serve};
use csi_streams::Ending;
use std::alloc::Global;
use std::io::{Read, Write};

/// Serves the reader's frames by this core over its store, and answers how the process of the plugin ends.
pub(crate) fn served<C: Core, K: Keep, R: Read, W: Write>(
    alloc: Global,
    core: C,
    keep: &mut K,
    reader: &mut Counted<R>,
    writer: &mut Counted<W>,
) -> Ending
    ensures serves { IsServed (AnswersInRecord C.is_fit C.spells C.parts_of C.answers) C.parts_of core (K.store keep.old) (K.store keep.new)
        (streams R.remaining W.contents reader.old reader.new writer.old writer.new) result }
    ensures honest { (K.store keep.new).honest → (K.store keep.old).honest }
{
    ending_of_serving(serve(alloc, core, keep, reader, writer))
}
