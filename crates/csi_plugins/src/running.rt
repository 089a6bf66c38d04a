//! A plugin's process, but for what it asks of the system.
ghost use Rattle.std.specs.Prelude.{ℕ};
ghost use Rattle.csi_plugins.specs.Public.Service.{streams};
ghost use Rattle.csi_plugins.specs.Public.Ending.{EndsAt};
ghost use Rattle.csi_plugins.specs.Public.Running.{ControllerRuns, NodeRuns, PluginRuns};

use crate::ending::{ending_of_node, ending_of_store};
use crate::kind::AskedPlugin;
use crate::service::served;
use csi_service::{ControllerService, Counted, Keep, NodeService};
use csi_streams::Ending;
use csi_types::{Config, NodeId};
use std::alloc::Global;
use std::io::{Read, Write};

// Opens the controller from its store, and serves.
fn run_controller<K: Keep, R: Read, W: Write>(
    alloc: Global,
    config: Config,
    keep: &mut K,
    reader: &mut Counted<R>,
    writer: &mut Counted<W>,
) -> Ending
    ensures runs { ControllerRuns K.store config keep.old keep.new (streams R.remaining W.contents reader.old reader.new writer.old writer.new) result }
    ensures honest { (K.store keep.new).honest → (K.store keep.old).honest }
    ensures foreign { (K.store keep.new).honest → (place : ℕ) → (K.store keep.old).foreign place → EndsAt place result }
{
    match ControllerService::open(alloc, config, keep) {
        Ok(core) => served(alloc, core, keep, reader, writer),
        Err(fault) => ending_of_store(fault),
    }
}

// Opens the node from its store, and serves.
fn run_node<K: Keep, R: Read, W: Write>(
    alloc: Global,
    id: NodeId,
    session: u64,
    keep: &mut K,
    reader: &mut Counted<R>,
    writer: &mut Counted<W>,
) -> Ending
    ensures runs { NodeRuns K.store id session keep.old keep.new (streams R.remaining W.contents reader.old reader.new writer.old writer.new) result }
    ensures honest { (K.store keep.new).honest → (K.store keep.old).honest }
    ensures foreign { (K.store keep.new).honest → (place : ℕ) → (K.store keep.old).foreign place → EndsAt place result }
{
    match NodeService::open(alloc, id, session, keep) {
        Ok(core) => served(alloc, core, keep, reader, writer),
        Err(why) => ending_of_node(why),
    }
}

/// Opens the plugin from its store and serves the reader's frames, each reply written after its commit, until the input ends or
/// something is refused; the answer is how that is told. Where the store can't be opened nothing is read nor written: `Device` where
/// the device failed or the store is full, `RecordFault` with the first part that is none of this plugin's record, `EarlierSession`
/// where a node's record is of an earlier session than that of its joining, and then nothing is changed, and `Memory`. Else `Done`,
/// or `FrameFault` with the place in the input, `Endless`, `Memory`, or `Device` where the reader, the writer or the store failed.
/// What was committed and written before a fault stays. A store that has no list of parts ends it by `RecordFault`, with the place of
/// the first thing that is none, unless the device fails before or memory is wanted; and a store that is honest afterwards was
/// before. This profile's own.
pub fn plugin<K: Keep, R: Read, W: Write>(
    alloc: Global,
    plugin: AskedPlugin,
    keep: &mut K,
    reader: &mut Counted<R>,
    writer: &mut Counted<W>,
) -> Ending
    ensures runs { PluginRuns K.store plugin keep.old keep.new (streams R.remaining W.contents reader.old reader.new writer.old writer.new) result }
    ensures honest { (K.store keep.new).honest → (K.store keep.old).honest }
    ensures foreign { (K.store keep.new).honest → (place : ℕ) → (K.store keep.old).foreign place → EndsAt place result }
{
    match plugin {
        AskedPlugin::Controller(config) => run_controller(alloc, config, keep, reader, writer),
        AskedPlugin::Node { id, session } => run_node(alloc, id, session, keep, reader, writer),
    }
}
