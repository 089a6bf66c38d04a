//! What a process does with the store in a file.
ghost use Rattle.std.specs.Prelude.{◌≡◌};
ghost use Rattle.csi_replay.specs.Private.Closing.{ending_done, ending_closed};

use csi_orchestration::{asked_nodes, orchestrator};
use csi_plugins::{AskedPlugin, asked_session, ending_unopened, plugin, record};
use csi_sqlite::{OverStore, over_file, over_found};
use csi_stores::{Counted, Keep, KeepFault};
use csi_streams::Ending;
use csi_types::NodeId;
use std::rt::Files;
use std::{fs, io};

// What serves over a store: a plugin; or the orchestrator of these nodes, in the next session, or in this one, where that is later.
#[derive(Drop)]
enum Asked {
    Plugin(AskedPlugin),
    Orchestrator { nodes: Vec<NodeId>, least: u64 },
}

// Serves standard input to standard output.
impl OverStore<Ending> for Asked {
    fn run<K: Keep>(self, rt: &HostRuntime, keep: &mut K) -> Ending {
        let alloc = rt.alloc();
        let mut reader = Counted::new(rt.stdin());
        let mut writer = Counted::new(rt.stdout());
        match self {
            Asked::Plugin(asked) => plugin(alloc, asked, keep, &mut reader, &mut writer),
            Asked::Orchestrator { nodes, least } => {
                orchestrator(alloc, nodes, least, keep, &mut reader, &mut writer)
            }
        }
    }
}

// How a process ends that did all, once its store was closed so.
fn done(closing: Result<(), KeepFault>) -> Ending
    ensures { result ≡ ending_done closing }
{
    match closing {
        Ok(()) => Ending::Done,
        Err(KeepFault::NoMemory) => Ending::Memory,
        Err(_) => Ending::Device,
    }
}

/// How a process ends whose stores were closed so: that a log couldn't be put back is told where nothing else is.
pub(crate) fn closed(ending: Ending, closing: Result<(), KeepFault>) -> Ending
    ensures { result ≡ ending_closed ending closing }
{
    match ending {
        Ending::Done => done(closing),
        other => other,
    }
}

// Serves over the store in this file.
fn serve_from(rt: &HostRuntime, path: &str, asked: Asked) -> Ending {
    match over_file(rt, path, asked) {
        Ok((ending, closing)) => closed(ending, closing),
        Err(fault) => ending_unopened(fault),
    }
}

/// The controller plugin under the configuration in this file.
pub(crate) fn controller_of(
    rt: &(impl Files + AllocGlobal),
    path: &str,
) -> Result<AskedPlugin, Ending> {
    match fs::read(rt, path) {
        Ok(input) => AskedPlugin::of_config(rt.alloc(), input.as_slice()),
        Err(error) => Err(Ending::of_device(error.kind())),
    }
}

/// The nodes of the configuration in this file.
pub(crate) fn nodes_of(rt: &(impl Files + AllocGlobal), path: &str) -> Result<Vec<NodeId>, Ending> {
    match fs::read(rt, path) {
        Ok(input) => asked_nodes(rt.alloc(), input.as_slice()),
        Err(error) => Err(Ending::of_device(error.kind())),
    }
}

/// Serves standard input to standard output, by the controller plugin under the configuration in the file at `config`, over the store
/// in the SQLite file at `store`, which is made where there is none. The answer is how the process ends: `Device` or `Memory` where
/// that file can't be read, or as `AskedPlugin::of_config` says; `StoreNotOpened`, or `Memory` where that was the cause; and then
/// as `plugin` says, but `Device` in place of `Done`, or `Memory`, where the log couldn't be put back: then each commit is in the
/// file and its log, and not in the file alone. The store is opened after the configuration was taken, and standard input is
/// read after that. This profile's own.
pub fn serve_controller(rt: &HostRuntime, store: &str, config: &str) -> Ending {
    match controller_of(rt, config) {
        Ok(asked) => serve_from(rt, store, Asked::Plugin(asked)),
        Err(ending) => ending,
    }
}

/// Serves by the plugin of the node that has this id and joined with the session that this word says, as `serve_controller` does, or ends as
/// `AskedPlugin::of_id` says. This profile's own.
pub fn serve_node(rt: &HostRuntime, store: &str, id: &str, session: Option<&str>) -> Ending {
    match AskedPlugin::of_id(rt.alloc(), id, session) {
        Ok(asked) => serve_from(rt, store, Asked::Plugin(asked)),
        Err(ending) => ending,
    }
}

// The orchestrator of the nodes of the configuration in this file, from the session on that this word says.
fn orchestrator_of(rt: &HostRuntime, path: &str, session: Option<&str>) -> Result<Asked, Ending> {
    let least = asked_session(rt.alloc(), session)?;
    let nodes = nodes_of(rt, path)?;
    Ok(Asked::Orchestrator { nodes, least })
}

/// Serves by the orchestrator of the nodes of the configuration in the file at `config`, as `serve_controller` does, in the session that this
/// word says, where that is later than the store's next one; or ends as `asked_session` or `asked_nodes` says; once the store is open, as
/// `orchestrator` says. This profile's own.
pub fn serve_orchestrator(
    rt: &HostRuntime,
    store: &str,
    config: &str,
    session: Option<&str>,
) -> Ending {
    match orchestrator_of(rt, config, session) {
        Ok(asked) => serve_from(rt, store, asked),
        Err(ending) => ending,
    }
}

// Tells what a store has.
#[derive(Drop)]
struct Telling;

impl OverStore<Ending> for Telling {
    fn run<K: Keep>(self, rt: &HostRuntime, keep: &mut K) -> Ending {
        let mut out = Counted::new(io::writer(rt));
        record(rt.alloc(), keep, &mut out)
    }
}

/// Writes what the store in the SQLite file at this path has to standard output, and answers how the process ends: as `record` says,
/// or `StoreNotOpened` where there is no store, or `Memory` where that was the cause. The file and the log beside it are only read.
/// This profile's own.
pub fn tell(rt: &HostRuntime, path: &str) -> Ending {
    match over_found(rt, path, Telling) {
        Ok(ending) => ending,
        Err(fault) => ending_unopened(fault),
    }
}
