//! What a process does that makes an orchestrator's store of the plugins' stores in files, or a controller's of the orchestrator's.
use crate::stores::{closed, controller_of, nodes_of};
use csi_plugins::{Recovery, asked_session, ending_unopened, rebuild, recover};
use csi_sqlite::{OverStores, over_files_at};
use csi_stores::{Counted, Keep};
use csi_streams::Ending;
use csi_words::MadeOf;
use std::alloc::{AllocError, Global};
use std::io::ErrorKind;
use std::rt::Files;
use std::{fs, io};

// Recovers, over the new store, the controller's and the nodes', in this order.
#[derive(Drop)]
struct Recovering(Recovery);

impl OverStores<Ending> for Recovering {
    fn run<K: Keep>(self, rt: &HostRuntime, keeps: &mut [K]) -> Ending {
        let mut out = Counted::new(io::writer(rt));
        let Recovering(asked) = self;
        match keeps {
            [new, controller, nodes @ ..] => {
                recover(rt.alloc(), asked, new, controller, nodes, &mut out)
            }
            _ => Ending::StoreNotOpened,
        }
    }
}

// Makes a controller's store with this next id, over the new store, the orchestrator's and the nodes', in this order.
#[derive(Drop)]
struct Rebuilding(u64);

impl OverStores<Ending> for Rebuilding {
    fn run<K: Keep>(self, rt: &HostRuntime, keeps: &mut [K]) -> Ending {
        let mut out = Counted::new(io::writer(rt));
        let Rebuilding(next_id) = self;
        match keeps {
            [new, orchestrator, nodes @ ..] => {
                rebuild(rt.alloc(), next_id, new, orchestrator, nodes, &mut out)
            }
            _ => Ending::StoreNotOpened,
        }
    }
}

// What is asked for by the file of the configuration and the word of the session.
fn asked(rt: &HostRuntime, words: &MadeOf<'_>) -> Result<Recovery, Ending> {
    let known = asked_session(rt.alloc(), Some(words.number))?;
    let nodes = nodes_of(rt, words.config)?;
    Ok(Recovery { nodes, known })
}

// The next id that the word says, once the file of the configuration says one.
fn asked_next(rt: &HostRuntime, words: &MadeOf<'_>) -> Result<u64, Ending> {
    let next_id = asked_session(rt.alloc(), Some(words.number))?;
    let _plugin = controller_of(rt, words.config)?;
    Ok(next_id)
}

// Whether there is a file at this path: opening its store would make one.
fn look_for(rt: &(impl Files + AllocGlobal), path: &str) -> Result<(), Ending> {
    match fs::metadata(rt, path) {
        Ok(_) => Ok(()),
        Err(error) => match error.kind() {
            ErrorKind::OutOfMemory => Err(Ending::Memory),
            _ => Err(Ending::StoreNotOpened),
        },
    }
}

// Whether there is a file at each path but the new store's.
fn look_for_all(rt: &(impl Files + AllocGlobal), words: &MadeOf<'_>) -> Result<(), Ending> {
    look_for(rt, words.kept)?;
    for path in &words.nodes {
        look_for(rt, path)?;
    }
    Ok(())
}

// The paths of all stores: the new one's, the one that is kept and the nodes'.
fn all_paths<'a>(alloc: Global, words: &MadeOf<'a>) -> Result<Vec<&'a str>, AllocError> {
    let mut all = Vec::new(alloc);
    all.push(words.new)?;
    all.push(words.kept)?;
    for path in &words.nodes {
        all.push(*path)?;
    }
    Ok(all)
}

// Runs over the stores at the paths of these words, where there is a file at each but the new one's.
fn over_stores_at<F: OverStores<Ending> + Drop>(
    rt: &HostRuntime,
    words: &MadeOf<'_>,
    run: F,
) -> Result<Ending, Ending> {
    look_for_all(rt, words)?;
    let all = all_paths(rt.alloc(), words)?;
    match over_files_at(rt, &all, run) {
        Ok((ending, closing)) => Ok(closed(ending, closing)),
        Err(fault) => Err(ending_unopened(fault)),
    }
}

// Recovers over the stores at the paths of these words.
fn recovered_at(rt: &HostRuntime, words: &MadeOf<'_>) -> Result<Ending, Ending> {
    let asked = asked(rt, words)?;
    over_stores_at(rt, words, Recovering(asked))
}

// Makes a controller's store over those.
fn rebuilt_at(rt: &HostRuntime, words: &MadeOf<'_>) -> Result<Ending, Ending> {
    let next_id = asked_next(rt, words)?;
    over_stores_at(rt, words, Rebuilding(next_id))
}

/// Makes the store of an orchestrator in the SQLite file at `words.new`, which may be missing, with the nodes of the configuration in the file at
/// `words.config`, of the plugins' stores, which have to be there, and writes the line of what it made to standard output. The answer is how the
/// process ends: as `asked_session` or `asked_nodes` says; `StoreNotOpened` where one of the stores can't be opened, or isn't there, or
/// `Memory` where that was the cause; and then as `recover` says, but `Device` in place of `Done`, or `Memory`, where a log couldn't be
/// put back: then each commit is in its file and its log. This profile's own.
pub fn recover_at(rt: &HostRuntime, words: &MadeOf<'_>) -> Ending {
    match recovered_at(rt, words) {
        Ok(ending) => ending,
        Err(ending) => ending,
    }
}

/// Makes the store of a controller in the SQLite file at `words.new`, which may be missing, with the next id that the word says, of the orchestrator's
/// store, and holds the nodes' against it; they all have to be there; and writes the line of what it made to standard output. The answer is how the
/// process ends: as `asked_session` or `AskedPlugin::of_config` says; as `recover_at` where stores can't be opened; and then as `rebuild` says, but `Device` in
/// place of `Done`, or `Memory`, where a log couldn't be put back. This profile's own.
pub fn rebuild_at(rt: &HostRuntime, words: &MadeOf<'_>) -> Ending {
    match rebuilt_at(rt, words) {
        Ok(ending) => ending,
        Err(ending) => ending,
    }
}
