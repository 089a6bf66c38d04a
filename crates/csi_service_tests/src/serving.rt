//! How plugins are opened from stores and served.
use crate::turns::Turn;
use csi_json::{ScheduleFault, read_config};
use csi_service::{
    ControllerService, Counted, Keep, KeepFault, NodeService, NodeUnopened, ServeFault,
    ServeFaultKind, Served, serve,
};
use csi_stores::FailingReader;
use csi_types::{Config, NodeId};
use std::io::{Read, Write};
use std::process::Abort;

/// Which plugin it is: a controller of the nodes `n1` and `n2`, or the node `n1`.
#[derive(Clone, Copy)]
pub(crate) enum PluginKind {
    Controller,
    Node,
}

/// How a run ended: the store wasn't opened; so many frames were served, all of them; or so many were, and then it ended so.
#[derive(Clone, Copy, PartialEq)]
pub(crate) enum End {
    Unopened(KeepFault),
    Served(usize),
    Ended(usize, ServeFaultKind),
}

const CONFIG: &str =
    "{\"greatest\":1000,\"nodes\":[{\"id\":\"n1\",\"slots\":4},{\"id\":\"n2\",\"slots\":4}]}";

/// The controller's configuration. It is refused as out of memory only, and then read the second time.
pub(crate) fn config(rt: &(impl Abort + AllocGlobal)) -> Config {
    match read_config(rt.alloc(), CONFIG) {
        Err(ScheduleFault::NoMemory) => read_config(rt.alloc(), CONFIG).expect(rt, "memory"),
        first => first.expect(rt, "a configuration"),
    }
}

/// The node `n1` that joined with this session, of a store.
pub(crate) fn joined<K: Keep>(
    rt: &(impl Abort + AllocGlobal),
    keep: &mut K,
    session: u64,
) -> Result<NodeService, NodeUnopened> {
    let id = match NodeId::try_new(rt.alloc(), "n1") {
        Ok(id) => id,
        Err(_) => NodeId::try_new(rt.alloc(), "n1").expect(rt, "memory"),
    };
    NodeService::open(rt.alloc(), id, session, keep)
}

// How serving ended. Each frame has a reply.
fn end_of(rt: &impl Abort, ended: Result<Served, ServeFault>) -> End {
    match ended {
        Ok(served) => {
            assert!(rt; served.replies == served.frames);
            End::Served(served.frames as usize)
        }
        Err(fault) => End::Ended(fault.frames as usize, fault.kind),
    }
}

/// Opens the plugin of this store, and serves what the reader has. No store is of an earlier session than 0.
pub(crate) fn run<K: Keep, R: Read, W: Write>(
    rt: &(impl Abort + AllocGlobal),
    plugin: PluginKind,
    keep: &mut K,
    reader: &mut Counted<R>,
    writer: &mut Counted<W>,
) -> End {
    match plugin {
        PluginKind::Controller => match ControllerService::open(rt.alloc(), config(rt), keep) {
            Ok(core) => end_of(rt, serve(rt.alloc(), core, keep, reader, writer)),
            Err(fault) => End::Unopened(fault),
        },
        PluginKind::Node => match joined(rt, keep, 0) {
            Ok(core) => end_of(rt, serve(rt.alloc(), core, keep, reader, writer)),
            Err(NodeUnopened::Keep(fault)) => End::Unopened(fault),
            Err(NodeUnopened::EarlierSession) => panic!(rt; "a store of an earlier session"),
        },
    }
}

// Room for so many bytes. Where memory is refused it is made the second time.
fn room(rt: &(impl Abort + AllocGlobal), count: usize) -> Vec<u8> {
    match Vec::with_capacity(rt.alloc(), count) {
        Ok(bytes) => bytes,
        Err(_) => Vec::with_capacity(rt.alloc(), count).expect(rt, "memory"),
    }
}

/// The frames from one place to another, and what they are replied, one after another.
pub(crate) fn stream(
    rt: &(impl Abort + AllocGlobal),
    turn: &Turn,
    (from, to): (usize, usize),
) -> (Vec<u8>, Vec<u8>) {
    let mut frames = room(rt, 512);
    let mut replies = room(rt, 512);
    for (frame, reply) in turn.steps.get(from..to).expect(rt, "frames") {
        frames.extend_from_slice(frame).expect(rt, "room");
        replies.extend_from_slice(reply).expect(rt, "room");
    }
    (frames, replies)
}

/// A reader of these bytes, which gives so many at a time.
pub(crate) fn input(bytes: &[u8], most: usize) -> Counted<FailingReader<&[u8]>> {
    Counted::new(FailingReader::new(bytes, most, None))
}

/// Opens the turn's plugin of this store, and serves its frames from one on, of which so many bytes are read at a time; how that ended, where each frame
/// that was served is counted, also those before. What they are replied is written, and nothing else.
pub(crate) fn take<K: Keep>(
    rt: &(impl Abort + AllocGlobal),
    keep: &mut K,
    turn: &Turn,
    (from, most): (usize, usize),
) -> End {
    let (frames, _replies) = stream(rt, turn, (from, turn.steps.len()));
    let mut reader = input(&frames, most);
    let mut writer = Counted::new(room(rt, 512));
    let end = run(rt, turn.plugin, keep, &mut reader, &mut writer);
    let (end, to) = match end {
        End::Unopened(_) => (end, from),
        End::Served(count) => (End::Served(turn.steps.len()), from.saturating_add(count)),
        End::Ended(count, kind) => {
            let to = from.saturating_add(count);
            (End::Ended(to, kind), to)
        }
    };
    let (_frames, replies) = stream(rt, turn, (from, to));
    let written = writer.into_inner();
    assert!(rt; written.as_slice() == replies.as_slice());
    drop((written, replies));
    end
}

/// Why the plugin isn't opened of this store, if it isn't.
pub(crate) fn fault<K: Keep>(
    rt: &(impl Abort + AllocGlobal),
    plugin: PluginKind,
    keep: &mut K,
) -> Option<KeepFault> {
    let mut writer = Counted::new(Vec::new(rt.alloc()));
    let mut reader = input(&[], 1);
    let end = run(rt, plugin, keep, &mut reader, &mut writer);
    match end {
        End::Unopened(fault) => Some(fault),
        _ => {
            assert!(rt; end == End::Served(0));
            None
        }
    }
}
