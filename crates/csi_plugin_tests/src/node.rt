//! The node plugin. What it is to answer comes from the table of the lifecycle, written out.
mod full;
mod growths;
mod lent;
mod sessions;
mod table;

use crate::playing::{Ask, PlayedPlugin, frame_of};
use crate::values::{Told, device, node_id, reply, room, target, volume_id};
use csi_node::{CoreFault, Node, NodeRecord, NodeRow, NodeTarget, Published, Staged};
use csi_types::{Frame, Kind, Mode, Number, Status, VolumeId};
use std::alloc::Global;
use std::process::Abort;

// A mode for one node, in which a volume has one target.
const ONE: Mode = Mode::SingleNodeWriter;

// A mode for several nodes, in which it may have more.
const MANY: Mode = Mode::MultiNodeMultiWriter;

// The two modes for one node that tell the writers there.
const ONE_WRITER: Mode = Mode::SingleNodeSingleWriter;

const TWO_WRITERS: Mode = Mode::SingleNodeMultiWriter;

// A volume as a test writes it: its id, the mode in which it is staged, if it is, where it is published and whether for reading alone, the
// session and the number of its last call, which was answered OK, and that call's kind.
type Volume = (
    u64,
    Option<Mode>,
    &'static [(&'static str, bool)],
    (u64, u64),
    Kind,
);

// The volume's row.
fn row_of(rt: &(impl Abort + AllocGlobal), (id, staged, published, last, kind): Volume) -> NodeRow {
    let mut targets = room(rt, published.len());
    for (text, readonly) in published {
        let target = target(rt, text);
        let readonly = *readonly;
        targets
            .push(NodeTarget { target, readonly })
            .expect(rt, "room");
    }
    NodeRow {
        id: volume_id(rt, id),
        staged: match staged {
            Some(mode) => Some(device(rt, mode)),
            None => None,
        },
        targets,
        last: Number {
            session: last.0,
            call: last.1,
        },
        kind,
        reply: reply(rt, (Status::Ok, None, "")),
    }
}

// The rows of these volumes.
fn rows_of(rt: &(impl Abort + AllocGlobal), all: &[Volume]) -> Vec<NodeRow> {
    let mut rows = room(rt, all.len());
    for one in all {
        rows.push(row_of(rt, *one)).expect(rt, "room");
    }
    rows
}

/// A node `n1` that has answered nothing, and joined with this session.
pub(crate) fn new_node(rt: &(impl Abort + AllocGlobal), session: u64) -> Node {
    Node::new(rt.alloc(), node_id(rt, "n1"), session)
}

// The node's record, asked for once more where memory was refused.
fn record_of(rt: &impl Abort, node: &Node) -> NodeRecord {
    match node.record() {
        Ok(record) => record,
        Err(CoreFault::NoMemory) => node.record().expect(rt, "memory"),
    }
}

fn is_same_record(a: &NodeRecord, b: &NodeRecord) -> bool {
    a.id() == b.id() && a.session() == b.session() && a.rows() == b.rows()
}

impl PlayedPlugin for Node {
    fn answer_in_the_end<R: Abort + AllocGlobal>(
        &mut self,
        rt: &R,
        frame: &Frame,
    ) -> Option<Frame> {
        let before = record_of(rt, self);
        let first = self.step(frame);
        if first.is_err() {
            let after = record_of(rt, self);
            assert!(rt; is_same_record(&after, &before));
            drop(after);
        }
        drop(before);
        match first {
            Ok(answer) => answer,
            Err(CoreFault::NoMemory) => self.step(frame).expect(rt, "memory"),
        }
    }

    fn left_in_the_end<R: Abort>(&self, rt: &R) -> (u64, usize, Vec<VolumeId>) {
        let empty = match self.forgettable() {
            Ok(ids) => ids,
            Err(CoreFault::NoMemory) => self.forgettable().expect(rt, "memory"),
        };
        (self.session(), self.row_count(), empty)
    }
}

// Whether these rows' volumes are what is staged, in their order.
fn are_staged(all: &[Staged], rows: &[NodeRow]) -> bool {
    let mut place = 0usize;
    for row in rows {
        if let Some(staged) = &row.staged {
            match all.get(place) {
                Some(found) if found.id == row.id && found.capability == *staged => {}
                _ => return false,
            }
            place = place.saturating_add(1);
        }
    }
    all.len() == place
}

// Whether the target is one of this row.
fn is_published(found: &Published, row: &NodeRow, target: &NodeTarget) -> bool {
    let is_staged = match &row.staged {
        Some(staged) => found.capability == *staged,
        None => false,
    };
    let is_target = found.target == target.target && found.readonly == target.readonly;
    is_staged && found.id == row.id && is_target
}

// Whether these rows' targets are what is published, in their order.
fn are_published(all: &[Published], rows: &[NodeRow]) -> bool {
    let mut place = 0usize;
    for row in rows {
        for target in row.targets.iter() {
            match all.get(place) {
                Some(found) if is_published(found, row, target) => {}
                _ => return false,
            }
            place = place.saturating_add(1);
        }
    }
    all.len() == place
}

// Whether these rows are all that the node's lists and its record tell, in the end.
fn tells_rows(rt: &impl Abort, node: &Node, rows: &[NodeRow]) -> bool {
    let staged = match node.staged() {
        Ok(staged) => staged,
        Err(CoreFault::NoMemory) => node.staged().expect(rt, "memory"),
    };
    let is_staged = are_staged(&staged, rows);
    drop(staged);
    let published = match node.published() {
        Ok(published) => published,
        Err(CoreFault::NoMemory) => node.published().expect(rt, "memory"),
    };
    let is_published = are_published(&published, rows);
    drop(published);
    let record = record_of(rt, node);
    let is_kept = record.id().as_str() == "n1" && record.rows() == rows;
    drop(record);
    is_staged && is_published && is_kept
}

// The copy of the row of this id, in the end.
fn row_in_the_end(rt: &impl Abort, node: &Node, id: u64) -> Option<NodeRow> {
    match node.row(volume_id(rt, id)) {
        Ok(row) => row,
        Err(CoreFault::NoMemory) => node.row(volume_id(rt, id)).expect(rt, "memory"),
    }
}
