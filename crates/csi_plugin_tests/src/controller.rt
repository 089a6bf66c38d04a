//! The controller plugin. What it is to answer comes from the table of the lifecycle, written out.
mod calls;
mod compared;
mod full;
mod growths;
mod plain;
mod sessions;
mod worked;

use crate::playing::{Ask, PlayedPlugin};
use crate::values::{Told, block, blocks, config, name, node_id, reply, room, volume_id};
use csi_controller::{Controller, ControllerRecord, ControllerRow, CoreFault, NodeHolding};
use csi_types::{Frame, Kind, Mode, Number, Status, VolumeId};
use std::alloc::Global;
use std::process::Abort;

const B1: Mode = Mode::SingleNodeWriter;

const B3: Mode = Mode::MultiNodeReaderOnly;

const B4: Mode = Mode::MultiNodeSingleWriter;

const B6: Mode = Mode::SingleNodeSingleWriter;

const B7: Mode = Mode::SingleNodeMultiWriter;

// CreateVolume of `v` with 10 bytes in a mode for one node.
const MAKE: Ask = Ask::Create("v", 10, 0, &[B1]);

// What is answered where volume 1 was made or found, and the next.
const FIRST: Told = (Status::Ok, Some(1), "");

const SECOND: Told = (Status::Ok, Some(2), "");

const TAKEN: Told = (Status::AlreadyExists, None, "name");

const AT_N1: Told = (Status::FailedPrecondition, None, "n1");

const NO_NODE: Told = (Status::NotFound, None, "node");

// Where a volume is held, and how: its node, its mode, and whether it is for reading alone.
type Held = (&'static str, Mode, bool);

// A volume as a test writes it, of raw devices: where it is held, and the last call that was answered for it with what was told.
#[derive(Drop)]
struct Volume<'a> {
    id: u64,
    live: bool,
    name: &'a str,
    capacity: u64,
    modes: &'static [Mode],
    held: Vec<Held>,
    last: Number,
    kind: Kind,
    told: Told,
}

// A volume of 10 bytes for one node, which is held nowhere.
fn new_volume<'a>(
    rt: &impl AllocGlobal,
    id: u64,
    live: bool,
    name: &'a str,
    last: Number,
) -> Volume<'a> {
    Volume {
        id,
        live,
        name,
        capacity: 10,
        modes: &[B1],
        held: Vec::new(rt.alloc()),
        last,
        kind: Kind::CreateVolume,
        told: (Status::Ok, Some(id), ""),
    }
}

fn holdings_of(rt: &(impl Abort + AllocGlobal), all: &[Held]) -> Vec<NodeHolding> {
    let mut holdings = room(rt, all.len());
    for (node, mode, readonly) in all {
        let holding = NodeHolding {
            node: node_id(rt, node),
            capability: block(*mode),
            readonly: *readonly,
        };
        holdings.push(holding).expect(rt, "room");
    }
    holdings
}

// The volume's row.
fn row_of(rt: &(impl Abort + AllocGlobal), volume: &Volume<'_>) -> ControllerRow {
    ControllerRow {
        id: volume_id(rt, volume.id),
        live: volume.live,
        name: name(rt, volume.name),
        capacity: volume.capacity,
        capabilities: blocks(rt, volume.modes),
        holdings: holdings_of(rt, &volume.held),
        last: volume.last,
        kind: volume.kind,
        reply: reply(rt, volume.told),
    }
}

/// A controller that made no volume, with greatest 1,000 and these nodes, each with its slots.
pub(crate) fn new_controller(rt: &(impl Abort + AllocGlobal), nodes: &[(&str, u64)]) -> Controller {
    Controller::new(rt.alloc(), config(rt, nodes))
}

// The controller's record, asked for once more where memory was refused.
fn record_of(rt: &impl Abort, controller: &Controller) -> ControllerRecord {
    match controller.record() {
        Ok(record) => record,
        Err(CoreFault::NoMemory) => controller.record().expect(rt, "memory"),
    }
}

fn is_same_record(a: &ControllerRecord, b: &ControllerRecord) -> bool {
    a.next_id() == b.next_id() && a.session() == b.session() && a.rows() == b.rows()
}

impl PlayedPlugin for Controller {
    fn answer_in_the_end<R: Abort + AllocGlobal>(
        &mut self,
        rt: &R,
        frame: &Frame,
    ) -> Option<Frame> {
        let before = record_of(rt, self);
        let first = self.step(frame);
        if first.is_err() {
            let after = record_of(rt, self);
            assert!(rt; is_same_record(&after, &before));
            drop(after);
        }
        drop(before);
        match first {
            Ok(answer) => answer,
            Err(CoreFault::NoMemory) => self.step(frame).expect(rt, "memory"),
        }
    }

    fn left_in_the_end<R: Abort>(&self, rt: &R) -> (u64, usize, Vec<VolumeId>) {
        let empty = match self.forgettable() {
            Ok(ids) => ids,
            Err(CoreFault::NoMemory) => self.forgettable().expect(rt, "memory"),
        };
        (self.session(), self.row_count(), empty)
    }
}
