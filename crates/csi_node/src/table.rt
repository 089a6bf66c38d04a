//! The node's table, as rows behind the fence ask it.
ghost use Rattle.std.specs.Prelude.{◌≡◌, ◌==◌, List, ℕ, true, Some, position, IfOk};
ghost use Rattle.csi_types.specs.Model.Call.{kind_of};
ghost use Rattle.csi_types.specs.Model.Replies.{plain_reply};
ghost use Rattle.csi_types.specs.Public.Call.{is_node_kind};
ghost use Rattle.csi_types.specs.Public.Lent.{lent_call};
ghost use Rattle.csi_fence.specs.Public.Rows.{AreRising};
ghost use Rattle.csi_node.specs.Model.OneRow.{node_row_shown};
ghost use Rattle.csi_node.specs.Model.Record.{parts};
ghost use Rattle.csi_node.specs.Model.State.{volume_of as volume_of_call};
ghost use Rattle.csi_node.specs.Public.OneRow.{row_anew};
ghost use Rattle.csi_node.specs.Public.Plan.{node_plan, row_keeping, first_row as first_row_of};

use crate::changes::change;
use crate::row::NodeRow;
use crate::row_table::line;
use csi_fence::{Absent, CoreFault, Line, Table};
use csi_types::{CallRef, Kind, MAX_ROWS, NodeId, Number, Reply, Status, VolumeId};
use std::alloc::Global;

/// The table of the node of this id; beside the rows it keeps nothing.
#[derive(Drop)]
pub struct NodeTable {
    pub(crate) id: NodeId,
}

// The volume that a call is about, if it names one by id.
#[inline]
fn volume_of(call: &CallRef<'_>) -> Option<VolumeId>
    ensures { result ≡ volume_of_call (lent_call call.now) }
{
    match call {
        CallRef::CreateVolume { .. } => None,
        CallRef::DeleteVolume { id }
        | CallRef::ControllerPublishVolume { id, .. }
        | CallRef::ControllerUnpublishVolume { id, .. }
        | CallRef::NodeStageVolume { id, .. }
        | CallRef::NodeUnstageVolume { id }
        | CallRef::NodePublishVolume { id, .. }
        | CallRef::NodeUnpublishVolume { id, .. } => Some(id.volume_id()),
    }
}

/// Where the row of this volume is, among rows by rising id.
pub(crate) fn place_of(rows: &[NodeRow], id: VolumeId) -> Option<usize>
    requires rising { AreRising node_plan.id (parts rows.now) }
    ensures { result ≡ position (λ row. row.id == id) (parts rows.now) }
{
    rows.binary_search_by_key(&id.number(), |row| row.id.number())
        .ok()
}

// The row keeps this.
#[inline]
fn keep(row: &mut NodeRow, number: Number, kind: Kind, reply: Reply)
    ensures { node_row_shown row.new ≡ row_keeping (record { number = number; kind = kind; reply = reply }) (node_row_shown row.old) }
{
    row.last = number;
    row.kind = kind;
    row.reply = reply;
}

// The row of a volume for which no call was answered yet. What it keeps is a placeholder, which is overwritten, or the row is dropped.
fn new_row(alloc: Global, id: VolumeId, number: Number, kind: Kind) -> Result<NodeRow, CoreFault>
    ensures { IfOk result (λ row. node_row_shown row ≡ row_anew id number kind) }
{
    match Line::Done.reply(alloc) {
        Ok(reply) => Ok(NodeRow {
            id,
            staged: None,
            targets: Vec::new(alloc),
            last: number,
            kind,
            reply,
        }),
        Err(fault) => Err(fault),
    }
}

// The row of a volume after its first call.
fn first_row(
    alloc: Global,
    id: VolumeId,
    number: Number,
    call: &CallRef<'_>,
) -> Result<NodeRow, CoreFault>
    requires volume { volume_of_call (lent_call call.now) ≡ Some id }
    requires kind { is_node_kind (kind_of (lent_call call.now)) ≡ true }
    ensures { IfOk result (λ row. node_row_shown row ≡ first_row_of id number (lent_call call.now)) }
{
    let mut row = new_row(alloc, id, number, call.kind())?;
    let line = line(&row, call);
    let is_done = line.is_done();
    let reply = line.reply(alloc)?;
    if is_done {
        change(&mut row, alloc, call)?;
    }
    keep(&mut row, number, call.kind(), reply);
    Ok(row)
}

// A refusal of a call whose volume has no row.
fn refused(alloc: Global, status: Status, detail: &str) -> Result<Absent<NodeRow, ()>, CoreFault>
    ensures { IfOk result (λ absent. absent ≡ Absent.Answered (plain_reply status detail.now)) }
{
    match Line::Refused(status, detail).reply(alloc) {
        Ok(reply) => Ok(Absent::Answered(reply)),
        Err(fault) => Err(fault),
    }
}

impl Table for NodeTable {
    ghost use Rattle.csi_node.specs.Model.OneRow.{NodeRowShown};
    ghost use Rattle.csi_node.specs.Public.Plan.{is_sound_by};
    ghost use Rattle.csi_node.specs.Private.PlanLaws.{is_orderly, one_row};

    type Row = NodeRow;

    type Room = ();

    ghost Fixed = { List ℕ };

    ghost Own = { Unit {0} };

    ghost Shown = { NodeRowShown };

    ghost fixed = { λ table. table.id };

    ghost own = { λ table. tt };

    ghost shown = { node_row_shown };

    ghost plan = { node_plan };

    ghost is_sound = { is_sound_by };

    ghost agrees = { λ table rows. Unit {0} };

    ghost has_room = { λ table room row. Unit {0} };

    ghost is_frugal = { λ call. ⊥ };

    ghost orderly = { is_orderly };

    ghost lets_keep = { λ table rows place row kept agrees found. tt };

    ghost has_one_row = { λ table rows call agrees rising. one_row rows call rising };

    #[inline]
    fn id(row: &NodeRow) -> VolumeId {
        row.id
    }

    #[inline]
    fn last(row: &NodeRow) -> Number {
        row.last
    }

    #[inline]
    fn kind(row: &NodeRow) -> Kind {
        row.kind
    }

    #[inline]
    fn reply(row: &NodeRow) -> &Reply {
        &row.reply
    }

    #[inline]
    fn is_empty(row: &NodeRow) -> bool {
        row.staged.is_none()
    }

    #[inline]
    fn keep(row: &mut NodeRow, number: Number, kind: Kind, reply: Reply) {
        keep(row, number, kind, reply);
    }

    #[inline]
    fn find(&self, rows: &[NodeRow], call: &CallRef<'_>) -> Option<usize> {
        match volume_of(call) {
            Some(id) => place_of(rows, id),
            None => None,
        }
    }

    #[inline]
    fn line<'a>(&self, row: &'a NodeRow, call: &CallRef<'_>) -> Line<'a> {
        line(row, call)
    }

    #[inline]
    fn change(
        &mut self,
        row: &mut NodeRow,
        alloc: Global,
        call: &CallRef<'_>,
    ) -> Result<(), CoreFault> {
        change(row, alloc, call)
    }

    fn absent(
        &mut self,
        count: usize,
        alloc: Global,
        number: Number,
        call: &CallRef<'_>,
    ) -> Result<Absent<NodeRow, ()>, CoreFault> {
        if count >= MAX_ROWS {
            return refused(alloc, Status::ResourceExhausted, "rows");
        }
        let Some(id) = volume_of(call) else {
            return refused(alloc, Status::Unimplemented, "");
        };
        let row = first_row(alloc, id, number, call)?;
        let reply = row.reply.clone()?;
        Ok(Absent::Made(row, reply, ()))
    }

    #[inline]
    fn enter(&mut self, _room: (), _row: &NodeRow) {}

    #[inline]
    fn leave(&mut self, _rows: &[NodeRow], _session: u64) {}
}
