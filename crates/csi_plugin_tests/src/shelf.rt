//! A plugin that makes volumes and deletes them, and does nothing else: what a plugin has of its own is its row and its table. It isn't served.
ghost use Rattle.std.specs.Prelude.{◌≡◌, ◌<◌, ◌-◌, ◌^◌, ◌==◌, ℕ, IfOk, position};
ghost use Rattle.csi_types.specs.Model.Same.{same_text};
ghost use Rattle.csi_plugin_tests.specs.Private.Shelf.{IsMadeSo};

use csi_fence::{Absent, CoreFault, Line, Table};
use csi_types::{CallRef, Kind, MAX_ROWS, Name, Number, Reply, Status, VolumeId};
use std::alloc::Global;

/// A volume, and the last call for it with the reply to that.
#[derive(Debug, PartialEq, Eq, Drop)]
pub struct ShelfRow {
    pub id: VolumeId,
    pub name: Name,
    pub live: bool,
    pub last: Number,
    pub kind: Kind,
    pub reply: Reply,
}

/// What it keeps beside the rows: the next id.
#[derive(Drop)]
pub struct Shelf {
    pub next_id: u64,
}

// The row of a volume that is made, and its reply.
fn made(
    alloc: Global,
    id: VolumeId,
    number: Number,
    name: &str,
) -> Result<Absent<ShelfRow, ()>, CoreFault>
    ensures { IfOk result (IsMadeSo number id name.now) }
{
    let Ok(name) = Name::try_new(alloc, name) else {
        return Err(CoreFault::NoMemory);
    };
    let reply = Line::Met(Some(id)).reply(alloc)?;
    let kept = Line::Met(Some(id)).reply(alloc)?;
    let row = ShelfRow {
        id,
        name,
        live: true,
        last: number,
        kind: Kind::CreateVolume,
        reply: kept,
    };
    Ok(Absent::Made(row, reply, ()))
}

// Where the row of this name is. It walks the rows.
fn place_of_name(rows: &[ShelfRow], name: &str) -> Option<usize>
    ensures { result ≡ position (λ row. same_text row.name name.now) rows.now }
{
    rows.iter().position(|row| row.name.as_str() == name)
}

// Where the row of this id is. It walks the rows.
fn place_of_id(rows: &[ShelfRow], id: VolumeId) -> Option<usize>
    ensures { result ≡ position (λ row. row.id == id) rows.now }
{
    rows.iter().position(|row| row.id == id)
}

impl Table for Shelf {
    type Row = ShelfRow;

    type Room = ();

    ghost use Rattle.csi_plugin_tests.specs.declared.shelf.ShelfRow.{ShelfRow as RowParts};
    ghost use Rattle.csi_plugin_tests.specs.Private.Shelf.{shelf, IsSound, HaveNames};

    ghost Fixed = { Unit {0} };

    ghost Own = { ℕ };

    ghost Shown = { RowParts };

    ghost fixed = { λ table. tt };

    ghost own = { λ table. table.next_id };

    ghost shown = { λ row. row };

    ghost plan = { shelf };

    ghost is_sound = { IsSound };

    ghost agrees = { λ table rows. HaveNames rows };

    ghost has_room = { λ table room row. table.next_id < 2 ^ 64 - 1 };

    ghost is_frugal = { λ call. ⊥ };

    fn id(row: &ShelfRow) -> VolumeId {
        row.id
    }

    fn last(row: &ShelfRow) -> Number {
        row.last
    }

    fn kind(row: &ShelfRow) -> Kind {
        row.kind
    }

    fn reply(row: &ShelfRow) -> &Reply {
        &row.reply
    }

    fn is_empty(row: &ShelfRow) -> bool {
        !row.live
    }

    fn keep(row: &mut ShelfRow, number: Number, kind: Kind, reply: Reply) {
        row.last = number;
        row.kind = kind;
        row.reply = reply;
    }

    #[tactic(auto, using(crate::proofs::ShelfRows::same_rows))]
    fn find(&self, rows: &[ShelfRow], call: &CallRef<'_>) -> Option<usize> {
        match call {
            CallRef::CreateVolume { name, .. } => place_of_name(rows, name),
            CallRef::DeleteVolume { id }
            | CallRef::ControllerPublishVolume { id, .. }
            | CallRef::ControllerUnpublishVolume { id, .. }
            | CallRef::NodeStageVolume { id, .. }
            | CallRef::NodeUnstageVolume { id }
            | CallRef::NodePublishVolume { id, .. }
            | CallRef::NodeUnpublishVolume { id, .. } => place_of_id(rows, id.volume_id()),
        }
    }

    fn line<'a>(&self, row: &'a ShelfRow, call: &CallRef<'_>) -> Line<'a> {
        match call {
            CallRef::CreateVolume { .. } if row.live => Line::Met(Some(row.id)),
            CallRef::CreateVolume { .. } => Line::Refused(Status::AlreadyExists, "name"),
            CallRef::DeleteVolume { .. } => Line::Done,
            _ => Line::Refused(Status::Unimplemented, ""),
        }
    }

    fn change(
        &mut self,
        row: &mut ShelfRow,
        _alloc: Global,
        _call: &CallRef<'_>,
    ) -> Result<(), CoreFault> {
        row.live = false;
        Ok(())
    }

    fn absent(
        &mut self,
        count: usize,
        alloc: Global,
        number: Number,
        call: &CallRef<'_>,
    ) -> Result<Absent<ShelfRow, ()>, CoreFault> {
        let line = match call {
            CallRef::CreateVolume { name, .. } => {
                let id = if count < MAX_ROWS && self.next_id < u64::MAX {
                    VolumeId::try_new(self.next_id)
                } else {
                    None
                };
                match id {
                    Some(id) => return made(alloc, id, number, name),
                    None => Line::Refused(Status::ResourceExhausted, "volumes"),
                }
            }
            CallRef::DeleteVolume { .. } => Line::Met(None),
            _ => Line::Refused(Status::Unimplemented, ""),
        };
        Ok(Absent::Answered(line.reply(alloc)?))
    }

    fn enter(&mut self, _room: (), _row: &ShelfRow) {
        self.next_id += 1;
    }

    fn leave(&mut self, _rows: &[ShelfRow], _session: u64) {}

    ghost use Rattle.csi_plugin_tests.specs.Private.ShelfLaws.{orderly as is_orderly, lets-keep, has-one_row};

    ghost orderly = { is_orderly };

    ghost lets_keep = { λ table. lets-keep };

    ghost has_one_row = { λ table. has-one_row };
}
