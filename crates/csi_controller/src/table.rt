//! The controller's table, as rows behind the fence ask it.
ghost use Rattle.std.specs.Prelude.{◌≡◌, ◌<◌, ℕ, List, IfOk, IfErr, IsTrue, MatchResult};
ghost use Rattle.csi_types.specs.declared.call.Kind.TheVariants.{CreateVolume as CreateKind};
ghost use Rattle.csi_types.specs.Model.Replies.{ok_reply_with};
ghost use Rattle.csi_types.specs.Public.Lent.{lent_capabilities};
ghost use Rattle.csi_types.specs.Public.Reply.{has_id_by_rule};
ghost use Rattle.csi_fence.specs.Public.Line.{told_by};
ghost use Rattle.csi_controller.specs.Model.Table.{Makes, Stays};
ghost use Rattle.csi_controller.specs.Public.Core.{IsUndoing, next_shown};
ghost use Rattle.csi_controller.specs.Public.Making.{new_line};
ghost use Rattle.csi_controller.specs.Public.OneRow.{row_shown};

use crate::controller::changes::{held, take_out};
use crate::controller::counts::{MAX_NODES, recount};
use crate::controller::create_lines::{argument_fault, create_line};
use crate::controller::new_row::{done, new_row};
use crate::controller::row_table::{delete_line, publish_line, unpublish_line};
use crate::controller::without_row::line_without_row;
use crate::names::{find_id, forget_names, place_of_name};
use crate::row::ControllerRow;
use csi_fence::{Absent, CoreFault, Line, Table};
use csi_types::{
    CallRef, CapabilitiesRef, Config, Kind, MAX_ROWS, NodeUse, Number, Reply, Status, VolumeId,
    wanted_capacity,
};
use indexmap::IndexMap;
use std::alloc::Global;

/// The table of a controller of this configuration, and what it keeps beside the rows.
pub struct ControllerTable {
    pub config: Config,
    // 0 once all ids are given
    pub next_id: u64,
    // the id of each name, in the order of the rows
    pub ids: IndexMap<String, VolumeId>,
    // how many volumes are held at each node of the configuration, in its order
    pub counts: [u64; MAX_NODES],
}

impl Drop for ControllerTable {
    fn drop(self) {
        let ControllerTable {
            config: _,
            next_id: _,
            ids: _,
            counts: _,
        } = self;
    }
}

impl ControllerTable {
    ghost use Rattle.csi_controller.specs.Private.Plan.{IsMadeOf};

    // The id and the capacity of the volume that is made for a new name, where there are so many rows, or the table's refusal.
    fn room_for(
        &self,
        count: usize,
        required: u64,
        limit: u64,
        wished: CapabilitiesRef<'_>,
    ) -> Result<(VolumeId, u64), Line<'static>>
        ensures line { (name : List ℕ) → MatchResult result
            (λ made. new_line self.now.config.greatest count (next_shown self.now.next_id) name required limit (lent_capabilities wished.entry)
            ≡ record { reply = ok_reply_with made.0; change = Makes name made.1 (lent_capabilities wished.entry) })
            (λ line. new_line self.now.config.greatest count (next_shown self.now.next_id) name required limit (lent_capabilities wished.entry)
            ≡ record { reply = (told_by line).reply; change = Stays }) }
        ensures id { IfOk result (λ made. made.0 ≡ self.now.next_id) }
        ensures from { IfOk result (λ made. 0 < made.0) }
        ensures no_id { IfErr result (λ line. IsTrue (has_id_by_rule CreateKind (told_by line).reply)) }
    {
        if let Some(line) = argument_fault(required, limit, wished) {
            return Err(line);
        }
        let capacity = wanted_capacity(required, limit);
        if capacity > self.config.greatest() {
            return Err(Line::Refused(Status::OutOfRange, "range"));
        }
        if count >= MAX_ROWS {
            return Err(Line::Refused(Status::ResourceExhausted, "volumes"));
        }
        match VolumeId::try_new(self.next_id) {
            Some(id) => Ok((id, capacity)),
            None => Err(Line::Refused(Status::ResourceExhausted, "volumes")),
        }
    }

    // The row of the volume that has the next id, with room for its name. A refusal changes nothing.
    fn make(
        &mut self,
        alloc: Global,
        number: Number,
        id: VolumeId,
        capacity: u64,
        name: &str,
        capabilities: CapabilitiesRef<'_>,
    ) -> Result<Absent<ControllerRow, String>, CoreFault>
        ensures ok { IfOk result (IsMadeOf self.new number id name.now capacity (lent_capabilities capabilities.entry)) }
        ensures config { self.new.config ≡ self.old.config }
        ensures next_id { self.new.next_id ≡ self.old.next_id }
        ensures ids { self.new.ids.entries ≡ self.old.ids.entries }
        ensures counts { self.new.counts ≡ self.old.counts }
    {
        let row = new_row(alloc, number, id, name, capacity, capabilities)?;
        let text = String::from_str(alloc, row.name.as_str())?;
        self.ids.reserve(1)?;
        Ok(Absent::Made(row, done(alloc, Some(id)), text))
    }
}

impl Table for ControllerTable {
    ghost use Rattle.csi_types.specs.Model.Config.{Config as ConfigParts};
    ghost use Rattle.csi_controller.specs.Public.OneRow.{RowShown};
    ghost use Rattle.csi_controller.specs.Public.Plan.{controller_plan, IsSoundBy, fits_table};
    ghost use Rattle.csi_controller.specs.Private.Plan.{HasRoom};
    ghost use Rattle.csi_controller.specs.Private.PlanLaws.{is_orderly as own_orderly, lets_keep as own_lets_keep, has_one_row as own_one_row};

    type Row = ControllerRow;

    type Room = String;

    ghost Fixed = { ConfigParts };

    ghost Own = { ℕ };

    ghost Shown = { RowShown };

    ghost fixed = { λ table. table.config };

    ghost own = { λ table. next_shown table.next_id };

    ghost shown = { row_shown };

    ghost plan = { controller_plan };

    ghost is_sound = { IsSoundBy };

    ghost agrees = { fits_table };

    ghost has_room = { HasRoom };

    ghost is_frugal = { IsUndoing };

    ghost orderly = { own_orderly };

    ghost lets_keep = { own_lets_keep };

    ghost has_one_row = { own_one_row };

    #[inline]
    fn id(row: &ControllerRow) -> VolumeId {
        row.id
    }

    #[inline]
    fn last(row: &ControllerRow) -> Number {
        row.last
    }

    #[inline]
    fn kind(row: &ControllerRow) -> Kind {
        row.kind
    }

    #[inline]
    fn reply(row: &ControllerRow) -> &Reply {
        &row.reply
    }

    #[inline]
    fn is_empty(row: &ControllerRow) -> bool {
        !row.live
    }

    #[inline]
    fn keep(row: &mut ControllerRow, number: Number, kind: Kind, reply: Reply) {
        row.last = number;
        row.kind = kind;
        row.reply = reply;
    }

    #[inline]
    fn find(&self, rows: &[ControllerRow], call: &CallRef<'_>) -> Option<usize> {
        match call {
            CallRef::CreateVolume { name, .. } => place_of_name(&self.ids, name),
            CallRef::DeleteVolume { id }
            | CallRef::ControllerPublishVolume { id, .. }
            | CallRef::ControllerUnpublishVolume { id, .. }
            | CallRef::NodeStageVolume { id, .. }
            | CallRef::NodeUnstageVolume { id }
            | CallRef::NodePublishVolume { id, .. }
            | CallRef::NodeUnpublishVolume { id, .. } => find_id(rows, id.volume_id()),
        }
    }

    #[inline]
    fn line<'a>(&self, row: &'a ControllerRow, call: &CallRef<'_>) -> Line<'a> {
        match call {
            CallRef::CreateVolume {
                required,
                limit,
                capabilities,
                ..
            } => create_line(row, *required, *limit, *capabilities),
            CallRef::DeleteVolume { .. } => delete_line(row),
            CallRef::ControllerPublishVolume {
                node,
                capability,
                readonly,
                ..
            } => {
                let wanted = NodeUse {
                    node,
                    capability: *capability,
                    readonly: *readonly,
                };
                publish_line(row, &self.config, &self.counts, wanted)
            }
            CallRef::ControllerUnpublishVolume { node, .. } => unpublish_line(row, node),
            _ => Line::Refused(Status::Unimplemented, ""),
        }
    }

    #[inline]
    fn change(
        &mut self,
        row: &mut ControllerRow,
        alloc: Global,
        call: &CallRef<'_>,
    ) -> Result<(), CoreFault> {
        match call {
            CallRef::DeleteVolume { .. } => {
                row.live = false;
                Ok(())
            }
            CallRef::ControllerPublishVolume {
                node,
                capability,
                readonly,
                ..
            } => {
                let wanted = NodeUse {
                    node,
                    capability: *capability,
                    readonly: *readonly,
                };
                row.holdings.push(held(alloc, wanted)?)?;
                recount(&mut self.counts, &self.config, node, true);
                Ok(())
            }
            CallRef::ControllerUnpublishVolume { node, .. } => {
                take_out(&mut row.holdings, node);
                recount(&mut self.counts, &self.config, node, false);
                Ok(())
            }
            _ => Ok(()),
        }
    }

    fn absent(
        &mut self,
        count: usize,
        alloc: Global,
        number: Number,
        call: &CallRef<'_>,
    ) -> Result<Absent<ControllerRow, String>, CoreFault> {
        let line = match call {
            CallRef::CreateVolume {
                name,
                required,
                limit,
                capabilities,
            } => match self.room_for(count, *required, *limit, *capabilities) {
                Ok(made) => return self.make(alloc, number, made.0, made.1, name, *capabilities),
                Err(line) => line,
            },
            _ => line_without_row(call),
        };
        match line.reply(alloc) {
            Ok(reply) => Ok(Absent::Answered(reply)),
            Err(fault) => Err(fault),
        }
    }

    #[inline]
    fn enter(&mut self, room: String, row: &ControllerRow) {
        self.ids.insert(room, row.id).unwrap();
        self.next_id = self.next_id.wrapping_add(1);
    }

    fn leave(&mut self, rows: &[ControllerRow], session: u64) {
        forget_names(&mut self.ids, rows, session);
    }
}
