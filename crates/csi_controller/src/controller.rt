//! The controller plugin.
ghost use Rattle.std.specs.Prelude.{◌≡◌, ◌%◌, ◌^◌, None, Ok, IfOk, OnOk, OnErr, IsOk, option_map, find, slice_get, ◌==◌};
ghost use Rattle.std.specs.Option.{option_copied};
ghost use Rattle.csi_types.specs.declared.call.Call.{Call as OneCall};
ghost use Rattle.csi_types.specs.Public.Frame.{IsAllowed};
ghost use Rattle.csi_types.specs.Public.Lent.{lent_call, HasFitTexts};
ghost use Rattle.csi_types.specs.Model.Replies.{reply_frame};
ghost use Rattle.csi_controller.specs.Public.Core.{AreSoundRows, IsCurrent};

mod attached;
pub(crate) mod changes;
pub(crate) mod counts;
pub(crate) mod create_lines;
pub(crate) mod holdings;
mod listing;
pub(crate) mod new_row;
mod readers;
pub(crate) mod row_table;
pub(crate) mod without_row;

use crate::catalog::Catalog;
use crate::names::id_of_name;
use crate::record::ControllerRecord;
use crate::row::ControllerRow;
use crate::table::ControllerTable;
use attached::attachments;
use csi_fence::{Answer, CoreFault, Rows};
use csi_types::{
    Body, CallRef, CapabilityList, CapabilityRef, Config, Frame, Holding, Kind, Name, Number,
    Party, Reply, VolumeId,
};
use std::alloc::Global;
use std::marker::Model;

// The frame of a reply. It takes no memory.
fn frame_of(number: Number, kind: Kind, reply: Reply) -> Frame
    requires { IsAllowed Party.Controller (Body.Reply kind reply) }
    ensures { result ≡ reply_frame number Party.Controller kind reply }
{
    Frame::reply(number, Party::Controller, kind, reply).unwrap()
}

/// The controller plugin of CSI's spec.md, "Controller Service RPC": the volumes that it made, the nodes at
/// which each is published, the last call that it answered for each, and the greatest session of which a call came. A contract
/// sees its configuration, its next id, that session and its rows by rising id.
#[derive(Drop)]
pub struct Controller {
    rows: Rows<ControllerTable>,
}

impl Model for Controller {
    ghost use Rattle.csi_controller.specs.Model.Core.{ControllerParts};
    ghost use Rattle.csi_controller.specs.Public.Plan.{controller_parts, AreControllerRows};

    ghost Value = { ControllerParts };

    ghost view = { λ controller. controller_parts controller.rows.table controller.rows.session controller.rows.rows.items };

    ghost invariant = { λ controller. AreControllerRows controller.rows.table controller.rows.session controller.rows.rows.items controller.rows.empty };
}

impl Controller {
    ghost use Rattle.csi_controller.specs.Public.RowsLaw.{ChangesAt};
    ghost use Rattle.csi_controller.specs.Model.State.{ControllerState, empty_controller, volume_named};
    ghost use Rattle.csi_controller.specs.Model.Fenced.{fenced, kept_for};
    ghost use Rattle.csi_controller.specs.Public.Raised.{raised};
    ghost use Rattle.csi_fence.specs.Public.Repeats.{IsPlainRepeat};
    ghost use Rattle.csi_controller.specs.Public.Answers.{AnswersCall};
    ghost use Rattle.csi_types.specs.Model.Members.{EachTwo};
    ghost use Rattle.csi_controller.specs.Public.Views.{shown_if_live, attached_holdings, IsHeldBefore, HasHoldingsOf, IsCopyOf, IsRowOf};
    ghost use Rattle.csi_controller.specs.Model.Core.{Shows};
    ghost use Rattle.csi_controller.specs.Public.Core.{IsAnsweredOk, IsUndoing};

    /// A controller that made no volume. It takes no memory.
    pub fn new(alloc: Global, config: Config) -> Controller
        ensures config { result.config ≡ config }
        ensures empty { Shows result empty_controller }
    {
        Controller {
            rows: Catalog::new(alloc).into_rows(alloc, config, 1, 0),
        }
    }

    /// Answers a call: the fence, then the table ("CreateVolume", "DeleteVolume", "ControllerPublishVolume"
    /// and "ControllerUnpublishVolume" of CSI's spec.md; the fence is this profile's own). A call of an earlier session than the
    /// greatest that came is refused as stale. One of a later session begins it: the volumes that were deleted before are forgotten,
    /// and then it is answered. A reply and another plugin's call get no answer, change nothing and take no memory. None is taken by a
    /// DeleteVolume and a ControllerUnpublishVolume that the table answers with `Ok`, nor by a kept reply without a detail that is
    /// given again. A refusal as out of memory leaves the controller as it was.
    pub fn step(&mut self, frame: &Frame) -> Result<Option<Frame>, CoreFault>
        // the answer and the new state are the definition's
        ensures reply { (state : ControllerState) → Shows self.old state → IfOk result (λ reply. reply ≡ (fenced self.old.config state frame.now).reply) }
        ensures state { (state : ControllerState) → Shows self.old state → OnOk result (Shows self.new (fenced self.old.config state frame.now).state) }
        ensures current { IsCurrent self.new.session self.new.rows }
        ensures config { self.new.config ≡ self.old.config }
        ensures err { (state : ControllerState) → Shows self.old state → OnErr result (Shows self.new state) }
        // what takes no memory succeeds
        ensures silent { (state : ControllerState) → (fenced self.old.config state frame.now).reply ≡ None → IsOk result }
        ensures undone { (state : ControllerState) (call : OneCall) → Shows self.old state → frame.now.body ≡ Body.Call call → IsUndoing call
            → IsAnsweredOk self.old.config state frame.now.number call → IsOk result }
        ensures repeated { (state : ControllerState) (call : OneCall) → Shows self.old state → frame.now.body ≡ Body.Call call
            → IsPlainRepeat state.session (kept_for call state) frame.now.number → IsOk result }
    {
        let _rows = &self.rows;
        let Body::Call(call) = frame.body() else {
            return Ok(None);
        };
        // the proof has to be told the types of a lent call's parts
        let _parts: Option<(&CapabilityList, CapabilityRef<'_>)> = None;
        let number = frame.number();
        match self.answer_any(number, &call.lend()) {
            Ok(Some(answer)) => Ok(Some(frame_of(number, answer.kind, answer.reply))),
            Ok(None) => Ok(None),
            Err(fault) => Err(fault),
        }
    }

    /// Answers a call as `step` answers a frame of it, by the kind and the reply that the frame of the answer has (those that were
    /// kept, where the call comes again), and says where the row is that it changed or made. Another plugin's call, and a call
    /// with a text outside its limits, which no frame has, get no answer, change nothing and take no memory. Beyond that it
    /// takes memory where `step` does. A refusal as out of memory leaves the controller as it was.
    #[inline(always)]
    pub fn answer(
        &mut self,
        number: Number,
        call: &CallRef<'_>,
    ) -> Result<Option<Answer>, CoreFault>
        ensures { AnswersCall (HasFitTexts (lent_call call.now)) self.old self.new number (lent_call call.now) result }
    {
        let _rows = &self.rows;
        if !call.is_within_limits() {
            return Ok(None);
        }
        self.answer_any(number, call)
    }

    // Answers a call as `answer` does, whatever its texts are.
    fn answer_any(
        &mut self,
        number: Number,
        call: &CallRef<'_>,
    ) -> Result<Option<Answer>, CoreFault>
        ensures { AnswersCall (Unit {0}) self.old self.new number (lent_call call.now) result }
    {
        match call {
            CallRef::CreateVolume { .. }
            | CallRef::DeleteVolume { .. }
            | CallRef::ControllerPublishVolume { .. }
            | CallRef::ControllerUnpublishVolume { .. } => {
                // What is handed on by value is copied at each step, with the gaps between its parts, unless it is made anew.
                match self.rows.answer(number, call) {
                    Ok(Answer { kind, reply, row }) => Ok(Some(Answer { kind, reply, row })),
                    Err(fault) => Err(fault),
                }
            }
            _ => Ok(None),
        }
    }

    /// This session begins, where it is later than the greatest that came, as if a call had begun it: every call of an earlier session is
    /// stale from then on, and the volumes that were deleted are forgotten (this profile's own). It takes no memory.
    pub fn raise(&mut self, session: u64)
        ensures state { (state : ControllerState) → Shows self.old state → Shows self.new (raised session state) }
        // its rows are what a call of the session leaves that changes and makes none
        ensures changes { ChangesAt None (record { session = session; call = 0 }) self.old self.new }
        ensures current { IsCurrent self.new.session self.new.rows }
        ensures config { self.new.config ≡ self.old.config }
    {
        self.rows.raise(session);
    }

    /// Id and capacity in bytes of the volume of this name, unless it was deleted. It takes no memory.
    pub fn volume(&self, name: &Name) -> Option<(VolumeId, u64)>
        ensures { (state : ControllerState) → Shows self.now state → result ≡ shown_if_live (volume_named name.now state) }
    {
        let rows = self.rows.rows.as_slice();
        readers::volume(&self.rows.table.ids, rows, name.as_str())
    }

    /// The id of the volume of this name, deleted or not, unless it is forgotten. It takes no memory.
    pub fn id_of(&self, name: &Name) -> Option<VolumeId>
        ensures { (state : ControllerState) → Shows self.now state → result ≡ option_map (λ volume. volume.id) (volume_named name.now state) }
    {
        id_of_name(&self.rows.table.ids, name.as_str())
    }

    /// The id of the next volume, 0 once all were given. It takes no memory.
    pub fn next_id(&self) -> u64
        ensures value { result ≡ self.now.next_id }
        ensures state { (state : ControllerState) → Shows self.now state → result ≡ state.next_id % 2 ^ 64 }
    {
        self.rows.table.next_id
    }

    /// The greatest session of which a call came, 0 before any did. It takes no memory.
    pub fn session(&self) -> u64
        ensures value { result ≡ self.now.session }
        ensures state { (state : ControllerState) → Shows self.now state → result ≡ state.session }
    {
        self.rows.session
    }

    /// The controller of a record, under a configuration that need not be the one that it was made under: what
    /// the record holds stays, also where the configuration wouldn't grant it. It takes no memory.
    pub fn from_record(
        alloc: Global,
        config: Config,
        kept: ControllerRecord,
    ) -> Result<Controller, CoreFault>
        ensures current { IfOk result (λ made. IsCurrent made.session made.rows) }
        ensures value { result ≡ Ok (record { config = config; next_id = kept.next_id; session = kept.session; rows = kept.rows }) }
    {
        let next_id = kept.next_id();
        let session = kept.session();
        let catalog = kept.into_catalog();
        Ok(Controller {
            rows: catalog.into_rows(alloc, config, next_id, session),
        })
    }

    /// The record of this controller.
    pub fn record(&self) -> Result<ControllerRecord, CoreFault>
        ensures { (state : ControllerState) → Shows self.now state →
            IfOk result (λ kept. Shows (record { config = self.now.config; next_id = kept.next_id; session = kept.session; rows = kept.rows }) state) }
    {
        let rows = &self.rows;
        let next_id = rows.table.next_id;
        let catalog = Catalog::copied(rows.alloc, next_id, rows.rows.as_slice())?;
        Ok(ControllerRecord::new(next_id, rows.session, catalog))
    }

    /// The row of the volume of this id, deleted or not, unless it is forgotten, as the record has it. Where there is none it takes no memory.
    pub fn row(&self, id: VolumeId) -> Result<Option<ControllerRow>, CoreFault>
        ensures copy { IfOk result (λ copy. IsCopyOf (find (λ row. row.id == id) self.now.rows) copy) }
        ensures state { (state : ControllerState) → Shows self.now state → IfOk result (IsRowOf state id) }
        ensures succeeds { find (λ row. row.id == id) self.now.rows ≡ None → IsOk result }
    {
        readers::copied_row(self.rows.rows.as_slice(), id)
    }

    /// The row at this place, by rising id, as the controller has it. It takes no memory, and is no search.
    pub fn row_at(&self, place: usize) -> Option<&ControllerRow>
        ensures { option_copied result ≡ slice_get self.now.rows place }
    {
        self.rows.rows.get(place)
    }

    /// Where each volume is held, by rising id, and for each volume in the order of its row.
    pub fn attachments(&self) -> Result<Vec<Holding>, CoreFault>
        ensures order { IfOk result (λ all. all.items ≡ attached_holdings self.now.rows) }
        ensures rising { IfOk result (λ all. EachTwo IsHeldBefore all.items) }
        ensures state { (state : ControllerState) → Shows self.now state → IfOk result (λ all. HasHoldingsOf state all.items) }
    {
        attachments(self.rows.rows.as_slice(), self.rows.alloc)
    }
}

/// A law, and nothing that runs: the rows of every controller keep the rules of a record. This profile's own.
pub fn sound_law(controller: &Controller)
    ensures { AreSoundRows controller.now.next_id controller.now.rows }
{
    let _rows = &controller.rows;
}

/// A law, and nothing that runs: in every controller, whatever it was asked and whichever record it was made of, no row's last call
/// is of a later session than the greatest that came, and that of a volume that was deleted is of that session. This profile's own.
pub fn current_law(controller: &Controller)
    ensures { IsCurrent controller.now.session controller.now.rows }
{
    let _rows = &controller.rows;
}
