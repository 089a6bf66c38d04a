//! The controller plugin over a store.
ghost use Rattle.std.specs.Prelude.{◌≡◌, ◌∷◌, ℕ, Some, [], map, IfOk, IfErr};
ghost use Rattle.csi_controller.specs.Model.Core.{Shows};
ghost use Rattle.csi_controller.specs.Model.State.{ControllerState, empty_controller};
ghost use Rattle.csi_records.specs.Public.Spelling.{present, controller_head, controller_parts, volume_row};
ghost use Rattle.csi_stores.specs.Public.Keeping.{RefusesAt};
ghost use Rattle.csi_service.specs.Public.Opening.{controller_records, plugin_opening, IsOpenFault, LeavesOpened, HasRecord};
ghost use Rattle.csi_service.specs.Public.Services.{controller_service_parts, controller_service_changes, AreFitControllerRows};

use crate::opening::{Opens, head_part, open, renewal};
use crate::plugin::Plugin;
use crate::plugin_service::{PluginService, service_of};
use csi_controller::{Controller, ControllerRecord, ControllerRow, current_law, sound_law};
use csi_fence::{Answer, CoreFault};
use csi_records::{Record, RecordStop, Stored, controller_head_value, volume_value};
use csi_stores::{Keep, KeepFault, Part};
use csi_types::{CallRef, Config, NoMemory, Number, Party, VolumeId};
use std::alloc::Global;

/// The controller plugin with its record, whose parts a store keeps. This profile's own.
pub type ControllerService = PluginService<Controller>;

impl Plugin for Controller {
    ghost use Rattle.std.specs.Prelude.{◌≡◌, Some, map};
    ghost use Rattle.csi_types.specs.Model.Config.{Config as Configuration};
    ghost use Rattle.csi_controller.specs.Model.State.{ControllerState};
    ghost use Rattle.csi_records.specs.Public.Records.{controller_layout, AreParts};
    ghost use Rattle.csi_records.specs.Public.Spelling.{VolumeRow, present, volume_row};
    ghost use Rattle.csi_records.specs.Public.Writing.{AreHeldFew};
    ghost use Rattle.csi_service.specs.Public.Services.{controller_view};

    type Record = ControllerRecord;

    type Row = ControllerRow;

    ghost Own = { Configuration };

    ghost Shown = { VolumeRow };

    ghost State = { ControllerState };

    ghost view = { controller_view };

    ghost shown = { volume_row };

    ghost is_small = { AreHeldFew };

    ghost spells = { λ kept parts. AreParts (controller_layout present)
        (record { own = kept.next_id; session = Some kept.session }) (map volume_row kept.rows) parts };

    ghost is_same = { λ one other. (one.next_id ≡ other.next_id) × (one.session ≡ other.session) × (map volume_row one.rows ≡ map volume_row other.rows) };

    fn numbers(&self) -> (u64, u64) {
        (self.next_id(), self.session())
    }

    fn row_at(&self, place: usize) -> Option<&ControllerRow> {
        sound_law(self);
        self.row_at(place)
    }

    fn id_of(row: &ControllerRow) -> VolumeId {
        row.id
    }

    fn value_of(alloc: Global, row: &ControllerRow) -> Result<Vec<u8>, NoMemory> {
        volume_value(alloc, row)
    }

    fn head_value(&self, alloc: Global, session: u64) -> Result<Vec<u8>, NoMemory> {
        controller_head_value(alloc, self.next_id(), session)
    }

    fn forgettable(&self) -> Result<Vec<VolumeId>, CoreFault> {
        self.forgettable()
    }

    #[inline(always)]
    fn carry_out(
        &mut self,
        number: Number,
        call: &CallRef<'_>,
    ) -> Result<Option<Answer>, CoreFault> {
        sound_law(self);
        let _next = self.next_id();
        let answered = self.answer(number, call);
        sound_law(self);
        answered
    }

    fn raise(&mut self, session: u64) {
        self.raise(session);
    }

    fn plugin_law(&self) {
        sound_law(self);
        current_law(self);
        let _next = self.next_id();
        let _session = self.session();
    }
}

impl Opens for PluginService<Controller> {
    type Asked = Config;

    ghost opening = { λ config. plugin_opening controller_records controller_service_parts (controller_head present 1 (Some 0)) };

    ghost is_new = { λ config service. (service.plugin.config ≡ config)
        × (controller_service_changes service ≡ []) × AreFitControllerRows service.plugin.rows };

    fn made(
        alloc: Global,
        config: Config,
        parts: &[Part],
    ) -> Result<(ControllerService, Vec<Part>), RecordStop> {
        if parts.is_empty() {
            let head = head_part(alloc, controller_head_value(alloc, 1, 0)?)?;
            return Ok((ControllerService::new(alloc, config), head));
        }
        match ControllerRecord::of_parts(alloc, parts) {
            Ok(Stored { kept, version }) => {
                let changed = renewal(alloc, version, parts, &kept)?;
                Ok((
                    ControllerService::from_record(alloc, config, kept)?,
                    changed,
                ))
            }
            Err(stop) => Err(stop),
        }
    }
}

impl PluginService<Controller> {
    /// A controller that answered nothing, which no store has yet. It takes no memory.
    pub fn new(alloc: Global, config: Config) -> ControllerService
        ensures shows { Shows result.plugin empty_controller }
        ensures parts { controller_service_parts result ≡ controller_head present 1 (Some 0) ∷ [] }
        ensures config { result.plugin.config ≡ config }
        ensures changes { controller_service_changes result ≡ [] }
    {
        service_of(alloc, Controller::new(alloc, config), Party::Controller)
    }

    /// The controller of a record, under this configuration, which need not be the one that the record was made under. A refusal is one
    /// of memory.
    pub fn from_record(
        alloc: Global,
        config: Config,
        kept: ControllerRecord,
    ) -> Result<ControllerService, NoMemory>
        ensures has { IfOk result (λ service. service.plugin ≡ record {
          config = config;
          next_id = kept.next_id;
          session = kept.session;
          rows = kept.rows;
        }) }
        ensures parts { IfOk result (λ service. controller_service_parts service ≡ controller_parts present kept.next_id (Some kept.session)
            (map volume_row kept.rows)) }
        ensures config { IfOk result (λ service. service.plugin.config ≡ config) }
        ensures changes { IfOk result (λ service. controller_service_changes service ≡ []) }
    {
        match Controller::from_record(alloc, config, kept) {
            Ok(controller) => Ok(service_of(alloc, controller, Party::Controller)),
            Err(_) => Err(NoMemory),
        }
    }

    /// The controller's record as a value. A refusal is one of memory, and leaves the controller as it is.
    pub fn record(&self) -> Result<ControllerRecord, NoMemory>
        ensures { (state : ControllerState) → Shows self.now.plugin state →
            IfOk result (λ kept. Shows
            (record { config = self.now.plugin.config; next_id = kept.next_id; session = kept.session; rows = kept.rows }) state) }
    {
        match self.plugin.record() {
            Ok(kept) => Ok(kept),
            Err(_) => Err(NoMemory),
        }
    }

    /// The controller of the store's record, under this configuration, which need not be the one that the record was made under.
    /// A store without a part gets the head of an empty record first, and a record in an earlier version is put in whole in the
    /// present one, in one commit, before the controller is given: under the greatest session of its last calls, and without the
    /// volumes that a controller forgets where that session begins. Where the store's parts are no controller's record it answers
    /// `BadRecord` with the first that is refused, `Device` only where the device failed in this call, and `Full` only where
    /// what it would commit doesn't fit; what is left then is what was there, or what it would commit. This profile's own.
    pub fn open<K: Keep>(
        alloc: Global,
        config: Config,
        keep: &mut K,
    ) -> Result<ControllerService, KeepFault>
        ensures opened { IfOk result (HasRecord controller_records controller_service_parts (K.store keep.old) (K.store keep.new)
            (controller_head present 1 (Some 0))) }
        ensures config { IfOk result (λ service. service.plugin.config ≡ config) }
        ensures fit { IfOk result (λ service. AreFitControllerRows service.plugin.rows) }
        ensures changes { IfOk result (λ service. controller_service_changes service ≡ []) }
        ensures cause { IfErr result (IsOpenFault controller_records (K.store keep.old) (K.store keep.new) (controller_head present 1 (Some 0))) }
        ensures honest { (K.store keep.new).honest → (K.store keep.old).honest }
        ensures foreign { (K.store keep.new).honest → (place : ℕ) → (K.store keep.old).foreign place → RefusesAt place result }
        ensures left { LeavesOpened controller_records (K.store keep.old) (K.store keep.new) (controller_head present 1 (Some 0)) }
    {
        open(alloc, config, keep)
    }
}
