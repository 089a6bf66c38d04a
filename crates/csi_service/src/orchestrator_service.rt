//! The orchestrator over a store.
use crate::opening::open;
use crate::orchestrator_changes::{
    OrchestratorChanged, nodes_law, place_for, push_removals_behind, push_row, row_heard,
    row_named, session_change,
};
use crate::orchestrator_opening::{AskedOrchestrator, OrchestratorMade};
use crate::orchestrator_unopened::OrchestratorUnopened;
use csi_orchestrator::{
    Heard, OrchFault, OrchRecordFault, Orchestrator, OrchestratorRecord, are_nodes_fit, rows_law,
};
use csi_records::{orchestrator_head_value, push_orchestrator_rows};
use csi_stores::{Keep, Part, push_value};
use csi_types::{Capability, CapabilityList, Frame, Name, NoMemory, NodeId, Target};
use std::alloc::Global;
use std::marker::Model;

/// The orchestrator with its record, whose parts a store keeps. What a call changed is to be committed before the frame that it answers is
/// sent. A contract sees the orchestrator, and what the last call changed. This profile's own.
#[derive(Drop)]
pub struct OrchestratorService {
    alloc: Global,
    orchestrator: Orchestrator,
    // By the last call, or by opening.
    changed: OrchestratorChanged,
}

impl Model for OrchestratorService {
    ghost use Rattle.csi_orchestrator.specs.Public.Record.{AreNodesFit};
    ghost use Rattle.csi_service.specs.Public.OrchestratorServices.{ServedOrchestrator};

    ghost Value = { ServedOrchestrator };

    ghost view = { λ service. record { orchestrator = service.orchestrator; changed = service.changed } };

    ghost invariant = { λ service. AreNodesFit service.orchestrator.nodes };
}

impl OrchestratorService {
    ghost use Rattle.std.specs.Prelude.{◌≡◌, ◌++◌, ◌∷◌, [], ℕ, List, Some, None, length, map, IfOk, IfErr, IsOk, OnOk};
    ghost use Rattle.csi_orchestrator.specs.declared.fault.OrchFault.{OrchFault as Fault};
    ghost use Rattle.csi_orchestrator.specs.declared.fault.Heard.{Heard as HeardShown};
    ghost use Rattle.csi_orchestrator.specs.Model.History.{History, new_history};
    ghost use Rattle.csi_orchestrator.specs.Model.WellFormed.{IsWellFormed};
    ghost use Rattle.csi_orchestrator.specs.Model.Moves.{ToCreate, ToUse, ToStop, ToDelete, TimesOut, Comes, Sends, Hears, moves};
    ghost use Rattle.csi_orchestrator.specs.Model.Shown.{Shows};
    ghost use Rattle.csi_orchestrator.specs.Public.Changed.{ChangesAsHeard};
    ghost use Rattle.csi_orchestrator.specs.Public.Laws.{opened_parts};
    ghost use Rattle.csi_orchestrator.specs.Public.Promises.{IsAnsweredAs, IsHeardAs};
    ghost use Rattle.csi_orchestrator.specs.Public.Record.{AreNodesFit, RecordParts};
    ghost use Rattle.csi_stores.specs.Public.Part.{StoredPart, part_change, put_all};
    ghost use Rattle.csi_records.specs.Public.OrchestratorRecords.{orchestrator_layout, IsOrchestratorOf};
    ghost use Rattle.csi_records.specs.Public.OrchestratorSpelling.{orchestrator_head};
    ghost use Rattle.csi_records.specs.Public.Records.{IsRecordOf};
    ghost use Rattle.csi_records.specs.Public.Spelling.{present};
    ghost use Rattle.csi_service.specs.Public.OrchestratorOpening.{new_record, opening_refusal, orchestrator_rules, HasOrchestrator, IsNewRefusal, IsRecordUnopened};
    ghost use Rattle.csi_service.specs.Public.OrchestratorOpening.{IsOrchestratorUnopened, RefusesForeign};
    ghost use Rattle.csi_service.specs.Public.OrchestratorServices.{kept_of, orchestrator_service_parts, orchestrator_service_changes, whole_change};
    ghost use Rattle.csi_service.specs.Public.OrchestratorServices.{session_change as changed_by_session, session_changes, OrchestratorLoses};
    ghost use Rattle.csi_service.specs.declared.orchestrator_changes.OrchestratorChanged.{OrchestratorChanged as Changed};
    ghost use Rattle.csi_service.specs.Public.OrchestratorServices.{AreFitOrchestratorRows, IsChangedRowFit, OrchestratorAnswers, TellsChanges, IsOneRow};
    ghost use Rattle.csi_service.specs.Public.StoreOpening.{LeavesOpening};

    /// An orchestrator of these nodes that did nothing, in session 1, which no store has yet: its head is told as changed. Refused with
    /// `BadNodes` for more than 64 nodes or a node that stands there twice, and else only with `NoMemory`.
    pub fn new(alloc: Global, nodes: Vec<NodeId>) -> Result<OrchestratorService, OrchRecordFault>
        ensures has { IfOk result (λ service. service.orchestrator ≡ opened_parts new_record nodes.items) }
        ensures shows { IfOk result (λ service. Shows service.orchestrator (new_history nodes.items)) }
        ensures changes { IfOk result (λ service. orchestrator_service_changes service ≡ put_all (orchestrator_head present 1 nodes.items ∷ [])) }
        ensures fit { OnOk result (AreNodesFit nodes.items) }
        ensures refused { IfErr result (IsNewRefusal nodes.items) }
    {
        if !are_nodes_fit(nodes.as_slice()) {
            return Err(OrchRecordFault::BadNodes);
        }
        match OrchestratorRecord::try_new(alloc, Vec::new(alloc), 0, Vec::new(alloc)) {
            Ok(kept) => Ok(OrchestratorService::of_record(alloc, kept, nodes).unwrap()),
            Err(_) => Err(OrchRecordFault::NoMemory),
        }
    }

    /// The orchestrator of a record, as a restart with these nodes leaves it: in the next session, with no open call, and without the names
    /// that are forgotten (`Orchestrator::restart`). What changed is told. Refused with the first that holds of `BadNodes` (more than 64
    /// nodes, or a node that stands there twice), `NumbersSpent` (the record's session is the last one) and `NodeInUse` (a volume may be
    /// attached at a node of the record that isn't one of these), and never otherwise. It takes no memory.
    pub fn from_record(
        alloc: Global,
        kept: OrchestratorRecord,
        nodes: Vec<NodeId>,
    ) -> Result<OrchestratorService, OrchestratorUnopened>
        ensures has { IfOk result (λ service. service.orchestrator ≡ opened_parts kept nodes.items) }
        ensures changes { IfOk result (λ service. orchestrator_service_changes service
            ≡ session_changes (length kept.rows) (opened_parts kept nodes.items)) }
        ensures fit { OnOk result (AreNodesFit nodes.items) }
        ensures unrefused { OnOk result (opening_refusal kept nodes.items ≡ None) }
        ensures refused { IfErr result (IsRecordUnopened kept nodes.items) }
    {
        if !are_nodes_fit(nodes.as_slice()) {
            return Err(OrchestratorUnopened::BadNodes);
        }
        match OrchestratorService::of_record(alloc, kept, nodes) {
            Ok(service) => Ok(service),
            Err(OrchFault::NodeInUse) => Err(OrchestratorUnopened::NodeInUse),
            Err(_) => Err(OrchestratorUnopened::NumbersSpent),
        }
    }

    /// The same of a record that no store has yet: all of it is told as changed, to a store that has nothing.
    pub fn from_new_record(
        alloc: Global,
        kept: OrchestratorRecord,
        nodes: Vec<NodeId>,
    ) -> Result<OrchestratorService, OrchestratorUnopened>
        ensures has { IfOk result (λ service. service.orchestrator ≡ opened_parts kept nodes.items) }
        ensures changes { IfOk result (λ service. orchestrator_service_changes service ≡ put_all (orchestrator_service_parts service)) }
        ensures fit { OnOk result (AreNodesFit nodes.items) }
        ensures unrefused { OnOk result (opening_refusal kept nodes.items ≡ None) }
        ensures refused { IfErr result (IsRecordUnopened kept nodes.items) }
    {
        match OrchestratorService::from_record(alloc, kept, nodes) {
            Ok(mut service) => {
                service.changed = OrchestratorChanged::Whole(0);
                Ok(service)
            }
            Err(why) => Err(why),
        }
    }

    // The same of nodes that are fit.
    pub(crate) fn of_record(
        alloc: Global,
        kept: OrchestratorRecord,
        nodes: Vec<NodeId>,
    ) -> Result<OrchestratorService, OrchFault>
        requires { AreNodesFit nodes.items }
        ensures value { IfOk result (λ service. service ≡ record {
          orchestrator = opened_parts kept nodes.items;
          changed = changed_by_session (length kept.rows) (length (opened_parts kept nodes.items).rows);
        }) }
        ensures unrefused { OnOk result (opening_refusal kept nodes.items ≡ None) }
        ensures refused { IfErr result (λ fault. opening_refusal kept nodes.items ≡ Some fault) }
    {
        let before = kept.rows().len();
        let orchestrator = Orchestrator::from_record(alloc, kept, nodes)?;
        let changed = session_change(before, orchestrator.rows().len());
        Ok(OrchestratorService {
            alloc,
            orchestrator,
            changed,
        })
    }

    /// Its record: its nodes, its session, and its rows, once its open calls are given up. It takes no memory.
    pub fn into_record(self) -> OrchestratorRecord
        ensures { result ≡ kept_of self.orchestrator }
    {
        let OrchestratorService { orchestrator, .. } = self;
        orchestrator.into_record().unwrap()
    }

    /// The orchestrator of the store's record after a restart with these nodes (`Orchestrator::restart`), in the session after the record's;
    /// of a store without a part in session 1. Where `least` is a later session, it is in that one: an older copy of a store, or one that is
    /// opened twice, then uses no number again, if `least` never was one before. What changed is committed before it is given: every open
    /// call is given up, no number comes twice, and names are forgotten. It is the head, or, where names were forgotten, the whole record, in one commit. Refused with the
    /// first that holds of `BadNodes` (more than 64 nodes, or a node that stands there twice), `Keep`, `NumbersSpent` (the record's session is
    /// the last one) and `NodeInUse` (a volume may be attached at a node of the record that isn't one of these); `Keep` also at the commit. It is
    /// `BadRecord` where the store's parts are no orchestrator's record, with the first that is refused; `Device` only where the
    /// device failed in this call, and `Full` only where what it would commit doesn't fit; what is left then is what was there, or what it
    /// would commit. The other refusals change nothing. This profile's own.
    pub fn open<K: Keep>(
        alloc: Global,
        nodes: Vec<NodeId>,
        least: u64,
        keep: &mut K,
    ) -> Result<OrchestratorService, OrchestratorUnopened>
        ensures opened { IfOk result (HasOrchestrator least nodes.items (K.store keep.old) (K.store keep.new)) }
        ensures nodes { IfOk result (λ service. service.orchestrator.nodes ≡ nodes.items) }
        ensures fit { IfOk result (λ service. AreFitOrchestratorRows service.orchestrator.rows) }
        ensures changes { IfOk result (λ service. orchestrator_service_changes service ≡ []) }
        ensures cause { IfErr result (IsOrchestratorUnopened least nodes.items (K.store keep.old) (K.store keep.new)) }
        ensures honest { (K.store keep.new).honest → (K.store keep.old).honest }
        ensures foreign { (K.store keep.new).honest → (place : ℕ) → (K.store keep.old).foreign place → RefusesForeign place result }
        ensures left { LeavesOpening (orchestrator_rules least nodes.items) (K.store keep.old) (K.store keep.new) }
    {
        match open(alloc, AskedOrchestrator { nodes, least }, keep) {
            Ok(OrchestratorMade::Opened(service)) => Ok(service),
            Ok(OrchestratorMade::BadNodes) => Err(OrchestratorUnopened::BadNodes),
            Ok(OrchestratorMade::NumbersSpent) => Err(OrchestratorUnopened::NumbersSpent),
            Ok(OrchestratorMade::NodeInUse) => Err(OrchestratorUnopened::NodeInUse),
            Err(fault) => Err(OrchestratorUnopened::Keep(fault)),
        }
    }

    /// The orchestrator.
    pub fn orchestrator(&self) -> &Orchestrator
        ensures value { result.now ≡ self.now.orchestrator }
        ensures fit { AreNodesFit self.now.orchestrator.nodes }
    {
        &self.orchestrator
    }

    /// Requests creation of a volume (`Orchestrator::create`). A refusal changes nothing.
    pub fn create(
        &mut self,
        name: Name,
        required: u64,
        limit: u64,
        capabilities: CapabilityList,
    ) -> Result<Option<Frame>, OrchFault>
        ensures answered { OrchestratorAnswers Sends self.old (ToCreate name (record {
          required = required;
          limit = limit;
          capabilities = capabilities;
        })) result self.new }
        ensures changed { TellsChanges self.old result self.new }
        ensures one { IsOneRow self.new.changed }
    {
        self.changed = OrchestratorChanged::Nothing;
        let place = place_for(&self.orchestrator, &name);
        let sent = self
            .orchestrator
            .create(name, required, limit, capabilities)?;
        self.changed = OrchestratorChanged::Row(place);
        Ok(sent)
    }

    /// Requests publication of the volume at a target of a node (`Orchestrator::use_at`). A refusal changes nothing, and nothing is told as
    /// changed where it is so already.
    pub fn use_at(
        &mut self,
        name: &Name,
        node: NodeId,
        target: Target,
        capability: Capability,
        readonly: bool,
    ) -> Result<Option<Frame>, OrchFault>
        ensures answered { OrchestratorAnswers Sends self.old (ToUse name.now (record {
          node = node;
          target = target;
          capability = capability;
          readonly = readonly;
        })) result self.new }
        ensures met { (history : History) → IsWellFormed history → Shows self.old.orchestrator history →
            IsAnsweredAs (Sends None) (moves history (ToUse name.now (record {
              node = node;
              target = target;
              capability = capability;
              readonly = readonly;
            }))) → IsOk result }
        ensures changed { TellsChanges self.old result self.new }
        ensures one { IsOneRow self.new.changed }
        ensures rests { IfOk result (λ sent. sent ≡ None → orchestrator_service_changes self.new ≡ []) }
    {
        self.changed = OrchestratorChanged::Nothing;
        let sent = self
            .orchestrator
            .use_at(name, node, target, capability, readonly)?;
        self.changed = row_named(&self.orchestrator, name, sent.is_some());
        Ok(sent)
    }

    /// Requests that the volume is unpublished at the target of a node (`Orchestrator::stop`). A refusal changes nothing.
    pub fn stop(
        &mut self,
        name: &Name,
        node: NodeId,
        target: Target,
    ) -> Result<Option<Frame>, OrchFault>
        ensures answered { OrchestratorAnswers Sends self.old (ToStop name.now node target) result self.new }
        ensures changed { TellsChanges self.old result self.new }
        ensures one { IsOneRow self.new.changed }
    {
        self.changed = OrchestratorChanged::Nothing;
        let sent = self.orchestrator.stop(name, node, target)?;
        self.changed = row_named(&self.orchestrator, name, true);
        Ok(sent)
    }

    /// Requests deletion of the volume (`Orchestrator::delete`). A refusal changes nothing, and nothing is told as changed where the volume
    /// doesn't exist. It takes no memory.
    pub fn delete(&mut self, name: &Name) -> Result<Option<Frame>, OrchFault>
        ensures answered { OrchestratorAnswers Sends self.old (ToDelete name.now) result self.new }
        ensures memory { IfErr result (λ fault. fault ≡ Fault.NoMemory → ⊥) }
        ensures changed { TellsChanges self.old result self.new }
        ensures one { IsOneRow self.new.changed }
        ensures rests { IfOk result (λ sent. sent ≡ None → orchestrator_service_changes self.new ≡ []) }
    {
        self.changed = OrchestratorChanged::Nothing;
        let sent = self.orchestrator.delete(name)?;
        self.changed = row_named(&self.orchestrator, name, sent.is_some());
        Ok(sent)
    }

    /// The open call of a volume timed out (`Orchestrator::timeout`). A refusal changes nothing.
    pub fn timeout(&mut self, name: &Name) -> Result<Option<Frame>, OrchFault>
        ensures answered { OrchestratorAnswers Sends self.old (TimesOut name.now) result self.new }
        ensures changed { TellsChanges self.old result self.new }
        ensures one { IsOneRow self.new.changed }
    {
        self.changed = OrchestratorChanged::Nothing;
        let sent = self.orchestrator.timeout(name)?;
        self.changed = row_named(&self.orchestrator, name, true);
        Ok(sent)
    }

    /// A frame came (`Orchestrator::deliver`). A refusal changes nothing, and nothing is told as changed where it is ignored.
    pub fn deliver(&mut self, frame: &Frame) -> Result<Heard, OrchFault>
        ensures answered { OrchestratorAnswers Hears self.old (Comes frame.now) result self.new }
        ensures ignored { (history : History) → IsWellFormed history → Shows self.old.orchestrator history →
            IsHeardAs HeardShown.Ignored (moves history (Comes frame.now)) → IsOk result }
        ensures quiet { (history : History) → IsWellFormed history → Shows self.old.orchestrator history →
            IsHeardAs (HeardShown.Taken None) (moves history (Comes frame.now)) → IsOk result }
        ensures row { IfOk result (λ heard. ChangesAsHeard frame.now.number heard self.old.orchestrator self.new.orchestrator) }
        ensures changed { TellsChanges self.old result self.new }
        ensures one { IsOneRow self.new.changed }
        ensures rests { IfOk result (λ heard. heard ≡ HeardShown.Ignored → orchestrator_service_changes self.new ≡ []) }
    {
        self.changed = OrchestratorChanged::Nothing;
        let place = self.orchestrator.place_of_call(frame.number());
        let heard = self.orchestrator.deliver(frame)?;
        self.changed = row_heard(place, &heard);
        Ok(heard)
    }

    /// A node is lost (`Orchestrator::lose`): the machine is off for good, and its store never comes back; an emptied store is a lost node.
    /// What changed is the whole record. A refusal, `NumbersSpent` in the last session, changes nothing. It takes no memory.
    pub fn lose(&mut self, node: &NodeId) -> Result<(), OrchFault>
        ensures answered { OrchestratorLoses self.old node.now result self.new }
        ensures changed { TellsChanges self.old result self.new }
    {
        self.changed = OrchestratorChanged::Nothing;
        let before = self.orchestrator.rows().len();
        self.orchestrator.lose(node)?;
        self.changed = OrchestratorChanged::Whole(before);
        Ok(())
    }

    // Puts the part of the head at the end.
    fn push_head(&self, parts: &mut Vec<Part>) -> Result<(), NoMemory>
        ensures { OnOk result (map part_change parts.new.items ≡ map part_change parts.old.items
            ++ put_all (orchestrator_head present self.now.orchestrator.last.session self.now.orchestrator.nodes ∷ [])) }
    {
        let orchestrator = &self.orchestrator;
        let value = orchestrator_head_value(
            self.alloc,
            orchestrator.session(),
            orchestrator.nodes(),
        )?;
        push_value(parts, 0, value)
    }

    // Puts the parts of the whole record at the end, and that the keys behind its rows are taken out, where there were so many rows before.
    fn push_whole(&self, parts: &mut Vec<Part>, before: usize) -> Result<(), NoMemory>
        ensures parts { OnOk result (map part_change parts.new.items ≡ map part_change parts.old.items ++ whole_change before self.now.orchestrator) }
        ensures fit { OnOk result (AreFitOrchestratorRows self.now.orchestrator.rows) }
    {
        let rows = self.orchestrator.rows();
        self.push_head(parts)?;
        push_orchestrator_rows(self.alloc, parts, rows)?;
        push_removals_behind(parts, rows.len(), before)
    }

    /// What the last call changed, or opening: the part of the head; that of the one row that was changed or made, for which no row is
    /// searched; or, where a session began and names were forgotten or a node was lost, those of the whole record, and what takes out the
    /// rows behind.
    pub fn parts(&self) -> Result<Vec<Part>, NoMemory>
        ensures changes { IfOk result (λ parts. map part_change parts.items ≡ orchestrator_service_changes self.now) }
        ensures fit { OnOk result (IsChangedRowFit self.now.changed self.now.orchestrator.rows) }
    {
        let mut parts = Vec::new(self.alloc);
        match self.changed {
            OrchestratorChanged::Nothing => {}
            OrchestratorChanged::Head => self.push_head(&mut parts)?,
            OrchestratorChanged::Row(place) => {
                push_row(self.alloc, &mut parts, &self.orchestrator, place)?
            }
            OrchestratorChanged::Whole(before) => self.push_whole(&mut parts, before)?,
        }
        Ok(parts)
    }

    /// The same, after which nothing is told as changed.
    pub(crate) fn take_parts(&mut self) -> Result<Vec<Part>, NoMemory>
        ensures changes { IfOk result (λ parts. map part_change parts.items ≡ orchestrator_service_changes self.old) }
        ensures fit { OnOk result (IsChangedRowFit self.old.changed self.old.orchestrator.rows) }
        ensures left { OnOk result (self.new ≡ record { orchestrator = self.old.orchestrator; changed = Changed.Nothing }) }
    {
        let parts = self.parts()?;
        self.changed = OrchestratorChanged::Nothing;
        Ok(parts)
    }

    /// A law, and nothing that runs: where all in its rows is within its limits, its parts are those of its record; and the same parts are one
    /// record's alone, so they determine it.
    pub fn record_law(&self)
        ensures there { AreFitOrchestratorRows self.now.orchestrator.rows →
            IsOrchestratorOf present (orchestrator_service_parts self.now) (kept_of self.now.orchestrator) }
        ensures alone { (parts : List StoredPart) → (one other : RecordParts) → IsOrchestratorOf present parts one → IsOrchestratorOf present parts other →
            one ≡ other }
    {
        rows_law(&self.orchestrator);
        nodes_law(self.orchestrator.nodes());
        let _session = self.orchestrator.session();
    }
}
