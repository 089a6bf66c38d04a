//! The orchestrator.
ghost use Rattle.std.specs.Prelude.{◌≡◌, ◌+◌, ◌≤◌, ◌^◌, length, map, Some, None, IfOk, OnOk, OnErr, IfErr, IsOk};
ghost use Rattle.std.specs.List.{AllByRecursion};
ghost use Rattle.csi_orchestrator.specs.declared.fault.OrchFault.{OrchFault as Fault};
ghost use Rattle.csi_orchestrator.specs.declared.fault.OrchRecordFault.{OrchRecordFault as RecordFaultShown};
ghost use Rattle.csi_orchestrator.specs.declared.fault.Heard.{Heard as HeardShown};
ghost use Rattle.csi_orchestrator.specs.declared.thing.Known.TheVariants.{No};
ghost use Rattle.csi_orchestrator.specs.declared.thing.Thing.{Thing as ThingShown};

mod stale;

use crate::beginning::session_with;
use crate::catalog::Catalog;
use crate::fault::{Heard, OrchFault, OrchRecordFault};
use crate::listing::things_in;
use crate::record::OrchestratorRecord;
use crate::replies::index_numbered;
use crate::request::{Arguments, Usage};
use crate::row::Row;
use crate::state::{OrchestratorCore, known_in};
use crate::step::Step;
use crate::thing::{Known, Thing};
use csi_types::{Capability, CapabilityList, Frame, Name, NodeId, Number, Target};
use std::alloc::Global;
use std::marker::Model;

/// The orchestrator of CSI's spec.md, "Volume Lifecycle": what is wanted of each volume, what it knows of it, and
/// which call is open. A contract sees its nodes, its last number and its rows, and speaks of every history with which
/// what they show agrees.
#[derive(Drop)]
pub struct Orchestrator {
    core: OrchestratorCore,
}

impl Model for Orchestrator {
    ghost use Rattle.csi_orchestrator.specs.Model.Shown.{OrchestratorParts};
    ghost use Rattle.csi_orchestrator.specs.Public.CoreParts.{orchestrator_parts_shown, IsFiled};
    ghost use Rattle.csi_orchestrator.specs.Public.Sound.{AreSoundParts};

    ghost Value = { OrchestratorParts };

    ghost view = { λ orchestrator. orchestrator_parts_shown orchestrator.core };

    ghost invariant = { λ orchestrator. AreSoundParts (orchestrator_parts_shown orchestrator.core) × IsFiled orchestrator.core };
}

impl Orchestrator {
    ghost use Rattle.csi_orchestrator.specs.Model.History.{History, new_history, history_after};
    ghost use Rattle.csi_orchestrator.specs.Model.WellFormed.{IsWellFormed};
    ghost use Rattle.csi_orchestrator.specs.Model.Moves.{ToCreate, ToUse, ToStop, ToDelete, TimesOut, Comes, Restarts, Loses, Hears, Restarted, GivenUp, moves};
    ghost use Rattle.csi_orchestrator.specs.Model.Readings.{known, last_number};
    ghost use Rattle.csi_orchestrator.specs.Model.Shown.{Shows, orchestrator_view};
    ghost use Rattle.csi_orchestrator.specs.Public.RowMoves.{IsRefusal};
    ghost use Rattle.csi_orchestrator.specs.Public.Promises.{AnswersAsked, FollowsUnrefused, IsHeardAs};
    ghost use Rattle.csi_orchestrator.specs.Public.Listing.{ListsKnown, IsInOrder};
    ghost use Rattle.csi_orchestrator.specs.Public.Sound.{AreSoundParts};
    ghost use Rattle.csi_orchestrator.specs.Public.Bounds.{AreFew, IsRowFew};
    ghost use Rattle.csi_orchestrator.specs.Public.Changed.{place_by_name, place_by_call, ChangesAsHeard};
    ghost use Rattle.csi_orchestrator.specs.Public.Record.{AreNodesFit};
    ghost use Rattle.csi_orchestrator.specs.Public.Beginning.{restart_refusal, restarted_parts, parts_at_loss};
    ghost use Rattle.csi_orchestrator.specs.Public.Laws.{opened_parts};
    ghost use Rattle.csi_orchestrator.specs.Public.Shown.{row_shown, closed};

    /// An orchestrator of these nodes that did nothing, in session 1. It takes no memory.
    pub fn new(alloc: Global, nodes: Vec<NodeId>) -> Orchestrator
        ensures nodes { result.nodes ≡ nodes.items }
        ensures agrees { Shows result (new_history nodes.items) }
    {
        Orchestrator::numbered(
            alloc,
            nodes,
            Number {
                session: 1,
                call: 0,
            },
        )
    }

    /// The same, with its calls numbered after this number. It takes no memory.
    pub fn numbered(alloc: Global, nodes: Vec<NodeId>, last: Number) -> Orchestrator
        ensures nodes { result.nodes ≡ nodes.items }
        ensures agrees { Shows result (history_after nodes.items last) }
    {
        Orchestrator {
            core: OrchestratorCore {
                alloc,
                nodes,
                last,
                catalog: Catalog::new(alloc),
            },
        }
    }

    /// The orchestrator of a record (this profile's own), as a restart with these nodes leaves it: in the next session, with the record's
    /// rows but those that are forgotten, and no open call. Refused with the first that holds of `NumbersSpent` (the record's session is
    /// the last one) and `NodeInUse` (a volume may be attached at a node of the record that isn't one of these), and never otherwise. It
    /// takes no memory.
    pub fn from_record(
        alloc: Global,
        kept: OrchestratorRecord,
        nodes: Vec<NodeId>,
    ) -> Result<Orchestrator, OrchFault>
        ensures value { IfOk result (λ made. made ≡ opened_parts kept nodes.items) }
        ensures unrefused { OnOk result (restart_refusal kept.session kept.nodes nodes.items kept.rows ≡ None) }
        ensures refused { IfErr result (λ fault. restart_refusal kept.session kept.nodes nodes.items kept.rows ≡ Some fault) }
    {
        match session_with(kept.session(), kept.nodes(), nodes.as_slice(), kept.rows()) {
            Ok(session) => Ok(Orchestrator {
                core: kept.opened(alloc, session, nodes),
            }),
            Err(fault) => {
                drop(kept);
                drop(nodes);
                Err(fault)
            }
        }
    }

    /// Its record (this profile's own): its nodes, its session, and its rows, once its open calls are given up. Refused with `BadNodes` for
    /// more than 64 nodes or a node that stands there twice, and never otherwise. It takes no memory.
    pub fn into_record(self) -> Result<OrchestratorRecord, OrchRecordFault>
        ensures value { IfOk result (λ kept. kept ≡ record { nodes = self.nodes; session = self.last.session; rows = map closed self.rows }) }
        ensures fit { OnOk result (AreNodesFit self.nodes) }
        ensures refused { IfErr result (λ fault. (fault ≡ RecordFaultShown.BadNodes) × (AreNodesFit self.nodes → ⊥)) }
    {
        let Orchestrator { core } = self;
        OrchestratorRecord::of_core(core)
    }

    /// The session in which its next call is numbered. By it callers have what the type keeps of what it shows.
    pub fn session(&self) -> u64
        ensures value { result ≡ self.now.last.session }
        ensures agrees { (history : History) → Shows self.now history → result ≡ (last_number history).session }
        ensures kept { AreSoundParts self.now }
    {
        self.core.last.session
    }

    /// Its nodes.
    pub fn nodes(&self) -> &[NodeId]
        ensures { result.now ≡ self.now.nodes }
    {
        self.core.nodes.as_slice()
    }

    /// Its rows, in the order of the first creates (this profile's own). What has to be spelled of a row is bounded: at most 64 entries,
    /// each of at most 16 targets, and tries up to 3.
    pub fn rows(&self) -> &[Row]
        ensures value { map row_shown result.now ≡ self.now.rows }
        ensures few { AllByRecursion IsRowFew result.now }
    {
        self.core.catalog.rows.values().as_slice()
    }

    /// Where the row of this name stands among the rows. It takes no memory.
    pub fn place_of(&self, name: &Name) -> Option<usize>
        ensures { result ≡ place_by_name name.now self.now.rows }
    {
        self.core.catalog.index_of(name)
    }

    /// Where the row whose open call has this number stands among the rows. It takes no memory.
    pub fn place_of_call(&self, number: Number) -> Option<usize>
        ensures { result ≡ place_by_call number self.now.rows }
    {
        index_numbered(&self.core.catalog, number)
    }

    /// What it knows of a thing. It takes no memory.
    pub fn known(&self, thing: &Thing) -> Known
        ensures agrees { (history : History) → Shows self.now history → result ≡ known history thing.now }
        ensures marks { result ≡ (orchestrator_view self.now).marks thing.now }
    {
        known_in(&self.core.catalog, thing)
    }

    /// How many calls it has noted by their numbers: the open ones, and some that aren't open any more. They are few for the volumes
    /// that it knows, however many were sent. It takes no memory.
    pub fn noted_calls(&self) -> usize
        ensures { AreFew result (length self.now.rows) }
    {
        self.core.catalog.calls.len()
    }

    /// Requests creation of a volume of this name, with a capacity in bytes of at least `required` and, unless `limit` is 0, at
    /// most `limit`, for each of these capabilities (CSI's spec.md, "CreateVolume"): the CreateVolume to send. Refused
    /// with the first that holds of `NameUsed` (the name has an id, or a request for it is unfinished), `NumbersSpent`, `Full`
    /// (4,096 other names) and `NoMemory`. A refusal changes nothing.
    pub fn create(
        &mut self,
        name: Name,
        required: u64,
        limit: u64,
        capabilities: CapabilityList,
    ) -> Result<Option<Frame>, OrchFault>
        ensures { AnswersAsked name (ToCreate name (record { required = required; limit = limit; capabilities = capabilities })) self.old self.new result }
    {
        let arguments = Arguments {
            required,
            limit,
            capabilities,
        };
        self.core.create(name, arguments)
    }

    /// Requests publication of the volume at a target of a node, with this capability (CSI's spec.md,
    /// "ControllerPublishVolume", "NodeStageVolume" and "NodePublishVolume"): the call to send, or `None` where it is so
    /// already. Refused with the first that holds of `NoSuchVolume`, `NotCreated`, `Busy`, `NoSuchNode`, `NotCapable`,
    /// `HeldElsewhere`, `WriterElsewhere`, `HeldOtherwise` and `TargetTaken`, and, where it isn't so already, of
    /// `NumbersSpent`, `Full` (16 other targets of the node, or 64 other nodes) and `NoMemory`. A refusal changes nothing.
    pub fn use_at(
        &mut self,
        name: &Name,
        node: NodeId,
        target: Target,
        capability: Capability,
        readonly: bool,
    ) -> Result<Option<Frame>, OrchFault>
        ensures { AnswersAsked name.now (ToUse name.now (record { node = node; target = target; capability = capability; readonly = readonly })) self.old self.new result }
    {
        let usage = Usage {
            node,
            target,
            capability,
            readonly,
        };
        self.core.ask(name, Step::Use(usage))
    }

    /// Requests that the volume is unpublished at the target, and then, where it is at no other target of the node, unstaged and
    /// detached there (CSI's spec.md, "NodeUnpublishVolume", "NodeUnstageVolume" and "ControllerUnpublishVolume"): the call to
    /// send. Where it may be attached, and is published at no target, as once the node was lost, any target will do, and the node needn't
    /// be listed. Refused with the first that holds of `NoSuchVolume`, `NotCreated`, `Busy`, `NoSuchNode`, `NoSuchTarget`,
    /// `NumbersSpent` and `NoMemory`. A refusal changes nothing.
    pub fn stop(
        &mut self,
        name: &Name,
        node: NodeId,
        target: Target,
    ) -> Result<Option<Frame>, OrchFault>
        ensures { AnswersAsked name.now (ToStop name.now node target) self.old self.new result }
    {
        self.core.ask(name, Step::Stop { node, target })
    }

    /// Requests deletion (CSI's spec.md, "DeleteVolume"): the DeleteVolume to send, or `None` where the volume doesn't exist.
    /// Refused with the first that holds of `NoSuchVolume`, `NotCreated` (no id was heard) and `InUse`, and, where it may be
    /// there, of `Busy` and `NumbersSpent`. A refusal changes nothing. It takes no memory.
    pub fn delete(&mut self, name: &Name) -> Result<Option<Frame>, OrchFault>
        ensures { AnswersAsked name.now (ToDelete name.now) self.old self.new result }
    {
        self.core.ask(name, Step::Delete)
    }

    /// The open call of a volume timed out: it is given up, and the call that is due is sent under a new
    /// number. A ControllerPublishVolume, NodeStageVolume or NodePublishVolume that was sent three times isn't sent again:
    /// what it was for is undone. Refused with the first that holds of `NoSuchVolume`, `Idle`, `NumbersSpent` and
    /// `NoMemory`. A refusal changes nothing, the open call included.
    pub fn timeout(&mut self, name: &Name) -> Result<Option<Frame>, OrchFault>
        ensures { AnswersAsked name.now (TimesOut name.now) self.old self.new result }
    {
        self.core.ask(name, Step::TimeOut)
    }

    /// A frame came. The reply to an open call, by its number, party and kind, closes that call: what a success says is known
    /// then, and the next call is sent; a refused ControllerPublishVolume, NodeStageVolume or NodePublishVolume is undone, a
    /// refused CreateVolume is given up, and another refused call waits for its timeout. Any other frame is `Ignored`, which
    /// changes nothing and takes no memory; nor does a reply after which nothing is sent. Refused with `NumbersSpent`, where there
    /// is a next call and no number for it, and then `NoMemory`. A refusal changes nothing.
    pub fn deliver(&mut self, frame: &Frame) -> Result<Heard, OrchFault>
        ensures ok { (history : History) → IsWellFormed history → Shows self.old history →
            IfOk result (λ heard. FollowsUnrefused history (moves history (Comes frame.now)) (Hears heard) self.new) }
        ensures err { (history : History) → IsWellFormed history → Shows self.old history →
            IfErr result (IsRefusal (moves history (Comes frame.now))) }
        ensures ignored { (history : History) → IsWellFormed history → Shows self.old history →
            IsHeardAs HeardShown.Ignored (moves history (Comes frame.now)) → IsOk result }
        ensures quiet { (history : History) → IsWellFormed history → Shows self.old history →
            IsHeardAs (HeardShown.Taken None) (moves history (Comes frame.now)) → IsOk result }
        ensures stays { OnErr result (self.new ≡ self.old) }
        ensures nodes { self.new.nodes ≡ self.old.nodes }
        ensures changed { IfOk result (λ heard. ChangesAsHeard frame.now.number heard self.old self.new) }
    {
        self.core.deliver(frame)
    }

    /// Each thing that it doesn't know as `No`, with what it knows of it, each once: by name; of one name first
    /// `Exists`, and then node by node `Attached`, `Staged` and `Published` by target; texts by their bytes. An `Err` is
    /// an allocation that was refused; where each thing is known as `No` none is asked for.
    pub fn things(&self) -> Result<Vec<(Thing, Known)>, OrchFault>
        ensures agrees { (history : History) → Shows self.now history → IfOk result (λ things. ListsKnown (known history) things.items) }
        ensures marks { IfOk result (λ things. ListsKnown (orchestrator_view self.now).marks things.items) }
        ensures order { IfOk result (λ things. IsInOrder things.items) }
        ensures err { IfErr result (λ fault. fault ≡ Fault.NoMemory) }
        ensures empty { ((thing : ThingShown) → (orchestrator_view self.now).marks thing ≡ No) → IsOk result }
    {
        things_in(self.core.alloc, self.core.catalog.rows())
    }

    /// Starts the next session with these nodes (this profile's own): every open call is given up, nothing is sent, and a name is forgotten
    /// whose volume isn't there and of which nothing is wanted. Refused with the first that holds of `NumbersSpent` (in the last session)
    /// and `NodeInUse` (a volume may be attached at a node that isn't one of these any more), which changes nothing. It takes no memory.
    /// What it leaves is what is opened from its record with these nodes.
    pub fn restart(&mut self, nodes: Vec<NodeId>) -> Result<(), OrchFault>
        ensures value { OnOk result (self.new ≡ restarted_parts nodes.items self.old) }
        ensures ok { (history : History) → IsWellFormed history → Shows self.old history →
            IfOk result (λ done. FollowsUnrefused history (moves history (Restarts nodes.items)) Restarted self.new) }
        ensures err { (history : History) → IsWellFormed history → Shows self.old history → IfErr result (IsRefusal (moves history (Restarts nodes.items))) }
        ensures refused { IfErr result (λ fault. restart_refusal self.old.last.session self.old.nodes nodes.items self.old.rows ≡ Some fault) }
        ensures stays { OnErr result (self.new ≡ self.old) }
        ensures nodes { OnOk result (self.new.nodes ≡ nodes.items) }
    {
        self.core.restart(nodes)
    }

    /// A node is lost (this profile's own): the machine is off for good, and its store never comes back; an emptied store is a lost node.
    /// The next session starts without it: every open call is given up, nothing is sent, nothing is staged or published there, a use there
    /// becomes its stop, and names are forgotten as by `restart`. What the controller attached to the node stays attached until `stop`,
    /// with any target, or a timeout detached it. A node that isn't listed is lost too. Refused with `NumbersSpent` in the last session,
    /// which changes nothing. It takes no memory.
    pub fn lose(&mut self, node: &NodeId) -> Result<(), OrchFault>
        ensures value { OnOk result (self.new ≡ parts_at_loss node.now self.old) }
        ensures ok { (history : History) → IsWellFormed history → Shows self.old history →
            IfOk result (λ done. FollowsUnrefused history (moves history (Loses node.now)) GivenUp self.new) }
        ensures err { (history : History) → IsWellFormed history → Shows self.old history → IfErr result (IsRefusal (moves history (Loses node.now))) }
        ensures spent { IfErr result (λ fault. (fault ≡ Fault.NumbersSpent) × (self.old.last.session + 1 ≡ 2 ^ 64)) }
        ensures stays { OnErr result (self.new ≡ self.old) }
    {
        self.core.lose(node)
    }
}
