//! The node plugin over a store.
use crate::node_opening::{Joining, NodeMade};
use crate::node_unopened::NodeUnopened;
use crate::opening::open;
use crate::plugin::Plugin;
use crate::plugin_service::{PluginService, service_of};
use csi_fence::{Answer, CoreFault};
use csi_node::{Node, NodeRecord, NodeRow, record_law, showing_law};
use csi_records::{answered_value, node_head_value};
use csi_stores::Keep;
use csi_types::{CallRef, NoMemory, NodeId, Number, Party, VolumeId};
use std::alloc::Global;

/// A node's plugin with its record, whose parts a store keeps: a core that answers as its `Node` does. This profile's own.
pub type NodeService = PluginService<Node>;

impl Plugin for Node {
    ghost use Rattle.std.specs.Prelude.{◌≡◌, ℕ, List, Some, None, map};
    ghost use Rattle.csi_node.specs.Model.OneRow.{NodeRowShown, node_row_shown};
    ghost use Rattle.csi_node.specs.Model.State.{NodeState};
    ghost use Rattle.csi_records.specs.Public.Records.{node_layout, AreParts};
    ghost use Rattle.csi_records.specs.Public.Spelling.{present};
    ghost use Rattle.csi_records.specs.Public.Writing.{ArePublishedFew};
    ghost use Rattle.csi_service.specs.Public.Services.{node_view};

    type Record = NodeRecord;

    type Row = NodeRow;

    ghost Own = { List ℕ };

    ghost Shown = { NodeRowShown };

    ghost State = { NodeState };

    ghost view = { node_view };

    ghost shown = { node_row_shown };

    ghost is_small = { ArePublishedFew };

    ghost spells = { λ kept parts. AreParts (node_layout present None)
        (record { own = kept.id; session = Some kept.session }) (map node_row_shown kept.rows) parts };

    ghost is_same = { λ one other. (one.id ≡ other.id) × (one.session ≡ other.session) × (map node_row_shown one.rows ≡ map node_row_shown other.rows) };

    fn numbers(&self) -> (u64, u64) {
        (0, self.session())
    }

    fn row_at(&self, place: usize) -> Option<&NodeRow> {
        self.row_at(place)
    }

    fn id_of(row: &NodeRow) -> VolumeId {
        row.id
    }

    fn value_of(alloc: Global, row: &NodeRow) -> Result<Vec<u8>, NoMemory> {
        answered_value(alloc, row)
    }

    fn head_value(&self, alloc: Global, session: u64) -> Result<Vec<u8>, NoMemory> {
        node_head_value(alloc, self.id(), session)
    }

    fn forgettable(&self) -> Result<Vec<VolumeId>, CoreFault> {
        self.forgettable()
    }

    #[inline(always)]
    fn carry_out(
        &mut self,
        number: Number,
        call: &CallRef<'_>,
    ) -> Result<Option<Answer>, CoreFault> {
        self.answer(number, call)
    }

    fn raise(&mut self, session: u64) {
        self.raise(session);
    }

    fn plugin_law(&self) {
        record_law(self);
        showing_law(self);
        let _id = self.id().as_str();
        let _session = self.session();
    }
}

impl PluginService<Node> {
    ghost use Rattle.std.specs.Prelude.{◌≡◌, ◌∷◌, ℕ, Some, [], map, IfOk, IfErr};
    ghost use Rattle.csi_node.specs.Model.OneRow.{node_row_shown};
    ghost use Rattle.csi_node.specs.Model.Record.{parts as shown_rows, Shows};
    ghost use Rattle.csi_node.specs.Model.State.{NodeState};
    ghost use Rattle.csi_records.specs.Public.Spelling.{present, node_parts};
    ghost use Rattle.csi_service.specs.Public.Plugins.{IsFrom};
    ghost use Rattle.csi_service.specs.Public.NodeOpening.{joined_head, HasNode, IsNodeUnopened, LeavesNode, RefusesForeign};
    ghost use Rattle.csi_service.specs.Public.Services.{node_service_parts, node_service_changes, AreFitNodeRows};

    /// A node that joins with this session (`Node::new`) and answered nothing, which no store has yet. A refusal is one of memory.
    pub fn new(alloc: Global, id: NodeId, session: u64) -> Result<NodeService, NoMemory>
        ensures node { IfOk result (λ service. service.plugin.id ≡ id) }
        ensures session { IfOk result (λ service. service.plugin.session ≡ session) }
        ensures parts { IfOk result (λ service. node_service_parts service ≡ joined_head id session ∷ []) }
        ensures changes { IfOk result (λ service. node_service_changes service ≡ []) }
    {
        let party = Party::Node(id.clone()?);
        Ok(service_of(alloc, Node::new(alloc, id, session), party))
    }

    /// The node of its record. A refusal is one of memory.
    pub fn from_record(alloc: Global, kept: NodeRecord) -> Result<NodeService, NoMemory>
        ensures has { IfOk result (λ service. service.plugin ≡ kept) }
        ensures parts { IfOk result (λ service. node_service_parts service ≡ node_parts present kept.id (Some kept.session) (map node_row_shown kept.rows)) }
        ensures changes { IfOk result (λ service. node_service_changes service ≡ []) }
    {
        let id = kept.id().clone()?;
        NodeService::of_record(alloc, id, kept)
    }

    /// The node's record as a value. A refusal is one of memory, and leaves the node as it is.
    pub fn record(&self) -> Result<NodeRecord, NoMemory>
        ensures parts { IfOk result (λ kept. node_parts present kept.id (Some kept.session) (map node_row_shown kept.rows) ≡ node_service_parts self.now) }
        ensures id { IfOk result (λ kept. kept.id ≡ self.now.plugin.id) }
        ensures shows { (state : NodeState) → Shows self.now.plugin state → IfOk result (λ kept. Shows kept state) }
    {
        match self.plugin.record() {
            Ok(kept) => Ok(kept),
            Err(_) => Err(NoMemory),
        }
    }

    /// The node of this id, which joined with this session, of the store's record. A store without a part gets the head of an empty record
    /// with this session first, and a record in an earlier version is put in whole in the present one, in one commit, before the node
    /// is given: under the greatest session of its last calls, and without the rows that a node forgets where that session begins. Over
    /// a record the session is a check, and neither raises nor lowers anything: where the record's is earlier, in an earlier version the
    /// greatest of its last calls, it is that of a lost node, refused with `EarlierSession`, and nothing is changed. Else refused with
    /// `Keep`: `BadRecord` where the store's parts are no record of this node, with the first that is refused, the head where it is
    /// another plugin's or another node's; `Device` only where the device failed in this call, and `Full` only where what it would commit
    /// doesn't fit; what is left then is what was there, or what it would commit. This profile's own.
    pub fn open<K: Keep>(
        alloc: Global,
        id: NodeId,
        session: u64,
        keep: &mut K,
    ) -> Result<NodeService, NodeUnopened>
        ensures opened { IfOk result (HasNode id session (K.store keep.old) (K.store keep.new)) }
        ensures id { IfOk result (λ service. service.plugin.id ≡ id) }
        ensures session { IfOk result (λ service. IsFrom session service.plugin.session) }
        ensures fit { IfOk result (λ service. AreFitNodeRows (shown_rows service.plugin.rows)) }
        ensures changes { IfOk result (λ service. node_service_changes service ≡ []) }
        ensures cause { IfErr result (IsNodeUnopened id session (K.store keep.old) (K.store keep.new)) }
        ensures honest { (K.store keep.new).honest → (K.store keep.old).honest }
        ensures foreign { (K.store keep.new).honest → (place : ℕ) → (K.store keep.old).foreign place → RefusesForeign place result }
        ensures left { LeavesNode id session (K.store keep.old) (K.store keep.new) }
    {
        match open(alloc, Joining { id, session }, keep) {
            Ok(NodeMade::Opened(service)) => Ok(service),
            Ok(NodeMade::EarlierSession) => Err(NodeUnopened::EarlierSession),
            Err(fault) => Err(NodeUnopened::Keep(fault)),
        }
    }

    // The node of its record.
    pub(crate) fn of_record(
        alloc: Global,
        id: NodeId,
        kept: NodeRecord,
    ) -> Result<NodeService, NoMemory>
        requires { kept.id ≡ id }
        ensures has { IfOk result (λ service. service.plugin ≡ kept) }
        ensures parts { IfOk result (λ service. node_service_parts service ≡ node_parts present kept.id (Some kept.session) (map node_row_shown kept.rows)) }
        ensures changes { IfOk result (λ service. node_service_changes service ≡ []) }
    {
        match Node::from_record(alloc, kept) {
            Ok(node) => Ok(service_of(alloc, node, Party::Node(id))),
            Err(_) => Err(NoMemory),
        }
    }
}
