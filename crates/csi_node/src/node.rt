//! The node plugin.
ghost use Rattle.std.specs.Prelude.{◌≡◌, ◌≤◌, ◌+◌, ◌==◌, true, false, Some, None, is_some, is_none, [], length, filter, count_by};
ghost use Rattle.std.specs.Prelude.{IfOk, OnOk, OnErr, Ok, IsOk, IfSome, option_map, map, slice_get};
ghost use Rattle.std.specs.Option.{option_copied};
ghost use Rattle.csi_types.specs.Public.Lent.{lent_call};
ghost use Rattle.csi_types.specs.Model.Same.{same_text};
ghost use Rattle.csi_types.specs.declared.call.Party.TheVariants.{Node as OfNode};
ghost use Rattle.csi_types.specs.declared.frame.Body.TheVariants.{Call as CallBody, Reply as ReplyBody};
ghost use Rattle.csi_types.specs.Model.Call.{kind_of};
ghost use Rattle.csi_types.specs.Public.Call.{is_node_kind};
ghost use Rattle.csi_types.specs.Public.Frame.{IsAllowed};
ghost use Rattle.csi_node.specs.Public.Fenced.{answer_frame};

use crate::entries::{Published, Staged};
use crate::forgettable::forgettable_ids;
use crate::record::NodeRecord;
use crate::row::NodeRow;
use crate::table::{NodeTable, place_of};
use crate::views::{published_in, staged_in};
use csi_fence::{Answer, CoreFault, Rows};
use csi_types::{Body, CallRef, Frame, NodeId, Number, Party, VolumeId};
use std::alloc::Global;
use std::marker::Model;

/// The node plugin of one node: which volumes are staged there and at which targets they are published, behind a
/// fence that keeps a call from being carried out twice (CSI's spec.md, "NodeStageVolume" to
/// "NodeUnpublishVolume"; the fence is this profile's own). Calls of earlier sessions than the greatest that it heard of, at its
/// joining or by a call, are stale; where a call of a later one begins it, the rows of volumes that aren't staged are forgotten. A
/// contract sees its record.
#[derive(Drop)]
pub struct Node {
    rows: Rows<NodeTable>,
}

impl Model for Node {
    ghost use Rattle.csi_node.specs.Model.Record.{NodeParts};
    ghost use Rattle.csi_node.specs.Public.Plan.{AreNodeRows};

    ghost Value = { NodeParts };

    ghost view = { λ node. record { id = node.rows.table.id; session = node.rows.session; rows = node.rows.rows.items } };

    ghost invariant = { λ node. AreNodeRows node.rows.session node.rows.rows.items node.rows.empty };
}

// Whether the two are the same.
fn is_same_node(a: &NodeId, b: &NodeId) -> bool
    ensures { result ≡ same_text a.now b.now }
{
    a == b
}

// Whether it is a call to a node.
#[inline]
fn is_node_call(call: &CallRef<'_>) -> bool
    ensures { result ≡ is_node_kind (kind_of (lent_call call.now)) }
{
    matches!(
        call,
        CallRef::NodeStageVolume { .. }
            | CallRef::NodeUnstageVolume { .. }
            | CallRef::NodePublishVolume { .. }
            | CallRef::NodeUnpublishVolume { .. }
    )
}

// An answer of this node, as a frame.
fn frame_of(node: NodeId, number: Number, answer: Answer) -> Frame
    requires { IsAllowed (OfNode node) (ReplyBody answer.kind answer.reply) }
    ensures { result ≡ answer_frame node number answer }
{
    let Answer {
        kind,
        reply,
        row: _,
    } = answer;
    Frame::reply(number, Party::Node(node), kind, reply).unwrap()
}

impl Node {
    ghost use Rattle.csi_types.specs.Public.Call.{is_party_of};
    ghost use Rattle.csi_types.specs.Public.Lent.{HasFitTexts};
    ghost use Rattle.csi_types.specs.Model.Replies.{call_frame};
    ghost use Rattle.csi_node.specs.Model.Fenced.{fenced};
    ghost use Rattle.csi_node.specs.Model.Record.{parts, Shows};
    ghost use Rattle.csi_node.specs.Public.Raised.{raised};
    ghost use Rattle.csi_node.specs.Public.Record.{is_call_for, AreSoundRows, IsCurrent};
    ghost use Rattle.csi_node.specs.Model.OneRow.{node_row_shown};
    ghost use Rattle.csi_node.specs.Public.OneRow.{state_shown, IsSoundRow};
    ghost use Rattle.csi_node.specs.Private.Step.{AnswersCall};
    ghost use Rattle.csi_node.specs.Public.Changes.{row_by_id, ChangesAt};
    ghost use Rattle.std.specs.List.{flat_map};
    ghost use Rattle.csi_node.specs.Public.Views.{staged_shown, published_shown, ListsStaged, ListsPublished};
    ghost use Rattle.csi_node.specs.Model.Shown.{row_in, answered_of_row};
    ghost use Rattle.csi_node.specs.Model.State.{NodeState, joined_node, row_with_id};

    /// A node of this id that joins with this session: it has answered nothing and has no volume, and calls of earlier sessions are stale
    /// to it. The session is the word of its joining: the orchestrator's present one, at least the one that began when the id
    /// was lost. 0 is right only for an id that was never in an orchestrator's list. This profile's own. It takes no memory.
    pub fn new(alloc: Global, id: NodeId, session: u64) -> Node
        ensures id { result.id ≡ id }
        ensures session { result.session ≡ session }
        ensures rows { result.rows ≡ [] }
        ensures joined { Shows result (joined_node session) }
    {
        let rows = Rows::new(alloc, session, Vec::new(alloc), NodeTable { id });
        Node { rows }
    }

    /// The node's id. It takes no memory.
    pub fn id(&self) -> &NodeId
        ensures { result.now ≡ self.now.id }
    {
        &self.rows.table.id
    }

    // The rows, by rising id.
    #[inline]
    fn rows(&self) -> &[NodeRow]
        ensures value { result.now ≡ self.now.rows }
        ensures rules { AreSoundRows (parts self.now.rows) }
        ensures current { IsCurrent self.now.session (parts self.now.rows) }
    {
        self.rows.rows.as_slice()
    }

    /// This session begins, where it is later than the greatest that the node heard of, as if a call had begun it: every call of an earlier
    /// session is stale from then on, and the rows of volumes that aren't staged are forgotten (this profile's own). It takes no memory.
    pub fn raise(&mut self, session: u64)
        ensures state { (state : NodeState) → Shows self.old state → Shows self.new (raised session state) }
        // its rows are what a call of the session leaves that changes and makes none
        ensures changes { ChangesAt None (record { session = session; call = 0 }) self.old self.new }
        ensures current { IsCurrent self.new.session (parts self.new.rows) }
        ensures id { self.new.id ≡ self.old.id }
    {
        self.rows.raise(session);
    }

    // Answers a call to a node, behind the fence. An `Err` changes nothing.
    fn answer_own(&mut self, number: Number, call: &CallRef<'_>) -> Result<Answer, CoreFault>
        requires kind { is_node_kind (kind_of (lent_call call.now)) ≡ true }
        ensures ok { IfOk result (AnswersCall number (lent_call call.now) self.old self.new) }
        ensures allowed { IfOk result (λ answer. IsAllowed (OfNode self.old.id) (ReplyBody answer.kind answer.reply)) }
        ensures current { IsCurrent self.new.session (parts self.new.rows) }
        ensures id { self.new.id ≡ self.old.id }
        ensures err { OnErr result (parts self.new.rows ≡ parts self.old.rows) }
        ensures err_session { OnErr result (self.new.session ≡ self.old.session) }
    {
        self.rows.answer(number, call)
    }

    /// Answers a frame by the fence and the table (CSI's spec.md, "NodeStageVolume" to "NodeUnpublishVolume"), or
    /// gives nothing for a reply and for another plugin's frame, which change nothing and take no memory. A call of an earlier
    /// session than the greatest that came is refused as stale. One of a later session begins it: the rows of volumes that aren't
    /// staged are forgotten, and then it is answered. An `Err`, an allocation that was refused, leaves the node as it was, its
    /// session too.
    pub fn step(&mut self, frame: &Frame) -> Result<Option<Frame>, CoreFault>
        // What is answered, and the new state, are the definition's.
        ensures reply { (state : NodeState) → Shows self.old state →
            IfOk result (λ reply. reply ≡ (fenced self.old.id state frame.now).reply) }
        ensures state { (state : NodeState) → Shows self.old state →
            OnOk result (Shows self.new (fenced self.old.id state frame.now).state) }
        ensures id { self.new.id ≡ self.old.id }
        ensures err { (state : NodeState) → Shows self.old state → OnErr result (Shows self.new state) }
        ensures err_rows { OnErr result (parts self.new.rows ≡ parts self.old.rows) }
        ensures err_session { OnErr result (self.new.session ≡ self.old.session) }
        ensures current { IsCurrent self.new.session (parts self.new.rows) }
        // What is not for the node.
        ensures silent { is_call_for self.old.id frame.now.party frame.now.body ≡ false → result ≡ Ok None }
        ensures untouched { is_call_for self.old.id frame.now.party frame.now.body ≡ false → self.new ≡ self.old }
    {
        self.assert_rules();
        let Body::Call(call) = frame.body() else {
            return Ok(None);
        };
        let Party::Node(id) = frame.party() else {
            return Ok(None);
        };
        if !is_same_node(id, &self.rows.table.id) {
            return Ok(None);
        }
        let number = frame.number();
        let node = self.rows.table.id.clone()?;
        let answer = self.answer_own(number, &call.lend())?;
        Ok(Some(frame_of(node, number, answer)))
    }

    /// Answers a call as `step` answers a frame of it to this node, by the kind and the reply that the frame of the answer
    /// has: those that were kept, where the call comes again; and tells where the row is that the call changed or made. The
    /// controller's call, and a call with a text outside its limits, which no frame has, get no answer, change nothing, so that
    /// they begin no session, and take no memory. An `Err`, an allocation that was refused, leaves the node as it was.
    pub fn answer(
        &mut self,
        number: Number,
        call: &CallRef<'_>,
    ) -> Result<Option<Answer>, CoreFault>
        // What a frame of the call gets.
        ensures reply { (state : NodeState) → Shows self.old state → IsAllowed (OfNode self.old.id) (CallBody (lent_call call.now)) →
            HasFitTexts (lent_call call.now) →
            IfOk result (λ answer. option_map (answer_frame self.old.id number) answer ≡
            (fenced self.old.id state (call_frame number (OfNode self.old.id) (lent_call call.now))).reply) }
        ensures state { (state : NodeState) → Shows self.old state → IsAllowed (OfNode self.old.id) (CallBody (lent_call call.now)) →
            HasFitTexts (lent_call call.now) →
            OnOk result (Shows self.new (fenced self.old.id state (call_frame number (OfNode self.old.id) (lent_call call.now))).state) }
        ensures allowed { IfOk result (λ answer. IfSome answer (λ own. IsAllowed (OfNode self.old.id) (ReplyBody own.kind own.reply))) }
        ensures id { self.new.id ≡ self.old.id }
        ensures err { (state : NodeState) → Shows self.old state → OnErr result (Shows self.new state) }
        // What becomes of the rows.
        ensures changes { IfOk result (λ answer. IfSome answer (λ own. ChangesAt own.row number self.old self.new)) }
        ensures silent { result ≡ Ok None → self.new ≡ self.old }
        ensures err_rows { OnErr result (parts self.new.rows ≡ parts self.old.rows) }
        ensures err_session { OnErr result (self.new.session ≡ self.old.session) }
        ensures current { IsCurrent self.new.session (parts self.new.rows) }
        // What no frame has, and what is not for a node.
        ensures unfit { (HasFitTexts (lent_call call.now) → ⊥) → (result ≡ Ok None) × (self.new ≡ self.old) }
        ensures others { is_party_of (kind_of (lent_call call.now)) (OfNode self.old.id) ≡ false → (result ≡ Ok None) × (self.new ≡ self.old) }
    {
        self.assert_rules();
        if !is_node_call(call) || !call.is_within_limits() {
            return Ok(None);
        }
        match self.answer_own(number, call) {
            Ok(answer) => Ok(Some(answer)),
            Err(fault) => Err(fault),
        }
    }

    /// The node's record as a value. The node stays as it is. An `Err` is an allocation that was refused.
    pub fn record(&self) -> Result<NodeRecord, CoreFault>
        ensures id { IfOk result (λ copy. copy.id ≡ self.now.id) }
        ensures session { IfOk result (λ copy. copy.session ≡ self.now.session) }
        ensures rows { IfOk result (λ copy. parts copy.rows ≡ parts self.now.rows) }
        ensures shows { (state : NodeState) → Shows self.now state → IfOk result (λ copy. Shows copy state) }
    {
        let id = self.id().clone()?;
        let rows = Vec::from_clones(self.rows.alloc, self.rows())?;
        Ok(NodeRecord {
            id,
            session: self.session(),
            rows,
        })
    }

    /// The node that has this record: it shows what the record shows. It takes no memory.
    pub fn from_record(alloc: Global, kept: NodeRecord) -> Result<Node, CoreFault>
        ensures value { result ≡ Ok kept }
        ensures current { IfOk result (λ made. IsCurrent made.session (parts made.rows)) }
    {
        let rows = kept.into_rows(alloc);
        Ok(Node { rows })
    }

    /// The row of a volume as the record has it, if it has one. The node stays as it is. An `Err` is an allocation
    /// that was refused; without a row none is asked for.
    pub fn row(&self, id: VolumeId) -> Result<Option<NodeRow>, CoreFault>
        ensures row { IfOk result (λ row. option_map node_row_shown row ≡ option_map node_row_shown (row_in id self.now.rows)) }
        ensures succeeds { row_in id self.now.rows ≡ None → IsOk result }
        ensures shows { (state : NodeState) → Shows self.now state →
            IfOk result (λ row. option_map answered_of_row row ≡ row_with_id id state) }
    {
        match self.row_with_id(id) {
            Some(row) => Ok(Some(row.clone()?)),
            None => Ok(None),
        }
    }

    /// The row of a volume, if the node has one, as it is kept: it keeps the rules of a row. It takes no memory.
    pub fn row_with_id(&self, id: VolumeId) -> Option<&NodeRow>
        ensures row { option_map node_row_shown (option_copied result) ≡ row_by_id id (parts self.now.rows) }
        ensures rules { IfSome (option_copied result) (λ row. IsSoundRow (node_row_shown row)) }
    {
        let rows = self.rows();
        match place_of(rows, id) {
            Some(place) => Some(&rows[place]),
            None => None,
        }
    }

    /// The row at this place, by rising id, as it is kept: it keeps the rules of a row. It takes no memory, and is no search.
    pub fn row_at(&self, place: usize) -> Option<&NodeRow>
        ensures row { option_map node_row_shown (option_copied result) ≡ slice_get (parts self.now.rows) place }
        ensures rules { IfSome (option_copied result) (λ row. IsSoundRow (node_row_shown row)) }
    {
        self.rows().get(place)
    }

    /// The greatest session that it heard of, at its joining or by a call, 0 before any. It takes no memory.
    pub fn session(&self) -> u64
        ensures { result ≡ self.now.session }
    {
        self.rows.session
    }

    /// How many rows there are: at most as many as are of staged volumes and as have their last call in the greatest session that
    /// came. It takes no memory.
    pub fn row_count(&self) -> usize
        ensures count { result ≡ length self.now.rows }
        ensures few { result ≤ count_by (λ row. is_some row.staged) (parts self.now.rows) + count_by
            (λ row. row.kept.number.session == self.now.session) (parts self.now.rows) }
    {
        self.rows().len()
    }

    /// The ids of the rows of volumes that aren't staged, by rising id: these are forgotten where a call begins a session, the
    /// call's own too, which is then made anew. The node stays as it is. Where there is none it takes no memory. An `Err` is an
    /// allocation that was refused.
    pub fn forgettable(&self) -> Result<Vec<VolumeId>, CoreFault>
        ensures ids { IfOk result (λ list. list.items ≡ map (λ row. row.id) (filter (λ row. is_none row.staged) (parts self.now.rows))) }
        ensures none { filter (λ row. is_none row.staged) (parts self.now.rows) ≡ [] → IsOk result }
    {
        forgettable_ids(self.rows.alloc, self.rows())
    }

    /// What is staged, each volume once, by rising id. The node stays as it is. An `Err` is an allocation that was
    /// refused.
    pub fn staged(&self) -> Result<Vec<Staged>, CoreFault>
        ensures list { IfOk result (λ list. map staged_shown list.items ≡ flat_map (λ row. (state_shown (node_row_shown row)).staged) self.now.rows) }
        ensures shows { (state : NodeState) → Shows self.now state →
            IfOk result (λ list. ListsStaged (map staged_shown list.items) state) }
    {
        staged_in(self.rows.alloc, self.rows())
    }

    /// What is published, each target once, by rising id and then in the order in which it was published. The node
    /// stays as it is. An `Err` is an allocation that was refused.
    pub fn published(&self) -> Result<Vec<Published>, CoreFault>
        ensures list { IfOk result (λ list. map published_shown list.items ≡ flat_map (λ row. (state_shown (node_row_shown row)).published) self.now.rows) }
        ensures shows { (state : NodeState) → Shows self.now state →
            IfOk result (λ list. ListsPublished (map published_shown list.items) state) }
    {
        published_in(self.rows.alloc, self.rows())
    }

    // Nothing that runs: the rules of the rows hold.
    pub(crate) fn assert_rules(&self)
        ensures rules { AreSoundRows (parts self.now.rows) }
        ensures current { IsCurrent self.now.session (parts self.now.rows) }
    {
        let _rows = self.rows();
    }
}
