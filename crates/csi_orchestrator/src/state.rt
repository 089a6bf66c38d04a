//! The state of an orchestrator: its parts, what its rows know of a thing, and how a session begins.
ghost use Rattle.std.specs.Prelude.{◌≡◌, ◌+◌, ◌^◌, IfErr, Some, None, map, option_map};
ghost use Rattle.std.specs.List.{AllByRecursion};
ghost use Rattle.std.specs.Option.{option_copied};
ghost use Rattle.csi_orchestrator.specs.Model.Thing.{name_in};
ghost use Rattle.csi_orchestrator.specs.Public.Shown.{row_shown, node_entry_shown, closed};
ghost use Rattle.csi_orchestrator.specs.Model.Shown.{row_of, node_entry_of, mark_in, mark_of, publication_known};
ghost use Rattle.csi_orchestrator.specs.Model.Moves.{Restarts, Loses, Restarted, GivenUp};
ghost use Rattle.csi_orchestrator.specs.Private.RowMoves.{IsMoveOf};
ghost use Rattle.csi_orchestrator.specs.Public.Beginning.{remembered, restart_refusal, loss_refusal};
ghost use Rattle.csi_orchestrator.specs.Public.Catalog.{rows_of, IsIndexed};
ghost use Rattle.csi_orchestrator.specs.Public.CoreParts.{orchestrator_parts_shown, IsFiled};

use crate::beginning::{session_after_loss, session_with};
use crate::catalog::Catalog;
use crate::entries::{node_index, target_index};
use crate::fault::OrchFault;
use crate::row::{NodeEntry, Row};
use crate::thing::{Known, Thing};
use csi_types::{NodeId, Number, Target};
use std::alloc::Global;

/// An orchestrator's parts.
#[derive(Drop)]
pub(crate) struct OrchestratorCore {
    pub alloc: Global,
    pub nodes: Vec<NodeId>,
    /// The number of the last call, or of call 0 of a session without one.
    pub last: Number,
    pub catalog: Catalog,
}

// What the row has of this node, as it is shown.
pub(crate) fn node_entry_at<'a>(row: &'a Row, node: &NodeId) -> Option<&'a NodeEntry>
    ensures { option_map node_entry_shown (option_copied result) ≡ node_entry_of (row_shown row.now) node.now }
{
    match node_index(&row.node_entries, node) {
        Some(index) => Some(&row.node_entries[index]),
        None => None,
    }
}

// What is known of the volume's publication at the target.
pub(crate) fn published_at(entry: &NodeEntry, target: &Target) -> Known
    ensures { result ≡ publication_known target.now (node_entry_shown entry.now) }
{
    match target_index(&entry.target_entries, target) {
        Some(index) => entry.target_entries[index].published,
        None => Known::No,
    }
}

// What the row knows of a thing of its name.
fn known_at(row: &Row, thing: &Thing) -> Known
    ensures { result ≡ mark_of thing.now (row_shown row.now) }
{
    match thing {
        Thing::Exists { .. } => row.exists,
        Thing::Attached { node, .. } => match node_entry_at(row, node) {
            Some(entry) => entry.attached,
            None => Known::No,
        },
        Thing::Staged { node, .. } => match node_entry_at(row, node) {
            Some(entry) => entry.staged,
            None => Known::No,
        },
        Thing::Published { node, target, .. } => match node_entry_at(row, node) {
            Some(entry) => published_at(entry, target),
            None => Known::No,
        },
    }
}

/// What these rows know of a thing.
pub(crate) fn known_in(catalog: &Catalog, thing: &Thing) -> Known
    requires { IsIndexed catalog.now }
    ensures { result ≡ mark_in (mark_of thing.now) (row_of (map row_shown (rows_of catalog.now)) (name_in thing.now)) }
{
    match catalog.index_of(thing.name()) {
        Some(index) => known_at(&catalog.rows[index], thing),
        None => Known::No,
    }
}

impl OrchestratorCore {
    // Begins a session: every open call is given up, and rows are forgotten.
    fn begin(&mut self, session: u64)
        requires { IsFiled self.old }
        ensures last { self.new.last ≡ record { session = session; call = 0 } }
        ensures rows { map row_shown (rows_of self.new.catalog) ≡ remembered (map closed (map row_shown (rows_of self.old.catalog))) }
        ensures closed { AllByRecursion (λ row. row.open_call ≡ None) (rows_of self.new.catalog) }
        ensures nodes { self.new.nodes ≡ self.old.nodes }
        ensures filed { IsFiled self.new }
    {
        self.last = Number { session, call: 0 };
        self.catalog.close_all();
        self.catalog.forget();
    }

    /// Starts the next session with these nodes, or changes nothing where it is refused.
    pub fn restart(&mut self, nodes: Vec<NodeId>) -> Result<(), OrchFault>
        requires { IsFiled self.old }
        ensures told { IsMoveOf (orchestrator_parts_shown self.old) (orchestrator_parts_shown self.new) (Restarts nodes.items) (λ done. Restarted) result }
        ensures exact { IfErr result (λ fault. restart_refusal self.old.last.session self.old.nodes.items nodes.items (map row_shown (rows_of self.old.catalog)) ≡ Some fault) }
        ensures filed { IsFiled self.new }
    {
        match session_with(
            self.last.session,
            self.nodes.as_slice(),
            nodes.as_slice(),
            self.catalog.rows(),
        ) {
            Ok(session) => {
                self.nodes = nodes;
                self.begin(session);
                Ok(())
            }
            Err(fault) => {
                drop(nodes);
                Err(fault)
            }
        }
    }

    /// Starts the next session without a node that is lost, or changes nothing where there is none.
    pub fn lose(&mut self, node: &NodeId) -> Result<(), OrchFault>
        requires { IsFiled self.old }
        ensures told { IsMoveOf (orchestrator_parts_shown self.old) (orchestrator_parts_shown self.new) (Loses node.now) (λ done. GivenUp) result }
        ensures exact { IfErr result (λ fault. loss_refusal self.old.last.session ≡ Some fault) }
        ensures spent { IfErr result (λ fault. (fault ≡ OrchFault.NumbersSpent) × (self.old.last.session + 1 ≡ 2 ^ 64)) }
        ensures filed { IsFiled self.new }
    {
        let session = session_after_loss(self.last.session)?;
        self.nodes.retain(|other| *other != *node);
        self.begin(session);
        self.catalog.lose(node);
        Ok(())
    }
}
