//! An orchestrator's record.
ghost use Rattle.std.specs.Prelude.{◌≡◌, map, IfOk, IfErr, OnOk};
ghost use Rattle.csi_orchestrator.specs.declared.fault.OrchRecordFault.{OrchRecordFault as Fault};

use crate::catalog::Catalog;
use crate::fault::OrchRecordFault;
use crate::judged_nodes::are_nodes_fit;
use crate::judged_rows::first_refused;
use crate::row::Row;
use crate::state::OrchestratorCore;
use csi_types::{NoMemory, NodeId, Number};
use std::alloc::Global;
use std::marker::Model;

/// All that an orchestrator has to keep (this profile's own): its nodes, the session of its last call, and its rows, once its open calls
/// were given up. It is what `Orchestrator::into_record` gives, or is made of rows by `OrchestratorRecord::try_new`.
#[derive(Drop)]
pub struct OrchestratorRecord {
    nodes: Vec<NodeId>,
    session: u64,
    catalog: Catalog,
}

impl Model for OrchestratorRecord {
    ghost use Rattle.std.specs.Prelude.{map};
    ghost use Rattle.csi_orchestrator.specs.Public.Catalog.{rows_of, IsIndexed, AreUpTo};
    ghost use Rattle.csi_orchestrator.specs.Public.Record.{RecordParts, AreNodesFit};
    ghost use Rattle.csi_orchestrator.specs.Public.Restored.{AreRestorable};
    ghost use Rattle.csi_orchestrator.specs.Public.Shown.{row_shown};

    ghost Value = { RecordParts };

    ghost view = { λ record_. record { nodes = record_.nodes.items; session = record_.session; rows = map row_shown (rows_of record_.catalog) } };

    ghost invariant = { λ record_. AreNodesFit record_.nodes.items ×
        AreRestorable record_.nodes.items (map row_shown (rows_of record_.catalog)) × IsIndexed record_.catalog × AreUpTo 0 record_.catalog };
}

impl OrchestratorRecord {
    ghost use Rattle.std.specs.List.{AllByRecursion};
    ghost use Rattle.csi_orchestrator.specs.Public.Bounds.{IsRowFew};
    ghost use Rattle.csi_orchestrator.specs.Public.Beginning.{remembered};
    ghost use Rattle.csi_orchestrator.specs.Public.Catalog.{rows_of};
    ghost use Rattle.csi_orchestrator.specs.Public.CoreParts.{orchestrator_parts_shown, IsFiled};
    ghost use Rattle.csi_orchestrator.specs.Public.Record.{AreNodesFit, IsRecordRefusal};
    ghost use Rattle.csi_orchestrator.specs.Public.Raised.{raised_record};
    ghost use Rattle.csi_orchestrator.specs.Public.Restored.{AreRestorable};
    ghost use Rattle.csi_orchestrator.specs.Public.Shown.{row_shown, closed};
    ghost use Rattle.csi_orchestrator.specs.Public.Sound.{AreSoundParts};

    /// The record of these nodes, this session and these rows (this profile's own). It is refused with `BadNodes` for more than 64 nodes
    /// or a node that stands there twice. It is refused with `BadRow` at the first row that no record has there: it has an open call; its
    /// tries, its id, what is known of the volume, what is wanted of it, and its entries don't go together; it has more than 64 entries; an
    /// entry with targets is of a node that isn't listed; an entry is in a capability that the row lacks, or has more targets than it may;
    /// two entries are of one node, or the volume can't be held by both; its name stands in an earlier row; or 4,096 rows stand before it.
    /// It is refused with `NoMemory` where an allocation was: it takes memory for the map of names.
    pub fn try_new(
        alloc: Global,
        nodes: Vec<NodeId>,
        session: u64,
        rows: Vec<Row>,
    ) -> Result<OrchestratorRecord, OrchRecordFault>
        ensures value { IfOk result (λ made. made ≡ record { nodes = nodes.items; session = session; rows = map row_shown rows.items }) }
        ensures nodes { OnOk result (AreNodesFit nodes.items) }
        ensures rows { OnOk result (AreRestorable nodes.items (map row_shown rows.items)) }
        ensures refused { IfErr result (IsRecordRefusal nodes.items (map row_shown rows.items)) }
        ensures accepted { AreNodesFit nodes.items → AreRestorable nodes.items (map row_shown rows.items) → IfErr result (λ fault. fault ≡ Fault.NoMemory) }
    {
        if !are_nodes_fit(nodes.as_slice()) {
            return Err(OrchRecordFault::BadNodes);
        }
        match first_refused(alloc, nodes.as_slice(), rows.as_slice()) {
            Ok(None) => match Catalog::of_rows(alloc, rows) {
                Ok(catalog) => Ok(OrchestratorRecord {
                    nodes,
                    session,
                    catalog,
                }),
                Err(_) => Err(OrchRecordFault::NoMemory),
            },
            Ok(Some(place)) => Err(OrchRecordFault::BadRow(place)),
            Err(NoMemory) => Err(OrchRecordFault::NoMemory),
        }
    }

    /// The nodes.
    pub fn nodes(&self) -> &[NodeId]
        ensures value { result.now ≡ self.now.nodes }
        ensures fit { AreNodesFit self.now.nodes }
    {
        self.nodes.as_slice()
    }

    /// The session of the last call.
    pub fn session(&self) -> u64
        ensures { result ≡ self.now.session }
    {
        self.session
    }

    /// The rows, in the order of the first creates. What has to be spelled of a row is bounded: at most 64 entries, each of at most 16
    /// targets, and tries up to 3.
    pub fn rows(&self) -> &[Row]
        ensures value { map row_shown result.now ≡ self.now.rows }
        ensures kept { AreRestorable self.now.nodes self.now.rows }
        ensures few { AllByRecursion IsRowFew result.now }
    {
        self.catalog.rows()
    }

    /// Raises its session to this one, where that is later: what is opened from it is in a later session still, and uses no number of one that
    /// this record doesn't know of. It takes no memory.
    pub fn raise(&mut self, session: u64)
        ensures { self.new ≡ raised_record session self.old }
    {
        if self.session < session {
            self.session = session;
        }
    }

    // What is opened from it, in this session and with these nodes.
    pub(crate) fn opened(self, alloc: Global, session: u64, nodes: Vec<NodeId>) -> OrchestratorCore
        ensures parts { orchestrator_parts_shown result ≡ record { nodes = nodes.items; last = record { session = session; call = 0 }; rows = remembered self.rows } }
        ensures filed { IsFiled result }
        ensures kept { AreRestorable self.nodes self.rows }
    {
        let OrchestratorRecord {
            nodes: old,
            session: _,
            mut catalog,
        } = self;
        drop(old);
        catalog.forget();
        OrchestratorCore {
            alloc,
            nodes,
            last: Number { session, call: 0 },
            catalog,
        }
    }

    // The record of what this core keeps, once its open calls are given up.
    pub(crate) fn of_core(core: OrchestratorCore) -> Result<OrchestratorRecord, OrchRecordFault>
        requires kept { AreSoundParts (orchestrator_parts_shown core) }
        requires filed { IsFiled core }
        ensures value { IfOk result (λ made. made ≡ record {
          nodes = core.nodes.items;
          session = core.last.session;
          rows = map closed (map row_shown (rows_of core.catalog));
        }) }
        ensures fit { OnOk result (AreNodesFit core.nodes.items) }
        ensures refused { IfErr result (λ fault. (fault ≡ Fault.BadNodes) × (AreNodesFit core.nodes.items → ⊥)) }
    {
        let OrchestratorCore {
            alloc: _,
            nodes,
            last,
            mut catalog,
        } = core;
        if !are_nodes_fit(nodes.as_slice()) {
            return Err(OrchRecordFault::BadNodes);
        }
        catalog.close_all();
        Ok(OrchestratorRecord {
            nodes,
            session: last.session,
            catalog,
        })
    }
}
